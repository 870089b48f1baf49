//! The reader: what a packet of 16 to 1,500 bytes says, or why it is refused.
ghost use Rattle.std.specs.Prelude.{◌≡◌, ℕ, ◌+◌, ◌-◌, ◌%◌, ◌*◌, ◌^◌, ◌<◌, ◌≤◌, Bool, List, length, slice_index, MatchOption};
ghost use Rattle.std.specs.Option.{option_map};
ghost use Rattle.std.proofs.Common.{rules};
ghost use Rattle.wire.specs.Bytes.{first};
ghost use Rattle.wire.specs.Reading.{Msg, side, full, delta, model, told, told_message, told_header, header_in, Fielded, kind_from, allowed, wrong_in_price_point, wrong_in_delta_point, wrong_in, reset_in, unavailable_in, mapping_in, update_in, body_in, reading};
ghost use Rattle.wire.specs.Laws.{Judged};

use crate::fault::ReadFault;
use crate::message::{Message, Packet};
use crate::point::{DeltaPoint, PricePoint, Reason};
use crate::points::Point;
use common::is_length;

const HEADER: usize = 16;

pub(crate) const PRODUCT: u8 = 115;

const LARGEST_SCALE: u8 = 9;

// Lengths and offsets count from the packet's start; the body begins behind the header.
const MAPPING: usize = 30;

const INDEX: usize = 18;

// The types that a channel carries.
#[derive(Clone, Copy)]
enum Kind {
    Reset,
    Unavailable,
    Mapping,
    Full,
    Delta,
}

impl TryFrom<u16> for Kind {
    type Error = ReadFault;

    ghost try_from_gives = { λ code r. r ≡ kind_from code };

    fn try_from(code: u16) -> Result<Kind, ReadFault> {
        match code {
            1 => Ok(Kind::Reset),
            5 => Ok(Kind::Unavailable),
            35 => Ok(Kind::Mapping),
            230 => Ok(Kind::Full),
            231 => Ok(Kind::Delta),
            _ => Err(ReadFault::Unknown),
        }
    }
}

impl Kind {
    // Whether the type may have this flag. Kept as numbers, as a packet's flag is.
    fn allows(self, flag: u8) -> bool
        ensures { result ≡ allowed self flag }
    {
        match self {
            Kind::Full => matches!(flag, 1 | 2 | 5 | 6),
            _ => matches!(flag, 1 | 2),
        }
    }
}

// Whether a byte is the letter of a side.
// Kept as a product: which letter it is cannot be foretold, and a branch at each letter, as in `Side::try_from`, is guessed wrong half of the time.
fn is_side(letter: u8) -> bool
    ensures { result ≡ side letter }
{
    u32::from(letter.wrapping_sub(b'B')) * u32::from(letter.wrapping_sub(b'S')) == 0
}

// What the reader knows of an update by its kind of point.
trait Update: Point {
    // The offset of the scale, the bytes before the first point, and the fewest bytes that a packet may have.
    const SCALE: usize;

    const FIXED: usize;

    const SHORTEST: usize;

    ghost SCALE: { ℕ };

    ghost FIXED: { ℕ };

    ghost SHORTEST: { ℕ };

    // Whether a byte is wrong at an offset of a point.
    ghost wrong: { ℕ → ℕ → Bool };

    // The message of an index, a scale and the points.
    ghost said: { ℕ → ℕ → List ℕ → Msg };

    // The offset of a point's first wrong byte.
    fn wrong_byte(point: &[u8]) -> Option<usize>
        requires { length point.now ≡ Self.BYTES }
        ensures { result ≡ first (λ k. wrong k (slice_index point.now k)) Self.BYTES };

    fn message<'a>(index: u16, scale: u8, points: &'a [u8]) -> Message<'a>
        ensures { model result ≡ said index scale points.now };

    ghost laid: { (16 ≤ SCALE) × (SCALE < FIXED) × (20 ≤ FIXED) × (FIXED ≤ SHORTEST) };
}

impl Update for PricePoint {
    const SCALE: usize = 42;
    // The exchange's table has two bytes more before the first point: docs/DECISIONS.md.
    const FIXED: usize = 46;

    const SHORTEST: usize = 46;

    ghost SCALE = { 42 };

    ghost FIXED = { 46 };

    ghost SHORTEST = { 46 };

    ghost wrong = { wrong_in_price_point };

    ghost said = { full };

    #[tactic(auto, unfolding(crate::specs::Bytes::first))]
    fn wrong_byte(point: &[u8]) -> Option<usize> {
        (!is_side(point[10])).then_some(10)
    }

    fn message<'a>(index: u16, scale: u8, points: &'a [u8]) -> Message<'a> {
        Message::Full {
            index,
            scale,
            points,
        }
    }

    ghost laid = { Prim.search rules };
}

impl Update for DeltaPoint {
    const SCALE: usize = 33;

    const FIXED: usize = 34;
    // One point at least.
    const SHORTEST: usize = 62;

    ghost SCALE = { 33 };

    ghost FIXED = { 34 };

    ghost SHORTEST = { 62 };

    ghost wrong = { wrong_in_delta_point };

    ghost said = { delta };

    #[tactic(auto, unfolding(crate::specs::Bytes::first))]
    fn wrong_byte(point: &[u8]) -> Option<usize> {
        if !is_side(point[14]) {
            Some(14)
        } else {
            Reason::try_from(point[15]).is_err().then_some(15)
        }
    }

    fn message<'a>(index: u16, scale: u8, points: &'a [u8]) -> Message<'a> {
        Message::Delta {
            index,
            scale,
            points,
        }
    }

    ghost laid = { Prim.search rules };
}

// The offset of a point's first wrong byte from the first point on, by the point's index.
#[tactic(auto, using(crate::proofs::Firsts::first_within))]
fn wrong_at<P: Update>(i: usize, point: &[u8]) -> Option<usize>
    requires size { length point.now ≡ P.BYTES }
    requires fits { i * P.BYTES + P.BYTES < 2 ^ 64 }
    ensures { result ≡ option_map (λ k. i * P.BYTES + k) (first (λ k. P.wrong k (slice_index point.now k)) P.BYTES) }
{
    Some(i * P::BYTES + P::wrong_byte(point)?)
}

// The first byte of the points that is wrong.
fn first_wrong<P: Update>(points: &[u8]) -> Option<usize>
    requires { length points.now % P.BYTES ≡ 0 }
    ensures { result ≡ first (wrong_in P.BYTES P.wrong points.now) (length points.now) }
{
    points
        .chunks_exact(P::BYTES)
        .enumerate()
        .find_map(|(i, point)| wrong_at::<P>(i, point))
}

fn read_reset<'a>(body: &'a [u8]) -> Result<Message<'a>, ReadFault>
    ensures { told_message result ≡ reset_in body.now }
{
    let [n0, n1, n2, n3] = body else {
        return Err(ReadFault::Body { offset: 0 });
    };
    let next = u32::from_be_bytes([*n0, *n1, *n2, *n3]);
    if next == 0 {
        return Err(ReadFault::Body { offset: HEADER });
    }
    Ok(Message::Reset { next })
}

fn read_unavailable<'a>(body: &'a [u8]) -> Result<Message<'a>, ReadFault>
    ensures { told_message result ≡ unavailable_in body.now }
{
    let [b0, b1, b2, b3, e0, e1, e2, e3] = body else {
        return Err(ReadFault::Body { offset: 0 });
    };
    let begin = u32::from_be_bytes([*b0, *b1, *b2, *b3]);
    let end = u32::from_be_bytes([*e0, *e1, *e2, *e3]);
    if begin == 0 {
        return Err(ReadFault::Body { offset: HEADER });
    }
    if end < begin {
        return Err(ReadFault::Body { offset: HEADER + 4 });
    }
    Ok(Message::Unavailable { begin, end })
}

fn read_mapping<'a>(body: &'a [u8]) -> Result<Message<'a>, ReadFault>
    ensures { told_message result ≡ mapping_in body.now }
{
    if HEADER + body.len() != MAPPING {
        return Err(ReadFault::Body { offset: 0 });
    }
    Ok(Message::Mapping)
}

#[tactic(auto, using(crate::proofs::Firsts::first_within))]
fn read_update<'a, P: Update>(body: &'a [u8]) -> Result<Message<'a>, ReadFault>
    ensures { told_message result ≡ update_in P.BYTES P.SCALE P.FIXED P.SHORTEST P.wrong P.said body.now }
{
    let len = HEADER + body.len();
    if len < P::SHORTEST || (len - P::FIXED) % P::BYTES != 0 {
        return Err(ReadFault::Body { offset: 0 });
    }
    let scale = body[P::SCALE - HEADER];
    if scale > LARGEST_SCALE {
        return Err(ReadFault::Body { offset: P::SCALE });
    }
    let points = &body[P::FIXED - HEADER..];
    if let Some(at) = first_wrong::<P>(points) {
        return Err(ReadFault::Body {
            offset: P::FIXED + at,
        });
    }
    let index = u16::from_be_bytes([body[INDEX - HEADER], body[INDEX + 1 - HEADER]]);
    Ok(P::message(index, scale, points))
}

fn read_body<'a>(kind: Kind, body: &'a [u8]) -> Result<Message<'a>, ReadFault>
    ensures { told_message result ≡ body_in kind body.now }
{
    match kind {
        Kind::Reset => read_reset(body),
        Kind::Unavailable => read_unavailable(body),
        Kind::Mapping => read_mapping(body),
        Kind::Full => read_update::<PricePoint>(body),
        Kind::Delta => read_update::<DeltaPoint>(body),
    }
}

// A header that is right, and the body behind it.
#[derive(Clone, Copy)]
struct Header<'a> {
    kind: Kind,
    number: u32,
    flag: u8,
    link: u8,
    body: &'a [u8],
}

// The fields of a header that is not yet judged, and the body behind it.
#[derive(Clone, Copy)]
struct Fields<'a> {
    size: u16,
    code: u16,
    number: u32,
    product: u8,
    flag: u8,
    link: u8,
    body: &'a [u8],
}

// A packet taken apart; none where it is shorter than a header.
fn fields_of<'a>(packet: &'a [u8]) -> Option<Fields<'a>>
    ensures { MatchOption result (length packet.now < 16) (Fielded packet.now) }
{
    let [
        s0,
        s1,
        t0,
        t1,
        n0,
        n1,
        n2,
        n3,
        _,
        _,
        _,
        _,
        product,
        flag,
        _,
        link,
        body @ ..,
    ] = packet
    else {
        return None;
    };
    Some(Fields {
        size: u16::from_be_bytes([*s0, *s1]),
        code: u16::from_be_bytes([*t0, *t1]),
        number: u32::from_be_bytes([*n0, *n1, *n2, *n3]),
        product: *product,
        flag: *flag,
        link: *link,
        body,
    })
}

fn read_header<'a>(packet: &'a [u8]) -> Result<Header<'a>, ReadFault>
    ensures { told_header result ≡ header_in packet.now }
{
    let fields = fields_of(packet).ok_or(ReadFault::Length)?;
    if !is_length(packet.len()) {
        return Err(ReadFault::Length);
    }
    if fields.size as usize + 2 != packet.len() {
        return Err(ReadFault::Size);
    }
    if fields.product != PRODUCT {
        return Err(ReadFault::Product);
    }
    let kind = Kind::try_from(fields.code)?;
    if !kind.allows(fields.flag) {
        return Err(ReadFault::Flag);
    }
    Ok(Header {
        kind,
        number: fields.number,
        flag: fields.flag,
        link: fields.link,
        body: fields.body,
    })
}

/// What a packet says, or why it is refused.
pub fn read<'a>(packet: &'a [u8]) -> Result<Packet<'a>, ReadFault>
    ensures reads { told result ≡ reading packet.now }
    ensures judged { Judged packet.now (told result) }
{
    let header = read_header(packet)?;
    let message = read_body(header.kind, header.body)?;
    Ok(Packet {
        number: header.number,
        flag: header.flag,
        link: header.link,
        message,
    })
}
