//! The request for a retransmission, and the source id that it is sent by.
ghost use Rattle.std.specs.Prelude.{◌≡◌, ◌≤◌, true, ◌++◌, length, take, drop, replicate, is_ok, if◌then◌else◌, Ok, Err};
ghost use Rattle.std.specs.Result as results;
ghost use Rattle.wire.specs.declared.request.TheConstants.{LONGEST_SOURCE};
ghost use Rattle.wire.specs.declared.fault.RequestFault.TheVariants.{Source};
ghost use Rattle.wire.specs.Request.{source_right, request_head, request, request_answer, request_after, Requests};

use crate::fault::RequestFault;
use crate::reader::PRODUCT;

/// The bytes of a request.
pub const REQUEST: usize = 44;

/// The bytes of the longest source id.
const LONGEST_SOURCE: usize = 20;

/// Where the source id stands in a request.
const SOURCE: usize = 24;

/// Whether a source id has 1 to 20 nonzero bytes.
#[tactic(auto, using(crate::proofs::Requests::nonzero_any))]
fn is_source(source: &[u8]) -> bool
    ensures { result ≡ source_right source.now }
{
    (1..=LONGEST_SOURCE).contains(&source.len()) && !source.contains(&0)
}

// Kept as an array with its length: a source id is copied with what holds it, and an `ArrayVec` can't be copied.
/// A source id: 1 to 20 nonzero bytes, which name the sender of a request.
#[derive(Clone, Copy)]
pub struct SourceId {
    bytes: [u8; LONGEST_SOURCE],
    len: usize,
    ghost room: { length bytes ≡ LONGEST_SOURCE },
    ghost fits: { len ≤ LONGEST_SOURCE },
    ghost right: { source_right (take len bytes) ≡ true },
}

// Writes bytes in front of a buffer that has room for them.
fn write_front(buffer: &mut [u8], bytes: &[u8])
    requires { length bytes.now ≤ length buffer.old }
    ensures { buffer.new ≡ bytes.now ++ drop (length bytes.now) buffer.old }
{
    buffer[0..bytes.len()].copy_from_slice(bytes);
}

impl TryFrom<&[u8]> for SourceId {
    type Error = RequestFault;

    ghost try_from_gives = { λ source r. results.result_map_both (λ s. take s.len s.bytes) (λ e. e) r ≡ (if source_right source.now then Ok source.now else Err Source) };

    fn try_from(source: &[u8]) -> Result<SourceId, RequestFault> {
        if !is_source(source) {
            return Err(RequestFault::Source);
        }
        let mut bytes = [0; LONGEST_SOURCE];
        write_front(&mut bytes, source);
        Ok(SourceId {
            bytes,
            len: source.len(),
        })
    }
}

impl SourceId {
    ghost use Rattle.wire.specs.Sources.{source_bytes};

    /// Its bytes.
    pub fn bytes(&self) -> &[u8]
        ensures bytes { result.now ≡ source_bytes self.now }
        ensures right { source_right result.now ≡ true }
    {
        &self.bytes[0..self.len]
    }

    /// The request for the numbers from begin to end, sent at a time in milliseconds since midnight.
    pub fn request(&self, time: u32, begin: u32, end: u32) -> [u8; REQUEST]
        ensures bytes { result ≡ request time begin end (source_bytes self.now) }
        ensures fields { Requests result time begin end (source_bytes self.now) }
    {
        let mut message = unsigned_request(time, begin, end);
        message[SOURCE..SOURCE + self.len].copy_from_slice(self.bytes());
        message
    }
}

// Kept as three numbers: a struct of them would be taken apart at once, and `write_request` takes them one by one.
// What stands before the source id: MsgSize, type 20, number 0, time, product, flag 1, one entry, link flag 0, begin and end.
fn request_head(time: u32, begin: u32, end: u32) -> [u8; SOURCE]
    ensures { result ≡ request_head time begin end }
{
    let [t0, t1, t2, t3] = time.to_be_bytes();
    let [b0, b1, b2, b3] = begin.to_be_bytes();
    let [e0, e1, e2, e3] = end.to_be_bytes();
    [
        0, 42, 0, 20, 0, 0, 0, 0, t0, t1, t2, t3, PRODUCT, 1, 1, 0, b0, b1, b2, b3, e0, e1, e2, e3,
    ]
}

// A request whose source id is still to be written over the zeros at its end.
fn unsigned_request(time: u32, begin: u32, end: u32) -> [u8; REQUEST]
    ensures { result ≡ request_head time begin end ++ replicate LONGEST_SOURCE 0 }
{
    let mut message = [0; REQUEST];
    message[0..SOURCE].copy_from_slice(&request_head(time, begin, end));
    message
}

/// Writes the request for the numbers from begin to end in front of the buffer; bytes from 44 on stay.
pub fn write_request(
    buffer: &mut [u8],
    time: u32,
    begin: u32,
    end: u32,
    source: &[u8],
) -> Result<(), RequestFault>
    ensures answer { result ≡ request_answer buffer.old source.now }
    ensures after { buffer.new ≡ request_after buffer.old time begin end source.now }
    ensures fields { is_ok result ≡ true → Requests buffer.new time begin end source.now }
{
    if buffer.len() < REQUEST {
        return Err(RequestFault::Short);
    }
    let source = SourceId::try_from(source)?;
    write_front(buffer, &source.request(time, begin, end));
    Ok(())
}
