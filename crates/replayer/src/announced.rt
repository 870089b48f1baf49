//! A reset as its packet announces it.
ghost use Rattle.std.specs.Prelude.{◌≡◌};
ghost use Rattle.replayer.specs.Replays.{announced_in, is_same};

/// A reset as its packet announces it: by its number, its send time and the next number. Each line brings the same one.
#[derive(Clone, Copy, PartialEq, Eq, Debug)]
pub struct Announced {
    pub number: u32,
    pub time: u32,
    pub next: u32,
}

impl Announced {
    /// What a reset's packet of 20 bytes announces.
    pub fn read(packet: &[u8]) -> Option<Announced>
        ensures { result ≡ announced_in packet.now }
    {
        let [
            _,
            _,
            _,
            _,
            n0,
            n1,
            n2,
            n3,
            t0,
            t1,
            t2,
            t3,
            _,
            _,
            _,
            _,
            x0,
            x1,
            x2,
            x3,
        ] = packet
        else {
            return None;
        };
        Some(Announced {
            number: u32::from_be_bytes([*n0, *n1, *n2, *n3]),
            time: u32::from_be_bytes([*t0, *t1, *t2, *t3]),
            next: u32::from_be_bytes([*x0, *x1, *x2, *x3]),
        })
    }

    // Whether two resets are one that came twice.
    pub(crate) fn is_same(one: Option<Announced>, other: Option<Announced>) -> bool
        ensures { result ≡ is_same one other }
    {
        match (one, other) {
            (Some(a), Some(b)) => a.number == b.number && a.time == b.time && a.next == b.next,
            _ => false,
        }
    }
}
