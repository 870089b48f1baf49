//! What a channel gives out for a gap.
ghost use Rattle.std.specs.Prelude.{◌≡◌};

/// The right to ask for the missing numbers of one gap, once. It can't be copied or let go, only settled.
pub struct Claim {
    pub(crate) channel: u8,
    pub(crate) serial: u16,
    pub(crate) begin: u32,
    pub(crate) end: u32,
}

impl Claim {
    /// The number of the channel that gave it.
    pub fn channel(&self) -> u8
        ensures { result ≡ self.now.channel }
    {
        self.channel
    }

    /// Its place among the channel's claims since the making, from 1.
    pub fn serial(&self) -> u16
        ensures { result ≡ self.now.serial }
    {
        self.serial
    }

    /// The first number of its range.
    pub fn begin(&self) -> u32
        ensures { result ≡ self.now.begin }
    {
        self.begin
    }

    /// The last number of its range.
    pub fn end(&self) -> u32
        ensures { result ≡ self.now.end }
    {
        self.end
    }
}
