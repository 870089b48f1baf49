//! The memory of a shelf.
ghost use Rattle.std.specs.Prelude.{◌≡◌, true, is_ok, vec_len, MatchResult, Some};
ghost use Rattle.common.specs.Texts.{refused_text};
ghost use Rattle.chain_shelf.specs.Regions.{fit, SizesWorked};
ghost use Rattle.chain_shelf.specs.Faults.{region_fault_number};
ghost use Rattle.chain_shelf.specs.declared.region.RegionFault.TheVariants.{Size};

use common::Refusal;
use std::error::Error;
use std::fmt;

/// The bytes of a record.
pub const RECORD: usize = 64;

/// The fewest records of a region: those of the longest packet, and record 0.
const FEWEST_RECORDS: usize = 26;

/// The most records of a region.
pub const MOST_RECORDS: usize = 65535;

/// Why memory was not taken as a region; it is given back.
#[derive(Debug, Drop)]
pub enum RegionFault {
    /// It is not 26 to 65,535 whole records.
    Size(Vec<u8>),
}

impl RegionFault {
    /// The refusal's number.
    pub fn number(&self) -> u8
        ensures { result ≡ region_fault_number self.now }
    {
        match self {
            RegionFault::Size(_) => 21,
        }
    }
}

impl fmt::Display for RegionFault {
    ghost output = { λ fault. Some (refused_text (region_fault_number fault)) };

    fn fmt<W: fmt::Write>(&self, f: &mut fmt::Formatter<W>) -> fmt::Result {
        write!(f, "{}", Refusal(self.number()))
    }
}

impl Error for RegionFault {}

/// Memory of 26 to 65,535 whole records.
#[derive(Drop)]
pub struct Region {
    bytes: Vec<u8>,
    ghost fits: { fit (vec_len bytes) ≡ true },
}

/// A region, where the memory has the size of one; else the memory is given back.
impl TryFrom<Vec<u8>> for Region {
    type Error = RegionFault;

    ghost try_from_gives = { λ bytes r. (is_ok r ≡ fit (vec_len bytes)) × MatchResult r (λ region. region.bytes ≡ bytes) (λ e. e ≡ Size bytes) };

    fn try_from(bytes: Vec<u8>) -> Result<Region, RegionFault> {
        let size = bytes.len();
        if !size.is_multiple_of(RECORD)
            || !(FEWEST_RECORDS..=MOST_RECORDS).contains(&(size / RECORD))
        {
            return Err(RegionFault::Size(bytes));
        }
        Ok(Region { bytes })
    }
}

/// The memory, given back.
impl From<Region> for Vec<u8> {
    ghost from_gives = { λ region bytes. bytes ≡ region.bytes };

    fn from(region: Region) -> Vec<u8> {
        let Region { bytes } = region;
        bytes
    }
}

/// The sizes that a region may have, on both sides of each bound. A theorem.
pub fn region_sizes()
    ensures { SizesWorked }
{}
