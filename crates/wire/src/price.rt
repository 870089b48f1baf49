//! Prices in billionths.
ghost use Rattle.std.specs.Prelude.{◌≡◌, ℕ, ◌+◌, ◌-◌, ◌*◌, ◌^◌, ◌≤◌};
ghost use Rattle.wire.specs.Prices.{price};

// The powers of ten from 10^0 to 10^9.
// Kept as a table: it is the project's rule that a price takes one look-up, by nine less scale.
const POWERS: [u64; 10] = [
    1,
    10,
    100,
    1_000,
    10_000,
    100_000,
    1_000_000,
    10_000_000,
    100_000_000,
    1_000_000_000,
];

// 10 to the power of nine less scale.
fn power_of_ten(scale: u8) -> u64
    ensures { result ≡ 10 ^ (9 - scale) }
{
    POWERS[9u8.saturating_sub(scale) as usize]
}

/// A price in billionths: the numerator at that many decimals. A scale above 9, which no packet that is read has, counts as 9.
pub fn billionths(numerator: u32, scale: u8) -> u64
    ensures value { result ≡ price numerator scale }
    ensures rescaled { (k : ℕ) → scale + k ≤ 9 → price (numerator * 10 ^ k) (scale + k) ≡ result }
{
    numerator as u64 * power_of_ten(scale)
}
