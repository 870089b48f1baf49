//! Random choices from a fixed seed, for programs that run many cases.
#![tactic(auto)]

ghost use Rattle.std.specs.Prelude.{◌≡◌, ◌<◌, ◌%◌};
ghost use Rattle.random.specs.Sources.{seeded, following, chosen, after_choice};

/// A source of numbers that is the same in every run. The seed is made odd, since from 0 it would stay at 0.
#[derive(Clone, Copy)]
pub struct Random {
    state: u64,
}

impl Random {
    /// A source with this seed, made odd.
    #[tactic(auto, using(crate::proofs::Odd::odd_seed))]
    pub fn new(seed: u64) -> Random
        ensures odd { result.state % 2 ≡ 1 }
        ensures is { result.state ≡ seeded seed }
    {
        Random { state: seed | 1 }
    }

    fn next(&mut self) -> u64
        ensures is { result ≡ following self.old.state }
        ensures after { self.new.state ≡ following self.old.state }
    {
        let mut x = self.state;
        x ^= x << 13;
        x ^= x >> 7;
        x ^= x << 17;
        self.state = x;
        x
    }

    /// A number below `n`, or 0 where `n` is.
    // Kept as a number: a public function that can't fail may not begin to.
    pub fn below(&mut self, n: u32) -> u32
        ensures is { result ≡ chosen self.old.state n }
        ensures after { self.new.state ≡ after_choice self.old.state n }
        ensures below { 0 < n → result < n }
    {
        if n == 0 {
            0
        } else {
            (self.next() % u64::from(n)) as u32
        }
    }
}
