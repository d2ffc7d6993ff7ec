//! Made numbers: the same ones in each run.

ghost use Rattle.std.specs.Prelude.{◌<◌};

/// Gives numbers one after the other, by a linear congruence modulo 2^64 (Knuth's MMIX).
#[derive(Drop)]
pub struct Made {
    state: u64,
}

impl Made {
    /// The numbers of a seed.
    pub fn of(seed: u64) -> Made {
        Made { state: seed }
    }

    /// The next number below a bound, or 0 if the bound is 0.
    pub fn below(&mut self, bound: u64) -> u64
        ensures { 0 < bound → result < bound }
    {
        self.state = self
            .state
            .wrapping_mul(6_364_136_223_846_793_005)
            .wrapping_add(1_442_695_040_888_963_407);
        below(self.state >> 33, bound)
    }
}

/// A number below a bound, or 0 if the bound is 0.
fn below(number: u64, bound: u64) -> u64
    ensures { 0 < bound → result < bound }
{
    if bound == 0 { 0 } else { number % bound }
}
