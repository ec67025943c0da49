// Numbers from a seed.
ghost use Rattle.std.specs.Prelude.{◌≡◌};
ghost use Rattle.dd_block.specs.Lcg.{next_state, draw};

const FACTOR: u64 = 6364136223846793005;

const SUMMAND: u64 = 1442695040888963407;

/// A linear congruential generator of numbers, by the state that it is in. Its step wraps at 64
/// bits, as it is defined to.
#[derive(Clone, Copy, Debug, PartialEq, Eq)]
pub struct Lcg {
    pub state: u64,
}

impl Lcg {
    pub fn new(seed: u64) -> Self
        ensures { result.state ≡ seed }
    {
        Lcg { state: seed }
    }

    /// Makes the step, and answers the high 32 bits of the new state.
    pub fn next(&mut self) -> u32
        ensures step { self.new.state ≡ next_state self.old.state }
        ensures high { result ≡ draw self.old.state }
    {
        self.state = self.state.wrapping_mul(FACTOR).wrapping_add(SUMMAND);
        (self.state >> 32) as u32
    }
}

#[cfg(test)]
mod tests {
    use super::*;

    #[test]
    fn the_first_draws_from_seed_1(rt: HostRuntime) {
        let mut numbers = Lcg::new(1);
        assert_eq!(rt; numbers.next(), 1817669548);
        assert_eq!(rt; numbers.next(), 2187888307);
        assert_eq!(rt; numbers.next(), 2784682393);
    }
}
