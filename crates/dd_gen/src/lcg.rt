// A linear congruential generator. Its step wraps, as it is defined to.
ghost use Rattle.std.specs.Prelude.{◌≡◌};
ghost use Rattle.dd_gen.specs.Lcg.{next_state, draw};

const FACTOR: u64 = 6_364_136_223_846_793_005;

const SUMMAND: u64 = 1_442_695_040_888_963_407;

/// A generator of numbers, by the state that it stands at.
#[derive(Clone, Copy, Debug, PartialEq, Eq)]
pub struct Lcg {
    pub x: u64,
}

impl Lcg {
    pub fn new(seed: u64) -> Lcg
        ensures { result.x ≡ seed }
    {
        Lcg { x: seed }
    }

    /// Makes the step, and answers the high 32 bits of the state after it.
    pub fn next(&mut self) -> u32
        ensures state { self.new.x ≡ next_state self.old.x }
        ensures drawn { result ≡ draw self.old.x }
    {
        self.x = self.x.wrapping_mul(FACTOR).wrapping_add(SUMMAND);
        (self.x >> 32) as u32
    }
}
