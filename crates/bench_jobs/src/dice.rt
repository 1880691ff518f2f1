//! Numbers at random, the same for the same seed.

ghost use Rattle.std.specs.Prelude.{◌<◌};

/// What is put between the seeds of two rounds, so that their numbers have nothing to do with each other.
const STRIDE: u64 = 0x9e37_79b9_7f4a_7c15;

/// Makes number after number, by a linear congruence, of which the upper half is used.
#[derive(Clone, Copy, Drop)]
pub struct Dice {
    state: u64,
}

impl Dice {
    /// The numbers of one part of one round of a seed.
    pub fn new(seed: u64, round: u64, part: u64) -> Dice {
        let round = round.wrapping_mul(64).wrapping_add(part);
        let state = seed.wrapping_add(1).wrapping_mul(STRIDE);
        Dice {
            state: state ^ round.wrapping_mul(STRIDE).rotate_left(32),
        }
    }

    /// A number below so many.
    #[inline(always)]
    pub fn roll(&mut self, sides: u64) -> u64
        requires { 0 < sides }
        ensures { result < sides }
    {
        self.state = self
            .state
            .wrapping_mul(6_364_136_223_846_793_005)
            .wrapping_add(1_442_695_040_888_963_407);
        (self.state >> 32) % sides
    }
}
