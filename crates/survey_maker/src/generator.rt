//! A linear congruential generator: from one number to start from come the same draws at each run and on
//! each machine.
ghost use Rattle.std.specs.Prelude.{◌≡◌, ◌<◌};
ghost use Rattle.survey_maker.specs.Draws.{drawn, next_state};

use std::marker::Model;

/// What the state is multiplied by at each draw, and what is then added, for 64 bits. They are from
/// Knuth, The Art of Computer Programming, volume 2, on linear congruential sequences.
const MULTIPLIER: u64 = 6_364_136_223_846_793_005;

const INCREMENT: u64 = 1_442_695_040_888_963_407;

/// A generator of numbers. Contracts see its state.
#[derive(Drop)]
pub(crate) struct Generator {
    state: u64,
}

impl Model for Generator {
    ghost use Rattle.std.specs.Prelude.{ℕ};

    ghost Value = { ℕ };

    ghost view = { λ g. g.state };
}

impl Generator {
    /// The generator whose first state is this number. Each draw steps to the next state before it draws.
    pub(crate) fn new(start: u32) -> Generator
        ensures { result ≡ start }
    {
        Generator {
            state: u64::from(start),
        }
    }

    /// Steps to the next state, and draws from it a number from 0 on, below the bound. The number comes from
    /// the upper 31 bits of the state, since the lower ones of such a generator repeat soon.
    #[tactic(auto, unfolding(crate::specs::Draws::drawn, crate::specs::Draws::next_state))]
    pub(crate) fn draw(&mut self, bound: u32) -> u32
        requires { 0 < bound }
        ensures state { self.new ≡ next_state self.old }
        ensures number { result ≡ drawn self.new bound }
        ensures below { result < bound }
    {
        self.state = self.state.wrapping_mul(MULTIPLIER).wrapping_add(INCREMENT);
        ((self.state >> 33) % u64::from(bound)) as u32
    }
}
