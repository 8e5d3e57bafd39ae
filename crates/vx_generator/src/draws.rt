//! Numbers that are drawn from a seed.

ghost use Rattle.std.specs.Prelude.{◌≡◌, ◌<◌, ◌^◌};
ghost use Rattle.vx_generator.specs.Draws.{next, number_of};

use std::marker::Model;

// The factor and the summand of a step from one state to the next, both modulo 2^64.
const FACTOR: u64 = 6364136223846793005;

const STEP: u64 = 1442695040888963407;

/// A source of numbers, as its state of 64 bits. Each draw changes the state.
#[derive(Drop)]
pub(crate) struct Draws {
    state: u64,
}

impl Model for Draws {
    ghost use Rattle.std.specs.Prelude.{ℕ};

    ghost Value = { ℕ };

    ghost view = { λ d. d.state };
}

impl Draws {
    /// The source of a seed.
    pub(crate) fn new(seed: u64) -> Draws
        ensures { result ≡ seed }
    {
        Draws { state: seed }
    }

    /// The next number, of 31 bits.
    pub(crate) fn draw(&mut self) -> u32
        ensures state { self.new ≡ next self.old }
        ensures number { result ≡ number_of (next self.old) }
        ensures small { result < 2 ^ 31 }
    {
        self.state = self.state.wrapping_mul(FACTOR).wrapping_add(STEP);
        (self.state >> 33) as u32
    }
}
