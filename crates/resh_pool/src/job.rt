ghost use Rattle.std.specs.Prelude.{ℕ};

use crate::gate::Gate;
use std::sync::Wait;

/// What makes one turn in each round.
pub trait Job {
    // the job before, its number, and what one turn may make of it
    ghost turned: { Self → ℕ → Self → Type 0 };

    /// One turn. The number is the job's place in its round.
    fn turn<R: Wait, G: Gate>(&mut self, rt: &R, gate: &G, number: u32)
        ensures { turned self.old number self.new };
}
