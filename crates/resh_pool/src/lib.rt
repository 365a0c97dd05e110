//! Rounds of jobs over threads: each job makes one turn in a round.
#![tactic(auto)]

mod gate;
mod group;
mod groups;
mod job;
mod round;

pub use gate::{Gate, OpenGate, Point};
pub use job::Job;
pub use round::run_round;
