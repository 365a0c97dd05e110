//! The law over every schedule: the invariant is kept, and the order of turns is lawful.
#![tactic(auto)]

mod laws;

pub use laws::schedule_laws;
