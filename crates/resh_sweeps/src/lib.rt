//! The rounds of a sweep end.
#![tactic(auto)]

mod laws;

pub use laws::rounds_end;
