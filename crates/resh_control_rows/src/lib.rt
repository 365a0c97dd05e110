//! The rows of the coordinator keep the invariant.
#![tactic(auto)]

mod laws;

pub use laws::control_row_laws;
