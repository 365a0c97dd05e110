//! The rows of lanes keep the invariant.
#![tactic(auto)]

mod laws;

pub use laws::lane_row_laws;
