//! What every event keeps of a cluster, beside the order of turns.
#![tactic(auto)]

mod laws;

pub use laws::{frame_laws, opening_laws};
