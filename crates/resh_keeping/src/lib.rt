//! What every event keeps of a cluster.
#![tactic(auto)]

mod laws;

pub use laws::keeping_laws;
