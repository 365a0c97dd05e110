//! What every event keeps of a cluster beside the invariant, so that a sweep leads on.
#![tactic(auto)]

mod laws;

pub use laws::{feeds_are_few, leads_on};
