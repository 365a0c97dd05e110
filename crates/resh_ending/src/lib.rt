//! The loops of a sweep end.
#![tactic(auto)]

mod laws;

pub use laws::{applies_end, shapes_keep};
