//! Rows in which a shard is told something keep the invariant.
#![tactic(auto)]

mod laws;

pub use laws::tell_row_laws;
