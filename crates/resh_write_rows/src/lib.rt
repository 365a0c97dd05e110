//! A write of a shard keeps the invariant.
#![tactic(auto)]

mod laws;

pub use laws::write_row_laws;
