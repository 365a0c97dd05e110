//! The rows of links keep the invariant.
#![tactic(auto)]

mod laws;

pub use laws::link_row_laws;
