//! The rows that decide the fetch time and the mark keep the invariant.
#![tactic(auto)]

mod laws;

pub use laws::{consistent_laws, mark_row_laws};
