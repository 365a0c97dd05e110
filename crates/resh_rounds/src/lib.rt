//! What a round takes of what is left.
#![tactic(auto)]

mod laws;

pub use laws::{link_rows_pay, rounds_fall, running_stays, supplies_fall};
