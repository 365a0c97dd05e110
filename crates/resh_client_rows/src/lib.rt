//! The row of a client keeps the invariant, with the turn that it makes of the order.
#![tactic(auto)]

mod laws;

pub use laws::client_row_laws;
