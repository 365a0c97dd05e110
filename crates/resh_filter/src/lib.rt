//! Equality filters: which documents a filter matches.
#![tactic(auto)]

mod fault;
mod filter;
mod laws;

pub use fault::{FilterFault, FilterFaultKind};
pub use filter::Filter;
pub use laws::filter_laws;
