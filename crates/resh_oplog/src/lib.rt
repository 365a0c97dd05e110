//! The operation log of a shard: what its writes were, in order, and to which recipient each is destined.
#![tactic(auto)]

mod entry;
mod laws;
mod log;
mod piece;

pub use entry::{Entries, Entry, What};
pub use laws::log_laws;
pub use log::Log;
pub use piece::{Cloned, Piece};
