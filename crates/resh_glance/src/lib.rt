//! What can be told of a document without writing it or searching it, where that is enough.
#![tactic(auto)]

mod identity;
mod length;
mod room;

pub use identity::{id, id_or};
pub use length::is_longer;
