//! What a client asks of the collection, and what it is answered.
#![tactic(auto)]

mod command;
mod reply;

pub use command::{Command, Commands};
pub use reply::{Replies, Reply};
