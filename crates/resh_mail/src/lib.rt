//! A mailbox between two workers: pieces come out in the order in which they went in.
#![tactic(auto)]

mod mailbox;
mod rule;

pub use mailbox::{Mailbox, ReceivePass, SendPass, Sending};
