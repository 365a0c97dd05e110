//! A recipient's link to a donor: how the donor's feed is read, buffered, cut into batches and kept.
#![tactic(auto)]

mod batch;
mod fetched;
mod items;
mod laws;
mod link;
mod readers;
mod state;

pub use batch::{Batch, Whats};
pub use fetched::Fetched;
pub use laws::link_laws;
pub use link::Link;
pub use state::{FeedItems, LinkState, Out};
