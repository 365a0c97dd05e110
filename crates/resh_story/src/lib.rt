//! What a shard's versions and log tell of what it holds now.
#![tactic(auto)]

mod laws;

pub use laws::{feed_laws, install_laws, story_laws};
