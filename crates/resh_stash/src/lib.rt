//! Documents by `_id`, with room kept ready.
#![tactic(auto)]

mod stash;

pub use stash::Stash;
