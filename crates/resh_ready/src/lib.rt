//! A link that has nothing to do is ready for the report of its recipient.
#![tactic(auto)]

mod laws;

pub use laws::idle_links_are_ready;
