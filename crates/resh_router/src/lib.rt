//! Which shards a command goes to, and the one reply that several shards' replies make.
#![tactic(auto)]

mod goal;
mod laws;
mod merge;
mod routing;
mod shown;

pub use goal::Target;
pub use laws::{finds_and_counts_merge, targets_answer};
pub use merge::merge_found;
pub use routing::target;
