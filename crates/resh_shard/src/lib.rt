//! One shard of a cluster: its documents with their versions, its log of what its writes were, and the map under which
//! it serves.
#![tactic(auto)]

mod act;
mod deciding;
mod laws;
mod logging;
mod reading;
mod shard;
mod state;

pub use act::{Act, Decision, TakeIn, Which, Write};
pub use laws::{log_laws, shard_laws};
pub use resh_command::{Command, Commands, Replies, Reply};
pub use shard::Shard;
pub use state::ShardState;
