use crate::client::Clients;
use crate::event::Events;
use crate::plan::Plan;
use resh_chunks::ChunkMap;
use resh_value::{Documents, Names, Sequence};

/// The documents of each shard.
pub type Holdings = Sequence<Documents>;

/// What a cluster file says.
#[derive(Debug, Drop)]
pub struct Setup {
    pub shards: Names,
    pub old_map: ChunkMap,
    pub new_map: ChunkMap,
    pub documents: Documents,
    pub clients: Clients,
    /// The writers of a recipient, 1 to 16.
    pub lanes: u32,
    /// The greatest number of entries of a batch, 1 to 500.
    pub batch: u32,
    /// The file's steps, none of which is `Fail`.
    pub steps: Events,
    pub plan: Plan,
}
