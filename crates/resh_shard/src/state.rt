ghost use Rattle.std.specs.Prelude.{◌≡◌, ◌==◌};
ghost use Rattle.resh_chunks.specs.Chunks.{owner_of};
ghost use Rattle.resh_shard.specs.Shards.{map_of, number_of};

use crate::act::Which;
use resh_chunks::ChunkMap;
use resh_oplog::Log;
use resh_value::{Document, ShardId};
use resh_versions::Versions;

/// What contracts see of a shard.
#[derive(Debug, Drop)]
pub struct ShardState {
    pub old_map: ChunkMap,
    pub new_map: ChunkMap,
    /// An update's result may have a text of so many bytes.
    pub limit: u32,
    pub versions: Versions,
    pub log: Log,
    pub which: Which,
    pub blocked: bool,
    /// Whether entries name recipients.
    pub names: bool,
}

impl ShardState {
    pub(crate) fn id(&self) -> ShardId
        ensures { result ≡ self.now.log.donor }
    {
        self.log.donor()
    }

    /// The map in force.
    pub(crate) fn map(&self) -> &ChunkMap
        ensures { result.now ≡ map_of self.now }
    {
        match self.which {
            Which::Old => &self.old_map,
            Which::New => &self.new_map,
        }
    }

    /// Whether this shard owns a document by the map in force.
    pub(crate) fn owns(&self, document: &Document) -> bool
        ensures { result ≡ (owner_of (map_of self.now) document.now == number_of self.now) }
    {
        self.map().owner_of(document).0 == self.id().0
    }
}
