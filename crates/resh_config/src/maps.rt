use resh_chunks::ChunkMap;
use resh_value::Names;

/// The shards and the two chunk maps of a cluster file.
#[derive(Drop)]
pub(crate) struct Maps {
    pub(crate) shards: Names,
    pub(crate) old_map: ChunkMap,
    pub(crate) new_map: ChunkMap,
}
