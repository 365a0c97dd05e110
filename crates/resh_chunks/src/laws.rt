//! What holds of every chunk map.

ghost use Rattle.resh_chunks.specs.Chunks.{EachKeyHasOneOwner};

/// In a chunk map without fault each key has exactly one owner: one row has the key, and its shard is there.
pub fn each_key_has_one_owner()
    ensures { EachKeyHasOneOwner }
{}
