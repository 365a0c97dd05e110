ghost use Rattle.std.specs.Prelude.{◌≡◌, ◌<◌, None, Some, IfOk, MatchResult};
ghost use Rattle.resh_chunks.specs.Pattern.{pattern_fault, key_of};
ghost use Rattle.resh_chunks.specs.Chunks.{Chunks, chunk_fault, owner, owner_of, same_key, IsOwner, Owns};

use crate::bound::{ChunkRow, Key};
use crate::faults::ChunkFault;
use crate::owner::{DocumentKey, Keyed, row_of, same_field};
use crate::pattern::KeyPattern;
use crate::rows::fault_of;
use resh_value::{Document, NoMemory, Sequence, ShardId, Value};
use std::marker::Model;

/// Chunks that cover the key space without gap or overlap, each on a shard.
#[derive(Debug, Drop)]
pub struct ChunkMap {
    pattern: KeyPattern,
    rows: Sequence<ChunkRow>,
    shards: u32,
}

impl Model for ChunkMap {
    ghost use Rattle.std.specs.Prelude.{◌≡◌, None};
    ghost use Rattle.resh_chunks.specs.Chunks.{Chunks, chunks_code, chunk_fault};

    ghost Value = { Chunks };

    ghost coded = { chunks_code };

    ghost view = { λ m. record { pattern = m.pattern; rows = m.rows; shards = m.shards } };

    ghost invariant = { λ m. chunk_fault (record { pattern = m.pattern; rows = m.rows; shards = m.shards }) ≡ None };
}

impl ChunkMap {
    /// The map of these rows, or their first fault: row by row the bounds' lengths, the shard, the joint with the row
    /// before and the range, and after all rows their end.
    pub fn new(
        pattern: KeyPattern,
        rows: Vec<ChunkRow>,
        shards: u32,
    ) -> Result<ChunkMap, ChunkFault>
        ensures { let chunks : Chunks = record { pattern = pattern; rows = rows.items; shards = shards } in
            MatchResult result (λ m. (m ≡ chunks) × (chunk_fault chunks ≡ None)) (λ f. chunk_fault chunks ≡ Some f) }
    {
        let names = pattern.names().len();
        match fault_of(names, shards, rows.as_slice()) {
            Some(fault) => Err(fault),
            None => Ok(ChunkMap {
                pattern,
                rows: Sequence::from_vec(rows),
                shards,
            }),
        }
    }

    pub fn pattern(&self) -> &KeyPattern
        ensures { result.now ≡ self.now.pattern }
    {
        &self.pattern
    }

    /// The chunks in their order.
    pub fn rows(&self) -> &[ChunkRow]
        ensures { result.now ≡ self.now.rows }
    {
        self.rows.as_slice()
    }

    /// The number of shards that was given to `new`.
    pub fn shards(&self) -> u32
        ensures { result ≡ self.now.shards }
    {
        self.shards
    }

    /// The shard of the one row that has the key.
    pub fn owner(&self, key: &Key) -> ShardId
        ensures owner { result.0 ≡ owner self.now key.now }
        ensures only { IsOwner self.now key.now result.0 }
        ensures there { result.0 < self.now.shards }
    {
        self.find_owner(key)
    }

    /// The shard of the one row that has the document's key, in which a missing field counts as null.
    pub fn owner_of(&self, document: &Document) -> ShardId
        ensures owner { result.0 ≡ owner_of self.now document.now }
        ensures only { IsOwner self.now (key_of self.now.pattern document.now) result.0 }
        ensures there { result.0 < self.now.shards }
    {
        let null = Value::Null;
        let key = DocumentKey::read(&self.pattern, document, &null);
        self.find_owner(&key)
    }

    fn find_owner<K: Keyed>(&self, key: &K) -> ShardId
        ensures { Owns self.now (K.key key.now) result.0 }
    {
        let rows = self.rows.as_slice();
        let place = row_of(rows, key);
        let row = &rows[place];
        row.shard
    }

    /// Whether every field of the pattern is equal in both, null where one lacks it.
    pub fn same_key(&self, a: &Document, b: &Document) -> bool
        ensures { result ≡ same_key self.now.pattern a.now b.now }
    {
        self.pattern
            .names()
            .as_slice()
            .iter()
            .all(|name| same_field(a, b, name))
    }

    pub fn copy(&self) -> Result<ChunkMap, NoMemory>
        ensures { IfOk result (λ m. m ≡ self.now) }
    {
        Ok(ChunkMap {
            pattern: self.pattern.copy()?,
            rows: self.rows.copy()?,
            shards: self.shards,
        })
    }
}
