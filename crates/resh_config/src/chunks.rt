//! Chunk maps: bounds, rows, and the map that they make.

ghost use Rattle.std.specs.Prelude.{◌≡◌, ◌≤◌, length};
ghost use Rattle.serde_json.specs.View.{members_view};
ghost use Rattle.resh_value.specs.Outcome.{Gives};
ghost use Rattle.resh_config.specs.Chunks.{bound_value_in, end_named, bound_in, shard_in, row_of, chunk_row_in, chunks_in};

use crate::faults::{Fault, chunk_fault, in_value, wrong_kind};
use crate::lists::{ItemReader, items_of, list_in};
use crate::names::is_same;
use crate::walk::{FieldReader, required, row_with, text_in};
use crate::words::shard_named;
use resh_chunks::{Bound, ChunkMap, ChunkRow, KeyPattern};
use resh_value::{Names, ShardId, Value, WalkFault};
use serde_json::{Map, Value as Json};
use std::alloc::Global;

/// So many chunks a map may have.
const MOST_CHUNKS: u64 = 64;

/// Reads a chunk map over a key.
#[derive(Drop)]
pub(crate) struct Chunks<'a> {
    pub(crate) shards: &'a Names,
    pub(crate) key: KeyPattern,
    ghost few: { length shards.now ≤ 8 },
}

impl FieldReader for Chunks<'_> {
    type Content = ChunkMap;

    ghost reads = { λ c. chunks_in c.shards.now c.key };

    fn read(self, alloc: Global, json: &Json) -> Result<ChunkMap, Fault> {
        let Chunks { shards, key } = self;
        let count = shards.len() as u32;
        match list_in(alloc, &mut Row { shards }, MOST_CHUNKS, json) {
            Ok(rows) => match ChunkMap::new(key, rows.into_vec(), count) {
                Ok(map) => Ok(map),
                Err(fault) => Err(chunk_fault(alloc, fault)),
            },
            Err(fault) => Err(fault),
        }
    }
}

#[derive(Drop)]
struct Row<'a> {
    shards: &'a Names,
    ghost few: { length shards.now ≤ 8 },
}

impl ItemReader for Row<'_> {
    type Item = ChunkRow;

    ghost reads = { λ r. chunk_row_in r.shards.now };

    fn read(
        &mut self,
        alloc: Global,
        _before: &[ChunkRow],
        json: &Json,
    ) -> Result<ChunkRow, Fault> {
        let members = row_with(alloc, json, &["min", "max", "shard"])?;
        row_of(alloc, members, self.shards)
    }
}

fn row_of(alloc: Global, members: &Map<String, Json>, shards: &Names) -> Result<ChunkRow, Fault>
    requires { length shards.now ≤ 8 }
    ensures { Gives WalkFault.NoMemory result (row_of shards.now (members_view members.now.entries)) }
{
    let min = required(alloc, members, "min", End)?;
    let max = required(alloc, members, "max", End)?;
    let shard = required(alloc, members, "shard", Shard { shards })?;
    Ok(ChunkRow { min, max, shard })
}

/// Reads an end of a chunk.
#[derive(Drop)]
struct End;

impl FieldReader for End {
    type Content = Bound;

    ghost reads = { λ _. bound_in };

    fn read(self, alloc: Global, json: &Json) -> Result<Bound, Fault> {
        match json {
            Json::String(text) => end_named(alloc, text.as_str()),
            Json::Array(items) => match items_of(alloc, &mut KeyValue, items) {
                Ok(key) => Ok(Bound::At(key)),
                Err(fault) => Err(fault),
            },
            _ => Err(wrong_kind(alloc)),
        }
    }
}

fn end_named(alloc: Global, text: &str) -> Result<Bound, Fault>
    ensures { result ≡ end_named text.now }
{
    if is_same(text, "MinKey") {
        return Ok(Bound::Min);
    }
    if is_same(text, "MaxKey") {
        return Ok(Bound::Max);
    }
    Err(wrong_kind(alloc))
}

#[derive(Drop)]
struct KeyValue;

impl ItemReader for KeyValue {
    type Item = Value;

    ghost reads = { λ _. bound_value_in };

    fn read(&mut self, alloc: Global, _before: &[Value], json: &Json) -> Result<Value, Fault> {
        match Value::walk(alloc, json) {
            Ok(value) => Ok(value),
            Err(fault) => Err(in_value(fault)),
        }
    }
}

/// Reads the number of a shard that is there.
#[derive(Drop)]
struct Shard<'a> {
    shards: &'a Names,
    ghost few: { length shards.now ≤ 8 },
}

impl FieldReader for Shard<'_> {
    type Content = ShardId;

    ghost reads = { λ s. shard_in s.shards.now };

    fn read(self, alloc: Global, json: &Json) -> Result<ShardId, Fault> {
        match text_in(alloc, json) {
            Ok(name) => shard_named(alloc, name, self.shards.as_slice()),
            Err(fault) => Err(fault),
        }
    }
}
