ghost use Rattle.std.specs.Prelude.{◌≡◌, IfOk};
ghost use Rattle.resh_chunks.specs.Bounds.{bound_cmp};

use resh_value::{Copied, NoMemory, Sequence, ShardId, Value};
use std::alloc::Global;
use std::cmp::Ordering;

/// The values of a shard key's fields, in the order of the pattern. Keys are compared value by value, and the one that
/// ends first is less.
pub type Key = Sequence<Value>;

/// An end of a chunk: below every key, at the beginning of keys, or above every key.
#[derive(Debug, Drop)]
pub enum Bound {
    Min,
    At(Key),
    Max,
}

impl Bound {
    pub fn copy(&self, _alloc: Global) -> Result<Bound, NoMemory>
        ensures { IfOk result (λ b. b ≡ self.now) }
    {
        match self {
            Bound::Min => Ok(Bound::Min),
            Bound::At(key) => Ok(Bound::At(key.copy()?)),
            Bound::Max => Ok(Bound::Max),
        }
    }

    /// Compares two bounds; one of few values stands before every key that it begins.
    pub fn compare(&self, other: &Bound) -> Ordering
        ensures { result ≡ bound_cmp self.now other.now }
    {
        match self {
            Bound::Min => match other {
                Bound::Min => Ordering::Equal,
                _ => Ordering::Less,
            },
            Bound::At(key) => match other {
                Bound::Min => Ordering::Greater,
                Bound::At(other) => key.cmp(other),
                Bound::Max => Ordering::Less,
            },
            Bound::Max => match other {
                Bound::Max => Ordering::Equal,
                _ => Ordering::Greater,
            },
        }
    }
}

/// A chunk, from its lower bound up to but not including its upper one, on a shard.
#[derive(Debug, Drop)]
pub struct ChunkRow {
    pub min: Bound,
    pub max: Bound,
    pub shard: ShardId,
}

impl ChunkRow {
    pub fn copy(&self, alloc: Global) -> Result<ChunkRow, NoMemory>
        ensures { IfOk result (λ row. row ≡ self.now) }
    {
        Ok(ChunkRow {
            min: self.min.copy(alloc)?,
            max: self.max.copy(alloc)?,
            shard: self.shard,
        })
    }
}

impl Copied for ChunkRow {
    fn copied(&self, alloc: Global) -> Result<ChunkRow, NoMemory> {
        self.copy(alloc)
    }
}
