ghost use Rattle.std.specs.Prelude.{◌≡◌, IfOk};

use crate::entry::What;
use resh_value::{Copied, Documents, NoMemory, ShardId, Value};
use std::alloc::Global;

/// One item of a donor's feed on its way to the lane of its `_id`.
#[derive(Debug, Drop)]
pub struct Piece {
    pub donor: ShardId,
    /// Its place in the donor's feed, from 0.
    pub place: u64,
    /// Its position in the feed's part on its lane, from 0.
    pub position: u64,
    /// The time at which its batch was cut.
    pub time: u64,
    pub id: Value,
    pub what: What,
}

/// Documents that were read at the fetch time, by `_id`.
#[derive(Debug, Drop)]
pub struct Cloned {
    pub documents: Documents,
    /// Whether no document is left.
    pub end: bool,
}

impl Piece {
    pub fn copy(&self, alloc: Global) -> Result<Piece, NoMemory>
        ensures { IfOk result (λ piece. piece ≡ self.now) }
    {
        Ok(Piece {
            donor: self.donor,
            place: self.place,
            position: self.position,
            time: self.time,
            id: self.id.copy(alloc)?,
            what: self.what.copy(alloc)?,
        })
    }
}

impl Copied for Piece {
    fn copied(&self, alloc: Global) -> Result<Piece, NoMemory> {
        self.copy(alloc)
    }
}
