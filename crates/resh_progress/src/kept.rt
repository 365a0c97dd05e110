ghost use Rattle.std.specs.Prelude.{◌≡◌, IfOk};

use resh_stamp::Mark;
use resh_value::{Copied, NoMemory, Sequence, Value};
use std::alloc::Global;

/// A number for each lane.
pub type Counts = Sequence<u64>;

/// The record to which a link goes back after a crash.
#[derive(Debug, Drop)]
pub struct Kept {
    /// The place in the donor's feed up to which it is kept.
    pub place: u64,
    /// The position of each lane.
    pub lanes: Counts,
    /// The `_id` that was cloned last.
    pub last_id: Option<Value>,
    /// The mark of the log's entry that was read last.
    pub mark: Option<Mark>,
    /// Whether the clone part was read to its end.
    pub read_out: bool,
    /// Whether the feed's last entry is behind it.
    pub finished: bool,
}

impl Kept {
    pub fn copy(&self, alloc: Global) -> Result<Kept, NoMemory>
        ensures { IfOk result (λ kept. kept ≡ self.now) }
    {
        Ok(Kept {
            place: self.place,
            lanes: self.lanes.copy()?,
            last_id: Copied::copied(&self.last_id, alloc)?,
            mark: self.mark,
            read_out: self.read_out,
            finished: self.finished,
        })
    }
}

impl Copied for Kept {
    fn copied(&self, alloc: Global) -> Result<Kept, NoMemory> {
        self.copy(alloc)
    }
}
