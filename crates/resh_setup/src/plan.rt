use resh_luck::PlanRow;
use resh_value::{Copied, NoMemory, Sequence, ShardId};
use std::alloc::Global;

/// Whose steps a plan's row speaks of.
#[derive(Debug, Drop, Clone, Copy, PartialEq, Eq)]
pub enum Who {
    Coordinator,
    /// The clones, fetches and records of a link.
    Link {
        recipient: ShardId,
        donor: ShardId,
    },
    /// The applies of a link on one lane.
    Lane {
        recipient: ShardId,
        donor: ShardId,
        lane: u32,
    },
}

/// A row of a plan, with the activity that it speaks of.
#[derive(Debug, Drop, Clone, Copy, PartialEq, Eq)]
pub struct Planned {
    pub who: Who,
    pub row: PlanRow,
}

/// A plan's rows. The first one that has a step of an activity says what it meets.
pub type Plan = Sequence<Planned>;

impl Copied for Planned {
    fn copied(&self, _alloc: Global) -> Result<Planned, NoMemory> {
        Ok(*self)
    }
}
