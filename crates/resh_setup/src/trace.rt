use crate::event::Event;
use resh_stamp::Stamp;
use resh_value::Sequence;

/// What an event met.
#[derive(Debug, Drop, Clone, Copy, PartialEq, Eq)]
pub enum Met {
    /// Nothing: it was made as it stands.
    Row,
    /// A crash, and nothing was made.
    CrashedBefore,
    /// A crash once it was made.
    CrashedAfter,
    /// A refused commit.
    Failed,
    /// The 64th loss of one call.
    Lost,
    /// Want of memory.
    NoMemory,
    /// Want of memory in a client's command whose document had begun to move to another shard.
    NoMemoryInMove,
}

/// An event that was made, with its stamp and what it met.
#[derive(Debug, Drop)]
pub struct Made {
    pub stamp: Stamp,
    pub event: Event,
    pub met: Met,
}

/// The events of a run.
pub type Trace = Sequence<Made>;
