use resh_oplog::What;
use resh_progress::Counts;
use resh_value::{Sequence, ShardId};

/// A list of items of a feed.
pub type Whats = Sequence<What>;

/// Items of a donor's feed that are sent together.
#[derive(Debug, Drop)]
pub struct Batch {
    pub donor: ShardId,
    /// The place of the first item in the feed, from 0.
    pub place: u64,
    /// The time at which it was cut.
    pub time: u64,
    /// Each lane's position before it.
    pub starts: Counts,
    pub items: Whats,
}
