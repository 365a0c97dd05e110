use resh_feed::{Item, Reading};
use resh_progress::{Counts, Kept};
use resh_value::{Sequence, ShardId};

/// Items of a feed, each with where reading goes on behind it.
pub type FeedItems = Sequence<Item>;

/// Where the batch that is out ends.
#[derive(Debug, Drop)]
pub struct Out {
    /// The place behind its last item.
    pub place: u64,
    /// The position of each lane.
    pub lanes: Counts,
    pub reading: Reading,
}

/// What contracts see of a link. Its places count the items of the donor's feed for the recipient, from 0.
#[derive(Debug, Drop)]
pub struct LinkState {
    pub recipient: ShardId,
    pub donor: ShardId,
    /// How many lanes the recipient has.
    pub lanes: u32,
    /// How many items are read at a time.
    pub batch: u32,
    pub started: bool,
    /// Behind this time the log is read; 0 before it is started.
    pub fetch_time: u64,
    pub is_open: bool,
    pub failed: bool,
    /// The record to which it goes back.
    pub kept: Kept,
    pub out: Option<Out>,
    /// The items that were got and aren't in a batch.
    pub buffer: FeedItems,
    /// How many clone items were got.
    pub clones: u64,
    /// How far the feed was read since the link began or went back.
    pub reading: Reading,
    /// Whether the clone part was read to its end.
    pub read_out: bool,
    /// Whether the last fetch brought fewer entries than it might.
    pub near: bool,
    /// How often it went back.
    pub crashes: u32,
}
