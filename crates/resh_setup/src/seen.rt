use crate::event::Event;
use resh_coord::{Node, Why};
use resh_value::{Sequence, ShardId, Value};

/// What an event showed: one variant for each text of a step's line.
#[derive(Debug, Drop)]
pub enum Seen {
    /// Its condition doesn't hold, and nothing changed.
    Idle,
    /// A client waits for a shard, or a shard blocks its writes.
    Blocked,
    /// The client knows the new map.
    Refreshed,
    /// The client's command of this number, from 1, was served or refused.
    Command {
        number: u32,
    },
    PreparingToDonate,
    Prepared,
    Donating,
    /// The shard holds so many documents under the new map.
    Installed {
        documents: u64,
    },
    Released,
    NothingNew,
    Cloning,
    Applying,
    BlockingWrites,
    Committing,
    Aborting,
    Done,
    /// So many clone items came, and they are the last.
    GotEnd {
        count: u32,
    },
    /// So many clone items came, and more may come.
    GotMore {
        count: u32,
    },
    /// So many entries came.
    Got {
        count: u32,
    },
    /// So many entries came, the donor's final entry among them.
    GotFinal {
        count: u32,
    },
    GotNothing,
    /// The items from this place of the feed to before that one are cut.
    Batch {
        from: u64,
        to: u64,
    },
    /// The piece was applied by this rule, and so many documents wait in the lane's stashes.
    Applied {
        write: WriteKind,
        rule: u8,
        place: u64,
        stash: u64,
    },
    /// The piece was applied by the fourth rule, and the document of this donor came out of its stash.
    Took {
        write: WriteKind,
        donor: ShardId,
        place: u64,
        stash: u64,
    },
    /// The piece was applied before; the lane stands at this position.
    Repeated {
        at: u64,
    },
    /// Pieces before it are missing; the lane stands at this position.
    Ahead {
        at: u64,
    },
    /// The batch up to this place is kept.
    Kept {
        place: u64,
    },
    /// The batch up to this place is kept, and nothing follows it.
    KeptLast {
        place: u64,
    },
    /// The link goes on from this place.
    Back {
        place: u64,
    },
    Cloned,
    Near,
    Consistent,
    /// The least `_id` that waits in a stash of the recipient.
    Clash {
        id: Value,
    },
    /// The 64th loss of one call.
    Lost,
    CrashedBefore,
    /// The commit was refused.
    Failed,
    NoMemory,
    /// A node fails; it is too late where the end is decided.
    Fails {
        node: Node,
        cause: Why,
        late: bool,
    },
    /// A link of this recipient fails for want of memory; it is too late where the end is decided.
    FailsForMemory {
        recipient: ShardId,
        late: bool,
    },
}

/// What a piece does to its document.
#[derive(Debug, Drop, Clone, Copy, PartialEq, Eq)]
pub enum WriteKind {
    Insert,
    Update,
    Delete,
}

/// The events of one step, each with what it showed.
pub type SeenList = Sequence<(Event, Seen)>;
