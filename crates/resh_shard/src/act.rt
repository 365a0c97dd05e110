use resh_command::Reply;
use resh_value::{Change, Document, ShardId};

/// Which of a shard's two chunk maps is in force.
#[derive(Debug, Drop, Clone, Copy, PartialEq, Eq)]
pub enum Which {
    Old,
    New,
}

/// What came of a command.
#[derive(Debug, Drop)]
pub enum Act {
    /// It was done, or only the reply is said.
    Done(Reply),
    /// The updated document belongs to another shard, and nothing is changed.
    Leaves { to: ShardId, document: Document },
    /// Writes are blocked, and nothing is changed.
    Blocked,
}

/// What came of a document that moves in.
#[derive(Debug, Drop, Clone, Copy, PartialEq, Eq)]
pub enum TakeIn {
    Taken,
    /// The shard holds another of its `_id`.
    Duplicate,
}

/// A write of one document of the shard.
#[derive(Debug, Drop)]
pub enum Write {
    Puts(Document),
    Takes(Document),
    /// The document is changed, and no field of either key.
    Turns {
        before: Document,
        change: Change,
        after: Document,
    },
    /// The document is changed, and with it a field of a key.
    Rekeys {
        before: Document,
        after: Document,
    },
}

/// What the shard does where a command is asked of it.
#[derive(Debug, Drop)]
pub enum Decision {
    Writes(Write, Reply),
    Leaves(ShardId, Document),
    Says(Reply),
}
