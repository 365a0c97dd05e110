ghost use Rattle.std.specs.Prelude.{◌≡◌, IfOk};

use resh_filter::Filter;
use resh_ops::Update;
use resh_value::{Copied, Document, NoMemory, Sequence};
use std::alloc::Global;

/// What a client asks.
#[derive(Debug, Drop)]
pub enum Command {
    /// Puts the document where no other of its shard has its `_id`.
    Insert(Document),
    /// Changes the document of the filter's `_id` that matches the filter.
    Update { filter: Filter, update: Update },
    /// Removes the document of the filter's `_id` that matches the filter.
    Delete { filter: Filter },
    /// Gives the documents that match.
    Find { filter: Filter },
    /// Gives the number of documents that match.
    Count { filter: Filter },
    /// Gives up the resharding.
    Abort,
}

/// A client's commands, in the order in which it asks them.
pub type Commands = Sequence<Command>;

impl Command {
    pub fn copy(&self, _alloc: Global) -> Result<Command, NoMemory>
        ensures { IfOk result (λ command. command ≡ self.now) }
    {
        match self {
            Command::Insert(document) => Ok(Command::Insert(document.copy()?)),
            Command::Update { filter, update } => Ok(Command::Update {
                filter: filter.copy()?,
                update: update.copy()?,
            }),
            Command::Delete { filter } => Ok(Command::Delete {
                filter: filter.copy()?,
            }),
            Command::Find { filter } => Ok(Command::Find {
                filter: filter.copy()?,
            }),
            Command::Count { filter } => Ok(Command::Count {
                filter: filter.copy()?,
            }),
            Command::Abort => Ok(Command::Abort),
        }
    }
}

impl Copied for Command {
    fn copied(&self, alloc: Global) -> Result<Command, NoMemory> {
        self.copy(alloc)
    }
}
