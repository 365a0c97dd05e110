ghost use Rattle.resh_asking.specs.Turns.{Shows};

use resh_cells::Cell;
use resh_command::Reply;
use resh_setup::{Met, Seen};
use resh_stamp::Stamp;
use resh_value::Document;

/// What came of a client's next command: what it met and showed, its stamp, and the cells that it held.
#[derive(Debug, Drop)]
pub struct Asked {
    pub met: Met,
    pub seen: Seen,
    pub stamp: Stamp,
    pub cells: Vec<Cell>,
}

/// The cells that an event holds, and its stamp.
#[derive(Debug, Drop)]
pub struct Held {
    pub cells: Vec<Cell>,
    pub stamp: Stamp,
}

impl Held {
    /// What came of the event.
    pub fn shown(self, met: Met, seen: Seen) -> Asked
        ensures { Shows self met seen result }
    {
        Asked {
            met,
            seen,
            stamp: self.stamp,
            cells: self.cells,
        }
    }
}

/// Whether targets serve a client.
#[derive(Debug, Drop, Clone, Copy, PartialEq, Eq)]
pub enum Serving {
    /// One of them is blocked.
    Waits,
    /// None is blocked, and one of them serves under another map than the client knows.
    Refreshes,
    Serves,
}

/// What a shard did of a command.
#[derive(Debug, Drop)]
pub enum Did {
    Replies(Reply),
    /// Nothing: an update's result belongs to another shard.
    Leaves { to: u32, document: Document },
    /// Nothing: memory was wanted.
    Wants,
}

/// What came of a document that moves.
#[derive(Debug, Drop, Clone, Copy, PartialEq, Eq)]
pub enum Move {
    Moved,
    /// Nothing: its `_id` is held where it comes.
    Duplicate,
    /// Nothing: memory was wanted.
    Wants,
}
