ghost use Rattle.std.specs.Prelude.{◌≡◌};
ghost use Rattle.resh_stamp.specs.Times.{mark_cmp, stamp_cmp};

use std::cmp::Ordering;

/// When and where an event was made: its time, and the least number of the cells that it held.
#[derive(Debug, Drop, Clone, Copy, PartialEq, Eq, PartialOrd, Ord, Hash)]
pub struct Stamp {
    pub time: u64,
    pub node: u32,
}

/// A place in a log: the event's stamp, and which of its entries.
#[derive(Debug, Drop, Clone, Copy, PartialEq, Eq, PartialOrd, Ord, Hash)]
pub struct Mark {
    pub stamp: Stamp,
    pub part: u32,
}

/// A step with the stamp of its event.
#[derive(Debug, Drop)]
pub struct Stamped<T> {
    pub stamp: Stamp,
    pub step: T,
}

/// A stamped step, and the number of the pass that made it.
#[derive(Debug, Drop)]
pub struct Logged<T> {
    pub stamp: Stamp,
    pub by: u32,
    pub step: T,
}

impl Stamp {
    /// How it stands to another: by time, then by node.
    pub fn compare(&self, other: &Stamp) -> Ordering
        ensures { result ≡ stamp_cmp self.now other.now }
    {
        self.cmp(other)
    }
}

impl Mark {
    /// How it stands to another: by stamp, then by part.
    pub fn compare(&self, other: &Mark) -> Ordering
        ensures { result ≡ mark_cmp self.now other.now }
    {
        self.cmp(other)
    }
}
