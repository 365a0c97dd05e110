ghost use Rattle.std.specs.Prelude.{◌≡◌, IfOk};
ghost use Rattle.std.specs.Option.{option_copied};
ghost use Rattle.resh_value.specs.Whole.{has_rising_names};
ghost use Rattle.resh_oplog.specs.Logs.{id_written, is_above, is_for, is_whole, mark_of};

use resh_stamp::{Mark, Stamp};
use resh_value::{Change, Copied, Document, NoMemory, Sequence, ShardId, Value};
use std::alloc::Global;

/// What one write did to one document, or that a donor logs nothing more.
#[derive(Debug, Drop)]
pub enum What {
    Insert(Document),
    /// The fields of the document of an `_id` that got values or went.
    Update { id: Value, change: Change },
    Delete { id: Value },
    /// Writes are blocked at the donor: this is its last entry for the recipient.
    Final,
}

/// One entry of a donor's log.
#[derive(Debug, Drop)]
pub struct Entry {
    /// When and where the write was made.
    pub stamp: Stamp,
    /// Which of the entries of that write, from 0.
    pub part: u32,
    pub donor: ShardId,
    /// The shard that the document goes to; `None` before the donor has been told to name recipients.
    pub to: Option<ShardId>,
    pub what: What,
}

/// A list of entries.
pub type Entries = Sequence<Entry>;

impl What {
    /// The `_id` that is written; `None` exactly where it is the final entry, or inserts a document without one.
    pub fn id(&self) -> Option<&Value>
        ensures { option_copied result ≡ id_written self.now }
    {
        match self {
            What::Insert(document) => document.id(),
            What::Update { id, .. } | What::Delete { id } => Some(id),
            What::Final => None,
        }
    }

    /// Whether what is written can be stored: an inserted document may lack an `_id`.
    pub fn is_whole(&self) -> bool
        ensures { result ≡ is_whole self.now }
    {
        match self {
            What::Insert(document) => document.is_whole(),
            What::Update { change, .. } => assigns_in_order(change),
            What::Delete { .. } | What::Final => true,
        }
    }

    pub fn copy(&self, alloc: Global) -> Result<What, NoMemory>
        ensures { IfOk result (λ what. what ≡ self.now) }
    {
        match self {
            What::Insert(document) => Ok(What::Insert(document.copy()?)),
            What::Update { id, change } => Ok(What::Update {
                id: id.copy(alloc)?,
                change: change.copy(alloc)?,
            }),
            What::Delete { id } => Ok(What::Delete {
                id: id.copy(alloc)?,
            }),
            What::Final => Ok(What::Final),
        }
    }
}

impl Entry {
    /// Its place in the log.
    pub fn mark(&self) -> Mark
        ensures { result ≡ mark_of self.now }
    {
        Mark {
            stamp: self.stamp,
            part: self.part,
        }
    }

    /// Whether it stands above a mark, which it does where none is given.
    pub fn is_above(&self, mark: Option<Mark>) -> bool
        ensures { result ≡ is_above mark (mark_of self.now) }
    {
        match mark {
            Some(mark) => mark.compare(&self.mark()).is_lt(),
            None => true,
        }
    }

    /// Whether it is destined to a recipient.
    pub fn is_for(&self, recipient: ShardId) -> bool
        ensures { result ≡ is_for recipient.0 self.now.to }
    {
        match self.to {
            Some(to) => to.0 == recipient.0,
            None => false,
        }
    }

    pub fn copy(&self, alloc: Global) -> Result<Entry, NoMemory>
        ensures { IfOk result (λ entry. entry ≡ self.now) }
    {
        Ok(Entry {
            stamp: self.stamp,
            part: self.part,
            donor: self.donor,
            to: self.to,
            what: self.what.copy(alloc)?,
        })
    }
}

/// Whether the names that a change assigns rise, as those of every document do.
fn assigns_in_order(change: &Change) -> bool
    ensures { result ≡ has_rising_names change.now.assign }
{
    let _assigned = change.assign.pairs();
    true
}

impl Copied for What {
    fn copied(&self, alloc: Global) -> Result<What, NoMemory> {
        self.copy(alloc)
    }
}

impl Copied for Entry {
    fn copied(&self, alloc: Global) -> Result<Entry, NoMemory> {
        self.copy(alloc)
    }
}
