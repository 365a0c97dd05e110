ghost use Rattle.std.specs.Prelude.{◌≡◌, ◌-◌, ◌≤◌, ◌++◌, [], ◌∷◌, true, filter, length, take, IfOk, OnOk, OnErr};
ghost use Rattle.resh_oplog.specs.Logs.{AreWhole, IsLog, entries_after, fits, is_for, last_mark};

use crate::entry::{Entries, Entry};
use resh_stamp::Mark;
use resh_value::{NoMemory, Sequence, ShardId};
use std::alloc::Global;
use std::marker::Model;

/// A donor's entries, by rising mark, which contracts see as the list of them.
#[derive(Debug, Drop)]
pub struct Log {
    donor: ShardId,
    entries: Vec<Entry>,
}

impl Model for Log {
    ghost use Rattle.resh_oplog.specs.Logs.{LogOf, log_code, IsLog};

    ghost Value = { LogOf };

    ghost coded = { log_code };

    ghost view = { λ l. record { donor = l.donor; entries = l.entries.items } };

    ghost invariant = { λ l. IsLog l.entries.items };
}

impl Log {
    /// A donor's log without entries; it keeps the allocator.
    pub fn new(alloc: Global, donor: ShardId) -> Log
        ensures { result ≡ record { donor = donor; entries = [] } }
    {
        Log {
            donor,
            entries: Vec::new(alloc),
        }
    }

    pub fn donor(&self) -> ShardId
        ensures { result ≡ self.now.donor }
    {
        self.donor
    }

    /// The entries by rising mark.
    pub fn entries(&self) -> &[Entry]
        ensures entries { result.now ≡ self.now.entries }
        ensures log { IsLog self.now.entries }
    {
        self.entries.as_slice()
    }

    pub fn len(&self) -> u64
        ensures { result ≡ length self.now.entries }
    {
        self.entries.len() as u64
    }

    /// Whether an entry may be put at the end: its mark is above the last, and what it writes is whole.
    pub fn fits(&self, entry: &Entry) -> bool
        ensures { result ≡ fits self.now.entries entry.now }
    {
        entry.is_above(self.last_mark()) && entry.what.is_whole()
    }

    /// The mark of the last entry; `None` exactly where there is none.
    pub fn last_mark(&self) -> Option<Mark>
        ensures { result ≡ last_mark self.now.entries }
    {
        match self.entries.last() {
            Some(entry) => Some(entry.mark()),
            None => None,
        }
    }

    /// Puts an entry at the end. Want of memory leaves the log as it was.
    pub fn push(&mut self, entry: Entry) -> Result<(), NoMemory>
        requires { fits self.old.entries entry ≡ true }
        ensures ok { OnOk result (self.new ≡ record self.old { entries = self.old.entries ++ entry ∷ [] }) }
        ensures unchanged { OnErr result (self.new ≡ self.old) }
    {
        self.entries.push(entry)?;
        Ok(())
    }

    /// Drops the last `most` entries.
    pub fn undo(&mut self, most: u64)
        requires { most ≤ length self.old.entries }
        ensures { self.new ≡ record self.old { entries = take (length self.old.entries - most) self.old.entries } }
    {
        let left = self.entries.len() - most as usize;
        self.entries.truncate(left);
    }

    /// Copies of the first `most` entries above a mark that are destined to a recipient.
    pub fn after(&self, mark: Option<Mark>, to: ShardId, most: u32) -> Result<Entries, NoMemory>
        ensures first { IfOk result (λ entries. entries ≡ take most (entries_after mark to.0 self.now.entries)) }
        ensures whole { IfOk result (λ entries. AreWhole entries) }
    {
        let entries = self.entries.as_slice();
        let start = entries.partition_point(|entry| !entry.is_above(mark));
        let (_, above) = entries.split_at(start);
        copies_for(*self.entries.allocator(), above, to, most)
    }
}

fn copies_for(alloc: Global, entries: &[Entry], to: ShardId, most: u32) -> Result<Entries, NoMemory>
    ensures { IfOk result (λ copies. copies ≡ take most (filter (λ entry. is_for to.0 entry.to) entries.now)) }
{
    let mut copies = Vec::new(alloc);
    for entry in entries
        .iter()
        .filter(|entry| entry.is_for(to))
        .take(most as usize)
    {
        copies.push(entry.copy(alloc)?)?;
    }
    Ok(Sequence::from_vec(copies))
}
