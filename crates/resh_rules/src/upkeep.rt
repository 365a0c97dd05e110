//! Making, reading and emptying a pool.

ghost use Rattle.std.specs.Prelude.{◌≡◌, ◌≤◌, ◌^◌, ◌-◌, length, min, replicate, IfOk, OnOk, OnErr, IsOk};
ghost use Rattle.std.specs.FinMap.{empty, values};
ghost use Rattle.std.specs.Option.{option_copied};
ghost use Rattle.resh_value.specs.Limits.{end_of_places};
ghost use Rattle.resh_rules.specs.Pools.{AreWhole, IsPool, cleared, documents_of, empty_pool, first_stashed, lesser, stashed};
ghost use Rattle.resh_rules.specs.Upkeep.{HaveRoom};
ghost use Rattle.resh_rules.specs.Writes.{KeepsSpare};

use crate::pool::Pool;
use resh_chunks::ChunkMap;
use resh_stash::Stash;
use resh_value::{Documents, END_OF_PLACES, NoMemory, Value, compare};
use std::alloc::Global;

impl Pool {
    /// A pool that holds nothing, with a stash for each of so many donors.
    pub fn new(alloc: Global, chunks: ChunkMap, donors: u32) -> Result<Pool, NoMemory>
        ensures { IfOk result (λ pool. pool.state ≡ empty_pool chunks donors) }
    {
        Ok(Pool {
            chunks,
            output: Stash::new(alloc),
            stashes: empty_stashes(alloc, donors)?,
        })
    }

    /// Makes room for so many inserts. Want of memory leaves what is held as it was; it can't come where there is the
    /// room.
    pub fn reserve(&mut self, n: u64) -> Result<(), NoMemory>
        ensures room { OnOk result (n ≤ self.new.spare) }
        ensures spare { self.old.spare ≤ self.new.spare }
        ensures kept { self.new.state ≡ self.old.state }
        ensures succeeds { n ≤ self.old.spare → IsOk result }
    {
        if END_OF_PLACES - self.stashed() < n {
            return Err(NoMemory);
        }
        self.output.reserve(n)?;
        reserve_all(&mut self.stashes, n)
    }

    /// The number of documents that wait.
    pub fn stashed(&self) -> u64
        ensures number { result ≡ stashed self.now.state.stashes }
        ensures most { result ≤ end_of_places }
        ensures pool { IsPool self.now.state }
    {
        count(self.stashes.as_slice())
    }

    /// The least `_id` of which a document waits; `None` exactly where none does.
    pub fn first_stashed(&self) -> Option<&Value>
        ensures { option_copied result ≡ first_stashed self.now.state.stashes }
    {
        first_of(self.stashes.as_slice())
    }

    /// Hands the output's documents out by `_id`; then the pool holds nothing. Want of memory leaves all as it was.
    pub fn finish(&mut self) -> Result<Documents, NoMemory>
        ensures ok { IfOk result (λ documents. documents ≡ values self.old.state.output) }
        ensures whole { IfOk result (λ documents. AreWhole documents) }
        ensures emptied { OnOk result (self.new.state ≡ cleared self.old.state) }
        ensures unchanged { OnErr result (self.new ≡ self.old) }
        ensures spare { self.old.spare ≤ self.new.spare }
    {
        let documents = self.output.take_all()?;
        clear_all(&mut self.stashes);
        Ok(documents)
    }

    /// Lets all documents go.
    pub fn clear(&mut self)
        ensures emptied { self.new.state ≡ cleared self.old.state }
        ensures spare { self.old.spare ≤ self.new.spare }
    {
        clear_all(&mut self.stashes);
        self.output.clear();
    }
}

fn empty_stashes(alloc: Global, donors: u32) -> Result<Vec<Stash>, NoMemory>
    ensures { IfOk result (λ stashes. documents_of stashes.items ≡ replicate donors empty) }
{
    let mut stashes = Vec::new(alloc);
    for _ in 0..donors {
        stashes.push(Stash::new(alloc))?;
    }
    Ok(stashes)
}

fn reserve_all(stashes: &mut Vec<Stash>, n: u64) -> Result<(), NoMemory>
    ensures room { OnOk result (HaveRoom stashes.new.items n) }
    ensures spare { KeepsSpare stashes.old.items stashes.new.items }
    ensures kept { documents_of stashes.new.items ≡ documents_of stashes.old.items }
    ensures succeeds { HaveRoom stashes.old.items n → IsOk result }
{
    for place in 0..stashes.len() {
        stashes[place].reserve(n)?;
    }
    Ok(())
}

fn clear_all(stashes: &mut Vec<Stash>)
    ensures emptied { documents_of stashes.new.items ≡ replicate (length stashes.old.items) empty }
    ensures spare { KeepsSpare stashes.old.items stashes.new.items }
{
    for place in 0..stashes.len() {
        stashes[place].clear();
    }
}

fn count(stashes: &[Stash]) -> u64
    ensures { result ≡ min (stashed (documents_of stashes.now)) (2 ^ 64 - 1) }
{
    let mut total: u64 = 0;
    let mut rest = stashes;
    while let [stash, later @ ..] = rest {
        total = total.saturating_add(stash.len());
        rest = later;
    }
    total
}

fn first_of(stashes: &[Stash]) -> Option<&Value>
    ensures { option_copied result ≡ first_stashed (documents_of stashes.now) }
{
    let mut least = None;
    let mut rest = stashes;
    while let [before @ .., last] = rest {
        least = lesser(last.first(), least);
        rest = before;
    }
    least
}

/// The lesser of two `_id`s, where there are any.
fn lesser<'a>(first: Option<&'a Value>, second: Option<&'a Value>) -> Option<&'a Value>
    ensures { option_copied result ≡ lesser (option_copied first.entry) (option_copied second.entry) }
{
    let Some(a) = first else {
        return second;
    };
    match second {
        Some(b) if compare(a, b).is_gt() => second,
        _ => first,
    }
}
