//! The collection as it is kept: documents by `_id` and shard.

ghost use Rattle.std.specs.Prelude.{◌≡◌, ◌+◌, ◌<◌, ◌≤◌, length, map, vec_len, vec_capacity, IsOk, IfOk, IfSome, OnOk, OnErr, MatchResult};
ghost use Rattle.std.specs.FinMap.{empty};
ghost use Rattle.std.specs.Option.{option_copied};
ghost use Rattle.resh_value.specs.Lookup.{id_of};
ghost use Rattle.resh_bag.specs.Bag.{place_cmp, held, put, without, documents, opening_bag};
ghost use Rattle.resh_model.specs.Entries.{IsInOrder, gathered, StandsAt, GoesTo};

use resh_chunks::ChunkMap;
use resh_value::{Document, Documents, NoMemory, Sequence, ShardId, Value, compare};
use std::alloc::Global;
use std::cmp::Ordering;
use std::marker::Model;

/// A document and the shard that holds it.
#[derive(Debug, Drop)]
pub(crate) struct Entry {
    pub(crate) shard: ShardId,
    pub(crate) document: Document,
}

/// Documents by `_id` and shard, which contracts see as the bag that they are.
#[derive(Debug, Drop)]
pub(crate) struct Collection {
    entries: Vec<Entry>,
}

impl Model for Collection {
    ghost use Rattle.std.specs.Coded.{coded_list, coded×, coded_ℕ};
    ghost use Rattle.std.specs.FinMap.{code};
    ghost use Rattle.resh_value.specs.contracts.value.Value as value;
    ghost use Rattle.resh_bag.specs.Bag.{Bag};
    ghost use Rattle.resh_model.specs.Entries.{IsInOrder, gathered};

    ghost Value = { Bag };

    ghost coded = { code (coded× value.the_row.coded coded_ℕ)
        (coded_list (coded× (coded_list coded_ℕ) value.the_row.coded)) };

    ghost view = { λ c. gathered c.entries.items };

    ghost invariant = { λ c. IsInOrder c.entries.items };
}

impl Collection {
    /// No document yet.
    pub(crate) fn new(alloc: Global) -> Collection
        ensures { result ≡ empty }
    {
        Collection {
            entries: Vec::new(alloc),
        }
    }

    /// Each document under the shard that the map gives it; of two with one place the earlier one.
    pub(crate) fn opening(
        alloc: Global,
        map: &ChunkMap,
        documents: &[Document],
    ) -> Result<Collection, NoMemory>
        ensures { IfOk result (λ c. c ≡ opening_bag map.now documents.now) }
    {
        let mut collection = Collection::new(alloc);
        let mut place = documents.len();
        while place > 0 {
            place -= 1;
            let document = &documents[place];
            collection.put(map.owner_of(document), document.copy()?)?;
        }
        Ok(collection)
    }

    /// The entries by `_id` and shard.
    pub(crate) fn entries(&self) -> &[Entry]
        ensures { map (λ e. e.document) result.now ≡ documents self.now }
    {
        self.entries.as_slice()
    }

    /// Copies of the documents by `_id` and shard.
    pub(crate) fn documents(&self, alloc: Global) -> Result<Documents, NoMemory>
        ensures { IfOk result (λ ds. ds ≡ documents self.now) }
    {
        copies_of(alloc, self.entries())
    }

    /// The document that the shard holds under an `_id`; `None` exactly where it holds none.
    pub(crate) fn held(&self, shard: ShardId, id: &Value) -> Option<&Document>
        ensures held { option_copied result ≡ held self.now shard.0 id.now }
        ensures named { IfSome result (λ document. id_of document.now ≡ id.now) }
    {
        let entries = self.entries.as_slice();
        match place_of(entries, shard, id) {
            Ok(place) => Some(&entries[place].document),
            Err(_) => None,
        }
    }

    /// The document that the shard holds under another's `_id`.
    pub(crate) fn held_like(&self, shard: ShardId, document: &Document) -> Option<&Document>
        ensures { option_copied result ≡ held self.now shard.0 (id_of document.now) }
    {
        let null = Value::Null;
        self.held(shard, document.id_or(&null))
    }

    /// Puts a document on a shard, in the place of the one of its `_id`. Want of memory leaves all as it was.
    pub(crate) fn put(&mut self, shard: ShardId, document: Document) -> Result<(), NoMemory>
        ensures ok { OnOk result (self.new ≡ put self.old shard.0 document) }
        ensures unchanged { OnErr result (self.new ≡ self.old) }
    {
        put_entry(&mut self.entries, Entry { shard, document })
    }

    /// Takes the document of an `_id` from a shard and puts one on a shard. Want of memory leaves all as it was.
    pub(crate) fn replace(
        &mut self,
        shard: ShardId,
        id: &Value,
        target: ShardId,
        document: Document,
    ) -> Result<(), NoMemory>
        ensures ok { OnOk result (self.new ≡ put (without self.old shard.0 id.now) target.0 document) }
        ensures unchanged { OnErr result (self.new ≡ self.old) }
    {
        let entry = Entry {
            shard: target,
            document,
        };
        replace_entry(&mut self.entries, shard, id, entry)
    }

    /// Takes the document of an `_id` from a shard, if it holds one.
    pub(crate) fn without(&mut self, shard: ShardId, id: &Value)
        ensures { self.new ≡ without self.old shard.0 id.now }
    {
        take_entry(&mut self.entries, shard, id);
    }
}

/// The place of the entry of a shard and an `_id`, or else the one where it would be put.
fn place_of(entries: &[Entry], shard: ShardId, id: &Value) -> Result<usize, usize>
    requires { IsInOrder entries.now }
    ensures { MatchResult result (StandsAt entries.now shard.0 id.now) (GoesTo entries.now shard.0 id.now) }
{
    let mut low = 0;
    let mut high = entries.len();
    while low < high {
        let middle = low + (high - low) / 2;
        match compare_place(shard, id, &entries[middle]) {
            Ordering::Equal => return Ok(middle),
            Ordering::Less => high = middle,
            Ordering::Greater => low = middle + 1,
        }
    }
    Err(low)
}

/// How a shard and an `_id` stand to those of an entry.
fn compare_place(shard: ShardId, id: &Value, entry: &Entry) -> Ordering
    ensures { result ≡ place_cmp (id.now, shard.0) (id_of entry.now.document, entry.now.shard.0) }
{
    let null = Value::Null;
    compare(id, entry.document.id_or(&null)).then(shard.0.cmp(&entry.shard.0))
}

/// Puts an entry in its place. It needs no memory where the list has room.
fn put_entry(entries: &mut Vec<Entry>, entry: Entry) -> Result<(), NoMemory>
    requires { IsInOrder entries.old.items }
    ensures ok { OnOk result (gathered entries.new.items ≡ put
        (gathered entries.old.items) entry.shard.0 entry.document) }
    ensures unchanged { OnErr result (entries.new.items ≡ entries.old.items) }
    ensures rises { IsInOrder entries.new.items }
    ensures room { vec_len entries.old < vec_capacity entries.old → IsOk result }
{
    let null = Value::Null;
    match place_of(entries.as_slice(), entry.shard, entry.document.id_or(&null)) {
        Ok(place) => {
            entries[place] = entry;
            Ok(())
        }
        Err(place) => {
            entries.insert(place, entry)?;
            Ok(())
        }
    }
}

/// Takes the entry of a shard and an `_id` out, if there is one.
fn take_entry(entries: &mut Vec<Entry>, shard: ShardId, id: &Value)
    requires { IsInOrder entries.old.items }
    ensures rest { gathered entries.new.items ≡ without (gathered entries.old.items) shard.0 id.now }
    ensures rises { IsInOrder entries.new.items }
    ensures shrunk { vec_len entries.new ≤ vec_len entries.old }
    ensures capacity { vec_capacity entries.new ≡ vec_capacity entries.old }
{
    match place_of(entries.as_slice(), shard, id) {
        Ok(place) => {
            entries.remove(place);
        }
        Err(_) => {}
    }
}

/// Takes an entry out and puts one. Room is found first, so want of memory leaves all as it was.
fn replace_entry(
    entries: &mut Vec<Entry>,
    shard: ShardId,
    id: &Value,
    entry: Entry,
) -> Result<(), NoMemory>
    requires { IsInOrder entries.old.items }
    ensures ok { OnOk result (gathered entries.new.items ≡ put
        (without (gathered entries.old.items) shard.0 id.now) entry.shard.0 entry.document) }
    ensures unchanged { OnErr result (entries.new.items ≡ entries.old.items) }
    ensures rises { IsInOrder entries.new.items }
{
    entries.reserve(1)?;
    take_entry(entries, shard, id);
    let _ = put_entry(entries, entry);
    Ok(())
}

fn copies_of(alloc: Global, entries: &[Entry]) -> Result<Documents, NoMemory>
    ensures { IfOk result (λ ds. ds ≡ map (λ e. e.document) entries.now) }
{
    let mut copies = Vec::with_capacity(alloc, entries.len())?;
    for entry in entries {
        copies.push(entry.document.copy()?)?;
    }
    Ok(Sequence::from_vec(copies))
}
