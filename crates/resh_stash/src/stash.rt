ghost use Rattle.std.specs.Prelude.{◌≡◌, ◌+◌, ◌<◌, ◌≤◌, ◌↔◌, [], vec_capacity, None, Some, IsTrue, is_some, IsOk, IfOk, IfErr, OnOk, OnErr, false, codes};
ghost use Rattle.std.specs.Option.{option_copied, option_map};
ghost use Rattle.std.specs.FinMap.{empty, get, contains_key, insert, remove, len, values};
ghost use Rattle.indexmap.specs.IndexMap as table;
ghost use Rattle.indexmap.specs.IndexMap.{index_map_len, spare};
ghost use Rattle.resh_value.specs.Change.{is_named};
ghost use Rattle.resh_stash.specs.Stored.{applied, first_id, gathered};

use indexmap::IndexMap;
use resh_value::{Change, Document, Documents, NoMemory, Sequence, Value};
use std::alloc::Global;
use std::marker::Model;
use std::mem;

/// Documents by `_id`. Room for new ones can be kept ready, so that putting them needs no memory.
#[derive(Debug, Drop)]
pub struct Stash {
    // By the default hasher: one with a random seed would need a handle of the runtime.
    documents: IndexMap<Value, Document>,
    // So many new documents surely fit. The table may have more room, which a failed call doesn't tell.
    room: u64,
}

impl Model for Stash {
    ghost use Rattle.std.specs.Prelude.{◌≤◌};
    ghost use Rattle.indexmap.specs.IndexMap.{spare};
    ghost use Rattle.resh_stash.specs.Stored.{StashOf, stash_code, gathered};

    ghost Value = { StashOf };

    ghost coded = { stash_code };

    ghost view = { λ s. record { documents = gathered s.documents.entries; spare = s.room } };

    ghost invariant = { λ s. s.room ≤ spare s.documents };
}

impl Stash {
    /// No document yet; it keeps the allocator.
    pub fn new(alloc: Global) -> Stash
        ensures { result.documents ≡ empty }
    {
        Stash {
            documents: IndexMap::new(alloc),
            room: 0,
        }
    }

    /// Makes room for so many new documents. Want of memory leaves all as it was; it can't come where there is the
    /// room.
    pub fn reserve(&mut self, n: u64) -> Result<(), NoMemory>
        ensures room { OnOk result (n ≤ self.new.spare) }
        ensures kept { self.new.documents ≡ self.old.documents }
        ensures spare { self.old.spare ≤ self.new.spare }
        ensures unchanged { OnErr result (self.new ≡ self.old) }
        ensures succeeds { n ≤ self.old.spare → IsOk result }
    {
        if n <= self.room {
            return Ok(());
        }
        self.documents.reserve(n as usize)?;
        self.room = n;
        Ok(())
    }

    /// Puts a document under its `_id` and gives the one that stood there. Want of memory hands it back and leaves all
    /// as it was; it can't come where the `_id` is held or there is room.
    pub fn insert(&mut self, id: Value, document: Document) -> Result<Option<Document>, Document>
        ensures ok { OnOk result (self.new.documents ≡ insert self.old.documents id document) }
        ensures before { IfOk result (λ old. old ≡ get self.old.documents id) }
        ensures unchanged { OnErr result (self.new ≡ self.old) }
        ensures handed_back { IfErr result (λ back. back ≡ document) }
        ensures new { OnErr result (get self.old.documents id ≡ None) }
        ensures room { 0 < self.old.spare → IsOk result }
        ensures spare { self.old.spare ≤ self.new.spare + 1 }
        ensures held { IfOk result (λ old. IsTrue (is_some old) → self.old.spare ≤ self.new.spare) }
    {
        match replace(&mut self.documents, &id, document) {
            Ok(old) => Ok(Some(old)),
            Err(document) => match self.documents.insert(id, document) {
                Ok(_) => {
                    self.room = self.room.saturating_sub(1);
                    Ok(None)
                }
                Err(failed) => Err(failed.value.1),
            },
        }
    }

    /// Takes the document of an `_id` out; `None` exactly where none is held.
    pub fn remove(&mut self, id: &Value) -> Option<(Value, Document)>
        ensures taken { result ≡ option_map (λ document. (id.now, document)) (get self.old.documents id.now) }
        ensures rest { self.new.documents ≡ remove self.old.documents id.now }
        ensures spare { self.old.spare ≤ self.new.spare }
    {
        self.documents.swap_remove_entry(id)
    }

    pub fn get(&self, id: &Value) -> Option<&Document>
        ensures { option_copied result ≡ get self.now.documents id.now }
    {
        self.documents.get(id)
    }

    /// Changes the document of an `_id`; false exactly where none is held. Want of memory leaves all as it was; it
    /// can't come where none is held.
    pub fn apply(&mut self, id: &Value, change: &Change) -> Result<bool, NoMemory>
        requires { is_named change.now.assign change.now.unset (codes "_id") ≡ false }
        ensures held { IfOk result (λ held. held ≡ contains_key self.old.documents id.now) }
        ensures ok { OnOk result (self.new.documents ≡ applied self.old.documents id.now change.now) }
        ensures unchanged { OnErr result (self.new ≡ self.old) }
        ensures wanted { OnErr result (IsTrue (contains_key self.old.documents id.now)) }
        ensures spare { self.new.spare ≡ self.old.spare }
    {
        change_held(&mut self.documents, id, change)
    }

    /// The number of documents.
    pub fn len(&self) -> u64
        ensures { result ≡ len self.now.documents }
    {
        self.documents.len() as u64
    }

    /// The least `_id`; `None` exactly where nothing is held.
    pub fn first(&self) -> Option<&Value>
        ensures first { option_copied result ≡ first_id self.now.documents }
        ensures none { (result ≡ None) ↔ (self.now.documents ≡ empty) }
    {
        self.documents.keys().min()
    }

    /// Hands all documents out by `_id` and is empty then. Want of memory leaves all as it was.
    pub fn take_all(&mut self) -> Result<Documents, NoMemory>
        ensures ok { IfOk result (λ documents. documents ≡ values self.old.documents) }
        ensures emptied { OnOk result (self.new.documents ≡ empty) }
        ensures unchanged { OnErr result (self.new ≡ self.old) }
        ensures spare { self.old.spare ≤ self.new.spare }
    {
        let mut documents = Vec::with_capacity(*self.documents.allocator(), self.documents.len())?;
        self.documents.sort_unstable_keys()?;
        move_all(&mut self.documents, &mut documents);
        Ok(Sequence::from_vec(documents))
    }

    /// Lets all documents go.
    pub fn clear(&mut self)
        ensures documents { self.new.documents ≡ empty }
        ensures spare { self.old.spare ≤ self.new.spare }
    {
        self.documents.clear();
    }
}

/// Puts a document in the place of the one of an `_id`, which it gives; where none is held it hands the document back.
fn replace(
    map: &mut IndexMap<Value, Document>,
    id: &Value,
    document: Document,
) -> Result<Document, Document>
    ensures replaced { OnOk result (gathered map.new.entries ≡ insert (gathered map.old.entries) id.now document) }
    ensures before { IfOk result (λ old. get (gathered map.old.entries) id.now ≡ Some old) }
    ensures missing { OnErr result (get (gathered map.old.entries) id.now ≡ None) }
    ensures unchanged { OnErr result (gathered map.new.entries ≡ gathered map.old.entries) }
    ensures handed_back { IfErr result (λ back. back ≡ document) }
    ensures room { spare map.new ≡ spare map.old }
{
    match map.get_mut(id) {
        Some(held) => Ok(mem::replace(held, document)),
        None => Err(document),
    }
}

/// Changes the document of an `_id`; false where none is held.
fn change_held(
    map: &mut IndexMap<Value, Document>,
    id: &Value,
    change: &Change,
) -> Result<bool, NoMemory>
    ensures held { IfOk result (λ held. held ≡ contains_key (gathered map.old.entries) id.now) }
    ensures ok { OnOk result (gathered map.new.entries ≡ applied (gathered map.old.entries) id.now change.now) }
    ensures unchanged { OnErr result (gathered map.new.entries ≡ gathered map.old.entries) }
    ensures wanted { OnErr result (IsTrue (contains_key (gathered map.old.entries) id.now)) }
    ensures room { spare map.new ≡ spare map.old }
{
    match map.get_mut(id) {
        Some(held) => {
            held.apply_change(change)?;
            Ok(true)
        }
        None => Ok(false),
    }
}

/// Moves all documents into an empty list that has room for them, in their order.
fn move_all(documents: &mut IndexMap<Value, Document>, list: &mut Vec<Document>)
    requires empty { list.old.items ≡ [] }
    requires fits { index_map_len documents.old ≤ vec_capacity list.old }
    ensures moved { list.new.items ≡ table.values documents.old }
    ensures emptied { documents.new.entries ≡ [] }
    ensures room { spare documents.old ≤ spare documents.new }
{
    while let Some((_, document)) = documents.pop() {
        list.push(document).unwrap();
    }
    list.reverse();
}
