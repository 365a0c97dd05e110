//! Writes of one document, to a stash or to one of several.

ghost use Rattle.std.specs.Prelude.{◌≡◌, ◌+◌, ◌<◌, ◌≤◌, IsTrue, is_some, length, codes, false, None, Some, OnOk, OnErr, position, map};
ghost use Rattle.std.specs.FinMap.{get, len};
ghost use Rattle.std.specs.Option.{option_map};
ghost use Rattle.resh_value.specs.Change.{is_named};
ghost use Rattle.resh_rules.specs.Pools.{documents_of, waiting_of};
ghost use Rattle.resh_rules.specs.Writes.{AltersAt, HasRoomAt, IsAltered, IsWritten, KeepsRoom, KeepsSpare, SparesOneLess, WritesAt, count_of, waits_in};

use resh_stash::Stash;
use resh_value::{Change, Document, NoMemory, Value};

/// Puts a document, for which there is room.
pub(crate) fn put(stash: &mut Stash, id: Value, document: Document)
    requires { 0 < stash.old.spare }
    ensures written { IsWritten stash.old.documents stash.new.documents id (Some document) }
    ensures spare { stash.old.spare ≤ stash.new.spare + 1 }
    ensures count { len stash.new.documents ≤ len stash.old.documents + 1 }
{
    let _ = stash.insert(id, document);
}

/// Puts a document in the place of the one of its `_id`, which needs no room.
pub(crate) fn replace(stash: &mut Stash, id: Value, document: Document)
    requires { IsTrue (is_some (get stash.old.documents id)) }
    ensures written { IsWritten stash.old.documents stash.new.documents id (Some document) }
    ensures spare { stash.old.spare ≤ stash.new.spare }
{
    let _ = stash.insert(id, document);
}

pub(crate) fn take(stash: &mut Stash, id: &Value) -> Option<(Value, Document)>
    ensures taken { result ≡ option_map (λ document. (id.now, document)) (get stash.old.documents id.now) }
    ensures written { IsWritten stash.old.documents stash.new.documents id.now None }
    ensures spare { stash.old.spare ≤ stash.new.spare }
    ensures count { len stash.new.documents ≤ len stash.old.documents }
{
    stash.remove(id)
}

/// Puts a document into one of several stashes.
pub(crate) fn put_at(stashes: &mut Vec<Stash>, place: usize, id: Value, document: Document)
    requires within { place < length stashes.old.items }
    requires room { HasRoomAt stashes.old.items place }
    ensures written { WritesAt stashes.old.items stashes.new.items place id (Some document) }
    ensures spare { SparesOneLess stashes.old.items stashes.new.items }
    ensures count { count_of stashes.new.items ≤ count_of stashes.old.items + 1 }
{
    put(&mut stashes[place], id, document);
}

/// Takes the document of an `_id` out of one of several stashes, which holds one.
pub(crate) fn take_at(stashes: &mut Vec<Stash>, place: usize, id: &Value) -> (Value, Document)
    requires within { place < length stashes.old.items }
    requires held { IsTrue (is_some (waits_in stashes.old.items place id.now)) }
    ensures id { result.0 ≡ id.now }
    ensures document { waits_in stashes.old.items place id.now ≡ Some result.1 }
    ensures written { WritesAt stashes.old.items stashes.new.items place id.now None }
    ensures spare { KeepsSpare stashes.old.items stashes.new.items }
    ensures count { count_of stashes.new.items ≤ count_of stashes.old.items }
{
    take(&mut stashes[place], id).unwrap()
}

/// Changes the document of an `_id`, if it is held. Want of memory leaves all as it was.
pub(crate) fn alter(stash: &mut Stash, id: &Value, change: &Change) -> Result<(), NoMemory>
    requires { is_named change.now.assign change.now.unset (codes "_id") ≡ false }
    ensures written { OnOk result (IsAltered stash.old.documents stash.new.documents id.now change.now) }
    ensures unchanged { OnErr result (stash.new ≡ stash.old) }
    ensures spare { stash.new.spare ≡ stash.old.spare }
    ensures count { len stash.new.documents ≡ len stash.old.documents }
{
    stash.apply(id, change)?;
    Ok(())
}

/// Changes the document of an `_id` in one of several stashes, if it holds it. Want of memory leaves all as it was.
pub(crate) fn alter_at(
    stashes: &mut Vec<Stash>,
    place: usize,
    id: &Value,
    change: &Change,
) -> Result<(), NoMemory>
    requires within { place < length stashes.old.items }
    requires others { is_named change.now.assign change.now.unset (codes "_id") ≡ false }
    ensures written { OnOk result (AltersAt stashes.old.items stashes.new.items place id.now change.now) }
    ensures unchanged { OnErr result (stashes.new.items ≡ stashes.old.items) }
    ensures room { KeepsRoom stashes.old.items stashes.new.items }
{
    alter(&mut stashes[place], id, change)?;
    Ok(())
}

/// The least place of a stash that holds an `_id`.
pub(crate) fn first_holding(stashes: &[Stash], id: &Value) -> Option<usize>
    ensures { result ≡ position is_some (waiting_of (documents_of stashes.now) id.now) }
{
    stashes.iter().position(|stash| stash.get(id).is_some())
}
