//! A write: its entries in the log, and what stands after it.

ghost use Rattle.std.specs.Prelude.{◌≡◌, [], ◌∷◌, ◌++◌, true, map, Some, OnOk, OnErr};
ghost use Rattle.std.specs.List.{range_with_len};
ghost use Rattle.resh_value.specs.Lookup.{id_of};
ghost use Rattle.resh_value.specs.Whole.{is_whole};
ghost use Rattle.resh_chunks.specs.Chunks.{owner_of};
ghost use Rattle.resh_oplog.specs.Logs.{fits, is_above, last_mark};
ghost use Rattle.resh_versions.specs.Chains.{version};
ghost use Rattle.resh_versions.specs.Standing.{with_removal, with_version};
ghost use Rattle.resh_shard.specs.Decisions.{IsWholeWrite};
ghost use Rattle.resh_shard.specs.Shards.{final_entry, is_later, is_next, wrote};
ghost use Rattle.resh_shard.specs.Writes.{entry_of, recipient, with_entries};

use crate::act::Write;
use crate::state::ShardState;
use resh_oplog::{Entry, Log, What};
use resh_stamp::Stamp;
use resh_value::{Change, Document, NoMemory, ShardId, Value};
use resh_versions::Versions;
use std::alloc::Global;

/// Makes a write and logs it. Want of memory leaves all as it was.
pub(crate) fn write(
    state: &mut ShardState,
    alloc: Global,
    stamp: Stamp,
    write: Write,
) -> Result<(), NoMemory>
    requires next { is_next state.old stamp ≡ true }
    requires whole { IsWholeWrite write }
    ensures ok { OnOk result (state.new ≡ wrote stamp 0 write state.old) }
    ensures unchanged { OnErr result (state.new ≡ state.old) }
{
    match write {
        Write::Puts(document) => put(state, stamp, 0, document),
        Write::Takes(document) => take(state, alloc, stamp, document),
        Write::Turns {
            before,
            change,
            after,
        } => turn(state, alloc, stamp, before, change, after),
        Write::Rekeys { before, after } => rekey(state, alloc, stamp, before, after),
    }
}

/// Puts a document; its entry has this part.
pub(crate) fn put(
    state: &mut ShardState,
    stamp: Stamp,
    part: u32,
    document: Document,
) -> Result<(), NoMemory>
    requires next { is_next state.old stamp ≡ true }
    requires whole { is_whole document ≡ true }
    ensures ok { OnOk result (state.new ≡ wrote stamp part (Write.Puts document) state.old) }
    ensures unchanged { OnErr result (state.new ≡ state.old) }
{
    let what = What::Insert(document.copy()?);
    let entry = entry(state, stamp, part, &document, what);
    log_and_put(&mut state.log, &mut state.versions, entry, document)
}

/// Takes a document out.
pub(crate) fn take(
    state: &mut ShardState,
    alloc: Global,
    stamp: Stamp,
    document: Document,
) -> Result<(), NoMemory>
    requires next { is_next state.old stamp ≡ true }
    ensures ok { OnOk result (state.new ≡ wrote stamp 0 (Write.Takes document) state.old) }
    ensures unchanged { OnErr result (state.new ≡ state.old) }
{
    let id = document.copy_id(alloc)?;
    let what = What::Delete {
        id: document.copy_id(alloc)?,
    };
    let entry = entry(state, stamp, 0, &document, what);
    log_and_remove(&mut state.log, &mut state.versions, entry, &id)
}

/// Puts a changed document in the place of the one before.
fn turn(
    state: &mut ShardState,
    alloc: Global,
    stamp: Stamp,
    before: Document,
    change: Change,
    after: Document,
) -> Result<(), NoMemory>
    requires next { is_next state.old stamp ≡ true }
    requires whole { IsWholeWrite (Write.Turns before change after) }
    ensures ok { OnOk result (state.new ≡ wrote stamp 0 (Write.Turns before change after) state.old) }
    ensures unchanged { OnErr result (state.new ≡ state.old) }
{
    let id = before.copy_id(alloc)?;
    let entry = entry(state, stamp, 0, &before, What::Update { id, change });
    log_and_put(&mut state.log, &mut state.versions, entry, after)
}

/// Puts a document in the place of the one before, as a delete and an insert.
fn rekey(
    state: &mut ShardState,
    alloc: Global,
    stamp: Stamp,
    before: Document,
    after: Document,
) -> Result<(), NoMemory>
    requires next { is_next state.old stamp ≡ true }
    requires whole { is_whole after ≡ true }
    ensures ok { OnOk result (state.new ≡ wrote stamp 0 (Write.Rekeys before after) state.old) }
    ensures unchanged { OnErr result (state.new ≡ state.old) }
{
    let id = before.copy_id(alloc)?;
    let delete = entry(state, stamp, 0, &before, What::Delete { id });
    let what = What::Insert(after.copy()?);
    let insert = entry(state, stamp, 1, &after, what);
    log_both_and_put(&mut state.log, &mut state.versions, delete, insert, after)
}

/// An entry of a write, destined to the new owner of a document once entries name recipients.
fn entry(state: &ShardState, stamp: Stamp, part: u32, owned: &Document, what: What) -> Entry
    ensures { result ≡ entry_of state.now.names state.now.log.donor stamp part
        (owner_of state.now.new_map owned.now, what) }
{
    Entry {
        stamp,
        part,
        donor: state.id(),
        to: recipient(state, owned),
        what,
    }
}

/// The new owner of a document, once entries name recipients.
fn recipient(state: &ShardState, owned: &Document) -> Option<ShardId>
    ensures { result ≡ recipient state.now.names (owner_of state.now.new_map owned.now) }
{
    if state.names {
        return Some(state.new_map.owner_of(owned));
    }
    None
}

/// Logs an entry, and puts a document from its time on.
fn log_and_put(
    log: &mut Log,
    versions: &mut Versions,
    entry: Entry,
    document: Document,
) -> Result<(), NoMemory>
    requires fits { fits log.old.entries entry ≡ true }
    requires whole { is_whole document ≡ true }
    ensures log { OnOk result (log.new ≡ with_entries log.old (entry ∷ [])) }
    ensures versions { OnOk result
        (versions.new ≡ with_version versions.old (id_of document) (version entry.stamp.time (Some document))) }
    ensures same_log { OnErr result (log.new ≡ log.old) }
    ensures same_versions { OnErr result (versions.new ≡ versions.old) }
{
    let time = entry.stamp.time;
    log.push(entry)?;
    if let Err(refused) = versions.put(time, document) {
        log.undo(1);
        return Err(refused);
    }
    Ok(())
}

/// Logs two entries, and puts a document from their time on.
fn log_both_and_put(
    log: &mut Log,
    versions: &mut Versions,
    first: Entry,
    second: Entry,
    document: Document,
) -> Result<(), NoMemory>
    requires first { fits log.old.entries first ≡ true }
    requires second { fits (log.old.entries ++ first ∷ []) second ≡ true }
    requires whole { is_whole document ≡ true }
    ensures log { OnOk result (log.new ≡ with_entries log.old (first ∷ second ∷ [])) }
    ensures versions { OnOk result
        (versions.new ≡ with_version versions.old (id_of document) (version second.stamp.time (Some document))) }
    ensures same_log { OnErr result (log.new ≡ log.old) }
    ensures same_versions { OnErr result (versions.new ≡ versions.old) }
{
    log.push(first)?;
    if let Err(refused) = log_and_put(log, versions, second, document) {
        log.undo(1);
        return Err(refused);
    }
    Ok(())
}

/// Logs an entry, and takes the document of an `_id` out from its time on.
fn log_and_remove(
    log: &mut Log,
    versions: &mut Versions,
    entry: Entry,
    id: &Value,
) -> Result<(), NoMemory>
    requires { fits log.old.entries entry ≡ true }
    ensures log { OnOk result (log.new ≡ with_entries log.old (entry ∷ [])) }
    ensures versions { OnOk result (versions.new ≡ with_removal versions.old entry.stamp.time id.now) }
    ensures same_log { OnErr result (log.new ≡ log.old) }
    ensures same_versions { OnErr result (versions.new ≡ versions.old) }
{
    let time = entry.stamp.time;
    log.push(entry)?;
    if let Err(refused) = versions.remove(time, id) {
        log.undo(1);
        return Err(refused);
    }
    Ok(())
}

/// Logs a final entry for each of so many shards.
pub(crate) fn log_finals(log: &mut Log, stamp: Stamp, shards: u32) -> Result<(), NoMemory>
    requires { is_later (last_mark log.old.entries) stamp ≡ true }
    ensures ok { OnOk result (log.new ≡ with_entries log.old
        (map (final_entry log.old.donor stamp) (range_with_len 0 shards))) }
    ensures unchanged { OnErr result (log.new ≡ log.old) }
{
    for shard in 0..shards {
        if let Err(refused) = log_final(log, stamp, shard) {
            log.undo(shard as u64);
            return Err(refused);
        }
    }
    Ok(())
}

/// Logs a final entry for a shard.
fn log_final(log: &mut Log, stamp: Stamp, shard: u32) -> Result<(), NoMemory>
    requires { is_above (last_mark log.old.entries) (record { stamp = stamp; part = shard }) ≡ true }
    ensures ok { OnOk result (log.new ≡ with_entries log.old (final_entry log.old.donor stamp shard ∷ [])) }
    ensures unchanged { OnErr result (log.new ≡ log.old) }
{
    log.push(Entry {
        stamp,
        part: shard,
        donor: log.donor(),
        to: Some(ShardId(shard)),
        what: What::Final,
    })
}
