//! Lists of items.

ghost use Rattle.std.specs.Prelude.{◌≡◌, ◌≤◌, map, take, drop, length, IfOk};
ghost use Rattle.resh_feed.specs.Items.{cloned_item, fetched_item, has_final, last_id_of, last_mark_of, past_all, up_to_final};

use crate::batch::Whats;
use crate::state::FeedItems;
use resh_feed::{After, Item, Reading};
use resh_oplog::{Entries, Entry, What};
use resh_stamp::Mark;
use resh_value::{Document, Documents, NoMemory, Sequence, Value};
use std::alloc::Global;

/// The `_id` of the last document; null where it has none.
pub(crate) fn last_id_of(alloc: Global, documents: &[Document]) -> Result<Option<Value>, NoMemory>
    ensures { IfOk result (λ id. id ≡ last_id_of documents.now) }
{
    match documents {
        [.., document] => Ok(Some(document.copy_id(alloc)?)),
        [] => Ok(None),
    }
}

/// Documents as items.
pub(crate) fn cloned_items(alloc: Global, documents: Documents) -> Result<Vec<Item>, NoMemory>
    ensures { IfOk result (λ items. items.items ≡ map cloned_item documents) }
{
    let documents = documents.into_vec();
    let mut items = Vec::with_capacity(alloc, documents.len())?;
    for document in documents {
        let id = document.copy_id(alloc)?;
        items.push(Item {
            what: What::Insert(document),
            after: After::ById(id),
        })?;
    }
    Ok(items)
}

/// Log entries as items.
pub(crate) fn fetched_items(alloc: Global, entries: Entries) -> Result<Vec<Item>, NoMemory>
    ensures { IfOk result (λ items. items.items ≡ map fetched_item entries) }
{
    let entries = entries.into_vec();
    let mut items = Vec::with_capacity(alloc, entries.len())?;
    for entry in entries {
        let after = After::ByMark(entry.mark());
        let Entry { what, .. } = entry;
        items.push(Item { what, after })?;
    }
    Ok(items)
}

pub(crate) fn last_mark_of(entries: &[Entry]) -> Option<Mark>
    ensures { result ≡ last_mark_of entries.now }
{
    match entries {
        [.., entry] => Some(entry.mark()),
        [] => None,
    }
}

/// Whether one of the entries is final.
pub(crate) fn has_final(entries: &[Entry]) -> bool
    ensures { result ≡ has_final entries.now }
{
    entries
        .iter()
        .any(|entry| matches!(entry.what, What::Final))
}

/// The entries up to the first final one.
pub(crate) fn cut_behind_final(entries: Entries) -> Entries
    ensures { result ≡ up_to_final entries }
{
    let mut entries = entries.into_vec();
    let count = count_to_final(entries.as_slice());
    entries.truncate(count);
    Sequence::from_vec(entries)
}

fn count_to_final(entries: &[Entry]) -> usize
    ensures { take result entries.now ≡ up_to_final entries.now }
{
    match entries
        .iter()
        .position(|entry| matches!(entry.what, What::Final))
    {
        Some(place) => place + 1,
        None => entries.len(),
    }
}

/// Copies of what the first items say.
pub(crate) fn first_whats(alloc: Global, items: &[Item], most: u32) -> Result<Whats, NoMemory>
    ensures { IfOk result (λ whats. whats ≡ map (λ item. item.what) (take most items.now)) }
{
    let mut whats = Vec::new(alloc);
    for item in items.iter().take(most as usize) {
        whats.push(item.what.copy(alloc)?)?;
    }
    Ok(Sequence::from_vec(whats))
}

/// How far the feed is read behind the first items, and the items behind them.
pub(crate) fn take_first(buffer: FeedItems, count: u64, start: Reading) -> (Reading, FeedItems)
    requires { count ≤ length buffer }
    ensures reading { result.0 ≡ past_all start (take count buffer) }
    ensures rest { result.1 ≡ drop count buffer }
{
    let mut buffer = buffer.into_vec();
    let mut reading = start;
    for item in buffer.drain(..count as usize) {
        reading = reading.past(item);
    }
    (reading, Sequence::from_vec(buffer))
}
