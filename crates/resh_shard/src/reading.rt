//! What a shard holds for a filter.

ghost use Rattle.std.specs.Prelude.{◌≡◌, ◌+◌, length, take, filter, IfOk, IfSome, None};
ghost use Rattle.std.specs.Option.{is_some, option_copied};
ghost use Rattle.resh_value.specs.Lookup.{id_of};
ghost use Rattle.resh_chunks.specs.Chunks.{owner_of};
ghost use Rattle.resh_filter.specs.Filters.{matches};
ghost use Rattle.resh_versions.specs.Chains.{IsStored};
ghost use Rattle.resh_versions.specs.Standing.{IsFiled, StandsUnder, now, standing_now};
ghost use Rattle.resh_bag.specs.Answer.{hit};
ghost use Rattle.resh_bag.specs.Bag.{held};
ghost use Rattle.resh_shard.specs.Shards.{bag_of, map_of, number_of};

use crate::state::ShardState;
use resh_filter::Filter;
use resh_value::{Document, Documents, NoMemory, Sequence, Value};
use resh_versions::Versions;
use std::alloc::Global;

/// So many documents are shown of those that match.
const MOST_SHOWN: usize = 10;

/// The document that the shard holds under an `_id`.
pub(crate) fn held<'a>(state: &'a ShardState, id: &Value) -> Option<&'a Document>
    ensures now { option_copied result ≡ now state.now.versions id.now }
    ensures held { option_copied result ≡ held (bag_of state.now) (number_of state.now) id.now }
    ensures stands { IfSome result (λ document. StandsUnder id.now document.now) }
    ensures filed { IsFiled state.now.versions.chains }
{
    let _floor = state.versions.floor();
    state.versions.now(id)
}

/// Whether the shard holds a document's `_id`.
pub(crate) fn is_held(state: &ShardState, document: &Document) -> bool
    ensures held { result ≡ is_some (now state.now.versions (id_of document.now)) }
    ensures filed { IsFiled state.now.versions.chains }
{
    let null = Value::Null;
    held(state, document.id_or(&null)).is_some()
}

/// The document of the filter's `_id`, where this shard owns the filter's key and the document matches.
pub(crate) fn hit<'a>(state: &'a ShardState, filter: &Filter) -> Option<&'a Document>
    ensures hit { option_copied result ≡ hit (map_of state.now) (bag_of state.now) filter.now }
    ensures owned { IfSome result (λ document. owner_of (map_of state.now) filter.now ≡ number_of state.now) }
    ensures whole { IfSome result (λ document. IsStored document.now) }
{
    let null = Value::Null;
    let fields = filter.fields();
    if !state.owns(fields) {
        return None;
    }
    match held(state, fields.id_or(&null)) {
        None => None,
        Some(document) => {
            if filter.matches(document) {
                return Some(document);
            }
            None
        }
    }
}

/// The number of documents that match.
pub(crate) fn count(versions: &Versions, wanted: &Filter) -> Result<u64, NoMemory>
    ensures count { IfOk result
        (λ count. count ≡ length (filter (matches wanted.now) (standing_now versions.now None))) }
    ensures filed { IsFiled versions.now.chains }
{
    let _floor = versions.floor();
    let mut count: u64 = 0;
    for _ in versions
        .walk_now(None)
        .filter(|document| wanted.matches(*document))
    {
        count = one_more(count)?;
    }
    Ok(count)
}

/// The number behind; want of memory where there is none.
fn one_more(count: u64) -> Result<u64, NoMemory>
    ensures { IfOk result (λ more. more ≡ count + 1) }
{
    match count.checked_add(1) {
        Some(more) => Ok(more),
        None => Err(NoMemory),
    }
}

/// Copies of the first documents that match, by `_id`, ten at most.
pub(crate) fn first(
    alloc: Global,
    versions: &Versions,
    wanted: &Filter,
) -> Result<Documents, NoMemory>
    ensures { IfOk result (λ first. first ≡ take 10 (filter (matches wanted.now) (standing_now versions.now None))) }
{
    let mut first = Vec::new(alloc);
    for document in versions
        .walk_now(None)
        .filter(|document| wanted.matches(*document))
        .take(MOST_SHOWN)
    {
        first.push(document.copy()?)?;
    }
    Ok(Sequence::from_vec(first))
}
