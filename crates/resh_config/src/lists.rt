//! Lists in a JSON value, read item by item.

ghost use Rattle.std.specs.Prelude.{◌≡◌, List, []};
ghost use Rattle.serde_json.specs.Data.{Data};
ghost use Rattle.serde_json.specs.View.{view, items_view};
ghost use Rattle.resh_value.specs.Outcome.{Gives};
ghost use Rattle.resh_config.specs.Faults.{Read};
ghost use Rattle.resh_config.specs.Walk.{count, items_from, list_in, some_of};

use crate::faults::{Fault, over_limit, wrong_kind};
use resh_value::{Sequence, WalkFault};
use serde_json::Value as Json;
use std::alloc::Global;

/// What reads the items of a list, each with those before it in sight.
pub(crate) trait ItemReader {
    type Item: Drop;

    ghost reads: { Self → List Self.Item → Data → Read Self.Item };

    fn read(
        &mut self,
        alloc: Global,
        before: &[Self::Item],
        json: &Json,
    ) -> Result<Self::Item, Fault>
        ensures item { Gives WalkFault.NoMemory result (reads self.old before.now (view json.now)) }
        ensures same { reads self.new ≡ reads self.old };
}

/// The items of a list of at most so many.
pub(crate) fn list_in<R: ItemReader>(
    alloc: Global,
    reader: &mut R,
    limit: u64,
    json: &Json,
) -> Result<Sequence<R::Item>, Fault>
    ensures { Gives WalkFault.NoMemory result (list_in limit (R.reads reader.old) (view json.now)) }
{
    match json {
        Json::Array(items) => {
            if count(items) > limit {
                return Err(over_limit(alloc, limit));
            }
            items_of(alloc, reader, items)
        }
        _ => Err(wrong_kind(alloc)),
    }
}

/// The items of a list without a limit of its own.
#[tactic(auto, using(crate::proofs::ListLemmas::item_read, crate::proofs::ListLemmas::item_fault))]
pub(crate) fn items_of<R: ItemReader>(
    alloc: Global,
    reader: &mut R,
    items: &Vec<Json>,
) -> Result<Sequence<R::Item>, Fault>
    ensures { Gives WalkFault.NoMemory result (items_from (R.reads reader.old) [] (items_view items.now.items)) }
{
    let Ok(mut before) = Vec::with_capacity(alloc, items.len()) else {
        return Err(WalkFault::NoMemory);
    };
    let mut rest = items.as_slice();
    while let [item, later @ ..] = rest {
        match reader.read(alloc, before.as_slice(), item) {
            Ok(read) => {
                if before.push(read).is_err() {
                    return Err(WalkFault::NoMemory);
                }
            }
            Err(fault) => return Err(fault.under_place(alloc, before.len() as u64)),
        }
        rest = later;
    }
    Ok(Sequence::from_vec(before))
}

pub(crate) fn count(items: &Vec<Json>) -> u64
    ensures { result ≡ count (items_view items.now.items) }
{
    items.len() as u64
}

/// A list that has to have an item.
pub(crate) fn some_of<T: Drop>(alloc: Global, items: Sequence<T>) -> Result<Sequence<T>, Fault>
    ensures { result ≡ some_of items }
{
    if items.is_empty() {
        return Err(wrong_kind(alloc));
    }
    Ok(items)
}
