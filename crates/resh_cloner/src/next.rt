//! The next documents of a clone.

ghost use Rattle.std.specs.Prelude.{◌≡◌, ◌≤◌, true, length, nat_lt, take, IfOk};
ghost use Rattle.std.specs.List.{All};
ghost use Rattle.std.specs.Option.{option_copied};
ghost use Rattle.resh_value.specs.Whole.{is_whole};
ghost use Rattle.resh_cloner.specs.Cloning.{left_after};

use resh_chunks::ChunkMap;
use resh_oplog::Cloned;
use resh_value::{NoMemory, Sequence, ShardId, Value};
use resh_versions::Versions;
use std::alloc::Global;

/// Copies of the first documents that stood at the fetch time, by `_id` above one where one is given, and that the new
/// map gives to a recipient; `end` exactly where fewer than `most` came. Others are passed by and not copied.
pub fn next_of(
    alloc: Global,
    versions: &Versions,
    new_map: &ChunkMap,
    fetch_time: u64,
    to: ShardId,
    after: Option<&Value>,
    most: u32,
) -> Result<Cloned, NoMemory>
    requires { versions.now.floor ≤ fetch_time }
    ensures documents { IfOk result (λ cloned. cloned.documents ≡ take most
        (left_after versions.now new_map.now fetch_time to.0 (option_copied after.entry))) }
    ensures end { IfOk result (λ cloned. cloned.end ≡ nat_lt (length cloned.documents) most) }
    ensures most { IfOk result (λ cloned. length cloned.documents ≤ most) }
    ensures whole { IfOk result (λ cloned. All (λ document. is_whole document ≡ true) cloned.documents) }
{
    let mut documents = Vec::new(alloc);
    let coming = versions
        .walk_at(fetch_time, after)
        .filter(|document| new_map.owner_of(document) == to);
    for document in coming.take(most as usize) {
        documents.push(document.copy()?)?;
    }
    let end = documents.len() < most as usize;
    Ok(Cloned {
        documents: Sequence::from_vec(documents),
        end,
    })
}
