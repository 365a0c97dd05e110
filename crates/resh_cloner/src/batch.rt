//! The next batch of a clone.

ghost use Rattle.std.specs.Prelude.{◌≡◌, ◌≤◌, true, length, nat_lt, take, IfOk};
ghost use Rattle.std.specs.List.{All};
ghost use Rattle.std.specs.Option.{option_copied};
ghost use Rattle.resh_value.specs.Whole.{is_whole};
ghost use Rattle.resh_cloner.specs.Cloning.{left_after};

use crate::next::next_of;
use resh_oplog::Cloned;
use resh_shard::Shard;
use resh_value::{NoMemory, ShardId, Value};
use std::alloc::Global;

/// Copies of the first documents that a donor held at the fetch time, by `_id` above one where one is given, and that
/// its new map gives to a recipient; `end` exactly where fewer than `most` came.
pub fn next_batch(
    alloc: Global,
    shard: &Shard,
    fetch_time: u64,
    to: ShardId,
    after: Option<&Value>,
    most: u32,
) -> Result<Cloned, NoMemory>
    requires { shard.now.versions.floor ≤ fetch_time }
    ensures documents { IfOk result (λ cloned. cloned.documents ≡ take most
        (left_after shard.now.versions shard.now.new_map fetch_time to.0 (option_copied after.entry))) }
    ensures end { IfOk result (λ cloned. cloned.end ≡ nat_lt (length cloned.documents) most) }
    ensures most { IfOk result (λ cloned. length cloned.documents ≤ most) }
    ensures whole { IfOk result (λ cloned. All (λ document. is_whole document ≡ true) cloned.documents) }
{
    next_of(
        alloc,
        shard.versions(),
        shard.new_map(),
        fetch_time,
        to,
        after,
        most,
    )
}
