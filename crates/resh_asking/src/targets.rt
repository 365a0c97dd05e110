//! The shards of a target, and what each of them replies to a reading.

ghost use Rattle.std.specs.Prelude.{◌≡◌, true, [], ◌∷◌, ◌||◌, IfOk, IfSome, OnOk};
ghost use Rattle.std.specs.List.{range_with_len};
ghost use Rattle.resh_bag.specs.Answer.{reply_of};
ghost use Rattle.resh_shard.specs.Decisions.{doing_on};
ghost use Rattle.resh_router.specs.Laws.{is_reading};
ghost use Rattle.resh_router.specs.Merging.{are_counted, are_found};
ghost use Rattle.resh_router.specs.Targets.{shards_of};
ghost use Rattle.resh_cells.specs.Cells.{shard_in};
ghost use Rattle.resh_asking.specs.Gathered.{AreFiled, Merges, own_parts};

use crate::asked::Did;
use crate::halves::{act_at, show_filed};
use resh_cells::Cluster;
use resh_chunks::ChunkMap;
use resh_command::{Command, Reply};
use resh_router::{Target, merge_found};
use resh_stamp::Stamp;
use resh_value::{NoMemory, ShardId};
use std::alloc::Global;

/// The shards of a target.
pub(crate) fn shards_of(alloc: Global, map: &ChunkMap, target: Target) -> Result<Vec<u32>, NoMemory>
    ensures { IfOk result (λ shards. shards.items ≡ shards_of map.now target) }
{
    match target {
        Target::One(shard) => one(alloc, shard.0),
        Target::All => all_below(alloc, map.shards()),
        Target::NoKey => one(alloc, 0),
    }
}

fn one(alloc: Global, shard: u32) -> Result<Vec<u32>, NoMemory>
    ensures { IfOk result (λ shards. shards.items ≡ shard ∷ []) }
{
    let mut shards = Vec::new(alloc);
    shards.push(shard)?;
    Ok(shards)
}

fn all_below(alloc: Global, count: u32) -> Result<Vec<u32>, NoMemory>
    ensures { IfOk result (λ shards. shards.items ≡ range_with_len 0 count) }
{
    let mut shards = Vec::new(alloc);
    for shard in 0..count {
        shards.push(shard)?;
    }
    Ok(shards)
}

/// What stands on these shards stands under its own `_id`.
fn show_each_filed(cluster: &Cluster, shards: &[u32]) -> Result<(), NoMemory>
    ensures { OnOk result (AreFiled cluster.now shards.now) }
{
    for shard in shards {
        show_filed(cluster, *shard)?;
    }
    Ok(())
}

/// What some shards reply to a reading, made one reply; it changes nothing. `None` where memory is wanted.
pub(crate) fn read_all(
    cluster: &mut Cluster,
    alloc: Global,
    command: &Command,
    stamp: Stamp,
    shards: &[u32],
) -> Result<Option<Reply>, NoMemory>
    requires { is_reading command.now ≡ true }
    ensures reply { IfOk result (λ found. IfSome found (Merges (own_parts cluster.old command.now shards.now))) }
    ensures filed { OnOk result (AreFiled cluster.old shards.now) }
    ensures unchanged { OnOk result (cluster.new ≡ cluster.old) }
{
    show_each_filed(cluster, shards)?;
    let found = gather(cluster, alloc, command, stamp, shards)?;
    match found {
        Some(parts) => Ok(merged(alloc, parts)),
        None => Ok(None),
    }
}

fn merged(alloc: Global, parts: Vec<(ShardId, Reply)>) -> Option<Reply>
    requires { (are_found parts.items || are_counted parts.items) ≡ true }
    ensures { IfSome result (Merges parts.items) }
{
    if parts.is_empty() {
        return None;
    }
    match merge_found(alloc, parts) {
        Ok(reply) => Some(reply),
        Err(NoMemory) => None,
    }
}

/// What each of some shards replies to a reading, which changes none of them; `None` where memory is wanted.
fn gather(
    cluster: &mut Cluster,
    alloc: Global,
    command: &Command,
    stamp: Stamp,
    shards: &[u32],
) -> Result<Option<Vec<(ShardId, Reply)>>, NoMemory>
    requires { is_reading command.now ≡ true }
    ensures parts { IfOk result (λ found. IfSome found (λ parts.
        parts.items ≡ own_parts cluster.old command.now shards.now)) }
    ensures unchanged { OnOk result (cluster.new ≡ cluster.old) }
{
    let mut parts = Vec::new(alloc);
    for shard in shards {
        match read_at(cluster, *shard, command, stamp)? {
            Some(reply) => {
                if parts.push((ShardId(*shard), reply)).is_err() {
                    return Ok(None);
                }
            }
            None => return Ok(None),
        }
    }
    Ok(Some(parts))
}

/// A shard's reply to a reading, which changes nothing; `None` where memory is wanted.
fn read_at(
    cluster: &mut Cluster,
    shard: u32,
    command: &Command,
    stamp: Stamp,
) -> Result<Option<Reply>, NoMemory>
    requires { is_reading command.now ≡ true }
    ensures reply { IfOk result (λ found. IfSome found (λ reply.
        reply ≡ reply_of (doing_on (shard_in cluster.old shard).shard command.now))) }
    ensures unchanged { OnOk result (cluster.new ≡ cluster.old) }
{
    let did = act_at(cluster, shard, command, stamp)?;
    match did {
        Did::Replies(reply) => Ok(Some(reply)),
        Did::Wants => Ok(None),
        Did::Leaves { .. } => Err(NoMemory),
    }
}
