//! The coordinator tells a shard what its phase has to say.

ghost use Rattle.std.specs.Prelude.{◌≡◌, length, IfOk, OnOk};
ghost use Rattle.resh_events.specs.rows.Tell as table;
ghost use Rattle.resh_cells.specs.Cells.{lanes_of};

use crate::lanes::{clear_lanes, finish_lanes, start_lanes};
use crate::links::{close_links, start_links};
use crate::shards;
use resh_cells::Cluster;
use resh_progress::Message;
use resh_setup::Seen;
use resh_stamp::Stamp;
use resh_value::{NoMemory, ShardId};
use std::alloc::Global;

/// Whether a shard may be told: there is a message, and it wasn't told in this phase.
pub fn may_tell(cluster: &Cluster, shard: ShardId) -> bool
    ensures { result ≡ table.may cluster.now shard.0 }
{
    cluster.control.may_tell(shard) && !cluster.control.is_told(shard)
}

/// Tells a shard to prepare, to donate, to block, to install or to release. Want of memory also comes where the shard
/// may not be told, or a machine, a link or the log may not take it.
pub fn tell(
    cluster: &mut Cluster,
    alloc: Global,
    stamp: Stamp,
    shard: ShardId,
) -> Result<Seen, NoMemory>
    ensures ok { OnOk result (cluster.new ≡ table.change stamp cluster.old shard.0) }
    ensures seen { IfOk result (λ seen. seen ≡ table.seen cluster.old shard.0) }
{
    if !cluster.control.may_tell(shard) {
        return Err(NoMemory);
    }
    match cluster.control.message() {
        None => Ok(Seen::Idle),
        Some(message) => {
            cluster.control.told(shard);
            tell_message(cluster, alloc, stamp, shard, message)
        }
    }
}

fn tell_message(
    cluster: &mut Cluster,
    alloc: Global,
    stamp: Stamp,
    shard: ShardId,
    message: Message,
) -> Result<Seen, NoMemory>
    ensures ok { OnOk result (cluster.new ≡ table.told stamp shard.0 message cluster.old) }
    ensures seen { IfOk result (λ seen. seen ≡ table.seen_of cluster.old shard.0 (Some message)) }
{
    match message {
        Message::Prepare => {
            prepare(cluster, shard)?;
            Ok(Seen::Prepared)
        }
        Message::Donate { fetch_time } => {
            donate(cluster, fetch_time, shard)?;
            Ok(Seen::Donating)
        }
        Message::Block => {
            block(cluster, stamp, shard)?;
            Ok(Seen::Blocked)
        }
        Message::Install => {
            let documents = install(cluster, alloc, stamp, shard)?;
            Ok(Seen::Installed { documents })
        }
        Message::Release => {
            release(cluster, stamp, shard)?;
            Ok(Seen::Released)
        }
    }
}

#[tactic(auto, using(crate::proofs::Changing::or_item))]
fn prepare(cluster: &mut Cluster, shard: ShardId) -> Result<(), NoMemory>
    ensures { OnOk result (cluster.new ≡ table.prepare shard.0 cluster.old) }
{
    match cluster.shards.get_mut(shard.0) {
        Some(cell) => shards::prepare(cell),
        None => Err(NoMemory),
    }
}

#[tactic(auto, using(crate::proofs::Changing::or_item))]
fn donate(cluster: &mut Cluster, fetch_time: u64, shard: ShardId) -> Result<(), NoMemory>
    ensures { OnOk result (cluster.new ≡ table.donate fetch_time shard.0 cluster.old) }
{
    start_lanes(&mut cluster.lanes, shard.0)?;
    start_links(&mut cluster.links, shard.0, fetch_time)?;
    match cluster.shards.get_mut(shard.0) {
        Some(cell) => shards::donate(cell, fetch_time),
        None => Err(NoMemory),
    }
}

#[tactic(auto, using(crate::proofs::Changing::or_item))]
fn block(cluster: &mut Cluster, stamp: Stamp, shard: ShardId) -> Result<(), NoMemory>
    ensures { OnOk result (cluster.new ≡ table.block stamp shard.0 cluster.old) }
{
    match cluster.shards.get_mut(shard.0) {
        Some(cell) => shards::block(cell, stamp),
        None => Err(NoMemory),
    }
}

/// The number of documents that were installed.
#[tactic(auto, using(crate::proofs::Changing::or_item))]
fn install(
    cluster: &mut Cluster,
    alloc: Global,
    stamp: Stamp,
    shard: ShardId,
) -> Result<u64, NoMemory>
    ensures ok { OnOk result (cluster.new ≡ table.install stamp shard.0 cluster.old) }
    ensures count { IfOk result (λ count. count ≡ length (table.outputs (lanes_of cluster.old shard.0))) }
{
    let documents = finish_lanes(&mut cluster.lanes, alloc, shard.0)?;
    close_links(&mut cluster.links, shard.0)?;
    let count = documents.len();
    match cluster.shards.get_mut(shard.0) {
        Some(cell) => {
            shards::install(cell, documents, stamp)?;
            Ok(count)
        }
        None => Err(NoMemory),
    }
}

#[tactic(auto, using(crate::proofs::Changing::or_item))]
fn release(cluster: &mut Cluster, stamp: Stamp, shard: ShardId) -> Result<(), NoMemory>
    ensures { OnOk result (cluster.new ≡ table.release stamp shard.0 cluster.old) }
{
    clear_lanes(&mut cluster.lanes, shard.0)?;
    close_links(&mut cluster.links, shard.0)?;
    match cluster.shards.get_mut(shard.0) {
        Some(cell) => shards::release(cell, stamp),
        None => Err(NoMemory),
    }
}
