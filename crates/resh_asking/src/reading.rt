//! What a client's cell and the shards of its targets tell.

ghost use Rattle.std.specs.Prelude.{◌≡◌, ◌+◌, length, IfOk};
ghost use Rattle.std.specs.Option.{option_copied};
ghost use Rattle.resh_cells.specs.Cells.{client_in, shard_in};
ghost use Rattle.resh_events.specs.Targets as table;
ghost use Rattle.resh_events.specs.Targets.{all_at, same_map};
ghost use Rattle.resh_asking.specs.Servings.{serving_at};

use crate::asked::Serving;
use resh_cells::Cluster;
use resh_chunks::ChunkMap;
use resh_command::Command;
use resh_setup::Setup;
use resh_shard::Which;
use resh_value::NoMemory;

/// A client's next command, where it has one left.
pub(crate) fn next_command<'a>(
    cluster: &Cluster,
    setup: &'a Setup,
    client: u32,
) -> Option<&'a Command>
    ensures { option_copied result ≡ table.next_command setup.now cluster.now client }
{
    setup
        .clients
        .get(client as u64)?
        .commands
        .get(reply_count(cluster, client))
}

/// How many replies a client has.
fn reply_count(cluster: &Cluster, client: u32) -> u64
    ensures { result ≡ length (client_in cluster.now client).replies }
{
    match cluster.clients.get(client) {
        Some(cell) => cell.replies.len(),
        None => 0,
    }
}

/// The number of a client's next command, from 1; want of memory where it is 2^32 or more.
pub(crate) fn next_number(cluster: &Cluster, client: u32) -> Result<u32, NoMemory>
    ensures { IfOk result (λ number. number ≡ length (client_in cluster.now client).replies + 1) }
{
    match u32::try_from(reply_count(cluster, client)) {
        Ok(count) => successor(count),
        Err(_) => Err(NoMemory),
    }
}

fn successor(count: u32) -> Result<u32, NoMemory>
    ensures { IfOk result (λ number. number ≡ count + 1) }
{
    match count.checked_add(1) {
        Some(number) => Ok(number),
        None => Err(NoMemory),
    }
}

/// The map that a client knows.
fn known_which(cluster: &Cluster, client: u32) -> Which
    ensures { result ≡ (client_in cluster.now client).knows }
{
    match cluster.clients.get(client) {
        Some(cell) => cell.knows,
        None => Which::Old,
    }
}

pub(crate) fn known_map<'a>(cluster: &Cluster, setup: &'a Setup, client: u32) -> &'a ChunkMap
    ensures { result.now ≡ table.known_map setup.now cluster.now client }
{
    match known_which(cluster, client) {
        Which::Old => &setup.old_map,
        Which::New => &setup.new_map,
    }
}

/// Whether some shards serve under the map that a client knows.
pub(crate) fn serving(cluster: &Cluster, client: u32, shards: &[u32]) -> Serving
    ensures { result ≡ serving_at cluster.now (client_in cluster.now client).knows shards.now }
{
    serving_under(cluster, known_which(cluster, client), shards)
}

fn serving_under(cluster: &Cluster, which: Which, shards: &[u32]) -> Serving
    ensures { result ≡ serving_at cluster.now which shards.now }
{
    if !all_free(cluster, shards) {
        return Serving::Waits;
    }
    if !all_under(cluster, which, shards) {
        return Serving::Refreshes;
    }
    Serving::Serves
}

fn all_free(cluster: &Cluster, shards: &[u32]) -> bool
    ensures { result ≡ all_at cluster.now table.is_free shards.now }
{
    shards.iter().all(|shard| is_free(cluster, *shard))
}

fn all_under(cluster: &Cluster, which: Which, shards: &[u32]) -> bool
    ensures { result ≡ all_at cluster.now (table.has_map which) shards.now }
{
    shards.iter().all(|shard| is_under(cluster, which, *shard))
}

fn is_free(cluster: &Cluster, shard: u32) -> bool
    ensures { result ≡ table.is_free (shard_in cluster.now shard) }
{
    match cluster.shards.get(shard) {
        Some(cell) => !cell.shard.blocked(),
        None => true,
    }
}

fn is_under(cluster: &Cluster, which: Which, shard: u32) -> bool
    ensures { result ≡ table.has_map which (shard_in cluster.now shard) }
{
    same_map(which_at(cluster, shard), which)
}

/// Which map is in force on a shard.
fn which_at(cluster: &Cluster, shard: u32) -> Which
    ensures { result ≡ (shard_in cluster.now shard).shard.which }
{
    match cluster.shards.get(shard) {
        Some(cell) => cell.shard.which(),
        None => Which::Old,
    }
}

fn same_map(one: Which, other: Which) -> bool
    ensures { result ≡ same_map one other }
{
    match (one, other) {
        (Which::Old, Which::Old) => true,
        (Which::Old, Which::New) => false,
        (Which::New, Which::Old) => false,
        (Which::New, Which::New) => true,
    }
}
