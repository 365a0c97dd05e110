//! How a command that is for shards comes out.

ghost use Rattle.std.specs.Prelude.{◌≡◌, ◌∷◌, [], false, IfOk, Some};
ghost use Rattle.resh_model.specs.Orders.{is_abort};
ghost use Rattle.resh_router.specs.declared.goal.Target.TheVariants.{All as AllGoal, NoKey as NoKeyGoal};
ghost use Rattle.resh_cells.specs.Belonging.{IsClusterOf};
ghost use Rattle.resh_events.specs.Targets.{first_targets, known_map, next_command};
ghost use Rattle.resh_asking.specs.Served.{IsGoal, IsServed};
ghost use Rattle.resh_asking.specs.Turns.{IsTurn};

use crate::asked::{Asked, Did, Held, Serving};
use crate::halves::{act_at, show_filed};
use crate::holding::hold_shards;
use crate::moving::move_to;
use crate::reading::{known_map, serving};
use crate::refused::refuse;
use crate::replying::{answer, refresh};
use crate::targets::{read_all, shards_of};
use resh_cells::Cluster;
use resh_command::{Command, Reply};
use resh_router::{Target, target};
use resh_setup::{Met, Seen, Setup};
use resh_value::NoMemory;
use std::alloc::Global;

/// A command but an abort: it waits, or the client hears of the other map, or it is done.
pub(crate) fn serve(
    cluster: &mut Cluster,
    alloc: Global,
    setup: &Setup,
    client: u32,
    command: &Command,
) -> Result<Asked, NoMemory>
    requires of { IsClusterOf setup.now cluster.old }
    requires next { next_command setup.now cluster.old client ≡ Some command.now }
    requires plain { is_abort command.now ≡ false }
    ensures { IfOk result (IsTurn setup.now cluster.old cluster.new client) }
{
    let map = known_map(cluster, setup, client);
    let goal = target(map, command);
    let shards = shards_of(alloc, map, goal)?;
    come(
        cluster,
        alloc,
        setup,
        client,
        command,
        goal,
        shards.as_slice(),
    )
}

/// A command whose targets are known.
fn come(
    cluster: &mut Cluster,
    alloc: Global,
    setup: &Setup,
    client: u32,
    command: &Command,
    goal: Target,
    shards: &[u32],
) -> Result<Asked, NoMemory>
    requires of { IsClusterOf setup.now cluster.old }
    requires next { next_command setup.now cluster.old client ≡ Some command.now }
    requires plain { is_abort command.now ≡ false }
    requires goal { IsGoal (known_map setup.now cluster.old client) command.now goal shards.now }
    requires first { first_targets setup.now cluster.old client command.now ≡ shards.now }
    ensures { IfOk result (IsTurn setup.now cluster.old cluster.new client) }
{
    let held = hold_shards(cluster, alloc, setup, client, shards)?;
    match serving(cluster, client, shards) {
        Serving::Waits => {
            let waits = held.shown(Met::Row, Seen::Blocked);
            Ok(waits)
        }
        Serving::Refreshes => {
            refresh(cluster, client)?;
            let refreshed = held.shown(Met::Row, Seen::Refreshed);
            Ok(refreshed)
        }
        Serving::Serves => reach(cluster, alloc, setup, client, command, goal, shards, held),
    }
}

/// Does a command at its target, which serves.
fn reach(
    cluster: &mut Cluster,
    alloc: Global,
    setup: &Setup,
    client: u32,
    command: &Command,
    goal: Target,
    shards: &[u32],
    held: Held,
) -> Result<Asked, NoMemory>
    requires of { IsClusterOf setup.now cluster.old }
    requires goal { IsGoal (known_map setup.now cluster.old client) command.now goal shards.now }
    requires served { IsServed setup.now cluster.old client command.now shards.now held }
    ensures { IfOk result (IsTurn setup.now cluster.old cluster.new client) }
{
    match goal {
        Target::One(shard) => ask_one(cluster, alloc, setup, client, command, shard.0, held),
        Target::All => ask_all(cluster, alloc, setup, client, command, shards, held),
        Target::NoKey => tell_no_key(cluster, setup, client, command, shards, held),
    }
}

/// A write whose filter lacks a field of the key.
fn tell_no_key(
    cluster: &mut Cluster,
    setup: &Setup,
    client: u32,
    command: &Command,
    shards: &[u32],
    held: Held,
) -> Result<Asked, NoMemory>
    requires goal { IsGoal (known_map setup.now cluster.old client) command.now NoKeyGoal shards.now }
    requires served { IsServed setup.now cluster.old client command.now shards.now held }
    ensures { IfOk result (IsTurn setup.now cluster.old cluster.new client) }
{
    let asked = answer(cluster, client, held, Met::Row, Reply::NoKey)?;
    Ok(asked)
}

/// A command for one shard.
fn ask_one(
    cluster: &mut Cluster,
    alloc: Global,
    setup: &Setup,
    client: u32,
    command: &Command,
    shard: u32,
    held: Held,
) -> Result<Asked, NoMemory>
    requires of { IsClusterOf setup.now cluster.old }
    requires served { IsServed setup.now cluster.old client command.now (shard ∷ []) held }
    ensures { IfOk result (IsTurn setup.now cluster.old cluster.new client) }
{
    show_filed(cluster, shard)?;
    let did = act_at(cluster, shard, command, held.stamp)?;
    match did {
        Did::Replies(reply) => {
            let replied = answer(cluster, client, held, Met::Row, reply)?;
            Ok(replied)
        }
        Did::Wants => {
            let refused = refuse(cluster, client, held, Met::NoMemory)?;
            Ok(refused)
        }
        Did::Leaves { to, document } => {
            move_to(cluster, alloc, setup, client, command, shard, to, document)
        }
    }
}

/// A reading for all shards.
fn ask_all(
    cluster: &mut Cluster,
    alloc: Global,
    setup: &Setup,
    client: u32,
    command: &Command,
    shards: &[u32],
    held: Held,
) -> Result<Asked, NoMemory>
    requires of { IsClusterOf setup.now cluster.old }
    requires goal { IsGoal (known_map setup.now cluster.old client) command.now AllGoal shards.now }
    requires served { IsServed setup.now cluster.old client command.now shards.now held }
    ensures { IfOk result (IsTurn setup.now cluster.old cluster.new client) }
{
    let found = read_all(cluster, alloc, command, held.stamp, shards)?;
    match found {
        Some(reply) => {
            let replied = answer(cluster, client, held, Met::Row, reply)?;
            Ok(replied)
        }
        None => {
            let refused = refuse(cluster, client, held, Met::NoMemory)?;
            Ok(refused)
        }
    }
}
