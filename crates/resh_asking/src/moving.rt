//! An update's result belongs to another shard, and its document moves there.

ghost use Rattle.std.specs.Prelude.{◌≡◌, ◌∷◌, [], true, IfOk};
ghost use Rattle.resh_value.specs.Whole.{is_whole};
ghost use Rattle.resh_value.specs.declared.value.Value.TheVariants.{Null};
ghost use Rattle.resh_cells.specs.Belonging.{IsClusterOf};
ghost use Rattle.resh_asking.specs.Served.{IsCarried, IsReached, Leaves, update_id};
ghost use Rattle.resh_asking.specs.Steps.{HasGoneOn, HasMoved};
ghost use Rattle.resh_asking.specs.Turns.{IsTurn};

use crate::asked::{Asked, Held, Move, Serving};
use crate::halves::{show_filed, take_in_at, take_out_at, undo_at};
use crate::holding::hold_shards;
use crate::reading::serving;
use crate::refused::refuse;
use crate::replying::{answer, refresh};
use resh_cells::Cluster;
use resh_command::{Command, Reply};
use resh_setup::{Met, Seen, Setup};
use resh_stamp::Stamp;
use resh_value::{Document, NoMemory, Value};
use std::alloc::Global;

/// A document moves from one shard to another one, unless that waits or serves under another map.
pub(crate) fn move_to(
    cluster: &mut Cluster,
    alloc: Global,
    setup: &Setup,
    client: u32,
    command: &Command,
    from: u32,
    to: u32,
    document: Document,
) -> Result<Asked, NoMemory>
    requires of { IsClusterOf setup.now cluster.old }
    requires reached { IsReached setup.now cluster.old client command.now (from ∷ []) }
    requires leaves { Leaves cluster.old from command.now to document }
    ensures { IfOk result (IsTurn setup.now cluster.old cluster.new client) }
{
    let shards = [from, to];
    let held = hold_shards(cluster, alloc, setup, client, &shards)?;
    match serving(cluster, client, &shards) {
        Serving::Waits => {
            let waits = held.shown(Met::Row, Seen::Blocked);
            Ok(waits)
        }
        Serving::Refreshes => {
            refresh(cluster, client)?;
            let refreshed = held.shown(Met::Row, Seen::Refreshed);
            Ok(refreshed)
        }
        Serving::Serves => {
            show_filed(cluster, to)?;
            carry(
                cluster, alloc, setup, client, command, from, to, document, held,
            )
        }
    }
}

/// A document moves from one shard to another one.
fn carry(
    cluster: &mut Cluster,
    alloc: Global,
    setup: &Setup,
    client: u32,
    command: &Command,
    from: u32,
    to: u32,
    document: Document,
    held: Held,
) -> Result<Asked, NoMemory>
    requires of { IsClusterOf setup.now cluster.old }
    requires reached { IsReached setup.now cluster.old client command.now (from ∷ []) }
    requires leaves { Leaves cluster.old from command.now to document }
    requires carried { IsCarried setup.now cluster.old client from to held }
    ensures { IfOk result (IsTurn setup.now cluster.old cluster.new client) }
{
    let null = Value::Null;
    let id = filter_id(command, &null);
    let what = move_between(cluster, alloc, from, to, id, document, held.stamp)?;
    match what {
        Move::Moved => {
            let moved = answer(
                cluster,
                client,
                held,
                Met::Row,
                Reply::Matched { changed: true },
            )?;
            Ok(moved)
        }
        Move::Duplicate => {
            let kept = answer(cluster, client, held, Met::Row, Reply::Duplicate)?;
            Ok(kept)
        }
        Move::Wants => {
            let refused = refuse(cluster, client, held, Met::NoMemoryInMove)?;
            Ok(refused)
        }
    }
}

/// The `_id` of an update's filter, or null.
fn filter_id<'a>(command: &'a Command, null: &'a Value) -> &'a Value
    requires { null.now ≡ Null }
    ensures { result.now ≡ update_id command.now }
{
    match command {
        Command::Update { filter, .. } => filter.fields().id_or(null),
        _ => null,
    }
}

/// Takes a document in where it comes, and the one of an `_id` out where it was.
fn move_between(
    cluster: &mut Cluster,
    alloc: Global,
    from: u32,
    to: u32,
    id: &Value,
    document: Document,
    stamp: Stamp,
) -> Result<Move, NoMemory>
    requires { is_whole document ≡ true }
    ensures { IfOk result (HasMoved stamp from to id.now document cluster.old cluster.new) }
{
    let Ok(new_id) = document.copy_id(alloc) else {
        return Ok(Move::Wants);
    };
    let came = take_in_at(cluster, to, document, stamp)?;
    match came {
        Move::Moved => go_on(cluster, from, to, id, &new_id, stamp),
        Move::Duplicate => Ok(Move::Duplicate),
        Move::Wants => Ok(Move::Wants),
    }
}

/// Takes out what moved in elsewhere, or that is taken back.
fn go_on(
    cluster: &mut Cluster,
    from: u32,
    to: u32,
    id: &Value,
    new_id: &Value,
    stamp: Stamp,
) -> Result<Move, NoMemory>
    ensures { IfOk result (HasGoneOn stamp from to id.now new_id.now cluster.old cluster.new) }
{
    let is_out = take_out_at(cluster, from, id, stamp)?;
    if is_out {
        return Ok(Move::Moved);
    }
    undo_at(cluster, to, new_id)?;
    Ok(Move::Wants)
}
