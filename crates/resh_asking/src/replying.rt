//! A client's replies, and the map that it knows.

ghost use Rattle.std.specs.Prelude.{◌≡◌, [], ◌∷◌, ◌++◌, IfOk, OnOk};
ghost use Rattle.resh_setup.specs.declared.seen.Seen.TheVariants.{Command as Answered};
ghost use Rattle.resh_events.specs.rows.Client as row;
ghost use Rattle.resh_asking.specs.Turns.{Shows};

use crate::asked::{Asked, Held};
use crate::reading::next_number;
use resh_cells::Cluster;
use resh_command::{Replies, Reply};
use resh_setup::{Met, Seen};
use resh_shard::Which;
use resh_value::NoMemory;

/// Gives a client its reply, which is seen with the number of its command.
pub(crate) fn answer(
    cluster: &mut Cluster,
    client: u32,
    held: Held,
    met: Met,
    reply: Reply,
) -> Result<Asked, NoMemory>
    ensures changed { OnOk result (cluster.new ≡ row.with_reply client reply cluster.old) }
    ensures shows { IfOk result (Shows held met (Answered (row.next_number cluster.old client))) }
{
    let number = next_number(cluster, client)?;
    give(cluster, client, reply)?;
    Ok(held.shown(met, Seen::Command { number }))
}

/// Gives a client its reply.
fn give(cluster: &mut Cluster, client: u32, reply: Reply) -> Result<(), NoMemory>
    ensures { OnOk result (cluster.new ≡ row.with_reply client reply cluster.old) }
{
    match cluster.clients.get_mut(client) {
        Some(cell) => add(&mut cell.replies, reply),
        None => Err(NoMemory),
    }
}

fn add(replies: &mut Replies, reply: Reply) -> Result<(), NoMemory>
    ensures { OnOk result (replies.new ≡ replies.old ++ reply ∷ []) }
{
    match replies.push(reply) {
        Ok(()) => Ok(()),
        Err(_) => Err(NoMemory),
    }
}

/// Finds room for a client's next reply, which changes nothing.
pub(crate) fn make_room(cluster: &mut Cluster, client: u32) -> Result<(), NoMemory>
    ensures { OnOk result (cluster.new ≡ cluster.old) }
{
    match cluster.clients.get_mut(client) {
        Some(cell) => find_room(&mut cell.replies),
        None => Err(NoMemory),
    }
}

fn find_room(replies: &mut Replies) -> Result<(), NoMemory>
    ensures { OnOk result (replies.new ≡ replies.old) }
{
    add(replies, Reply::NoMemory)?;
    let _placeholder = replies.pop();
    Ok(())
}

/// The client knows the new map.
pub(crate) fn refresh(cluster: &mut Cluster, client: u32) -> Result<(), NoMemory>
    ensures { OnOk result (cluster.new ≡ row.with_new_map client cluster.old) }
{
    match cluster.clients.get_mut(client) {
        Some(cell) => {
            cell.knows = Which::New;
            Ok(())
        }
        None => Err(NoMemory),
    }
}
