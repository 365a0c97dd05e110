//! A client asks its next command: it waits for a shard that is blocked, hears of the other map, or is answered.

ghost use Rattle.std.specs.Prelude.{◌≡◌, true, false, IfOk, OnOk, Some};
ghost use Rattle.resh_model.specs.Orders.{is_abort};
ghost use Rattle.resh_cells.specs.Belonging.{IsClusterOf};
ghost use Rattle.resh_events.specs.Targets as table;
ghost use Rattle.resh_events.specs.rows.Client as row;
ghost use Rattle.resh_asking.specs.Turns.{IsTurn};

use crate::aborting::give_up;
use crate::answers::serve;
use crate::asked::Asked;
use crate::reading::next_command;
use crate::replying::make_room;
use resh_cells::Cluster;
use resh_command::Command;
use resh_setup::Setup;
use resh_value::NoMemory;
use std::alloc::Global;

/// Whether a client has a command left.
pub fn may_ask(cluster: &Cluster, setup: &Setup, client: u32) -> bool
    ensures { result ≡ row.may setup.now cluster.now client }
{
    next_command(cluster, setup, client).is_some()
}

/// A client asks its next command: it waits for a target that is blocked, or knows the new map from now on, or is
/// answered, or is refused for want of memory. `Err` comes where no memory is found for the refusal itself, and of the
/// cluster nothing is said then.
pub fn ask(
    cluster: &mut Cluster,
    alloc: Global,
    setup: &Setup,
    client: u32,
) -> Result<Asked, NoMemory>
    requires of { IsClusterOf setup.now cluster.old }
    requires may { row.may setup.now cluster.old client ≡ true }
    ensures { IfOk result (IsTurn setup.now cluster.old cluster.new client) }
{
    match next_command(cluster, setup, client) {
        Some(command) => ask_command(cluster, alloc, setup, client, command),
        None => Err(NoMemory),
    }
}

/// Finds room for the reply first, so that nothing fails behind what is done.
fn ask_command(
    cluster: &mut Cluster,
    alloc: Global,
    setup: &Setup,
    client: u32,
    command: &Command,
) -> Result<Asked, NoMemory>
    requires of { IsClusterOf setup.now cluster.old }
    requires next { table.next_command setup.now cluster.old client ≡ Some command.now }
    ensures { IfOk result (IsTurn setup.now cluster.old cluster.new client) }
{
    make_room(cluster, client)?;
    if is_abort(command) {
        return give_up(cluster, alloc, setup, client, command);
    }
    serve(cluster, alloc, setup, client, command)
}

fn is_abort(command: &Command) -> bool
    ensures { result ≡ is_abort command.now }
{
    match command {
        Command::Abort => true,
        _ => false,
    }
}
