//! A client gives up the resharding.

ghost use Rattle.std.specs.Prelude.{◌≡◌, true, IfOk, OnOk, Some};
ghost use Rattle.resh_coord.specs.Control.{unless_decided};
ghost use Rattle.resh_coord.specs.declared.cause.Cause.TheVariants.{Asked as AskedFor};
ghost use Rattle.resh_cells.specs.Cells.{on_control};
ghost use Rattle.resh_model.specs.Orders.{is_abort};
ghost use Rattle.resh_events.specs.Targets as table;
ghost use Rattle.resh_events.specs.rows.Client as row;
ghost use Rattle.resh_asking.specs.Turns.{IsTurn};

use crate::asked::Asked;
use crate::holding::hold_coordinator;
use crate::reading::next_number;
use crate::replying::answer;
use resh_cells::Cluster;
use resh_command::{Command, Reply};
use resh_coord::Asked as Heard;
use resh_setup::{Met, Setup};
use resh_value::NoMemory;
use std::alloc::Global;

/// The coordinator aborts where nothing is decided, and the reply says whether it did.
pub(crate) fn give_up(
    cluster: &mut Cluster,
    alloc: Global,
    setup: &Setup,
    client: u32,
    command: &Command,
) -> Result<Asked, NoMemory>
    requires next { table.next_command setup.now cluster.old client ≡ Some command.now }
    requires abort { is_abort command.now ≡ true }
    ensures { IfOk result (IsTurn setup.now cluster.old cluster.new client) }
{
    let held = hold_coordinator(cluster, alloc, setup, client)?;
    let reply = abort(cluster, client)?;
    let asked = answer(cluster, client, held, Met::Row, reply)?;
    Ok(asked)
}

/// Aborts for a client's next command, and gives its reply.
fn abort(cluster: &mut Cluster, client: u32) -> Result<Reply, NoMemory>
    ensures reply { IfOk result (λ reply. reply ≡ row.abort_reply cluster.old.control.decision) }
    ensures changed { OnOk result (cluster.new
        ≡ on_control (unless_decided (AskedFor client (row.next_number cluster.old client))) cluster.old) }
{
    let number = next_number(cluster, client)?;
    match cluster.control.abort(client, number) {
        Heard::Accepted => Ok(Reply::AbortAccepted),
        Heard::TooLate => Ok(Reply::AbortTooLate),
    }
}
