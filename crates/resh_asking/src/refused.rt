//! A client's next command is refused for want of memory.

ghost use Rattle.std.specs.Prelude.{◌≡◌, IfOk, OnOk};
ghost use Rattle.resh_command.specs.declared.reply.Reply.TheVariants.{NoMemory as Wanting};
ghost use Rattle.resh_setup.specs.declared.seen.Seen.TheVariants.{Command as Answered};
ghost use Rattle.resh_events.specs.rows.Client as row;
ghost use Rattle.resh_asking.specs.Turns.{Shows};

use crate::asked::{Asked, Held};
use crate::replying::answer;
use resh_cells::Cluster;
use resh_command::Reply;
use resh_setup::Met;
use resh_value::NoMemory;

/// The reply says that memory was wanted, and nothing else changes.
pub(crate) fn refuse(
    cluster: &mut Cluster,
    client: u32,
    held: Held,
    met: Met,
) -> Result<Asked, NoMemory>
    ensures changed { OnOk result (cluster.new ≡ row.with_reply client Wanting cluster.old) }
    ensures shows { IfOk result (Shows held met (Answered (row.next_number cluster.old client))) }
{
    answer(cluster, client, held, met, Reply::NoMemory)
}
