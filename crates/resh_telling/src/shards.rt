//! A shard with its machines, told what a message says.

ghost use Rattle.std.specs.Prelude.{◌≡◌, OnOk};
ghost use Rattle.std.specs.List.{All};
ghost use Rattle.resh_progress.specs.declared.message.Message.TheVariants as message;
ghost use Rattle.resh_shard.specs.Shards.{blocked_at, is_next, prepared, pruned_to};
ghost use Rattle.resh_versions.specs.Chains.{IsStored};
ghost use Rattle.resh_cells.specs.Cells.{with_shard};
ghost use Rattle.resh_events.specs.rows.Tell.{on_both, on_donor, with_old_map, with_outputs};

use resh_cells::ShardCell;
use resh_progress::Message;
use resh_shard::Shard;
use resh_stamp::Stamp;
use resh_value::{Documents, NoMemory};

/// Its entries name recipients.
pub(crate) fn prepare(cell: &mut ShardCell) -> Result<(), NoMemory>
    ensures { OnOk result (cell.new ≡ with_shard prepared (on_donor message.Prepare cell.old)) }
{
    tell_donor(cell, &Message::Prepare)?;
    cell.shard.prepare();
    Ok(())
}

/// No reading before the fetch time comes any more.
pub(crate) fn donate(cell: &mut ShardCell, fetch_time: u64) -> Result<(), NoMemory>
    ensures { OnOk result (cell.new
        ≡ with_shard (pruned_to fetch_time) (on_both (message.Donate fetch_time) cell.old)) }
{
    tell_both(cell, &Message::Donate { fetch_time })?;
    cell.shard.prune(fetch_time);
    Ok(())
}

/// Its writes are blocked, where the stamp is above that of its last entry.
pub(crate) fn block(cell: &mut ShardCell, stamp: Stamp) -> Result<(), NoMemory>
    ensures { OnOk result (cell.new ≡ with_shard (blocked_at stamp) (on_donor message.Block cell.old)) }
{
    tell_donor(cell, &Message::Block)?;
    if !is_next(&cell.shard, stamp) {
        return Err(NoMemory);
    }
    cell.shard.block(stamp)
}

/// It holds these documents and serves under the new map.
pub(crate) fn install(
    cell: &mut ShardCell,
    documents: Documents,
    stamp: Stamp,
) -> Result<(), NoMemory>
    requires { All IsStored documents }
    ensures { OnOk result (cell.new
        ≡ with_shard (with_outputs stamp.time documents) (on_both message.Install cell.old)) }
{
    tell_both(cell, &Message::Install)?;
    cell.shard.install(documents, stamp)?;
    cell.shard.prune(stamp.time);
    Ok(())
}

/// It goes on serving under the old map.
pub(crate) fn release(cell: &mut ShardCell, stamp: Stamp) -> Result<(), NoMemory>
    ensures { OnOk result (cell.new ≡ with_shard (with_old_map stamp.time) (on_both message.Release cell.old)) }
{
    tell_both(cell, &Message::Release)?;
    cell.shard.release();
    cell.shard.prune(stamp.time);
    Ok(())
}

/// Whether a stamp is above that of the shard's last entry.
fn is_next(shard: &Shard, stamp: Stamp) -> bool
    ensures { result ≡ is_next shard.now stamp }
{
    match shard.log().last_mark() {
        Some(mark) => mark.stamp.compare(&stamp).is_lt(),
        None => true,
    }
}

/// Tells the donor's machine, where the message may come.
fn tell_donor(cell: &mut ShardCell, message: &Message) -> Result<(), NoMemory>
    ensures { OnOk result (cell.new ≡ on_donor message.now cell.old) }
{
    if !cell.donor.may(message) {
        return Err(NoMemory);
    }
    cell.donor.on(message);
    Ok(())
}

/// Tells both machines, where the message may come.
fn tell_both(cell: &mut ShardCell, message: &Message) -> Result<(), NoMemory>
    ensures { OnOk result (cell.new ≡ on_both message.now cell.old) }
{
    tell_donor(cell, message)?;
    if !cell.recipient.may(message) {
        return Err(NoMemory);
    }
    cell.recipient.on(message);
    Ok(())
}
