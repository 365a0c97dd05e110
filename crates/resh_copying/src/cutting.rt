//! A link cuts a batch of the first items of its buffer.

ghost use Rattle.std.specs.Prelude.{◌≡◌, ◌+◌, true, length, min, IfOk, OnOk, OnErr};
ghost use Rattle.resh_setup.specs.declared.event.Event.TheVariants.{Cut};
ghost use Rattle.resh_split.specs.Parts.{is_below_end};
ghost use Rattle.resh_events.specs.Bounds.{is_bounded};
ghost use Rattle.resh_events.specs.rows.Cut.{batch_at, change, cut_at, may, seen as what_is_seen};
ghost use Rattle.resh_setup.specs.declared.seen.Seen.TheVariants.{Batch as BatchSeen};

use crate::cells::link_of;
use resh_cells::{Cluster, LinkCell, join};
use resh_setup::Seen;
use resh_split::{ends_of, split};
use resh_stamp::Stamp;
use resh_value::{NoMemory, ShardId};
use std::alloc::Global;

/// Whether the link may cut a batch: it is open, none is out, and its buffer is not empty.
pub fn may_cut(cluster: &Cluster, r: ShardId, d: ShardId) -> bool
    ensures { result ≡ may cluster.now r.0 d.0 }
{
    let Some(cell) = link_of(cluster, r, d) else {
        return false;
    };
    cell.link.is_open() && cell.link.may_cut()
}

/// Cuts a batch at the stamp's time, and sends each lane its pieces. Want of memory leaves all as it was.
pub fn cut(
    cluster: &mut Cluster,
    alloc: Global,
    stamp: Stamp,
    r: ShardId,
    d: ShardId,
) -> Result<Seen, NoMemory>
    ensures ok { OnOk result (cluster.new ≡ change cluster.old r.0 d.0 stamp) }
    ensures seen { IfOk result (λ seen. seen ≡ what_is_seen cluster.old r.0 d.0) }
    ensures bounded { IfOk result (λ seen. is_bounded cluster.old (Cut r d) ≡ true) }
    ensures unchanged { OnErr result (cluster.new ≡ cluster.old) }
{
    let Some(links) = cluster.links.get_mut(r.0) else {
        return Err(NoMemory);
    };
    let Some(cell) = links.get_mut(d.0) else {
        return Err(NoMemory);
    };
    send(cell, alloc, stamp.time)
}

fn send(cell: &mut LinkCell, alloc: Global, time: u64) -> Result<Seen, NoMemory>
    ensures ok { OnOk result (cell.new ≡ cut_at time cell.old) }
    ensures seen { IfOk result (λ seen. let l = cell.old.link in
        seen ≡ BatchSeen l.kept.place (l.kept.place + min l.batch (length l.buffer))) }
    ensures bounded { IfOk result (λ seen. is_below_end cell.old.link.lanes (batch_at 0 cell.old.link) ≡ true) }
    ensures unchanged { OnErr result (cell.new ≡ cell.old) }
{
    if !cell.link.may_cut() {
        return Err(NoMemory);
    }
    let most = cell.link.batch();
    let lanes = cell.link.lanes();
    let ends = ends_of(&cell.link, alloc, most)?;
    let batch = cell.link.batch_of(alloc, most, time)?;
    let from = batch.place;
    let count = cell.link.buffered().min(most as u64);
    let parts = split(alloc, batch, lanes)?;
    join(&mut cell.sent, parts)?;
    cell.link.send_out(most, ends);
    Ok(Seen::Batch {
        from,
        to: from + count,
    })
}
