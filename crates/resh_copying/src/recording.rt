//! A link keeps the end of the batch that is out.

ghost use Rattle.std.specs.Prelude.{◌≡◌, IfOk, OnOk, OnErr};
ghost use Rattle.resh_fetcher.specs.Links.{batch_kept};
ghost use Rattle.resh_events.specs.rows.Record.{change, kept_seen, may, reach, seen as what_is_seen};

use crate::cells::{lanes_of, link_of};
use resh_cells::{Cluster, LaneCell};
use resh_fetcher::Link;
use resh_setup::Seen;
use resh_value::{NoMemory, ShardId};

/// Whether the batch that is out may be kept: the link is open, and each lane has come to the batch's end.
pub fn may_record(cluster: &Cluster, r: ShardId, d: ShardId) -> bool
    ensures { result ≡ may cluster.now r.0 d.0 }
{
    let Some(cell) = link_of(cluster, r, d) else {
        return false;
    };
    let link = &cell.link;
    link.is_open()
        && link.batch_end().is_some()
        && reach(d, lanes_of(cluster, r), link.ends().as_slice())
}

fn reach(d: ShardId, lanes: &[LaneCell], numbers: &[u64]) -> bool
    ensures { result ≡ reach d.0 lanes.now numbers.now }
{
    let mut lanes = lanes;
    let mut numbers = numbers;
    while let [cell, later @ ..] = lanes {
        let [number, rest @ ..] = numbers else {
            return true;
        };
        if cell.lane.at(d) < *number {
            return false;
        }
        lanes = later;
        numbers = rest;
    }
    true
}

/// Keeps the batch that is out.
pub fn record(cluster: &mut Cluster, r: ShardId, d: ShardId) -> Result<Seen, NoMemory>
    ensures ok { OnOk result (cluster.new ≡ change cluster.old r.0 d.0) }
    ensures seen { IfOk result (λ seen. seen ≡ what_is_seen cluster.old r.0 d.0) }
    ensures unchanged { OnErr result (cluster.new ≡ cluster.old) }
{
    let Some(links) = cluster.links.get_mut(r.0) else {
        return Err(NoMemory);
    };
    let Some(cell) = links.get_mut(d.0) else {
        return Err(NoMemory);
    };
    keep(&mut cell.link)
}

fn keep(link: &mut Link) -> Result<Seen, NoMemory>
    ensures ok { OnOk result (link.new ≡ batch_kept link.old) }
    ensures seen { IfOk result (λ seen. let l = batch_kept link.old in seen ≡ kept_seen l.kept.place l.kept.finished) }
    ensures unchanged { OnErr result (link.new ≡ link.old) }
{
    if link.batch_end().is_none() {
        return Err(NoMemory);
    }
    link.keep_batch();
    let place = link.kept().place;
    if link.finished() {
        return Ok(Seen::KeptLast { place });
    }
    Ok(Seen::Kept { place })
}
