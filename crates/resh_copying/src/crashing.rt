//! A link goes back to its kept record, and its recipient's lanes with it.

ghost use Rattle.std.specs.Prelude.{◌≡◌, ◌<◌, ◌^◌, length, IfOk, OnOk, OnErr};
ghost use Rattle.resh_cells.specs.Cells.{with_link};
ghost use Rattle.resh_fetcher.specs.Links.{gone_back};
ghost use Rattle.resh_setup.specs.declared.seen.Seen.TheVariants.{Back};
ghost use Rattle.resh_events.specs.rows.Crash.{back, change, may, seen as what_is_seen};

use crate::cells::link_of;
use resh_cells::{Cells, Cluster, LaneCell, LinkCell};
use resh_setup::Seen;
use resh_value::{NoMemory, ShardId};

/// Whether the link may go back: it is open.
pub fn may_crash(cluster: &Cluster, r: ShardId, d: ShardId) -> bool
    ensures { result ≡ may cluster.now r.0 d.0 }
{
    match link_of(cluster, r, d) {
        Some(cell) => cell.link.is_open(),
        None => false,
    }
}

/// The link goes back to its kept record, and each lane to its position there, unless it is below it.
pub fn crash(cluster: &mut Cluster, r: ShardId, d: ShardId) -> Result<Seen, NoMemory>
    ensures ok { OnOk result (cluster.new ≡ change cluster.old r.0 d.0) }
    ensures seen { IfOk result (λ seen. seen ≡ what_is_seen cluster.old r.0 d.0) }
    ensures unchanged { OnErr result (cluster.new ≡ cluster.old) }
{
    let Some(links) = cluster.links.get_mut(r.0) else {
        return Err(NoMemory);
    };
    let Some(cell) = links.get_mut(d.0) else {
        return Err(NoMemory);
    };
    let Some(lanes) = cluster.lanes.get_mut(r.0) else {
        return Err(NoMemory);
    };
    Ok(go_back(cell, lanes, d))
}

fn go_back(cell: &mut LinkCell, lanes: &mut Cells<LaneCell>, d: ShardId) -> Seen
    ensures link { cell.new ≡ with_link gone_back cell.old }
    ensures lanes { lanes.new ≡ back d.0 lanes.old cell.old.link.kept.lanes }
    ensures seen { result ≡ Back cell.old.link.kept.place }
{
    let _lanes = cell.link.lanes();
    let kept = cell.link.kept();
    let place = kept.place;
    back(d, lanes, kept.lanes.as_slice());
    cell.link.back();
    Seen::Back { place }
}

/// Each lane goes back to its number.
fn back(d: ShardId, lanes: &mut Cells<LaneCell>, numbers: &[u64])
    requires { length numbers.now < 2 ^ 32 }
    ensures { lanes.new ≡ back d.0 lanes.old numbers.now }
{
    for (place, number) in numbers.iter().enumerate() {
        let Some(cell) = lanes.get_mut(place as u32) else {
            return;
        };
        cell.lane.back(d, *number);
    }
}
