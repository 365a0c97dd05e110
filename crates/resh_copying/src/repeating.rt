//! A lane is given a piece of any position that was ever cut.

ghost use Rattle.std.specs.Prelude.{◌≡◌, cond, Some, IfOk, OnOk, OnErr};
ghost use Rattle.std.specs.Option.{option_copied};
ghost use Rattle.resh_lane.specs.Lanes.{taken};
ghost use Rattle.resh_events.specs.rows.Apply.{is_at};
ghost use Rattle.resh_events.specs.rows.Again.{change, given_seen, may, seen as what_is_seen, takes};

use crate::applying::{is_at, is_given, take};
use crate::cells::lane_of;
use resh_cells::{Cluster, LaneCell};
use resh_oplog::Piece;
use resh_setup::Seen;
use resh_value::{NoMemory, ShardId};

/// Whether the lane may be given this piece again: its links are open, and the piece is this donor's and of this
/// position.
pub fn may_again(
    cluster: &Cluster,
    r: ShardId,
    d: ShardId,
    lane: u32,
    position: u32,
    piece: Option<&Piece>,
) -> bool
    ensures { result ≡ may cluster.now r.0 d.0 lane position (option_copied piece.entry) }
{
    let Some(piece) = piece else {
        return false;
    };
    let Some(cell) = lane_of(cluster, r, lane) else {
        return false;
    };
    is_given(&cell.lane, d, piece) && piece.position == position as u64
}

/// Whether the lane would take the piece: it stands at the lane's position.
pub fn takes_again(
    cluster: &Cluster,
    r: ShardId,
    d: ShardId,
    lane: u32,
    piece: Option<&Piece>,
) -> bool
    ensures { result ≡ takes cluster.now r.0 d.0 lane (option_copied piece.entry) }
{
    let Some(piece) = piece else {
        return false;
    };
    match lane_of(cluster, r, lane) {
        Some(cell) => is_at(&cell.lane, piece),
        None => piece.position == 0,
    }
}

/// The lane is given the piece: it takes it at its position, and else nothing changes. Want of memory leaves all as it
/// was; it also comes where the lane does not take it.
pub fn again(
    cluster: &mut Cluster,
    r: ShardId,
    d: ShardId,
    lane: u32,
    piece: Piece,
) -> Result<Seen, NoMemory>
    ensures ok { OnOk result (cluster.new ≡ change cluster.old r.0 d.0 lane (Some piece)) }
    ensures seen { IfOk result (λ seen. seen ≡ what_is_seen cluster.old r.0 d.0 lane (Some piece)) }
    ensures unchanged { OnErr result (cluster.new ≡ cluster.old) }
{
    let Some(lanes) = cluster.lanes.get_mut(r.0) else {
        return Err(NoMemory);
    };
    let Some(cell) = lanes.get_mut(lane) else {
        return Err(NoMemory);
    };
    give(cell, piece)
}

fn give(cell: &mut LaneCell, piece: Piece) -> Result<Seen, NoMemory>
    ensures ok { OnOk result (cell.new ≡ cond (is_at cell.old piece) (taken piece cell.old) cell.old) }
    ensures seen { IfOk result (λ seen. seen ≡ given_seen cell.old piece) }
    ensures unchanged { OnErr result (cell.new ≡ cell.old) }
{
    if is_at(&cell.lane, &piece) {
        return take(cell, piece);
    }
    let at = cell.lane.at(piece.donor);
    if piece.position < at {
        return Ok(Seen::Repeated { at });
    }
    Ok(Seen::Ahead { at })
}
