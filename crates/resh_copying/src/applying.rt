//! A lane takes the piece at its position for a donor.

ghost use Rattle.std.specs.Prelude.{◌≡◌, true, Some, IfOk, OnOk, OnErr};
ghost use Rattle.std.specs.Option.{option_copied};
ghost use Rattle.resh_lane.specs.Lanes.{taken};
ghost use Rattle.resh_events.specs.rows.Apply.{change, is_at, is_given, may, piece_seen, rule_seen, seen as what_is_seen, write_of};

use crate::cells::lane_of;
use resh_cells::{Cluster, LaneCell};
use resh_lane::{Applying, Lane};
use resh_oplog::{Piece, What};
use resh_rules::Rule;
use resh_setup::{Seen, WriteKind};
use resh_value::{NoMemory, ShardId};

/// Whether the lane may be given a piece as its next: its links are open, and the piece is this donor's and stands at
/// the lane's position.
pub fn may_apply(
    cluster: &Cluster,
    r: ShardId,
    d: ShardId,
    lane: u32,
    piece: Option<&Piece>,
) -> bool
    ensures { result ≡ may cluster.now r.0 d.0 lane (option_copied piece.entry) }
{
    let Some(piece) = piece else {
        return false;
    };
    let Some(cell) = lane_of(cluster, r, lane) else {
        return false;
    };
    is_given(&cell.lane, d, piece) && is_at(&cell.lane, piece)
}

/// Whether the lane's links are open, and the piece is this donor's.
pub(crate) fn is_given(lane: &Lane, d: ShardId, piece: &Piece) -> bool
    ensures { result ≡ is_given lane.now.state d.0 piece.now }
{
    lane.is_started() && piece.donor == d
}

/// Whether the piece stands at the lane's position.
pub(crate) fn is_at(lane: &Lane, piece: &Piece) -> bool
    ensures { result ≡ is_at lane.now.state piece.now }
{
    piece.position == lane.at(piece.donor)
}

/// The lane takes the piece. Want of memory leaves all as it was; it also comes where the lane does not take it.
pub fn apply(
    cluster: &mut Cluster,
    r: ShardId,
    d: ShardId,
    lane: u32,
    piece: Piece,
) -> Result<Seen, NoMemory>
    ensures ok { OnOk result (cluster.new ≡ change cluster.old r.0 d.0 lane (Some piece)) }
    ensures seen { IfOk result (λ seen. seen ≡ what_is_seen cluster.old r.0 d.0 lane (Some piece)) }
    ensures unchanged { OnErr result (cluster.new ≡ cluster.old) }
{
    let Some(lanes) = cluster.lanes.get_mut(r.0) else {
        return Err(NoMemory);
    };
    let Some(cell) = lanes.get_mut(lane) else {
        return Err(NoMemory);
    };
    take(cell, piece)
}

/// The lane takes the piece at its position. Want of memory leaves it as it was.
pub(crate) fn take(cell: &mut LaneCell, piece: Piece) -> Result<Seen, NoMemory>
    ensures ok { OnOk result (cell.new ≡ taken piece cell.old) }
    ensures seen { IfOk result (λ seen. seen ≡ piece_seen cell.old piece) }
    ensures unchanged { OnErr result (cell.new ≡ cell.old) }
{
    if !cell.lane.fits(&piece) {
        return Err(NoMemory);
    }
    let write = write_of(&piece.what);
    let place = piece.place;
    match cell.lane.apply(piece) {
        Applying::Applied { rule } => {
            let stash = cell.lane.pool().stashed();
            Ok(rule_seen(write, rule, place, stash))
        }
        _ => Err(NoMemory),
    }
}

fn write_of(what: &What) -> WriteKind
    ensures { result ≡ write_of what.now }
{
    match what {
        What::Insert(_) => WriteKind::Insert,
        What::Update { .. } => WriteKind::Update,
        What::Delete { .. } | What::Final => WriteKind::Delete,
    }
}

fn rule_seen(write: WriteKind, rule: Rule, place: u64, stash: u64) -> Seen
    ensures { result ≡ rule_seen write rule.number rule.took place stash }
{
    match rule.took {
        Some(donor) => Seen::Took {
            write,
            donor,
            place,
            stash,
        },
        None => Seen::Applied {
            write,
            rule: rule.number,
            place,
            stash,
        },
    }
}
