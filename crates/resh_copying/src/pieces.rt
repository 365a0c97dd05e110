//! The pieces that a link ever cut for a lane.

ghost use Rattle.std.specs.Prelude.{◌≡◌, IfOk};
ghost use Rattle.std.specs.Option.{option_copied};
ghost use Rattle.resh_lane.specs.Lanes.{number_of};
ghost use Rattle.resh_cells.specs.Cells.{lane_in, link_in};
ghost use Rattle.resh_cells.specs.Cuts.{cut_for, last_cut};
ghost use Rattle.resh_setup.specs.declared.event.Event.TheVariants.{Apply, Again};
ghost use Rattle.resh_events.specs.Steps.{piece_for};

use crate::cells::{lane_of, link_of};
use resh_cells::Cluster;
use resh_oplog::Piece;
use resh_value::{NoMemory, ShardId};
use std::alloc::Global;

/// A copy of the piece at the lane's position that the link cut last; `None` exactly where there is none.
pub fn next_piece(
    cluster: &Cluster,
    alloc: Global,
    r: ShardId,
    d: ShardId,
    lane: u32,
) -> Result<Option<Piece>, NoMemory>
    ensures { IfOk result (λ piece. piece ≡ piece_for cluster.now (Apply r d lane)) }
{
    copied(peek_next_piece(cluster, r, d, lane), alloc)
}

/// A copy of the piece of this position that the link cut last; `None` exactly where there is none.
pub fn piece_at(
    cluster: &Cluster,
    alloc: Global,
    r: ShardId,
    d: ShardId,
    lane: u32,
    position: u32,
) -> Result<Option<Piece>, NoMemory>
    ensures { IfOk result (λ piece. piece ≡ piece_for cluster.now (Again r d lane position)) }
{
    copied(peek_piece_at(cluster, r, d, lane, position), alloc)
}

/// The piece at the lane's position that the link cut last; `None` exactly where there is none.
pub fn peek_next_piece(cluster: &Cluster, r: ShardId, d: ShardId, lane: u32) -> Option<&Piece>
    ensures { option_copied result ≡ piece_for cluster.now (Apply r d lane) }
{
    let position = match lane_of(cluster, r, lane) {
        Some(cell) => cell.lane.at(d),
        None => 0,
    };
    last_of(cluster, r, d, lane, position)
}

/// The piece of this position that the link cut last; `None` exactly where there is none.
pub fn peek_piece_at(
    cluster: &Cluster,
    r: ShardId,
    d: ShardId,
    lane: u32,
    position: u32,
) -> Option<&Piece>
    ensures { option_copied result ≡ piece_for cluster.now (Again r d lane position) }
{
    last_of(cluster, r, d, lane, position as u64)
}

fn last_of(cluster: &Cluster, r: ShardId, d: ShardId, lane: u32, position: u64) -> Option<&Piece>
    ensures { option_copied result ≡ last_cut (cut_for (link_in cluster.now r.0 d.0).sent lane) position }
{
    match link_of(cluster, r, d) {
        Some(cell) => match cell.sent.get(lane) {
            Some(cuts) => cuts.last(position),
            None => None,
        },
        None => None,
    }
}

fn copied(piece: Option<&Piece>, alloc: Global) -> Result<Option<Piece>, NoMemory>
    ensures { IfOk result (λ copy. copy ≡ option_copied piece.entry) }
{
    match piece {
        Some(piece) => Ok(Some(piece.copy(alloc)?)),
        None => Ok(None),
    }
}
