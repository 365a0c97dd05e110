//! Where the documents of a setup go.

ghost use Rattle.std.specs.Prelude.{◌≡◌, None, Some, [], ◌∷◌, IfOk};
ghost use Rattle.std.specs.List.Sorted.{IsSorted};
ghost use Rattle.resh_value.specs.Lookup.{id_of};
ghost use Rattle.resh_bag.specs.Bag.{HasDistinctPlaces, opening_bag};
ghost use Rattle.resh_model.specs.Marks.{IsRun, clash_at};

use crate::seat::{Seat, first_tie, hand_out, seats_back, seats_of};
use resh_chunks::ChunkMap;
use resh_coord::{Cause, End};
use resh_setup::{Holdings, Turn, Turns};
use resh_value::{Documents, NoMemory, Sequence, Value};
use std::alloc::Global;

/// The marks of a run, its end, and what each shard then holds.
#[derive(Debug, Drop)]
pub struct Run {
    pub order: Turns,
    pub end: End,
    pub holdings: Holdings,
}

/// Switches where no clash stands, and else drops at the first clash.
pub fn run_of(
    alloc: Global,
    old_map: &ChunkMap,
    new_map: &ChunkMap,
    documents: Documents,
) -> Result<Run, NoMemory>
    requires { HasDistinctPlaces old_map.now documents }
    ensures { IfOk result (λ r. IsRun old_map.now new_map.now
        (opening_bag old_map.now documents) r.order r.end r.holdings) }
{
    let seats = seats_of(alloc, old_map, new_map, documents)?;
    match first_tie(seats.as_slice()) {
        None => {
            let holdings = hand_out(alloc, seats, new_map.shards())?;
            Ok(Run {
                order: one_turn(alloc, Turn::Switch)?,
                end: End::Committed,
                holdings,
            })
        }
        Some(place) => {
            let cause = cause_of(alloc, &seats[place])?;
            let end = End::Aborted(cause.copy(alloc)?);
            let order = one_turn(alloc, Turn::Drop(cause))?;
            let holdings = hand_out(alloc, seats_back(seats)?, old_map.shards())?;
            Ok(Run {
                order,
                end,
                holdings,
            })
        }
    }
}

/// The clash that a seat has with its neighbour.
fn cause_of(alloc: Global, seat: &Seat) -> Result<Cause, NoMemory>
    ensures { IfOk result (λ cause. cause ≡ clash_at seat.now.shard.0 (id_of seat.now.document)) }
{
    Ok(Cause::Clash {
        shard: seat.shard,
        id: seat.document.copy_id(alloc)?,
    })
}

fn one_turn(alloc: Global, turn: Turn) -> Result<Turns, NoMemory>
    ensures { IfOk result (λ turns. turns ≡ turn ∷ []) }
{
    let mut turns = Sequence::new(alloc);
    match turns.push(turn) {
        Ok(()) => Ok(turns),
        Err(_) => Err(NoMemory),
    }
}
