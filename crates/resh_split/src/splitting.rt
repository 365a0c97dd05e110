//! A batch is split among the lanes.

ghost use Rattle.std.specs.Prelude.{◌≡◌, ◌<◌, [], true, Some, length, replicate, IfOk};
ghost use Rattle.resh_oplog.specs.Logs.{id_written};
ghost use Rattle.resh_split.specs.Parts.{is_below_end, parts_of, pieces, put_in};

use crate::counts::{are_below_end, count_on, next};
use crate::lane::id_lane;
use resh_fetcher::Batch;
use resh_oplog::{Piece, What};
use resh_value::{END_OF_PLACES, NoMemory, Sequence, ShardId, Value};
use std::alloc::Global;

/// A list of pieces.
pub type Pieces = Sequence<Piece>;

/// A list of pieces for each lane.
pub type Parts = Sequence<Pieces>;

// Where an item comes from.
#[derive(Debug, Drop, Clone, Copy)]
struct Origin {
    donor: ShardId,
    time: u64,
    place: u64,
}

// What has been split: the position that each lane has come to, and its part.
#[derive(Debug, Drop)]
struct Deal {
    lanes: u32,
    counts: Vec<u64>,
    parts: Vec<Pieces>,
}

/// The parts of a batch: each item that writes an `_id` is in that of the lane of this `_id`, in order.
pub fn split(alloc: Global, batch: Batch, lanes: u32) -> Result<Parts, NoMemory>
    requires lanes { 0 < lanes }
    requires starts { length batch.starts ≡ lanes }
    ensures parts { IfOk result (λ parts. parts ≡ parts_of lanes (pieces lanes batch)) }
    ensures within { IfOk result (λ parts. is_below_end lanes batch ≡ true) }
{
    let Batch {
        donor,
        place,
        time,
        starts,
        items,
    } = batch;
    let mut deal = Deal {
        lanes,
        counts: starts.into_vec(),
        parts: empty_parts(alloc, lanes)?,
    };
    let mut place = place;
    for what in items.into_vec() {
        deal.add(Origin { donor, time, place }, what, alloc)?;
        place = next(place)?;
    }
    if place < END_OF_PLACES && are_below_end(deal.counts.as_slice()) {
        return Ok(Sequence::from_vec(deal.parts));
    }
    Err(NoMemory)
}

fn empty_parts(alloc: Global, lanes: u32) -> Result<Vec<Pieces>, NoMemory>
    ensures { IfOk result (λ parts. parts.items ≡ replicate lanes []) }
{
    let mut parts = Vec::new(alloc);
    for _ in 0..lanes {
        parts.push(Sequence::new(alloc))?;
    }
    Ok(parts)
}

impl Deal {
    ghost use Rattle.resh_split.specs.Deals.{HasMore, IsDeal};

    /// One more item is put at the end of its lane's part, and counted.
    fn add(&mut self, origin: Origin, what: What, alloc: Global) -> Result<(), NoMemory>
        requires { IsDeal self.old }
        ensures { IfOk result (λ done. HasMore self.old origin what (id_written what) self.new) }
    {
        match copied_id(&what, alloc)? {
            Some(id) => self.add_under(id, origin, what, alloc),
            None => Ok(()),
        }
    }

    fn add_under(
        &mut self,
        id: Value,
        origin: Origin,
        what: What,
        alloc: Global,
    ) -> Result<(), NoMemory>
        requires { IsDeal self.old }
        ensures { IfOk result (λ done. HasMore self.old origin what (Some id) self.new) }
    {
        let Origin { donor, time, place } = origin;
        let lane = id_lane(&id, alloc, self.lanes)?;
        let position = self.counts[lane as usize];
        let piece = Piece {
            donor,
            place,
            position,
            time,
            id,
            what,
        };
        count_on(&mut self.counts, lane)?;
        put(&mut self.parts, lane, piece)
    }
}

fn put(parts: &mut Vec<Pieces>, lane: u32, piece: Piece) -> Result<(), NoMemory>
    requires { lane < length parts.old.items }
    ensures { IfOk result (λ done. parts.new.items ≡ put_in parts.old.items lane piece) }
{
    match parts[lane as usize].push(piece) {
        Ok(()) => Ok(()),
        Err(_) => Err(NoMemory),
    }
}

fn copied_id(what: &What, alloc: Global) -> Result<Option<Value>, NoMemory>
    ensures { IfOk result (λ id. id ≡ id_written what.now) }
{
    match what.id() {
        Some(id) => Ok(Some(id.copy(alloc)?)),
        None => Ok(None),
    }
}
