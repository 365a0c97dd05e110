//! A lane takes pieces, goes back and hands its documents out.

use crate::examples::{document, three_shards};
use resh_lane::{Applying, Lane};
use resh_oplog::{Piece, What};
use resh_rules::{Pool, Rule};
use resh_value::{NoMemory, ShardId, Value};
use std::alloc::Global;
use std::test::Fail;

// An insert of the document of `_id` 1 with this `x`.
fn piece(alloc: Global, donor: u32, position: u64, x: i64) -> Result<Piece, NoMemory> {
    Ok(Piece {
        donor: ShardId(donor),
        place: position,
        position,
        time: 0,
        id: Value::Int(1),
        what: What::Insert(document(alloc, 1, "x", x)?),
    })
}

fn give(lane: &mut Lane, piece: Piece) -> Result<Applying, Fail> {
    if !lane.fits(&piece) {
        return Err(Fail::from("it doesn't fit"));
    }
    Ok(lane.apply(piece))
}

fn applied(number: u8) -> Applying {
    Applying::Applied {
        rule: Rule { number, took: None },
    }
}

/// The donors and positions of pieces, their `x`, and what comes of them.
fn steps() -> [(u32, u64, i64, Applying); 5] {
    [
        (0, 0, 1, applied(2)),
        (0, 0, 1, Applying::Repeated { at: 1 }),
        (1, 1, 11, Applying::Ahead { at: 0, got: 1 }),
        (1, 0, 11, applied(4)),
        (1, 1, 11, applied(1)),
    ]
}

/// What came of the first piece of which something else should have come.
fn wrong_step(alloc: Global, lane: &mut Lane) -> Result<Option<Applying>, Fail> {
    for (donor, position, x, wanted) in steps() {
        let got = give(lane, piece(alloc, donor, position, x)?)?;
        if got != wanted {
            return Ok(Some(got));
        }
    }
    Ok(None)
}

/// A lane of two donors that is started and has room.
fn started(alloc: Global) -> Result<Lane, Fail> {
    let pool = Pool::new(alloc, three_shards(alloc)?, 2)?;
    let mut lane = Lane::new(alloc, pool, 2)?;
    lane.start();
    lane.reserve(2)?;
    Ok(lane)
}

/// What a lane shows of donor 1 and of all it holds.
fn shown(lane: &Lane) -> (u64, u64, u64, bool) {
    let donor = ShardId(1);
    (
        lane.at(donor),
        lane.high(donor),
        lane.pool().stashed(),
        lane.is_started(),
    )
}

/// The number of documents that a lane hands out, and what it shows after it is cleared.
fn ended(lane: &mut Lane) -> Result<(u64, u64, bool), NoMemory> {
    let documents = lane.finish()?.len();
    lane.clear();
    Ok((documents, lane.at(ShardId(0)), lane.is_started()))
}

/// Whether a lane takes a piece again after it went back to it.
fn goes_back(alloc: Global, lane: &mut Lane) -> Result<bool, Fail> {
    lane.back(ShardId(1), 1);
    let before = shown(lane) == (1, 2, 1, true);
    let again = give(lane, piece(alloc, 1, 1, 11)?)? == applied(1);
    Ok(before && again && shown(lane) == (2, 2, 1, true))
}

/// Whether each step is right, the way back, and the end.
fn told(alloc: Global) -> Result<[bool; 3], Fail> {
    let mut lane = started(alloc)?;
    let steps = wrong_step(alloc, &mut lane)?.is_none();
    let back = goes_back(alloc, &mut lane)?;
    Ok([steps, back, ended(&mut lane)? == (1, 1, false)])
}

#[test]
fn pieces_of_two_donors(rt: HostRuntime) -> Result<(), Fail> {
    assert_eq!(rt; told(rt.alloc())?, [true; 3]);
    Ok(())
}
