ghost use Rattle.std.specs.Prelude.{◌≡◌, ◌↔◌, ◌≤◌, ◌<◌, ◌-◌, IsTrue, IfOk, IsOk, OnOk, OnErr, false, true};
ghost use Rattle.std.specs.FinMap.{values};
ghost use Rattle.resh_lane.specs.Applying.{Comes, LeavesRoom};
ghost use Rattle.resh_lane.specs.Lanes.{Fits, IsLane, advanced, emptied, end_of_positions, fits, fresh, gone_back, number_of, with_started};
ghost use Rattle.resh_rules.specs.Pools.{AreWhole, empty_pool};

use crate::give::give;
use resh_oplog::Piece;
use resh_rules::{Pool, Rule};
use resh_value::{Documents, END_OF_PLACES, NoMemory, ShardId};
use std::alloc::Global;
use std::marker::Model;

/// One lane of a recipient: what it holds, and for each donor the position of the next piece of that donor's feed.
#[derive(Debug, Drop)]
pub struct Lane {
    pool: Pool,
    started: bool,
    at: Vec<u64>,
    high: Vec<u64>,
}

/// What came of a piece.
#[derive(Debug, Drop, Clone, Copy, PartialEq, Eq)]
pub enum Applying {
    Applied { rule: Rule },
    /// Its position is below the next.
    Repeated { at: u64 },
    /// Its position is above the next.
    Ahead { at: u64, got: u64 },
    NoMemory,
}

impl Model for Lane {
    ghost use Rattle.resh_lane.specs.Lanes.{IsLane, LaneOf, lane_code, lane_of};
    ghost use Rattle.resh_rules.specs.Pools.{Roomy, roomy_code};

    ghost Value = { Roomy LaneOf };

    ghost coded = { roomy_code lane_code };

    ghost view = { λ l. lane_of l.pool l.started l.at.items l.high.items };

    ghost invariant = { λ l. IsLane (lane_of l.pool l.started l.at.items l.high.items).state };
}

impl Lane {
    /// A lane over a pool that holds nothing, at the first position of each of so many donors' feeds.
    pub fn new(alloc: Global, pool: Pool, donors: u32) -> Result<Lane, NoMemory>
        requires { pool.state ≡ empty_pool pool.state.chunks donors }
        ensures state { IfOk result (λ lane. lane.state ≡ fresh pool.state donors) }
        ensures spare { IfOk result (λ lane. lane.spare ≡ pool.spare) }
    {
        Ok(Lane {
            pool,
            started: false,
            at: vec![in alloc; 0u64; donors as usize]?,
            high: vec![in alloc; 0u64; donors as usize]?,
        })
    }

    pub fn pool(&self) -> &Pool
        ensures pool { result.now.state ≡ self.now.state.pool }
        ensures spare { result.now.spare ≡ self.now.spare }
        ensures lane { IsLane self.now.state }
    {
        &self.pool
    }

    /// Whether the lane was told that its links are open, since it last was emptied.
    pub fn is_started(&self) -> bool
        ensures { result ≡ self.now.state.started }
    {
        self.started
    }

    /// The position of the next piece of a donor's feed; 0 for a donor that isn't there.
    pub fn at(&self, donor: ShardId) -> u64
        ensures { result ≡ number_of self.now.state.at donor.0 }
    {
        number_of(self.at.as_slice(), donor)
    }

    /// The greatest position of a donor's feed that was ever reached; 0 for a donor that isn't there.
    pub fn high(&self, donor: ShardId) -> u64
        ensures { result ≡ number_of self.now.state.high donor.0 }
    {
        number_of(self.high.as_slice(), donor)
    }

    /// Whether a piece may be given to `apply`.
    pub fn fits(&self, piece: &Piece) -> bool
        ensures value { result ≡ fits self.now.state piece.now }
        ensures exactly { IsTrue result ↔ Fits self.now.state piece.now }
    {
        piece.position < END_OF_POSITIONS && self.pool.fits(piece.donor, &piece.id, &piece.what)
    }

    /// Takes a piece that is at its donor's position; another changes nothing. Want of memory leaves what is held and
    /// the positions as they were; it can't come of a delete, of an insert for which there is room, nor of an update
    /// where the donor has no such document.
    pub fn apply(&mut self, piece: Piece) -> Applying
        requires { Fits self.old.state piece }
        ensures state { Comes piece self.old.state result self.new.state }
        ensures room { LeavesRoom piece self.old result self.new }
    {
        let at = self.at(piece.donor);
        let got = piece.position;
        if got < at {
            return Applying::Repeated { at };
        }
        if at < got {
            return Applying::Ahead { at, got };
        }
        match give(&mut self.pool, piece.donor, piece.id, piece.what) {
            Ok(rule) => {
                self.advance(piece.donor);
                Applying::Applied { rule }
            }
            Err(_) => Applying::NoMemory,
        }
    }

    fn advance(&mut self, donor: ShardId)
        requires { number_of self.old.state.at donor.0 < end_of_positions }
        ensures state { self.new.state ≡ advanced donor.0 self.old.state.pool self.old.state }
        ensures spare { self.new.spare ≡ self.old.spare }
    {
        let place = donor.0 as usize;
        if place < self.at.len() {
            let next = self.at[place] + 1;
            let high = self.high[place];
            self.at[place] = next;
            self.high[place] = high.max(next);
        }
    }

    /// Goes back to a position of a donor's feed, unless the lane is below it.
    pub fn back(&mut self, donor: ShardId, position: u64)
        ensures state { self.new.state ≡ gone_back donor.0 position self.old.state }
        ensures spare { self.new.spare ≡ self.old.spare }
    {
        let place = donor.0 as usize;
        if place < self.at.len() {
            let at = self.at[place];
            self.at[place] = at.min(position);
        }
    }

    /// Makes room for so many inserts. Want of memory leaves all else as it was; it can't come where there is the room.
    pub fn reserve(&mut self, n: u64) -> Result<(), NoMemory>
        ensures room { OnOk result (n ≤ self.new.spare) }
        ensures spare { self.old.spare ≤ self.new.spare }
        ensures kept { self.new.state ≡ self.old.state }
        ensures succeeds { n ≤ self.old.spare → IsOk result }
    {
        self.pool.reserve(n)
    }

    /// Notes that the lane's links are open.
    pub fn start(&mut self)
        ensures state { self.new.state ≡ with_started true self.old.state }
        ensures spare { self.new.spare ≡ self.old.spare }
    {
        self.started = true;
    }

    /// Hands the output's documents out by `_id`; then the lane holds nothing and isn't started. Want of memory leaves
    /// all as it was.
    pub fn finish(&mut self) -> Result<Documents, NoMemory>
        ensures ok { IfOk result (λ documents. documents ≡ values self.old.state.pool.output) }
        ensures whole { IfOk result (λ documents. AreWhole documents) }
        ensures emptied { OnOk result (self.new.state ≡ emptied self.old.state) }
        ensures unchanged { OnErr result (self.new ≡ self.old) }
        ensures spare { self.old.spare ≤ self.new.spare }
    {
        let documents = self.pool.finish()?;
        self.started = false;
        Ok(documents)
    }

    /// Lets all documents go; then the lane isn't started.
    pub fn clear(&mut self)
        ensures emptied { self.new.state ≡ emptied self.old.state }
        ensures spare { self.old.spare ≤ self.new.spare }
    {
        self.pool.clear();
        self.started = false;
    }
}

/// No piece stands at this position or above.
const END_OF_POSITIONS: u64 = END_OF_PLACES - 1;

fn number_of(numbers: &[u64], donor: ShardId) -> u64
    ensures { result ≡ number_of numbers.now donor.0 }
{
    match numbers.get(donor.0 as usize) {
        Some(number) => *number,
        None => 0,
    }
}
