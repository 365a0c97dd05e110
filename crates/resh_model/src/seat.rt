//! Documents on their way from shard to shard.

ghost use Rattle.std.specs.Prelude.{◌≡◌, ◌<◌, refl, [], ◌∷◌, length, map, IfOk};
ghost use Rattle.std.specs.Cmp.{eq_by_cmp_equiv, partial_equiv_from_equiv, partial_order_from_total};
ghost use Rattle.std.specs.List.{All, range_with_len};
ghost use Rattle.std.specs.List.Sorted.{IsPermutation, IsSorted};
ghost use Rattle.std.specs.Ordering.{as_partial_cmp, eq_by_cmp};
ghost use Rattle.resh_model.specs.Seats.{target_cmp, seat_cmp, seat_total, sent_back, IsSeated, IsSeating, handed_out, IsFirstTie};

use resh_chunks::ChunkMap;
use resh_glance::id_or;
use resh_setup::Holdings;
use resh_value::{Document, Documents, NoMemory, Sequence, ShardId, Value, compare};
use std::alloc::Global;
use std::cmp::Ordering;

/// A document, with the shards that it goes to and comes from.
#[derive(Debug, Drop)]
pub(crate) struct Seat {
    pub(crate) shard: ShardId,
    pub(crate) from: ShardId,
    pub(crate) document: Document,
}

impl Seat {
    /// By the shard that it goes to, then by `_id`.
    fn compare_targets(&self, other: &Seat) -> Ordering
        ensures { result ≡ target_cmp self.now other.now }
    {
        let shards = self.shard.0.cmp(&other.shard.0);
        if shards.is_ne() {
            return shards;
        }
        let null = Value::Null;
        compare(id_or(&self.document, &null), id_or(&other.document, &null))
    }
}

impl PartialEq for Seat {
    ghost eq = { eq_by_cmp seat_cmp };

    ghost laws = { partial_equiv_from_equiv (eq_by_cmp_equiv seat_total) };

    fn eq(&self, other: &Seat) -> bool {
        self.cmp(other).is_eq()
    }
}

impl Eq for Seat {
    ghost laws = { eq_by_cmp_equiv seat_total };
}

impl PartialOrd for Seat {
    ghost partial_cmp = { as_partial_cmp seat_cmp };

    ghost laws = { partial_order_from_total seat_total };

    fn partial_cmp(&self, other: &Seat) -> Option<Ordering> {
        Some(self.cmp(other))
    }
}

/// By the shard that it goes to, then by `_id`, then by the shard that it comes from.
impl Ord for Seat {
    ghost cmp = { seat_cmp };

    ghost total = { seat_total };

    ghost matches_partial_cmp = { λ x y. refl };

    ghost matches_eq = { λ x y. refl };

    fn cmp(&self, other: &Seat) -> Ordering {
        self.compare_targets(other)
            .then(self.from.0.cmp(&other.from.0))
    }
}

/// Gives each document a seat, in order.
pub(crate) fn seats_of(
    alloc: Global,
    from_map: &ChunkMap,
    to_map: &ChunkMap,
    documents: Documents,
) -> Result<Vec<Seat>, NoMemory>
    ensures seating { IfOk result (λ seats. IsSeating from_map.now to_map.now documents seats.items) }
    ensures sorted { IfOk result (λ seats. IsSorted seat_cmp seats.items) }
{
    let mut seats = unsorted_seats(alloc, from_map, to_map, documents)?;
    // Documents that came by rising `_id` are in order once their shards are.
    seats.sort_by_key(|seat| seat.shard.0)?;
    seats.sort()?;
    Ok(seats)
}

fn unsorted_seats(
    alloc: Global,
    from_map: &ChunkMap,
    to_map: &ChunkMap,
    documents: Documents,
) -> Result<Vec<Seat>, NoMemory>
    ensures same { IfOk result (λ seats. map (λ s. s.document) seats.items ≡ documents) }
    ensures seated { IfOk result (λ seats. All (IsSeated from_map.now to_map.now) seats.items) }
{
    let documents = documents.into_vec();
    let mut seats = Vec::with_capacity(alloc, documents.len())?;
    for document in documents {
        seats.push(Seat {
            shard: to_map.owner_of(&document),
            from: from_map.owner_of(&document),
            document,
        })?;
    }
    Ok(seats)
}

/// Sends each document back to the shard that it comes from, in order.
pub(crate) fn seats_back(seats: Vec<Seat>) -> Result<Vec<Seat>, NoMemory>
    ensures same { IfOk result (λ back. IsPermutation (map sent_back seats.items) back.items) }
    ensures sorted { IfOk result (λ back. IsSorted seat_cmp back.items) }
{
    let mut seats = seats;
    send_back(seats.as_mut_slice());
    seats.sort()?;
    Ok(seats)
}

fn send_back(seats: &mut [Seat])
    ensures { seats.new ≡ map sent_back seats.old }
{
    for seat in seats.iter_mut() {
        seat.shard = seat.from;
    }
}

/// The place of the first seat that has its neighbour's shard and `_id`.
pub(crate) fn first_tie(seats: &[Seat]) -> Option<usize>
    ensures { IsFirstTie seats.now result }
{
    for place in 1..seats.len() {
        if seats[place - 1].compare_targets(&seats[place]).is_eq() {
            return Some(place - 1);
        }
    }
    None
}

/// Hands each shard its documents, in the order of the seats.
pub(crate) fn hand_out(alloc: Global, seats: Vec<Seat>, shards: u32) -> Result<Holdings, NoMemory>
    requires { All (λ s. s.shard.0 < shards) seats.items }
    ensures { IfOk result (λ holdings. holdings ≡ handed_out shards seats.items) }
{
    let mut parts = empty_parts(alloc, shards)?;
    for seat in seats {
        let Seat {
            shard,
            document,
            ..
        } = seat;
        let part = &mut parts[shard.0 as usize];
        if part.push(document).is_err() {
            return Err(NoMemory);
        }
    }
    Ok(Sequence::from_vec(parts))
}

#[tactic(auto, using(crate::proofs::placing::HandedOut::handed_none))]
fn empty_parts(alloc: Global, shards: u32) -> Result<Vec<Documents>, NoMemory>
    ensures { IfOk result (λ parts. parts.items ≡ handed_out shards []) }
{
    let mut parts = Vec::with_capacity(alloc, shards as usize)?;
    for _shard in 0..shards {
        parts.push(Sequence::new(alloc))?;
    }
    Ok(parts)
}
