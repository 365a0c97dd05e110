//! The first clash that a collection would have by another map.

ghost use Rattle.std.specs.Prelude.{◌≡◌, IfOk, MatchOption};
ghost use Rattle.resh_value.specs.Lookup.{id_of};
ghost use Rattle.resh_bag.specs.Bag.{IsPlaced};
ghost use Rattle.resh_bag.specs.Placement.{HasNoClash, IsFirstClash};

use crate::collection::Collection;
use crate::seat::{Seat, first_tie, seats_of};
use resh_chunks::ChunkMap;
use resh_value::{NoMemory, ShardId, Value};
use std::alloc::Global;

/// A shard to which two documents of one `_id` would come.
#[derive(Debug, Drop)]
pub(crate) struct Clash {
    pub(crate) shard: ShardId,
    pub(crate) id: Value,
}

/// The first clash by the new map; `None` exactly where no clash stands.
pub(crate) fn first_clash(
    alloc: Global,
    map: &ChunkMap,
    new_map: &ChunkMap,
    collection: &Collection,
) -> Result<Option<Clash>, NoMemory>
    requires { IsPlaced map.now collection.now }
    ensures { IfOk result (λ clash. MatchOption clash (HasNoClash new_map.now collection.now)
        (λ c. IsFirstClash new_map.now collection.now c.shard.0 c.id)) }
{
    let documents = collection.documents(alloc)?;
    let seats = seats_of(alloc, map, new_map, documents)?;
    match first_tie(seats.as_slice()) {
        None => Ok(None),
        Some(place) => {
            let clash = clash_of(alloc, &seats[place])?;
            Ok(Some(clash))
        }
    }
}

fn clash_of(alloc: Global, seat: &Seat) -> Result<Clash, NoMemory>
    ensures shard { IfOk result (λ clash. clash.shard ≡ seat.now.shard) }
    ensures id { IfOk result (λ clash. clash.id ≡ id_of seat.now.document) }
{
    Ok(Clash {
        shard: seat.shard,
        id: seat.document.copy_id(alloc)?,
    })
}
