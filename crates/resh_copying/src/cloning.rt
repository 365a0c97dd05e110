//! A link reads the next documents of the fetch time.

ghost use Rattle.std.specs.Prelude.{◌≡◌, ◌+◌, ◌&&◌, true, length, nat_lt, IfOk, OnOk, OnErr};
ghost use Rattle.resh_value.specs.Limits.{end_of_places};
ghost use Rattle.resh_fetcher.specs.Links.{with_cloned};
ghost use Rattle.resh_setup.specs.declared.event.Event.TheVariants.{Clone};
ghost use Rattle.resh_events.specs.Bounds.{has_places, is_bounded};
ghost use Rattle.resh_events.specs.rows.Clone.{are_last, change, donates, got_seen, has_room, may, next_clones, seen as what_is_seen};

use crate::cells::{link_of, shard_of};
use resh_cells::Cluster;
use resh_cloner::next_batch;
use resh_donor::DonorPhase;
use resh_fetcher::Link;
use resh_setup::Seen;
use resh_shard::Shard;
use resh_value::{NoMemory, ShardId};
use std::alloc::Global;

/// Whether the link may read documents: it is open and not read out, its donor donates, and its buffer has room.
pub fn may_clone(cluster: &Cluster, r: ShardId, d: ShardId) -> bool
    ensures { result ≡ may cluster.now r.0 d.0 }
{
    let Some(cell) = link_of(cluster, r, d) else {
        return false;
    };
    let Some(shard) = shard_of(cluster, d) else {
        return false;
    };
    cell.link.may_clone() && donates(shard.donor.phase()) && has_room(&cell.link)
}

fn donates(phase: DonorPhase) -> bool
    ensures { result ≡ donates phase }
{
    match phase {
        DonorPhase::Donating | DonorPhase::BlockingWrites => true,
        DonorPhase::Unused | DonorPhase::PreparingToDonate | DonorPhase::Done => false,
    }
}

/// Whether the buffer is shorter than a batch.
pub(crate) fn has_room(link: &Link) -> bool
    ensures { result ≡ has_room link.now }
{
    link.buffered() < link.batch() as u64
}

/// Reads at most a batch of documents. Want of memory leaves all as it was.
pub fn clone(cluster: &mut Cluster, alloc: Global, r: ShardId, d: ShardId) -> Result<Seen, NoMemory>
    ensures ok { OnOk result (cluster.new ≡ change cluster.old r.0 d.0) }
    ensures seen { IfOk result (λ seen. seen ≡ what_is_seen cluster.old r.0 d.0) }
    ensures bounded { IfOk result (λ seen. is_bounded cluster.old (Clone r d) ≡ true) }
    ensures unchanged { OnErr result (cluster.new ≡ cluster.old) }
{
    let Some(shard) = cluster.shards.get(d.0) else {
        return Err(NoMemory);
    };
    let Some(links) = cluster.links.get_mut(r.0) else {
        return Err(NoMemory);
    };
    let Some(cell) = links.get_mut(d.0) else {
        return Err(NoMemory);
    };
    read(&mut cell.link, &shard.shard, alloc, r)
}

fn read(link: &mut Link, shard: &Shard, alloc: Global, r: ShardId) -> Result<Seen, NoMemory>
    ensures ok { OnOk result (let got = next_clones shard.now r.0 link.old in
        link.new ≡ with_cloned link.old got (are_last link.old got)) }
    ensures seen { IfOk result (λ seen. let got = next_clones shard.now r.0 link.old in
        seen ≡ got_seen (length got) (are_last link.old got)) }
    ensures bounded { IfOk result (λ seen. let more = length (next_clones shard.now r.0 link.old) in
        (has_places link.old more && nat_lt (link.old.clones + more) end_of_places) ≡ true) }
    ensures unchanged { OnErr result (link.new ≡ link.old) }
{
    if !link.may_clone() || !link.is_started() {
        return Err(NoMemory);
    }
    let fetch_time = link.fetch_time();
    if fetch_time < shard.versions().floor() {
        return Err(NoMemory);
    }
    let cloned = next_batch(alloc, shard, fetch_time, r, link.last_id(), link.batch())?;
    let end = cloned.end;
    let count = link.take_cloned(cloned)?;
    let _lanes = link.lanes();
    if end {
        return Ok(Seen::GotEnd { count });
    }
    Ok(Seen::GotMore { count })
}
