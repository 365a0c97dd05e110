//! A link reads the next entries of its donor's log.

ghost use Rattle.std.specs.Prelude.{◌≡◌, true, length, IfOk, OnOk, OnErr};
ghost use Rattle.resh_fetcher.specs.Links.{next_entries, told_of, with_fetched};
ghost use Rattle.resh_setup.specs.declared.event.Event.TheVariants.{Fetch};
ghost use Rattle.resh_events.specs.Bounds.{has_places, is_bounded};
ghost use Rattle.resh_events.specs.rows.Fetch.{change, fetched_seen, may, seen as what_is_seen};

use crate::cells::link_of;
use crate::cloning::has_room;
use resh_cells::Cluster;
use resh_fetcher::{Fetched, Link};
use resh_setup::Seen;
use resh_shard::Shard;
use resh_value::{NoMemory, ShardId};

/// Whether the link may read entries: it is open and read out, has not come to the final one, and its buffer has room.
pub fn may_fetch(cluster: &Cluster, r: ShardId, d: ShardId) -> bool
    ensures { result ≡ may cluster.now r.0 d.0 }
{
    let Some(cell) = link_of(cluster, r, d) else {
        return false;
    };
    cell.link.may_fetch() && has_room(&cell.link)
}

/// Reads at most a batch of entries, none past a final one. Want of memory leaves all as it was.
pub fn fetch(cluster: &mut Cluster, r: ShardId, d: ShardId) -> Result<Seen, NoMemory>
    ensures ok { OnOk result (cluster.new ≡ change cluster.old r.0 d.0) }
    ensures seen { IfOk result (λ seen. seen ≡ what_is_seen cluster.old r.0 d.0) }
    ensures bounded { IfOk result (λ seen. is_bounded cluster.old (Fetch r d) ≡ true) }
    ensures unchanged { OnErr result (cluster.new ≡ cluster.old) }
{
    let Some(shard) = cluster.shards.get(d.0) else {
        return Err(NoMemory);
    };
    let Some(links) = cluster.links.get_mut(r.0) else {
        return Err(NoMemory);
    };
    let Some(cell) = links.get_mut(d.0) else {
        return Err(NoMemory);
    };
    read(&mut cell.link, &shard.shard)
}

fn read(link: &mut Link, shard: &Shard) -> Result<Seen, NoMemory>
    ensures ok { OnOk result (link.new ≡ with_fetched link.old (next_entries link.old shard.now.log.entries)) }
    ensures seen { IfOk result (λ seen. seen
        ≡ fetched_seen (told_of (next_entries link.old shard.now.log.entries))) }
    ensures bounded { IfOk result (λ seen.
        has_places link.old (length (next_entries link.old shard.now.log.entries)) ≡ true) }
    ensures unchanged { OnErr result (link.new ≡ link.old) }
{
    if !link.may_fetch() {
        return Err(NoMemory);
    }
    let entries = link.fetch(shard.log())?;
    let fetched = link.take_fetched(entries)?;
    let _lanes = link.lanes();
    Ok(seen_of(fetched))
}

fn seen_of(fetched: Fetched) -> Seen
    ensures { result ≡ fetched_seen fetched }
{
    match fetched {
        Fetched::Got { n, last: true } => Seen::GotFinal { count: n },
        Fetched::Got { n, last: false } => Seen::Got { count: n },
        Fetched::Nothing => Seen::GotNothing,
    }
}
