//! The positions of the lanes behind items.

ghost use Rattle.std.specs.Prelude.{◌≡◌, ◌+◌, ◌<◌, true, take, length, Some, IfOk};
ghost use Rattle.resh_feed.specs.Feeds.{whats};
ghost use Rattle.resh_feed.specs.Lanes.{counted, counts_after, item_lane};
ghost use Rattle.resh_split.specs.Parts.{are_below_end, ends_behind};

use crate::lane::item_lane;
use resh_fetcher::Link;
use resh_oplog::What;
use resh_progress::Counts;
use resh_value::{END_OF_PLACES, NoMemory, Sequence};
use std::alloc::Global;

/// The position of each lane behind the first `most` items of a link's buffer, counted from those of the kept record.
pub fn ends_of(link: &Link, alloc: Global, most: u32) -> Result<Counts, NoMemory>
    ensures ends { IfOk result (λ ends. ends ≡ ends_behind link.now most) }
    ensures lanes { IfOk result (λ ends. length ends ≡ link.now.lanes) }
    ensures within { IfOk result (λ ends. are_below_end ends ≡ true) }
{
    let lanes = link.lanes();
    let kept = link.kept();
    let counts = kept.lanes.copy()?.into_vec();
    let ends = count_first(counts, link, alloc, most, lanes)?;
    if are_below_end(ends.as_slice()) {
        return Ok(ends);
    }
    Err(NoMemory)
}

/// Whether each position is one that a lane may come to.
pub(crate) fn are_below_end(counts: &[u64]) -> bool
    ensures { result ≡ are_below_end counts.now }
{
    counts.iter().all(|count| *count < END_OF_PLACES)
}

/// The first `most` items of a link's buffer are counted on their lanes.
fn count_first(
    counts: Vec<u64>,
    link: &Link,
    alloc: Global,
    most: u32,
    lanes: u32,
) -> Result<Counts, NoMemory>
    requires lanes { 0 < lanes }
    requires counts { length counts.items ≡ lanes }
    ensures ends { IfOk result (λ ends. ends ≡ counts_after lanes counts.items (take most (whats link.now.buffer))) }
    ensures lanes { IfOk result (λ ends. length ends ≡ lanes) }
{
    let mut counts = counts;
    for n in 0..most {
        let Some(what) = link.item(n as u64) else {
            return Ok(Sequence::from_vec(counts));
        };
        count_item(&mut counts, what, alloc, lanes)?;
    }
    Ok(Sequence::from_vec(counts))
}

/// One more item is counted on its lane.
fn count_item(counts: &mut Vec<u64>, what: &What, alloc: Global, lanes: u32) -> Result<(), NoMemory>
    requires lanes { 0 < lanes }
    requires counts { length counts.old.items ≡ lanes }
    ensures counted { IfOk result (λ done. counts.new.items ≡ counted counts.old.items (item_lane lanes what.now)) }
    ensures length { length counts.new.items ≡ length counts.old.items }
{
    match item_lane(what, alloc, lanes)? {
        Some(lane) => count_on(counts, lane),
        None => Ok(()),
    }
}

/// One more item is on a lane.
pub(crate) fn count_on(counts: &mut Vec<u64>, lane: u32) -> Result<(), NoMemory>
    requires { lane < length counts.old.items }
    ensures counted { IfOk result (λ done. counts.new.items ≡ counted counts.old.items (Some lane)) }
    ensures length { length counts.new.items ≡ length counts.old.items }
{
    let place = lane as usize;
    counts[place] = next(counts[place])?;
    Ok(())
}

/// The number behind; want of memory where there is none.
pub(crate) fn next(n: u64) -> Result<u64, NoMemory>
    ensures { IfOk result (λ m. m ≡ n + 1) }
{
    match n.checked_add(1) {
        Some(m) => Ok(m),
        None => Err(NoMemory),
    }
}
