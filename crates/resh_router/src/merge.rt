//! One reply of several shards' replies to a find or a count.

ghost use Rattle.std.specs.Prelude.{◌≡◌, ◌+◌, ◌<◌, ◌||◌, true, is_ok, nat_lt, length, IfOk, OnOk};
ghost use Rattle.resh_value.specs.Limits.{end_of_places};
ghost use Rattle.resh_router.specs.Merging.{MergesTo, are_counted, are_found, count_in, count_of_all, is_counted};

use crate::shown::first_of;
use resh_command::Reply;
use resh_value::{END_OF_PLACES, NoMemory, ShardId};
use std::alloc::Global;

/// One reply to a find or a count of the replies that shards gave to it: the numbers added, and of the documents that
/// they show the first ten by `_id` and shard. Want of memory comes too where the sum is 2^62 or more, and of counts
/// exactly there.
pub fn merge_found(alloc: Global, parts: Vec<(ShardId, Reply)>) -> Result<Reply, NoMemory>
    requires some { 0 < length parts.items }
    requires reading { (are_found parts.items || are_counted parts.items) ≡ true }
    ensures merged { IfOk result (MergesTo parts.items) }
    ensures within { OnOk result (count_of_all parts.items < end_of_places) }
    ensures counts { are_counted parts.items ≡ true
        → is_ok result ≡ nat_lt (count_of_all parts.items) end_of_places }
{
    let count = sum_of(parts.as_slice())?;
    if all_counted(parts.as_slice()) {
        return Ok(Reply::Counted { count });
    }
    let first = first_of(alloc, parts)?;
    Ok(Reply::Found { count, first })
}

/// The sum of the numbers in all parts; want of memory exactly where it is 2^62 or more.
fn sum_of(parts: &[(ShardId, Reply)]) -> Result<u64, NoMemory>
    ensures sum { IfOk result (λ n. n ≡ count_of_all parts.now) }
    ensures exactly { is_ok result ≡ nat_lt (count_of_all parts.now) end_of_places }
{
    let mut sum = 0;
    for (_, reply) in parts {
        sum = added(sum, count_in(reply))?;
    }
    Ok(sum)
}

/// The sum of two numbers; want of memory exactly where it is 2^62 or more.
fn added(a: u64, b: u64) -> Result<u64, NoMemory>
    ensures sum { IfOk result (λ n. n ≡ a + b) }
    ensures exactly { is_ok result ≡ nat_lt (a + b) end_of_places }
{
    match a.checked_add(b) {
        Some(n) => {
            if n < END_OF_PLACES {
                return Ok(n);
            }
            Err(NoMemory)
        }
        None => Err(NoMemory),
    }
}

/// The number that a reply tells.
fn count_in(reply: &Reply) -> u64
    ensures { result ≡ count_in reply.now }
{
    match reply {
        Reply::Found { count, .. } => *count,
        Reply::Counted { count } => *count,
        _ => 0,
    }
}

fn all_counted(parts: &[(ShardId, Reply)]) -> bool
    ensures { result ≡ are_counted parts.now }
{
    parts.iter().all(|(_, reply)| is_counted(reply))
}

fn is_counted(reply: &Reply) -> bool
    ensures { result ≡ is_counted reply.now }
{
    match reply {
        Reply::Counted { .. } => true,
        _ => false,
    }
}
