//! The groups into which the jobs of a round are cut, one for each worker.

ghost use Rattle.std.specs.Prelude.{◌≡◌, ◌^◌, ◌<◌, vec_len, flat_map, IfOk};
ghost use Rattle.resh_pool.specs.Groups.{IsCut};

use crate::group::Group;
use resh_value::NoMemory;

/// Cuts jobs, in order, into groups of this many; the last may have fewer.
pub(crate) fn cut<J: Drop>(jobs: Vec<J>, size: usize) -> Result<Vec<Group<J>>, NoMemory>
    requires size { 0 < size }
    requires jobs { vec_len jobs < 2 ^ 32 }
    ensures { IfOk result (λ groups. IsCut 0 groups.items jobs.items) }
{
    let mut groups = Vec::new(*jobs.allocator());
    let mut first = 0;
    let mut rest = jobs;
    while !rest.is_empty() {
        let behind = rest.split_off(size.min(rest.len()))?;
        let next = first + rest.len() as u32;
        groups.push(Group::of(first, rest))?;
        first = next;
        rest = behind;
    }
    Ok(groups)
}

/// Puts the jobs of groups into one list, in order.
pub(crate) fn joined<J: Drop>(groups: Vec<Vec<J>>) -> Result<Vec<J>, NoMemory>
    ensures { IfOk result (λ jobs. jobs.items ≡ flat_map (λ group. group.items) groups.items) }
{
    let mut jobs = Vec::new(*groups.allocator());
    for mut group in groups {
        jobs.append(&mut group)?;
    }
    Ok(jobs)
}
