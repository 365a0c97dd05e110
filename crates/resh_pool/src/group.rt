//! Jobs that one worker makes in a round.

ghost use Rattle.std.specs.Prelude.{◌≡◌, ◌+◌, ◌^◌, ◌≤◌, length, vec_len};
ghost use Rattle.resh_pool.specs.Rounds.{AreTurned};

use crate::gate::Gate;
use crate::job::Job;
use std::sync::Wait;

/// Jobs that stand side by side in a round, and the number of the first.
#[derive(Drop)]
pub(crate) struct Group<J> {
    pub(crate) first: u32,
    pub(crate) jobs: Vec<J>,
    ghost numbered: { first + vec_len jobs ≤ 2 ^ 32 },
}

impl<J> Group<J> {
    pub(crate) fn of(first: u32, jobs: Vec<J>) -> Group<J>
        requires { first + vec_len jobs ≤ 2 ^ 32 }
        ensures { (result.first ≡ first) × (result.jobs ≡ jobs) }
    {
        Group { first, jobs }
    }
}

/// Makes the turns of a group, in order.
pub(crate) fn turn_group<R: Wait, J: Job, G: Gate>(rt: &R, gate: &G, group: Group<J>) -> Vec<J>
    ensures { AreTurned J.turned group.first group.jobs.items result.items }
{
    let mut jobs = group.jobs;
    turn_each(rt, gate, group.first, jobs.as_mut_slice());
    jobs
}

/// Makes the turns of jobs, in order.
fn turn_each<R: Wait, J: Job, G: Gate>(rt: &R, gate: &G, first: u32, jobs: &mut [J])
    requires { first + length jobs.old ≤ 2 ^ 32 }
    ensures { AreTurned J.turned first jobs.old jobs.new }
{
    for place in 0..jobs.len() {
        jobs[place].turn(rt, gate, first + place as u32);
    }
}
