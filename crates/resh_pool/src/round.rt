ghost use Rattle.std.specs.Prelude.{◌≡◌, ◌^◌, ◌<◌, length, vec_len, IfOk};
ghost use Rattle.resh_pool.specs.Rounds.{AreTurned};

use crate::gate::Gate;
use crate::group::{Group, turn_group};
use crate::groups::{cut, joined};
use crate::job::Job;
use resh_value::NoMemory;
use std::sync::Wait;
use std::thread;
use std::thread::Threads;

/// Makes one turn of each job, and gives the jobs back in their places. At most so many workers make them: each has
/// as many jobs as any other, but for the last, and makes them in order. Where no thread can be had, the workers' jobs
/// are made one worker after another. After want of memory the jobs are dropped.
pub fn run_round<R: Threads + Wait + Sync, J: Job + Send + Drop, G: Gate>(
    rt: &R,
    jobs: Vec<J>,
    gate: &G,
    workers: u32,
) -> Result<Vec<J>, NoMemory>
    requires workers { 0 < workers }
    requires jobs { vec_len jobs < 2 ^ 32 }
    ensures jobs { IfOk result (λ after. length after.items ≡ length jobs.items) }
    ensures turned { IfOk result (λ after. AreTurned J.turned 0 jobs.items after.items) }
{
    let size = jobs.len().div_ceil(workers as usize).max(1);
    let groups = cut(jobs, size)?;
    let turned = thread::map_vec(
        rt,
        groups,
        &|group: Group<J>| -> Vec<J>
            ensures { AreTurned J.turned group.first group.jobs.items result.items }
        { turn_group(rt, gate, group) },
    )?;
    joined(turned)
}
