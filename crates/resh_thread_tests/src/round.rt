//! Rounds of jobs that count their turns.

ghost use Rattle.std.specs.Prelude.{◌≡◌, ◌<◌, vec_len, IfOk};

use resh_pool::{Gate, Job, OpenGate, Point, run_round};
use resh_value::NoMemory;
use std::alloc::Global;
use std::sync::Wait;
use std::sync::atomic::{AtomicU64, Ordering};
use std::test::Fail;
use std::thread;
use std::thread::Threads;

/// Counts its turns, and keeps the number of the last.
#[derive(Drop)]
struct Counting {
    turns: u32,
    number: u32,
}

impl Job for Counting {
    ghost turned = { λ before number after. after.number ≡ number };

    fn turn<R: Wait, G: Gate>(&mut self, _rt: &R, gate: &G, number: u32) {
        gate.pass(number, Point::BeforeCommand);
        self.turns = self.turns.saturating_add(1);
        self.number = number;
        gate.pass(number, Point::AfterCommand);
    }
}

fn jobs(alloc: Global, many: u32) -> Result<Vec<Counting>, NoMemory>
    ensures { IfOk result (λ jobs. vec_len jobs ≡ many) }
{
    let mut jobs = Vec::new(alloc);
    for _ in 0..many {
        jobs.push(Counting {
            turns: 0,
            number: 999,
        })?;
    }
    Ok(jobs)
}

/// Whether each job has made one turn, under the number of its place.
fn each_once(jobs: &[Counting]) -> bool {
    let mut place = 0u32;
    for job in jobs {
        if job.turns != 1 || job.number != place {
            return false;
        }
        place = place.wrapping_add(1);
    }
    true
}

/// What a round makes of so many jobs.
fn turned<R: Threads + Wait + Sync, G: Gate>(
    rt: &R,
    alloc: Global,
    many: u32,
    gate: &G,
    workers: u32,
) -> Result<Vec<Counting>, NoMemory>
    requires { 0 < workers }
{
    run_round(rt, jobs(alloc, many)?, gate, workers)
}

#[test]
fn each_job_makes_one_turn(rt: HostRuntime) -> Result<(), Fail> {
    for workers in [1u32, 3, 4, 16, 60] {
        let made = turned(&rt, rt.alloc(), 50, &OpenGate, workers.max(1))?;
        assert!(rt;
            made.len() == 50 && each_once(made.as_slice()),
            "{workers} workers"
        );
    }
    Ok(())
}

/// Holds each job before its command until another stands there, for so many looks at most.
#[derive(Drop)]
struct Meeting {
    came: AtomicU64,
    met: AtomicU64,
}

impl Gate for Meeting {
    fn pass(&self, _job: u32, point: Point) {
        if point != Point::BeforeCommand {
            return;
        }
        self.came.fetch_add(1, Ordering::SeqCst);
        for _ in 0..20_000_000u64 {
            if self.came.load(Ordering::SeqCst) > 1 {
                self.met.fetch_add(1, Ordering::SeqCst);
                return;
            }
            thread::yield_now();
        }
    }
}

#[test]
fn two_jobs_are_made_at_once(rt: HostRuntime) -> Result<(), Fail> {
    let gate = Meeting {
        came: AtomicU64::new(0),
        met: AtomicU64::new(0),
    };
    let made = turned(&rt, rt.alloc(), 2, &gate, 2)?;
    assert_eq!(rt; (made.len(), gate.met.load(Ordering::SeqCst)), (2, 2));
    Ok(())
}
