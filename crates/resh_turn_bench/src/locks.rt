//! Steps under std's locks.

use crate::sum::Sum;
use resh_turn::Story;
use resh_value::NoMemory;
use std::alloc::Global;
use std::sync::{Mutex, Wait};
use std::thread;
use std::thread::Threads;

fn step(sum: &mut Sum) -> Result<u64, NoMemory> {
    sum.reserve(1)?;
    sum.act(1, 0)
}

/// Takes the lock so many times, and makes a step each time.
fn locked<R: Wait>(rt: &R, lock: &Mutex<Sum>, times: u32) -> Option<()> {
    for _ in 0..times {
        step(&mut *lock.lock(rt)).ok()?;
    }
    Some(())
}

/// One thread, with a lock of its own.
pub(crate) fn alone<R: Wait>(rt: &R, alloc: Global, times: u32) -> Option<()> {
    let lock = Mutex::new(Sum::new(alloc));
    locked(rt, &lock, times)
}

/// Four threads, with one lock.
pub(crate) fn together<R: Threads + Wait + Sync>(rt: &R, alloc: Global, times: u32) -> Option<()> {
    let lock = Mutex::new(Sum::new(alloc));
    let all = thread::map_indices(rt, alloc, 4, &|_| locked(rt, &lock, times)).ok()?;
    if all.as_slice().iter().all(|one| one.is_some()) {
        Some(())
    } else {
        None
    }
}
