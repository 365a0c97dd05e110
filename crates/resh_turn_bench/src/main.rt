//! Turns on shared cells, and the same steps under std's locks, to be timed beside one another.
//!
//! The words are `turns SHAPE N` or `locks SHAPE N`, where the shape is `one` for one thread, `apart` for four threads
//! with a value each, or `together` for four threads with one value, and N is how often each thread makes a step. With
//! no words nothing is done.
#![tactic(auto)]

mod locks;
mod sum;
mod turns;

use std::alloc::Global;
use std::process::ExitCode;
use std::sync::Wait;
use std::thread::Threads;
use std::{env, thread};

fn main(rt: HostRuntime) -> ExitCode {
    let done = match words(&rt) {
        Some(words) => timed(&rt, rt.alloc(), words.as_slice()),
        None => None,
    };
    ExitCode::from(if done.is_some() { 0 } else { 1 })
}

fn words(rt: &HostRuntime) -> Option<Vec<String>> {
    let arguments = env::args(rt).ok()?;
    arguments.skip(1).collect(rt.alloc()).ok()
}

/// Does what the words say; none where they can't be read, or memory was wanting.
fn timed<R: Threads + Wait + Sync>(rt: &R, alloc: Global, words: &[String]) -> Option<()> {
    match words {
        [kind, shape, times] => {
            let times: u32 = times.as_str().parse().ok()?;
            if kind.as_str() == "turns" {
                turns_of(rt, alloc, shape.as_str(), times)
            } else {
                locks_of(rt, alloc, shape.as_str(), times)
            }
        }
        _ => Some(()),
    }
}

fn turns_of<R: Threads + Wait + Sync>(
    rt: &R,
    alloc: Global,
    shape: &str,
    times: u32,
) -> Option<()> {
    match shape {
        "one" => turns::alone(rt, alloc, times),
        "apart" => all(thread::map_indices(
            rt,
            alloc,
            4,
            &|_| turns::alone(rt, alloc, times),
        ).ok()?),
        _ => turns::together(rt, alloc, times),
    }
}

fn locks_of<R: Threads + Wait + Sync>(
    rt: &R,
    alloc: Global,
    shape: &str,
    times: u32,
) -> Option<()> {
    match shape {
        "one" => locks::alone(rt, alloc, times),
        "apart" => all(thread::map_indices(
            rt,
            alloc,
            4,
            &|_| locks::alone(rt, alloc, times),
        ).ok()?),
        _ => locks::together(rt, alloc, times),
    }
}

fn all(ends: Vec<Option<()>>) -> Option<()> {
    for end in ends {
        end?;
    }
    Some(())
}
