//! Steps in turns of a cell.

ghost use Rattle.std.specs.Prelude.{◌≡◌, IfSome};
ghost use Rattle.resh_turn.specs.Replay.{Each};

use crate::sum::Sum;
use resh_turn::{Hold, Pass, Passes, TurnCell};
use resh_value::NoMemory;
use std::alloc::Global;
use std::sync::Wait;
use std::thread;
use std::thread::Threads;

fn step(hold: &mut Hold<'_, Sum>) -> Result<u64, NoMemory>
    ensures { hold.new.cell ≡ hold.old.cell }
{
    hold.reserve(1)?;
    hold.act(1)
}

/// A turn with a step.
fn turn<R: Wait>(rt: &R, cell: &TurnCell<Sum>, pass: Pass<Sum>) -> Option<Pass<Sum>>
    requires { pass.cell ≡ cell.now.cell }
    ensures { IfSome result (λ pass. pass.cell ≡ cell.now.cell) }
{
    let mut hold = cell.take(rt, pass);
    let sum = step(&mut hold);
    let pass = hold.give();
    sum.ok()?;
    Some(pass)
}

/// Takes the turn so many times, and makes a step each time.
fn turned<R: Wait>(rt: &R, cell: &TurnCell<Sum>, mut pass: Pass<Sum>, times: u32) -> Option<()>
    requires { pass.cell ≡ cell.now.cell }
{
    let mut left = times;
    while left > 0 {
        pass = turn(rt, cell, pass)?;
        left -= 1;
    }
    Some(())
}

/// One thread, with a cell of its own.
pub(crate) fn alone<R: Wait>(rt: &R, alloc: Global, times: u32) -> Option<()> {
    let (cell, mut passes) = TurnCell::make(alloc, Sum::new(alloc), 1).ok()?;
    let pass = passes.pop()?;
    turned(rt, &cell, pass, times)
}

/// The last of a cell's passes.
#[tactic(auto, using(resh_turn::proofs::Numbering::last_of))]
fn popped(cell: &TurnCell<Sum>, passes: &mut Passes<Sum>) -> Option<Pass<Sum>>
    requires { Each (λ pass. pass.cell ≡ cell.now.cell) passes.old }
    ensures pass { IfSome result (λ pass. pass.cell ≡ cell.now.cell) }
    ensures rest { Each (λ pass. pass.cell ≡ cell.now.cell) passes.new }
{
    passes.pop()
}

/// Two threads, with the last two passes of one cell.
fn two<R: Threads + Wait + Sync>(
    rt: &R,
    cell: &TurnCell<Sum>,
    one: Pass<Sum>,
    other: Pass<Sum>,
    times: u32,
) -> Option<()>
    requires one { one.cell ≡ cell.now.cell }
    requires other { other.cell ≡ cell.now.cell }
{
    let (one, other) = thread::join(
        rt,
        || -> Option<()>
            requires { one.cell ≡ cell.now.cell }
        { turned(rt, cell, one, times) },
        || -> Option<()>
            requires { other.cell ≡ cell.now.cell }
        { turned(rt, cell, other, times) },
    );
    one?;
    other
}

/// Four threads, with one cell.
pub(crate) fn together<R: Threads + Wait + Sync>(rt: &R, alloc: Global, times: u32) -> Option<()> {
    let (cell, mut passes) = TurnCell::make(alloc, Sum::new(alloc), 4).ok()?;
    let fourth = popped(&cell, &mut passes)?;
    let third = popped(&cell, &mut passes)?;
    let second = popped(&cell, &mut passes)?;
    let first = popped(&cell, &mut passes)?;
    let (front, back) = thread::join(
        rt,
        || -> Option<()>
            requires { (first.cell ≡ cell.cell) × (second.cell ≡ cell.cell) }
        { two(rt, &cell, first, second, times) },
        || -> Option<()>
            requires { (third.cell ≡ cell.cell) × (fourth.cell ≡ cell.cell) }
        { two(rt, &cell, third, fourth, times) },
    );
    front?;
    back
}
