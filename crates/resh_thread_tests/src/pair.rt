//! Four threads that change two values in turn, and hold both turns in half of their acts.

ghost use Rattle.std.specs.Prelude.{◌≡◌, IfSome};
ghost use Rattle.std.specs.Thread.{IsSync};
ghost use Rattle.resh_turn.specs.Replay.{Each};

use crate::mix::{Mix, popped};
use resh_turn::{Hold, Pass, Passes, TurnCell};
use std::alloc::Global;
use std::sync::Wait;
use std::test::Fail;
use std::thread;
use std::thread::Threads;

/// The acts of each thread: so many times one act on each value alone, and then one on each while it holds both.
const TIMES: u32 = 25;

#[derive(Drop)]
struct Pair {
    first: TurnCell<Mix>,
    second: TurnCell<Mix>,
}

/// What one thread has: a pass of each cell, and the next number that it mixes in.
#[derive(Drop)]
struct Hand {
    first: Pass<Mix>,
    second: Pass<Mix>,
    next: u64,
}

/// Mixes a number in, if there is memory for it.
fn add(hold: &mut Hold<'_, Mix>, number: u64) -> Option<u64>
    ensures { hold.new.cell ≡ hold.old.cell }
{
    match hold.reserve(1) {
        Ok(()) => hold.act(number).ok(),
        Err(_) => None,
    }
}

/// An act on each value, one after the other.
fn each_alone<R: Wait>(rt: &R, cells: &Pair, hand: Hand) -> Hand
    requires { (hand.first.cell ≡ cells.now.first.cell) × (hand.second.cell ≡ cells.now.second.cell) }
    ensures { (result.first.cell ≡ cells.now.first.cell) × (result.second.cell ≡ cells.now.second.cell) }
{
    let Hand {
        first,
        second,
        next,
    } = hand;
    let mut first = cells.first.take(rt, first);
    add(&mut first, next);
    let first = first.give();
    let mut second = cells.second.take(rt, second);
    add(&mut second, next);
    let second = second.give();
    Hand {
        first,
        second,
        next: next.wrapping_add(1),
    }
}

/// An act on each value, while both turns are held.
fn both_held<R: Wait>(rt: &R, cells: &Pair, hand: Hand) -> Hand
    requires { (hand.first.cell ≡ cells.now.first.cell) × (hand.second.cell ≡ cells.now.second.cell) }
    ensures { (result.first.cell ≡ cells.now.first.cell) × (result.second.cell ≡ cells.now.second.cell) }
{
    let Hand {
        first,
        second,
        next,
    } = hand;
    let mut first = cells.first.take(rt, first);
    let mut second = cells.second.take(rt, second);
    add(&mut first, next);
    add(&mut second, next);
    let first = first.give();
    let second = second.give();
    Hand {
        first,
        second,
        next: next.wrapping_add(1),
    }
}

/// All acts of one thread.
fn worked<R: Wait>(rt: &R, cells: &Pair, mut hand: Hand) -> Hand
    requires { (hand.first.cell ≡ cells.now.first.cell) × (hand.second.cell ≡ cells.now.second.cell) }
    ensures { (result.first.cell ≡ cells.now.first.cell) × (result.second.cell ≡ cells.now.second.cell) }
{
    let mut left = TIMES;
    while left > 0 {
        let alone = each_alone(rt, cells, hand);
        hand = both_held(rt, cells, alone);
        left -= 1;
    }
    hand
}

/// Puts a cell's pass behind the others, if there is memory for it.
#[tactic(auto, using(resh_turn::proofs::Steps::each_append))]
fn push(cell: &TurnCell<Mix>, passes: &mut Passes<Mix>, pass: Pass<Mix>)
    requires passes { Each (λ pass. pass.cell ≡ cell.now.cell) passes.old }
    requires pass { pass.cell ≡ cell.now.cell }
    ensures { Each (λ pass. pass.cell ≡ cell.now.cell) passes.new }
{
    let _ = passes.push(pass);
}

/// The passes of both cells that no thread has.
#[derive(Drop)]
struct Rest {
    first: Passes<Mix>,
    second: Passes<Mix>,
}

/// A hand with the last pass of each cell.
fn dealt(cells: &Pair, rest: &mut Rest, next: u64) -> Option<Hand>
    requires first { Each (λ pass. pass.cell ≡ cells.now.first.cell) rest.old.first }
    requires second { Each (λ pass. pass.cell ≡ cells.now.second.cell) rest.old.second }
    ensures hand { IfSome result (λ hand. (hand.first.cell ≡ cells.now.first.cell)
        × (hand.second.cell ≡ cells.now.second.cell)) }
    ensures first { Each (λ pass. pass.cell ≡ cells.now.first.cell) rest.new.first }
    ensures second { Each (λ pass. pass.cell ≡ cells.now.second.cell) rest.new.second }
{
    let first = popped(&cells.first, &mut rest.first)?;
    let second = popped(&cells.second, &mut rest.second)?;
    Some(Hand {
        first,
        second,
        next,
    })
}

/// Lays a hand's passes back.
fn lay(cells: &Pair, rest: &mut Rest, hand: Hand)
    requires hand { (hand.first.cell ≡ cells.now.first.cell) × (hand.second.cell ≡ cells.now.second.cell) }
    requires first { Each (λ pass. pass.cell ≡ cells.now.first.cell) rest.old.first }
    requires second { Each (λ pass. pass.cell ≡ cells.now.second.cell) rest.old.second }
    ensures first { Each (λ pass. pass.cell ≡ cells.now.first.cell) rest.new.first }
    ensures second { Each (λ pass. pass.cell ≡ cells.now.second.cell) rest.new.second }
{
    let Hand { first, second, .. } = hand;
    push(&cells.first, &mut rest.first, first);
    push(&cells.second, &mut rest.second, second);
}

/// All acts of so many threads, each with a pass of each cell. All passes come back.
fn all_worked<R: Threads + Wait + Sync>(rt: &R, cells: &Pair, mut rest: Rest, threads: u32) -> Rest
    requires first { Each (λ pass. pass.cell ≡ cells.now.first.cell) rest.first }
    requires second { Each (λ pass. pass.cell ≡ cells.now.second.cell) rest.second }
    ensures first { Each (λ pass. pass.cell ≡ cells.now.first.cell) result.first }
    ensures second { Each (λ pass. pass.cell ≡ cells.now.second.cell) result.second }
{
    if threads == 0 {
        return rest;
    }
    let others = threads - 1;
    let Some(hand) = dealt(cells, &mut rest, u64::from(others) * 1000) else {
        return rest;
    };
    let (hand, mut rest) = thread::join(
        rt,
        || -> Hand
            requires { (hand.first.cell ≡ cells.now.first.cell) × (hand.second.cell ≡ cells.now.second.cell) }
            ensures { (result.first.cell ≡ cells.entry.now.first.cell)
                × (result.second.cell ≡ cells.entry.now.second.cell) }
        { worked(rt, cells, hand) },
        || -> Rest
            requires sync { IsSync R.row }
            requires first { Each (λ pass. pass.cell ≡ cells.now.first.cell) rest.first }
            requires second { Each (λ pass. pass.cell ≡ cells.now.second.cell) rest.second }
            ensures first { Each (λ pass. pass.cell ≡ cells.entry.now.first.cell) result.first }
            ensures second { Each (λ pass. pass.cell ≡ cells.entry.now.second.cell) result.second }
        { all_worked(rt, cells, rest, others) },
    );
    lay(cells, &mut rest, hand);
    rest
}

/// Both cells, with four passes of each.
fn made(alloc: Global) -> Option<(Pair, Rest)>
    ensures first { IfSome result (λ it. Each (λ pass. pass.cell ≡ it.0.first.cell) it.1.first) }
    ensures second { IfSome result (λ it. Each (λ pass. pass.cell ≡ it.0.second.cell) it.1.second) }
{
    let (first, firsts) = TurnCell::make(alloc, Mix::new(alloc), 4).ok()?;
    let (second, seconds) = TurnCell::make(alloc, Mix::new(alloc), 4).ok()?;
    let rest = Rest {
        first: firsts,
        second: seconds,
    };
    Some((Pair { first, second }, rest))
}

/// The values that both cells end with; none where a pass was missing.
fn ended(cells: Pair, rest: Rest) -> Option<(Mix, Mix)>
    requires first { Each (λ pass. pass.cell ≡ cells.first.cell) rest.first }
    requires second { Each (λ pass. pass.cell ≡ cells.second.cell) rest.second }
{
    let first = cells.first.close(rest.first).ok()?;
    let second = cells.second.close(rest.second).ok()?;
    Some((first, second))
}

/// Whether the journal has the 50 acts that each of four threads made on this value, each once and each thread's in
/// their order, and the value is what they give.
fn is_whole(mix: &Mix) -> bool {
    let mut counts = [0u64; 4];
    let mut value = 0u64;
    for made in mix.journal.as_slice() {
        let Some(count) = counts.get_mut(made.by as usize) else {
            return false;
        };
        if made.step != (u64::from(made.by) * 1000).wrapping_add(*count) {
            return false;
        }
        *count = count.wrapping_add(1);
        value = value.wrapping_mul(3).wrapping_add(made.step);
    }
    counts == [50; 4] && value == mix.value
}

/// What both cells end with after all acts of four threads; none where memory was wanting.
fn four_worked<R: Threads + Wait + Sync>(rt: &R, alloc: Global) -> Option<(Mix, Mix)> {
    let (cells, rest) = made(alloc)?;
    let rest = all_worked(rt, &cells, rest, 4);
    ended(cells, rest)
}

#[test]
fn each_act_stands_once(rt: HostRuntime) -> Result<(), Fail> {
    let (first, second) = four_worked(&rt, rt.alloc()).expect(&rt, "memory");
    assert_eq!(rt; [is_whole(&first), is_whole(&second)], [true, true]);
    Ok(())
}
