//! A value that two passes change in turn.

ghost use Rattle.std.specs.Prelude.{◌≡◌, IfSome};

use crate::mix::{Mix, popped};
use resh_turn::{Hold, Pass, Passes, Story, TurnCell};
use std::alloc::Global;
use std::sync::Wait;
use std::test::Fail;

/// A cell and its two passes; none where memory was wanting.
fn made(alloc: Global) -> Option<(TurnCell<Mix>, Pass<Mix>, Pass<Mix>)>
    ensures { IfSome result (λ it. (it.1.cell ≡ it.0.cell) × (it.2.cell ≡ it.0.cell)) }
{
    let (cell, mut passes) = TurnCell::make(alloc, Mix::new(alloc), 2).ok()?;
    if passes.len() != 2 || passes.get(1).is_none() || passes.get(2).is_some() {
        return None;
    }
    let second = popped(&cell, &mut passes)?;
    let first = popped(&cell, &mut passes)?;
    Some((cell, first, second))
}

/// Mixes a number in and gives the turn back, and says what the value is then.
fn add(mut hold: Hold<'_, Mix>, number: u64) -> (Pass<Mix>, Option<u64>)
    ensures { result.0.cell ≡ hold.entry.cell }
{
    let value = match hold.reserve(1) {
        Ok(()) => hold.act(number).ok(),
        Err(_) => None,
    };
    (hold.give(), value)
}

/// The value that one try finds; none where the turn is taken.
fn found(cell: &TurnCell<Mix>, pass: Pass<Mix>) -> (Pass<Mix>, Option<u64>)
    requires { pass.cell ≡ cell.now.cell }
    ensures { result.0.cell ≡ cell.now.cell }
{
    match cell.try_take(pass) {
        Ok(hold) => {
            let value = hold.state().value;
            (hold.give(), Some(value))
        }
        Err(back) => (back, None),
    }
}

/// What a pass finds while another holds the turn, what that adds, what is found then, and what the pass adds itself.
fn beside<R: Wait>(
    rt: &R,
    cell: &TurnCell<Mix>,
    hold: Hold<'_, Mix>,
    pass: Pass<Mix>,
) -> (Pass<Mix>, Pass<Mix>, [Option<u64>; 4])
    requires hold { hold.cell ≡ cell.now.cell }
    requires pass { pass.cell ≡ cell.now.cell }
    ensures { (result.0.cell ≡ cell.now.cell) × (result.1.cell ≡ cell.now.cell) }
{
    let (pass, taken) = found(cell, pass);
    let (first, five) = add(hold, 5);
    let (pass, free) = found(cell, pass);
    let (pass, after) = add(cell.take(rt, pass), 7);
    (first, pass, [taken, five, free, after])
}

/// What two passes find and add, where the first has the turn first.
fn both<R: Wait>(
    rt: &R,
    cell: &TurnCell<Mix>,
    first: Pass<Mix>,
    second: Pass<Mix>,
) -> (Pass<Mix>, Pass<Mix>, [Option<u64>; 4])
    requires first { first.cell ≡ cell.now.cell }
    requires second { second.cell ≡ cell.now.cell }
    ensures { (result.0.cell ≡ cell.now.cell) × (result.1.cell ≡ cell.now.cell) }
{
    match cell.try_take(first) {
        Ok(hold) => beside(rt, cell, hold, second),
        Err(back) => (back, second, [None; 4]),
    }
}

/// What comes back where only one pass is given: the cell, and that pass.
fn refused(
    alloc: Global,
    cell: TurnCell<Mix>,
    pass: Pass<Mix>,
) -> Option<(TurnCell<Mix>, Pass<Mix>)>
    requires { pass.cell ≡ cell.cell }
    ensures { IfSome result (λ back. (back.0.cell ≡ cell.cell) × (back.1.cell ≡ cell.cell)) }
{
    let mut passes = Passes::new(alloc);
    passes.push(pass).ok()?;
    let Err((cell, mut passes)) = cell.close(passes) else {
        return None;
    };
    let pass = passes.pop()?;
    Some((cell, pass))
}

/// Ends the cell with these two passes; none where memory was wanting.
fn ended(alloc: Global, cell: TurnCell<Mix>, first: Pass<Mix>, second: Pass<Mix>) -> Option<Mix>
    requires first { first.cell ≡ cell.cell }
    requires second { second.cell ≡ cell.cell }
{
    let mut passes = Passes::new(alloc);
    passes.push(first).ok()?;
    passes.push(second).ok()?;
    cell.close(passes).ok()
}

/// What the two passes of a cell found and added, and the value that it ended with, which one of them alone can't end.
fn played<R: Wait>(rt: &R, alloc: Global) -> Option<([Option<u64>; 4], Mix)> {
    let (cell, first, second) = made(alloc)?;
    let (first, second, seen) = both(rt, &cell, first, second);
    let (cell, first) = refused(alloc, cell, first)?;
    Some((seen, ended(alloc, cell, first, second)?))
}

/// Whether the journal is that the first pass mixed 5 in, and then the second 7.
fn is_five_and_seven(mix: &Mix) -> bool {
    match mix.journal.as_slice() {
        [five, seven] => five.by == 0 && five.step == 5 && seven.by == 1 && seven.step == 7,
        _ => false,
    }
}

#[test]
fn one_turn_at_a_time(rt: HostRuntime) -> Result<(), Fail> {
    let (seen, mix) = played(&rt, rt.alloc()).expect(&rt, "memory");
    assert_eq!(rt; seen, [None, Some(5), Some(5), Some(22)]);
    assert_eq!(rt;
        (mix.value, mix.length(), is_five_and_seven(&mix)),
        (22, 2, true)
    );
    Ok(())
}
