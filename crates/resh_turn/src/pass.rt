//! Passes: the rights to take the turn.

ghost use Rattle.std.specs.Prelude.{◌≡◌, true, false, [], ◌∷◌, ◌++◌, length, slice_get, IfOk, IfErr, MatchOption};
ghost use Rattle.std.specs.Option.{option_copied};
ghost use Rattle.resh_turn.specs.Held.{has, has_all, known_of};

use crate::rule::View;
use crate::story::Journal;
use atomic_table::Seat;
use std::alloc::Global;
use std::marker::Model;

pub(crate) type TurnSeat<S: Journal> = Seat<Option<Box<S>>, View<S::Step, S::State>>;

/// The right to take the turn of one cell.
#[derive(Drop)]
pub struct Pass<S: Journal> {
    pub(crate) number: u32,
    pub(crate) seat: TurnSeat<S>,
}

impl<S: Journal> Model for Pass<S> {
    ghost use Rattle.resh_turn.specs.Sight.{Sight, Waits, sight, sight_code};

    ghost Value = { Sight S.Step S.State };

    ghost coded = { sight_code S.Step.code S.State.code };

    ghost view = { λ p. sight p.number p.seat };

    ghost invariant = { λ p. Waits p.number p.seat };
}

impl<S: Journal> Pass<S> {
    pub(crate) fn into_seat(self) -> TurnSeat<S>
        ensures cell { result.table_id ≡ self.cell }
        ensures waits { (result.me.0.live ≡ true) × (result.me.0.holds ≡ false) × (result.me.1 ≡ []) }
        ensures gathered { result.me.0.gathered ≡ [] }
        ensures known { result.me.0.known ≡ known_of self }
    {
        self.seat
    }
}

/// A list of passes.
#[derive(Drop)]
pub struct Passes<S: Journal> {
    pub(crate) passes: Vec<Pass<S>>,
}

impl<S: Journal> Model for Passes<S> {
    ghost use Rattle.std.specs.Prelude.{List};
    ghost use Rattle.std.specs.Coded.{coded_list};
    ghost use Rattle.resh_turn.specs.Sight.{Sight, sight_code};

    ghost Value = { List (Sight S.Step S.State) };

    ghost coded = { coded_list (sight_code S.Step.code S.State.code) };

    ghost view = { λ p. p.passes.items };
}

impl<S: Journal> Passes<S> {
    /// An empty list, which keeps the allocator.
    pub fn new(alloc: Global) -> Passes<S>
        ensures { result ≡ [] }
    {
        Passes {
            passes: Vec::new(alloc),
        }
    }

    pub fn len(&self) -> u64
        ensures { result ≡ length self.now }
    {
        self.passes.len() as u64
    }

    /// The pass at a place.
    pub fn get(&self, place: u64) -> Option<&Pass<S>>
        ensures { option_copied result ≡ slice_get self.now place }
    {
        self.passes.get(place as usize)
    }

    /// Puts a pass behind the others. It comes back where there is no memory for it.
    pub fn push(&mut self, pass: Pass<S>) -> Result<(), Pass<S>>
        ensures pushed { IfOk result (λ _. self.new ≡ self.old ++ pass ∷ []) }
        ensures back { IfErr result (λ back. (back ≡ pass) × (self.new ≡ self.old)) }
    {
        match self.passes.push(pass) {
            Ok(()) => Ok(()),
            Err(failed) => Err(failed.value),
        }
    }

    /// Takes the last pass out; `None` exactly where the list is empty.
    pub fn pop(&mut self) -> Option<Pass<S>>
        ensures { MatchOption result ((self.old ≡ []) × (self.new ≡ [])) (λ last. self.old ≡ self.new ++ last ∷ []) }
    {
        self.passes.pop()
    }
}

// Whether a pass of this number is among them.
fn has<S: Journal>(mut passes: &[Pass<S>], number: u32) -> bool
    ensures { result ≡ has number passes.now }
{
    while let [first, rest @ ..] = passes {
        if first.number == number {
            return true;
        }
        passes = rest;
    }
    false
}

/// Whether there is a pass of each number below this one.
pub(crate) fn has_all<S: Journal>(passes: &[Pass<S>], count: u32) -> bool
    ensures { result ≡ has_all count passes.now }
{
    let mut left = count;
    while left > 0 {
        left -= 1;
        if !has(passes, left) {
            return false;
        }
    }
    true
}
