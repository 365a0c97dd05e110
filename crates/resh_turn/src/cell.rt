//! The cell whose value threads change in turn, and the hold of a turn.

ghost use Rattle.std.specs.Prelude.{◌≡◌, ◌+◌, ◌<◌, ◌≤◌, true, false, Some, IfOk, IfErr, OnErr, IsOk};
ghost use Rattle.std.specs.Prelude.{[], ◌∷◌, ◌++◌, length, map};
ghost use Rattle.resh_turn.specs.Replay.{Adds, Each, IsFront, made, own_of, replay};
ghost use Rattle.resh_turn.specs.Held.{AreAlong, IsEnd, IsKnownOf, given_back, has_all, known_of, numbered, unused};
ghost use Rattle.resh_turn.specs.Turns.{opening};

use crate::pass::{Pass, Passes, TurnSeat, has_all};
use crate::rule::{Another, Begun, Gather, Release, Take, Turns, View};
use crate::story::{Journal, Story};
use atomic_table::Table;
use resh_value::NoMemory;
use std::alloc::Global;
use std::marker::Model;
use std::snapshot::Snapshot;
use std::sync::Wait;
use std::thread::yield_now;

// The table under a cell: one word, free or taken, and one slot, with the value.
type TurnTable<S: Journal> = Table<
    Option<Box<S>>,
    View<S::Step, S::State>,
    Begun<S>,
    Turns,
    Global,
>;

const FREE: u64 = 0;

const TAKEN: u64 = 1;

/// One value that several passes change in turn.
#[derive(Drop)]
pub struct TurnCell<S: Journal> {
    table: TurnTable<S>,
    passes: u32,
}

impl<S: Journal> Model for TurnCell<S> {
    ghost use Rattle.std.specs.Prelude.{◌≡◌, ◌<◌};
    ghost use Rattle.resh_turn.specs.Held.{Cell, cell_code, cell_of};

    ghost Value = { Cell S.State };

    ghost coded = { cell_code S.State.code };

    ghost view = { λ t. cell_of t.table.shared.table_id (S.start t.table.shared.key.value.value) t.passes };

    ghost invariant = { λ t. (0 < t.passes) × (t.passes ≡ t.table.shared.key.passes)
        × (t.table.shared.table_id.words ≡ 1) × (t.table.shared.table_id.slots ≡ 1) };
}

/// The turn of a cell, with its value. End it by `give`.
pub struct Hold<'a, S: Journal> {
    story: Box<S>,
    cell: &'a TurnCell<S>,
    seat: TurnSeat<S>,
    number: u32,
}

impl<'a, S: Journal> Model for Hold<'a, S> {
    ghost use Rattle.std.specs.Prelude.{◌≡◌};
    ghost use Rattle.resh_turn.specs.Held.{Held, IsHeld, held_code};
    ghost use Rattle.resh_turn.specs.Turns.{boxed};

    ghost Value = { Held S };

    ghost coded = { held_code S.code };

    ghost view = { λ h. record { cell = h.seat.table_id; number = h.number; story = h.story.value } };

    ghost invariant = { λ h. (h.seat.table_id ≡ h.cell.now.cell)
        × IsHeld (boxed S.start) (boxed S.journal) h.number h.seat.me h.story };
}

impl<S: Journal> TurnCell<S> {
    /// A cell that holds the value, and so many passes, or want of memory.
    pub fn make(alloc: Global, start: S, passes: u32) -> Result<(TurnCell<S>, Passes<S>), NoMemory>
        requires some { 0 < passes }
        requires fresh { S.journal start ≡ [] }
        ensures cell { IfOk result (λ made. (made.0.start ≡ S.start start) × (made.0.passes ≡ passes)) }
        ensures passes { IfOk result (λ made. made.1 ≡ numbered made.0 0 passes) }
    {
        let (cell, seat) = TurnCell::opened(alloc, start, passes)?;
        let passes = cell.all_passes(alloc, seat, passes)?;
        Ok((cell, Passes { passes }))
    }

    /// Waits for the turn and takes it.
    pub fn take<R: Wait>(&self, rt: &R, mut pass: Pass<S>) -> Hold<'_, S>
        requires { pass.cell ≡ self.now.cell }
        ensures hold { (result.cell ≡ pass.cell) × (result.number ≡ pass.number) }
        ensures start { Some (S.start result.story) ≡ pass.begun }
        ensures seen { IsFront pass.seen (S.journal result.story) }
        ensures own { own_of result.number (S.journal result.story) ≡ pass.own }
    {
        for _ in rt.forever() {
            match self.try_take(pass) {
                Ok(hold) => return hold,
                Err(back) => pass = back,
            }
            yield_now();
        }
        unreachable!()
    }

    /// Ends the cell and gives its value, where each of its passes is among these. Else all comes back.
    pub fn close(self, passes: Passes<S>) -> Result<S, (TurnCell<S>, Passes<S>)>
        requires { Each (λ pass. pass.cell ≡ self.cell) passes }
        ensures whole { IfOk result (λ _. has_all self.passes passes ≡ true) }
        ensures start { IfOk result (λ story. S.start story ≡ self.start) }
        ensures known { IfOk result (λ story. Each (IsKnownOf (S.journal story)) passes) }
        ensures along { IfOk result (λ _. AreAlong passes) }
        ensures below { IfOk result (λ story. Each (λ e. e.by < self.passes) (S.journal story)) }
        ensures missing { IfErr result (λ _. has_all self.passes passes ≡ false) }
        ensures back { IfErr result (λ back. (back.0 ≡ self) × (back.1 ≡ passes)) }
    {
        if !has_all(passes.passes.as_slice(), self.passes) {
            return Err((self, passes));
        }
        Ok(self.ended(passes.passes))
    }

    // The value of a cell whose passes are all here.
    fn ended(self, passes: Vec<Pass<S>>) -> S
        requires cells { Each (λ pass. pass.cell ≡ self.cell) passes.items }
        requires whole { has_all self.passes passes.items ≡ true }
        ensures { IsEnd S.start S.journal self passes.items result }
    {
        let TurnCell { table, .. } = self;
        let seat = gathered(&table, passes);
        let mut closed = table.close_with(seat);
        let story = closed.take(0);
        closed.free();
        let Some(story) = story else { unreachable!() };
        Box::into_inner(story)
    }

    // All passes, from the seat of the first.
    fn all_passes(
        &self,
        alloc: Global,
        mut first: TurnSeat<S>,
        passes: u32,
    ) -> Result<Vec<Pass<S>>, NoMemory>
        requires cell { first.table_id ≡ self.now.cell }
        requires first { first.me ≡ (opening self.now.start 1, []) }
        requires passes { (0 < passes) × (self.now.passes ≡ passes) }
        ensures { IfOk result (λ all. all.items ≡ numbered self.now 0 passes) }
    {
        let mut all = Vec::with_capacity(alloc, passes as usize)?;
        let mut number = 1;
        while number < passes {
            all.push(self.another(&mut first, number))?;
            number += 1;
        }
        all.insert(
            0,
            Pass {
                number: 0,
                seat: first,
            },
        )?;
        Ok(all)
    }

    // The pass of this number, made by the first one.
    fn another(&self, first: &mut TurnSeat<S>, number: u32) -> Pass<S>
        requires cell { first.old.table_id ≡ self.now.cell }
        requires first { first.old.me ≡ (opening self.now.start number, []) }
        requires room { number < self.now.passes }
        ensures cell { first.new.table_id ≡ first.old.table_id }
        ensures first { first.new.me ≡ (opening self.now.start (number + 1), []) }
        ensures pass { result ≡ unused self.now number }
    {
        let seat = self.table.shared.split_seat::<Another>(first);
        Pass { number, seat }
    }

    // The cell with its first pass's seat.
    fn opened(alloc: Global, start: S, passes: u32) -> Result<(TurnCell<S>, TurnSeat<S>), NoMemory>
        requires some { 0 < passes }
        requires fresh { S.journal start ≡ [] }
        ensures cell { IfOk result (λ made. (made.0.start ≡ S.start start) × (made.0.passes ≡ passes)) }
        ensures seat { IfOk result (λ made. made.1.table_id ≡ made.0.cell) }
        ensures first { IfOk result (λ made. made.1.me ≡ (opening (S.start start) 1, [])) }
    {
        let about = Begun {
            value: Snapshot::of(&start),
            passes,
        };
        let story = Box::new(alloc, start)?;
        let mut slots = Vec::with_capacity(alloc, 1)?;
        slots.push_reserved(Some(story));
        let Ok((table, seat)) = Table::new(alloc, &[FREE], slots, &about) else {
            return Err(NoMemory);
        };
        Ok((TurnCell { table, passes }, seat))
    }

    /// One try to take the turn. The pass comes back where another had the turn.
    pub fn try_take(&self, pass: Pass<S>) -> Result<Hold<'_, S>, Pass<S>>
        requires { pass.cell ≡ self.now.cell }
        ensures back { IfErr result (λ back. back ≡ pass) }
        ensures hold { IfOk result (λ hold. (hold.cell ≡ pass.cell) × (hold.number ≡ pass.number)) }
        ensures start { IfOk result (λ hold. Some (S.start hold.story) ≡ pass.begun) }
        ensures seen { IfOk result (λ hold. IsFront pass.seen (S.journal hold.story)) }
        ensures own { IfOk result (λ hold. own_of hold.number (S.journal hold.story) ≡ pass.own) }
    {
        let Pass { number, mut seat } = pass;
        let shared = &self.table.shared;
        let found = shared.compare_exchange::<Take>(&mut seat, 0, FREE, TAKEN);
        if found != FREE {
            return Err(Pass { number, seat });
        }
        let Some(story) = shared.exchange(&mut seat, 0, None) else {
            unreachable!()
        };
        Ok(Hold {
            cell: self,
            number,
            seat,
            story,
        })
    }
}

// The last pass's seat, once it has taken in the others.
fn gathered<S: Journal>(table: &TurnTable<S>, mut passes: Vec<Pass<S>>) -> TurnSeat<S>
    requires some { 0 < length passes.items }
    requires words { 0 < table.now.shared.table_id.words }
    requires cells { Each (λ pass. pass.cell ≡ table.now.shared.table_id) passes.items }
    ensures cell { result.table_id ≡ table.now.shared.table_id }
    ensures waits { (result.me.0.live ≡ true) × (result.me.0.holds ≡ false) }
    ensures known { map known_of passes.items ≡ result.me.0.gathered ++ result.me.0.known ∷ [] }
{
    let Some(last) = passes.pop() else {
        unreachable!()
    };
    let mut seat = last.into_seat();
    while let Some(pass) = passes.pop() {
        table
            .shared
            .join_seat::<Gather>(&mut seat, pass.into_seat());
    }
    seat
}

impl<'a, S: Journal> Hold<'a, S> {
    /// Gives the turn back. The pass has then seen all of the journal.
    pub fn give(self) -> Pass<S>
        ensures { result ≡ given_back S.start S.journal self.entry }
    {
        let Hold {
            cell,
            number,
            mut seat,
            story,
        } = self;
        let shared = &cell.table.shared;
        let None = shared.exchange(&mut seat, 0, Some(story)) else {
            unreachable!()
        };
        shared.store::<Release>(&mut seat, 0, FREE);
        Pass { number, seat }
    }
}

impl<'a, S: Story> Hold<'a, S> {
    /// The value. Its state is the first one after all steps of the journal.
    pub fn state(&self) -> &S
        ensures value { result.now ≡ self.now.story }
        ensures replays { S.state self.now.story ≡ replay S.next (S.start self.now.story) (S.journal self.now.story) }
    {
        &self.story
    }

    /// Makes room for so many steps.
    pub fn reserve(&mut self, steps: u64) -> Result<(), NoMemory>
        ensures hold { (self.new.cell ≡ self.old.cell) × (self.new.number ≡ self.old.number) }
        ensures start { S.start self.new.story ≡ S.start self.old.story }
        ensures journal { S.journal self.new.story ≡ S.journal self.old.story }
        ensures room { IfOk result (λ _. steps ≤ S.spare self.new.story) }
        ensures kept { S.spare self.old.story ≤ S.spare self.new.story }
    {
        self.story.reserve(steps)
    }

    /// Makes a step in the name of the pass that holds the turn. After want of memory all is as before.
    pub fn act(&mut self, step: S::Step) -> Result<S::Answer, NoMemory>
        requires room { 0 < S.spare self.old.story }
        requires allowed { S.allows (S.state self.old.story) step }
        ensures hold { (self.new.cell ≡ self.old.cell) × (self.new.number ≡ self.old.number) }
        ensures start { S.start self.new.story ≡ S.start self.old.story }
        ensures journal { IfOk result (λ _. Adds (made self.old.number step) (S.journal self.old.story)
            (S.journal self.new.story)) }
        ensures answer { IfOk result (λ it. S.answers (S.state self.old.story) (made self.old.number step) it) }
        ensures used { IfOk result (λ _. S.spare self.new.story + 1 ≡ S.spare self.old.story) }
        ensures same { OnErr result (S.journal self.new.story ≡ S.journal self.old.story) }
        ensures room_stays { OnErr result (S.spare self.new.story ≡ S.spare self.old.story) }
        ensures sure { S.sure step → IsOk result }
    {
        self.story.act(step, self.number)
    }
}
