//! The rule of a cell with turns, and what each of its steps tells.

ghost use Rattle.resh_turn.specs.Turns.{boxed, gathering, newcomer, releasing, spent, taking, with_one_more};

use crate::story::{Journal, Made};
use atomic_table::{Join, Play, Split, TableRule};
use std::collections::LinkedList;
use std::marker::PhantomData;
use std::snapshot::Snapshot;

/// What a pass has seen of the journal, and which of its steps it made itself. No value of it is made.
pub struct Known<T> {
    pub number: u32,
    pub seen: LinkedList<Made<T>>,
    pub own: LinkedList<Made<T>>,
}

/// What a seat at the table knows. No value of it is made.
pub struct View<T, G> {
    /// Not once another has taken it in.
    pub live: bool,
    /// It holds the turn.
    pub holds: bool,
    /// It makes the other passes.
    pub makes: bool,
    /// With what the value began.
    pub begun: Option<G>,
    pub known: Known<T>,
    /// How many passes there are, where it makes them.
    pub made: u32,
    /// What the passes knew that it has taken in.
    pub gathered: LinkedList<Known<T>>,
}

/// What a cell was made with.
#[derive(Drop)]
pub(crate) struct Begun<S> {
    pub(crate) value: Snapshot<S>,
    pub(crate) passes: u32,
}

/// One value, changed by who holds the turn.
pub struct Turns;

impl<S: Journal> TableRule<Option<Box<S>>, View<S::Step, S::State>, Begun<S>> for Turns {
    ghost use Rattle.resh_turn.specs.Turns.{Kept, boxed, opened};

    ghost holds = { λ key. Kept (boxed S.start) (boxed S.journal) (S.start key.value.value) key.passes };

    ghost first = { λ key. opened (S.start key.value.value) };
}

pub(crate) struct Take;

impl<S: Journal> Play<Option<Box<S>>, View<S::Step, S::State>> for Take {
    ghost then = { taking (boxed S.start) (boxed S.journal) };
}

pub(crate) struct Release;

impl<S: Journal> Play<Option<Box<S>>, View<S::Step, S::State>> for Release {
    ghost then = { releasing (boxed S.start) (boxed S.journal) };
}

/// One more pass is made.
pub(crate) struct Another;

impl<T, G> Split<View<T, G>> for Another {
    ghost left = { with_one_more };

    ghost right = { newcomer };
}

/// A pass takes in what another knew.
pub(crate) struct Gather;

impl<T, G> Join<View<T, G>> for Gather {
    ghost both = { gathering };

    ghost spent = { spent };
}
