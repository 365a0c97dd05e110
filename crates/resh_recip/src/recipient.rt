ghost use Rattle.std.specs.Prelude.{◌≡◌, ◌≤◌, true};
ghost use Rattle.resh_progress.specs.Kinds.{kind_of};
ghost use Rattle.resh_progress.specs.Tellings.{has, step_unless};
ghost use Rattle.resh_recip.specs.Phases.{has_passed, place_of};
ghost use Rattle.resh_recip.specs.States.{after, at_first, cloned, consistent, may, may_be_cloned, may_be_consistent, IsReached};

use crate::phase::RecipientPhase;
use resh_progress::{Machine, Message, Step};
use std::marker::Model;

/// A recipient's machine, which contracts see as its phase and what it was told.
#[derive(Debug, Drop)]
pub struct Recipient {
    machine: Machine<RecipientPhase>,
}

impl Model for Recipient {
    ghost use Rattle.resh_recip.specs.States.{State};
    ghost use Rattle.resh_progress.specs.Machines.{state_code};
    ghost use Rattle.resh_recip.specs.contracts.phase.RecipientPhase as phase;

    ghost Value = { State };

    ghost coded = { state_code phase.the_row.coded };

    ghost view = { λ r. r.machine };
}

impl Recipient {
    /// A recipient that was told nothing.
    pub fn new() -> Recipient
        ensures { result ≡ at_first }
    {
        Recipient {
            machine: Machine::new(),
        }
    }

    pub fn phase(&self) -> RecipientPhase
        ensures phase { result ≡ self.now.phase }
        ensures reached { IsReached self.now }
    {
        self.machine.phase()
    }

    /// Whether a message of this kind came.
    pub fn was_told(&self, message: &Message) -> bool
        ensures { result ≡ has self.now.told (kind_of message.now) }
    {
        self.machine.was_told(message)
    }

    /// Whether a message may come: one that came before, the phase's next one, or a release before the end.
    pub fn may(&self, message: &Message) -> bool
        ensures { result ≡ may self.now (kind_of message.now) }
    {
        self.machine.may(message)
    }

    /// Takes a message that may come.
    pub fn on(&mut self, message: &Message) -> Step
        requires { may self.old (kind_of message.now) ≡ true }
        ensures state { self.new ≡ after self.old (kind_of message.now) }
        ensures step { result ≡ step_unless (has self.old.told (kind_of message.now)) }
        ensures told { has self.new.told (kind_of message.now) ≡ true }
        ensures same { result ≡ Step.Same → self.new ≡ self.old }
        ensures never_back { place_of self.old.phase ≤ place_of self.new.phase }
    {
        self.machine.on(message)
    }

    /// The clone is made: from cloning it goes on to applying.
    pub fn cloned(&mut self) -> Step
        requires { may_be_cloned self.old ≡ true }
        ensures state { self.new ≡ cloned self.old }
        ensures step { result ≡ step_unless (has_passed RecipientPhase.Cloning self.old.phase) }
        ensures same { result ≡ Step.Same → self.new ≡ self.old }
        ensures passed { place_of RecipientPhase.Applying ≤ place_of self.new.phase }
        ensures never_back { place_of self.old.phase ≤ place_of self.new.phase }
    {
        match self.machine.phase() {
            RecipientPhase::Cloning => {
                self.machine.pass(RecipientPhase::Applying);
                Step::Moved
            }
            _ => Step::Same,
        }
    }

    /// All that the donors logged is applied: from applying it goes on to strict consistency.
    pub fn consistent(&mut self) -> Step
        requires { may_be_consistent self.old ≡ true }
        ensures state { self.new ≡ consistent self.old }
        ensures step { result ≡ step_unless (has_passed RecipientPhase.Applying self.old.phase) }
        ensures same { result ≡ Step.Same → self.new ≡ self.old }
        ensures passed { place_of RecipientPhase.StrictConsistency ≤ place_of self.new.phase }
        ensures never_back { place_of self.old.phase ≤ place_of self.new.phase }
    {
        match self.machine.phase() {
            RecipientPhase::Applying => {
                self.machine.pass(RecipientPhase::StrictConsistency);
                Step::Moved
            }
            _ => Step::Same,
        }
    }
}
