ghost use Rattle.std.specs.Prelude.{◌≡◌, ◌≤◌, ℕ, None, true};
ghost use Rattle.resh_progress.specs.Kinds.{Kind, kind_of};
ghost use Rattle.resh_progress.specs.Machines.{after, at_first, may, ARepeatChangesNothing, GoesOn, IsReached, Next, OtherKindsAreKept, PhasesNeverGoBack, ReachesOn, Rises, TheEndIsKept, Way};
ghost use Rattle.resh_progress.specs.Tellings.{has, nothing, step_unless};

use crate::message::Message;
use crate::step::Step;
use crate::told::Told;
use std::marker::Model;

/// The phases of a machine that messages move, with what a proof needs of them: where a machine begins and ends, to
/// which phase a message moves, how many phases come before one, and what was told on the way to it.
pub trait Phases: Copy {
    ghost first: { Self };

    ghost last: { Self };

    ghost next_phase: { Next Self };

    ghost place_of: { Self → ℕ };

    ghost told_until: { Way Self };

    /// The phase of a machine that was told nothing.
    fn first() -> Self
        ensures { result ≡ first };

    /// The phase to which a message moves; `None` exactly where it moves nothing.
    fn next(self, message: &Message) -> Option<Self>
        ensures { result ≡ next_phase self (kind_of message.now) };

    ghost rises: { Rises next_phase place_of };

    ghost starts: { told_until first ≡ nothing };

    ghost goes_on: { GoesOn next_phase last told_until };

    ghost ends: { (kind : Kind) → next_phase last kind ≡ None };
}

/// A machine that messages move, which contracts see as its phase and what it was told.
#[derive(Debug, Drop)]
pub struct Machine<P: Phases> {
    phase: P,
    told: Told,
}

impl<P: Phases> Model for Machine<P> {
    ghost use Rattle.resh_progress.specs.Machines.{State, state_code, IsReached};

    ghost Value = { State P };

    ghost coded = { state_code P.code };

    ghost view = { λ m. record { phase = m.phase; told = m.told } };

    ghost invariant = { λ m. IsReached P.last P.told_until (record { phase = m.phase; told = m.told }) };
}

impl<P: Phases> Machine<P> {
    /// A machine that was told nothing.
    pub fn new() -> Machine<P>
        ensures { result ≡ at_first P.first }
    {
        Machine {
            phase: P::first(),
            told: Told::nothing(),
        }
    }

    pub fn phase(&self) -> P
        ensures phase { result ≡ self.now.phase }
        ensures reached { IsReached P.last P.told_until self.now }
    {
        self.phase
    }

    /// Whether a message of this kind came.
    pub fn was_told(&self, message: &Message) -> bool
        ensures { result ≡ has self.now.told (kind_of message.now) }
    {
        self.told.has(message)
    }

    /// Whether a message may come: one that came before, or one that moves the phase.
    pub fn may(&self, message: &Message) -> bool
        ensures { result ≡ may P.next_phase self.now (kind_of message.now) }
    {
        self.was_told(message) || self.phase.next(message).is_some()
    }

    /// Takes a message that may come.
    pub fn on(&mut self, message: &Message) -> Step
        requires { may P.next_phase self.old (kind_of message.now) ≡ true }
        ensures state { self.new ≡ after P.next_phase self.old (kind_of message.now) }
        ensures step { result ≡ step_unless (has self.old.told (kind_of message.now)) }
        ensures told { has self.new.told (kind_of message.now) ≡ true }
        ensures same { result ≡ Step.Same → self.new ≡ self.old }
        ensures never_back { P.place_of self.old.phase ≤ P.place_of self.new.phase }
    {
        if self.told.has(message) {
            return Step::Same;
        }
        self.told.add(message);
        if let Some(phase) = self.phase.next(message) {
            self.phase = phase;
        }
        Step::Moved
    }

    /// Goes on to a phase by itself, where this leads to what it may come to.
    pub fn pass(&mut self, phase: P)
        requires { IsReached P.last P.told_until (record self.old { phase = phase }) }
        ensures { self.new ≡ record self.old { phase = phase } }
    {
        self.phase = phase;
    }
}

/// What holds of every machine: a repeat changes nothing, no message leads back, and after the end nothing moves.
pub fn machine_laws<P: Phases>()
    ensures repeat { ARepeatChangesNothing P.next_phase }
    ensures others { OtherKindsAreKept P.next_phase }
    ensures never_back { PhasesNeverGoBack P.next_phase P.place_of }
    ensures kept { TheEndIsKept P.next_phase P.last }
    ensures reached { ReachesOn P.next_phase P.last P.told_until }
{}
