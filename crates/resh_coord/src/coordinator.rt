ghost use Rattle.std.specs.Prelude.{◌≡◌, true, cond, not, is_some, IfOk, Some, None};
ghost use Rattle.std.specs.Option.{option_copied};
ghost use Rattle.resh_coord.specs.Control.{advanced, asked_of, at_first, begins, begun, is_true_at, may_advance, may_report, may_tell, message_of, takes_clash, takes_reports, unless_decided, with_crash, with_report, with_told, IsControl};
ghost use Rattle.resh_coord.specs.declared.cause.Cause.TheVariants.{Asked as AskedFor};

use crate::cause::{Cause, End};
use crate::moves::{
    all_true, decide, decide_by_clashes, enter, falses, is_marked, nones, report, tell,
};
use crate::phase::{Asked, Phase};
use crate::state::ControlState;
use resh_progress::Message;
use resh_value::{NoMemory, ShardId, Value};
use std::alloc::Global;
use std::marker::Model;

/// The coordinator of one operation.
#[derive(Debug, Drop)]
pub struct Coordinator {
    alloc: Global,
    state: ControlState,
}

impl Model for Coordinator {
    ghost use Rattle.resh_coord.specs.contracts.state.ControlState as control;
    ghost use Rattle.resh_coord.specs.Control.{Control, IsControl};

    ghost Value = { Control };

    ghost coded = { control.the_row.coded };

    ghost view = { λ c. c.state };

    ghost invariant = { λ c. IsControl c.state };
}

impl Coordinator {
    /// A coordinator of so many shards that hasn't begun.
    pub fn new(alloc: Global, shards: u32) -> Result<Coordinator, NoMemory>
        ensures { IfOk result (λ coordinator. coordinator ≡ at_first shards) }
    {
        let state = ControlState {
            phase: Phase::Initializing,
            fetch_time: 0,
            told: falses(alloc, shards)?,
            reported: falses(alloc, shards)?,
            clashes: nones(alloc, shards)?,
            decision: None,
            crashes: 0,
        };
        Ok(Coordinator { alloc, state })
    }

    pub fn phase(&self) -> Phase
        ensures phase { result ≡ self.now.phase }
        ensures control { IsControl self.now }
    {
        self.state.phase
    }

    /// What was decided; `None` exactly where nothing was.
    pub fn decision(&self) -> Option<&End>
        ensures { option_copied result ≡ self.now.decision }
    {
        self.state.decision.as_ref()
    }

    /// What the shards are told in this phase.
    pub fn message(&self) -> Option<Message>
        ensures { result ≡ message_of self.now }
    {
        match self.state.phase {
            Phase::PreparingToDonate => Some(Message::Prepare),
            Phase::Cloning => Some(Message::Donate {
                fetch_time: self.state.fetch_time,
            }),
            Phase::BlockingWrites => Some(Message::Block),
            Phase::Committing => Some(Message::Install),
            Phase::Aborting => Some(Message::Release),
            Phase::Initializing | Phase::Applying | Phase::Done => None,
        }
    }

    /// Whether the shard was told in this phase.
    pub fn is_told(&self, shard: ShardId) -> bool
        ensures { result ≡ is_true_at self.now.told shard.0 }
    {
        is_marked(&self.state.told, shard)
    }

    /// Whether the recipient reported in this phase.
    pub fn is_reported(&self, recipient: ShardId) -> bool
        ensures { result ≡ is_true_at self.now.reported recipient.0 }
    {
        is_marked(&self.state.reported, recipient)
    }

    /// Whether the shard may be told: there is a message, and it is one of the shards.
    pub fn may_tell(&self, shard: ShardId) -> bool
        ensures { result ≡ may_tell self.now shard.0 }
    {
        self.message().is_some() && (shard.0 as u64) < self.state.told.len()
    }

    /// Whether the recipient may report: in a phase that takes reports, and once.
    pub fn may_report(&self, recipient: ShardId) -> bool
        ensures { result ≡ may_report self.now recipient.0 }
    {
        takes_reports(self.state.phase)
            && (recipient.0 as u64) < self.state.reported.len()
            && !self.is_reported(recipient)
    }

    /// Whether the phase may be left: all were told and reported whom it asks for.
    pub fn may_advance(&self) -> bool
        ensures { result ≡ may_advance self.now }
    {
        let state = &self.state;
        match state.phase {
            Phase::Cloning | Phase::BlockingWrites => {
                all_true(&state.told) && all_true(&state.reported)
            }
            Phase::Applying => all_true(&state.reported),
            Phase::PreparingToDonate | Phase::Committing | Phase::Aborting => all_true(&state.told),
            Phase::Initializing | Phase::Done => false,
        }
    }

    /// Begins, where it hasn't.
    pub fn begin(&mut self) -> bool
        ensures state { self.new ≡ begun self.old }
        ensures begins { result ≡ begins self.old.phase }
    {
        match self.state.phase {
            Phase::Initializing => {
                enter(&mut self.state, self.alloc, Phase::PreparingToDonate);
                true
            }
            _ => false,
        }
    }

    /// The shard was told this phase's message.
    pub fn told(&mut self, shard: ShardId)
        requires { may_tell self.old shard.0 ≡ true }
        ensures { self.new ≡ with_told shard.0 self.old }
    {
        tell(&mut self.state, self.alloc, shard);
    }

    /// The recipient did what this phase asks for; a clash is the least `_id` that waits on it.
    pub fn reported(&mut self, recipient: ShardId, clash: Option<Value>)
        requires may { may_report self.old recipient.0 ≡ true }
        requires clash { takes_clash self.old.phase clash ≡ true }
        ensures { self.new ≡ with_report recipient.0 clash self.old }
    {
        report(&mut self.state, self.alloc, recipient, clash);
    }

    /// It crashed once more; the number of its crashes.
    pub fn crashed(&mut self) -> u32
        ensures state { self.new ≡ with_crash self.old }
        ensures crashes { result ≡ self.new.crashes }
    {
        self.state.crashes = self.state.crashes.saturating_add(1);
        self.state.crashes
    }

    /// Leaves the phase at this time, where it may; the next phase.
    pub fn advance(&mut self, time: u64) -> Option<Phase>
        ensures state { self.new ≡ advanced time self.old }
        ensures phase { result ≡ cond (may_advance self.old) (Some self.new.phase) None }
    {
        if !self.may_advance() {
            return None;
        }
        match self.state.phase {
            Phase::PreparingToDonate => {
                enter(&mut self.state, self.alloc, Phase::Cloning);
                self.state.fetch_time = time;
            }
            Phase::Cloning => enter(&mut self.state, self.alloc, Phase::Applying),
            Phase::Applying => enter(&mut self.state, self.alloc, Phase::BlockingWrites),
            Phase::BlockingWrites => decide_by_clashes(&mut self.state, self.alloc),
            _ => enter(&mut self.state, self.alloc, Phase::Done),
        }
        Some(self.state.phase)
    }

    /// A client's command asks for an abort, which comes where nothing is decided.
    pub fn abort(&mut self, client: u32, number: u32) -> Asked
        ensures state { self.new ≡ unless_decided (AskedFor client number) self.old }
        ensures answer { result ≡ asked_of (is_some self.old.decision) }
    {
        if self.fail(Cause::Asked { client, number }) {
            Asked::Accepted
        } else {
            Asked::TooLate
        }
    }

    /// Aborts for this cause, where nothing is decided.
    pub fn fail(&mut self, cause: Cause) -> bool
        ensures state { self.new ≡ unless_decided cause self.old }
        ensures fails { result ≡ not (is_some self.old.decision) }
    {
        if self.state.decision.is_some() {
            return false;
        }
        decide(
            &mut self.state,
            self.alloc,
            End::Aborted(cause),
            Phase::Aborting,
        );
        true
    }
}

/// Whether recipients report in this phase.
fn takes_reports(phase: Phase) -> bool
    ensures { result ≡ takes_reports phase }
{
    matches!(
        phase,
        Phase::Cloning | Phase::Applying | Phase::BlockingWrites
    )
}
