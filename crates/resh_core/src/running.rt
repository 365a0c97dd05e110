ghost use Rattle.std.specs.Prelude.{◌≡◌, slice_get, true, IfOk, OnOk};
ghost use Rattle.std.specs.Option.{option_copied, option_map};
ghost use Rattle.resh_setup.specs.Validity.{IsValid};
ghost use Rattle.resh_cells.specs.declared.cluster.ClientCell.{ClientCell};
ghost use Rattle.resh_cells.specs.declared.cluster.ShardCell.{ShardCell};
ghost use Rattle.resh_events.specs.Sweep as sweep;
ghost use Rattle.resh_model.specs.Orders as turns;
ghost use Rattle.resh_client_rows.specs.Laws.{KeepsTurns};
ghost use Rattle.resh_law.specs.Laws.{IsWalkOf};
ghost use Rattle.resh_core.specs.Cores.{HasStepped, HasSwept, opening_core, tolds};

use crate::lucks::Lucks;
use crate::making::State;
use crate::opening::opening;
use crate::stepping::step;
use crate::sweeping::{is_over, sweep};
use resh_command::Replies;
use resh_coord::End;
use resh_leading::leads_on;
use resh_luck::Luck;
use resh_setup::{Event, SeenList, Setup, Trace, Turns};
use resh_shard::Shard;
use resh_value::{NoMemory, Sequence};
use std::alloc::Global;
use std::marker::Model;

/// A cluster that runs on one thread. Contracts see its setup, its cluster, the events made so far and their turns.
#[derive(Debug, Drop)]
pub struct Core<'a> {
    setup: &'a Setup,
    state: State,
    given_up: bool,
}

impl<'a> Model for Core<'a> {
    ghost use Rattle.resh_core.specs.Cores.{CoreOf, core_code};
    ghost use Rattle.resh_core.specs.Making.{core_of};
    ghost use Rattle.resh_core.specs.Standing.{Stands};

    ghost Value = { CoreOf };

    ghost coded = { core_code };

    ghost view = { λ c. core_of c.setup.now c.state };

    ghost invariant = { λ c. Stands c.setup.now c.given_up c.state.order c.state.cluster };
}

impl<'a> Core<'a> {
    /// The opening state of a setup: nothing was made.
    #[tactic(auto, using(crate::proofs::OpeningLaws::sound_opened))]
    pub fn start(alloc: Global, setup: &'a Setup) -> Result<Core<'a>, NoMemory>
        requires { IsValid setup.now }
        ensures { IfOk result (λ core. core ≡ opening_core setup.now) }
    {
        leads_on();
        let state = State {
            alloc,
            cluster: opening(alloc, setup)?,
            trace: Sequence::new(alloc),
            order: Sequence::new(alloc),
        };
        Ok(Core {
            setup,
            state,
            given_up: false,
        })
    }

    /// A step of this event: the events that were made, each with what is seen of it; the event with `Idle` exactly
    /// where it may not be made. The turns made so far may come one after another, and with them the invariant of every
    /// schedule is kept. Want of memory gives the core up: every later call answers it too. It comes for a failure,
    /// which is no step.
    pub fn step<L: Luck>(
        &mut self,
        event: &Event,
        lucks: &mut Lucks<L>,
    ) -> Result<SeenList, NoMemory>
        ensures stepped { IfOk result (λ lines. HasStepped self.old (tolds L.told lucks.old) event.now lines self.new
            (tolds L.told lucks.new)) }
        ensures turns { OnOk result (KeepsTurns self.new.setup (turns.opening self.new.setup) self.new.order
            self.new.cluster) }
    {
        if self.given_up {
            return Err(NoMemory);
        }
        let setup = self.setup;
        match step(&mut self.state, setup, event, lucks) {
            Ok(lines) => Ok(lines),
            Err(NoMemory) => {
                self.given_up = true;
                Err(NoMemory)
            }
        }
    }

    /// The sweep: rounds of steps until the coordinator is done and no client has a command left. Then the order is
    /// lawful, its end is what was decided, and each client was answered and each shard holds what the order gives. Want
    /// of memory gives the core up.
    #[tactic(auto, using(resh_law::proofs::Ending::walks))]
    pub fn finish<L: Luck>(&mut self, lucks: &mut Lucks<L>) -> Result<(), NoMemory>
        ensures swept { IfOk result (λ done. HasSwept self.old (tolds L.told lucks.old) self.new
            (tolds L.told lucks.new)) }
        ensures over { OnOk result (sweep.is_over self.new.setup self.new.cluster ≡ true) }
        ensures walk { OnOk result (IsWalkOf self.new.setup self.new.cluster self.new.order) }
    {
        if self.given_up {
            return Err(NoMemory);
        }
        let setup = self.setup;
        match sweep(&mut self.state, setup, lucks) {
            Ok(()) => Ok(()),
            Err(NoMemory) => {
                self.given_up = true;
                Err(NoMemory)
            }
        }
    }

    /// Whether the coordinator is done and no client has a command left.
    pub fn is_over(&self) -> bool
        ensures { result ≡ sweep.is_over self.now.setup self.now.cluster }
    {
        is_over(&self.state.cluster, self.setup)
    }

    /// The events made so far.
    pub fn trace(&self) -> &Trace
        ensures { result.now ≡ self.now.trace }
    {
        &self.state.trace
    }

    /// The turns of the events made so far.
    pub fn order(&self) -> &Turns
        ensures { result.now ≡ self.now.order }
    {
        &self.state.order
    }

    /// The events made so far, and their turns.
    pub fn into_parts(self) -> (Trace, Turns)
        ensures trace { result.0 ≡ self.entry.trace }
        ensures order { result.1 ≡ self.entry.order }
    {
        (self.state.trace, self.state.order)
    }

    /// What the coordinator decided; `None` exactly where nothing is decided.
    pub fn end(&self) -> Option<&End>
        ensures { option_copied result ≡ self.now.cluster.control.decision }
    {
        self.state.cluster.control.decision()
    }

    /// A client's replies; `None` exactly where there is no such client.
    pub fn replies(&self, client: u32) -> Option<&Replies>
        ensures { option_copied result
            ≡ option_map (λ (c : ClientCell). c.replies) (slice_get self.now.cluster.clients client) }
    {
        match self.state.cluster.clients.get(client) {
            Some(cell) => Some(&cell.replies),
            None => None,
        }
    }

    /// A shard; `None` exactly where there is none of this number.
    pub fn shard(&self, shard: u32) -> Option<&Shard>
        ensures { option_copied result
            ≡ option_map (λ (c : ShardCell). c.shard) (slice_get self.now.cluster.shards shard) }
    {
        match self.state.cluster.shards.get(shard) {
            Some(cell) => Some(&cell.shard),
            None => None,
        }
    }
}
