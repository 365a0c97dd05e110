//! A step: nothing where it is idle, else its event and at once all that follows it.

ghost use Rattle.std.specs.Prelude.{◌≡◌, ◌∷◌, ◌++◌, [], true, IfOk, OnOk};
ghost use Rattle.resh_cells.specs.Belonging.{IsClusterOf};
ghost use Rattle.resh_events.specs.Schedules as schedules;
ghost use Rattle.resh_events.specs.Steps as steps;
ghost use Rattle.resh_setup.specs.declared.trace.Met.TheVariants.{Row};
ghost use Rattle.resh_core.specs.Cores.{HasStepped, IsSound, tolds};
ghost use Rattle.resh_core.specs.Making.{IsPaid, core_of, may_follow};

use crate::lucks::Lucks;
use crate::making::{Acted, State, make, make_row};
use crate::rows::may_step;
use resh_law::schedule_laws;
use resh_leading::leads_on;
use resh_luck::Luck;
use resh_setup::{Event, Met, Seen, SeenList, Setup};
use resh_value::{NoMemory, Sequence};
use std::alloc::Global;

/// Makes a step, which leaves the core sound. Want of memory comes for a failure, which is no step.
pub(crate) fn step<L: Luck>(
    state: &mut State,
    setup: &Setup,
    event: &Event,
    lucks: &mut Lucks<L>,
) -> Result<SeenList, NoMemory>
    requires sound { IsSound setup.now state.old.order state.old.cluster }
    ensures stepped { IfOk result (λ lines. HasStepped (core_of setup.now state.old) (tolds L.told lucks.old) event.now
        lines (core_of setup.now state.new) (tolds L.told lucks.new)) }
    ensures sound { OnOk result (IsSound setup.now state.new.order state.new.cluster) }
{
    schedule_laws();
    leads_on();
    let lines = make_step(state, setup, event, lucks)?;
    Ok(lines)
}

/// The events of a step, with their lines.
#[tactic(auto, using(crate::proofs::StepLaws::steps))]
fn make_step<L: Luck>(
    state: &mut State,
    setup: &Setup,
    event: &Event,
    lucks: &mut Lucks<L>,
) -> Result<SeenList, NoMemory>
    requires of { IsClusterOf setup.now state.old.cluster }
    ensures { IfOk result (λ lines. HasStepped (core_of setup.now state.old) (tolds L.told lucks.old) event.now
        lines (core_of setup.now state.new) (tolds L.told lucks.new)) }
{
    let mut lines = Sequence::new(state.alloc);
    if !may_step(&state.cluster, setup, event) {
        show(&mut lines, state.alloc, event, Seen::Idle)?;
        return Ok(lines);
    }
    if is_failure(event) {
        return Err(NoMemory);
    }
    let first = make(state, setup, event, lucks)?;
    let time = first.stamp.time;
    let Acted { seen, follower, .. } = first;
    show(&mut lines, state.alloc, event, seen)?;
    let Some(next) = follower else {
        return Ok(lines);
    };
    let second = pay(state, setup, &next, time, lucks)?;
    let time = second.stamp.time;
    let Acted { seen, follower, .. } = second;
    show(&mut lines, state.alloc, &next, seen)?;
    let Some(last) = follower else {
        return Ok(lines);
    };
    let third = pay(state, setup, &last, time, lucks)?;
    let Acted { seen, follower, .. } = third;
    show(&mut lines, state.alloc, &last, seen)?;
    match follower {
        None => Ok(lines),
        Some(_) => Err(NoMemory),
    }
}

/// Makes an event that is owed, and follows one of this time.
fn pay<L: Luck>(
    state: &mut State,
    setup: &Setup,
    event: &Event,
    followed: u64,
    lucks: &mut Lucks<L>,
) -> Result<Acted, NoMemory>
    ensures { IfOk result (IsPaid setup.now state.old (tolds L.told lucks.old) event.now followed state.new
        (tolds L.told lucks.new)) }
{
    if !may_follow(event) || !may_step(&state.cluster, setup, event) {
        return Err(NoMemory);
    }
    let acted = make_row(state, setup, event, followed, lucks)?;
    match acted.met {
        Met::Row => Ok(acted),
        _ => Err(NoMemory),
    }
}

/// A link's crash and a failure follow other events.
fn may_follow(event: &Event) -> bool
    ensures { result ≡ may_follow event.now }
{
    matches!(event, Event::Crash { .. } | Event::Fail { .. })
}

fn is_failure(event: &Event) -> bool
    ensures { result ≡ schedules.is_failure event.now }
{
    matches!(event, Event::Fail { .. })
}

/// Adds a line.
fn show(lines: &mut SeenList, alloc: Global, event: &Event, seen: Seen) -> Result<(), NoMemory>
    ensures { OnOk result (lines.new ≡ lines.old ++ (event.now, seen) ∷ []) }
{
    let event = event.copy(alloc)?;
    match lines.push((event, seen)) {
        Ok(()) => Ok(()),
        Err(_) => Err(NoMemory),
    }
}
