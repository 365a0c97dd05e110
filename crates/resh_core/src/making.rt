//! One event: its stamp, what it meets, its change, what is seen of it, and what follows it.

ghost use Rattle.std.specs.Prelude.{◌≡◌, ◌∷◌, ◌++◌, [], true, false, IfOk, OnOk};
ghost use Rattle.resh_events.specs.Luck as luck;
ghost use Rattle.resh_events.specs.Steps as steps;
ghost use Rattle.resh_cells.specs.Belonging.{IsClusterOf};
ghost use Rattle.resh_core.specs.Cores.{tolds};
ghost use Rattle.resh_core.specs.Making.{HasActed, HasChanged, HasKept, IsGiven, IsMade, asks_of, asked, counted_by};
ghost use Rattle.resh_core.specs.Making.{is_client, is_counted, made_of, mark_by, time_of, turns_shown};

use crate::following::follows;
use crate::holding::holds;
use crate::lucks::Lucks;
use crate::meeting::{Asking, asks, meet};
use crate::rows::{change, piece_for};
use crate::turning::{add_mark, add_turn};
use resh_asking::ask;
use resh_cells::{Cluster, set_clocks, stamp_of};
use resh_luck::Luck;
use resh_setup::{Event, Made, Met, Seen, Setup, Trace, Turns, Who};
use resh_stamp::Stamp;
use resh_value::NoMemory;
use std::alloc::Global;

/// A cluster, the events that were made of it, and their turns.
#[derive(Debug, Drop)]
pub struct State {
    pub alloc: Global,
    pub cluster: Cluster,
    pub trace: Trace,
    pub order: Turns,
}

/// What an event met and showed, and what follows it.
#[derive(Debug, Drop)]
pub struct Acted {
    pub stamp: Stamp,
    pub met: Met,
    pub seen: Seen,
    pub follower: Option<Event>,
}

/// Makes an event that may be made.
pub(crate) fn make<L: Luck>(
    state: &mut State,
    setup: &Setup,
    event: &Event,
    lucks: &mut Lucks<L>,
) -> Result<Acted, NoMemory>
    requires of { IsClusterOf setup.now state.old.cluster }
    requires may { steps.may_step setup.now state.old.cluster event.now ≡ true }
    ensures { IfOk result (IsMade setup.now state.old (tolds L.told lucks.old) event.now 0 state.new
        (tolds L.told lucks.new)) }
{
    match event {
        Event::Client { client } => make_client(state, setup, *client),
        _ => make_row(state, setup, event, 0, lucks),
    }
}

/// A client's event, which asks no luck.
fn make_client(state: &mut State, setup: &Setup, client: u32) -> Result<Acted, NoMemory>
    requires of { IsClusterOf setup.now state.old.cluster }
    requires may { steps.may_step setup.now state.old.cluster (Event.Client client) ≡ true }
    ensures acted { IfOk result (HasActed setup.now state.old.cluster (Event.Client client) 0 Met.Row
        state.new.cluster) }
    ensures kept { IfOk result (λ acted. HasKept setup.now state.old (Event.Client client) acted state.new) }
{
    let event = Event::Client { client };
    let was_decided = state.cluster.control.decision().is_some();
    let acted = act_client(&mut state.cluster, state.alloc, setup, client)?;
    keep(state, &event, was_decided, &acted)?;
    Ok(acted)
}

/// An event that is no client's, and follows one of this time.
#[tactic(auto, using(crate::proofs::RowLaws::given_comes))]
pub(crate) fn make_row<L: Luck>(
    state: &mut State,
    setup: &Setup,
    event: &Event,
    followed: u64,
    lucks: &mut Lucks<L>,
) -> Result<Acted, NoMemory>
    requires row { is_client event.now ≡ false }
    ensures { IfOk result (IsMade setup.now state.old (tolds L.told lucks.old) event.now followed state.new
        (tolds L.told lucks.new)) }
{
    let was_decided = state.cluster.control.decision().is_some();
    let asking = asks(&state.cluster, event);
    let given = meet(lucks, setup, asking)?;
    let acted = act_row(
        &mut state.cluster,
        state.alloc,
        setup,
        event,
        followed,
        asking,
        given,
    )?;
    keep(state, event, was_decided, &acted)?;
    Ok(acted)
}

/// The event in the trace, and its turns in the order.
fn keep(state: &mut State, event: &Event, was_decided: bool, acted: &Acted) -> Result<(), NoMemory>
    ensures cluster { state.new.cluster ≡ state.old.cluster }
    ensures trace { OnOk result (state.new.trace ≡ state.old.trace ++ made_of event.now acted.now ∷ []) }
    ensures order { OnOk result (state.new.order ≡ state.old.order
        ++ (turns_shown event.now acted.now.met acted.now.seen
        ++ mark_by was_decided state.old.cluster.control.decision)) }
{
    add_turn(&mut state.order, event, acted.met, &acted.seen)?;
    let end = state.cluster.control.decision();
    add_mark(&mut state.order, state.alloc, was_decided, end)?;
    let made = Made {
        stamp: acted.stamp,
        event: event.copy(state.alloc)?,
        met: acted.met,
    };
    match state.trace.push(made) {
        Ok(()) => Ok(()),
        Err(_) => Err(NoMemory),
    }
}

/// A client's event.
#[tactic(auto, using(crate::proofs::ActLaws::acted_client))]
fn act_client(
    cluster: &mut Cluster,
    alloc: Global,
    setup: &Setup,
    client: u32,
) -> Result<Acted, NoMemory>
    requires of { IsClusterOf setup.now cluster.old }
    requires may { steps.may_step setup.now cluster.old (Event.Client client) ≡ true }
    ensures { IfOk result (HasActed setup.now cluster.old (Event.Client client) 0 Met.Row cluster.new) }
{
    let asked = ask(cluster, alloc, setup, client)?;
    set_clocks(
        &mut cluster.clocks,
        asked.stamp.time,
        asked.cells.as_slice(),
    );
    Ok(Acted {
        stamp: asked.stamp,
        met: asked.met,
        seen: asked.seen,
        follower: None,
    })
}

/// An event that is no client's.
fn act_row(
    cluster: &mut Cluster,
    alloc: Global,
    setup: &Setup,
    event: &Event,
    followed: u64,
    asking: Asking,
    given: Met,
) -> Result<Acted, NoMemory>
    requires row { is_client event.now ≡ false }
    requires asked { asks_of asking ≡ asked cluster.old event.now }
    requires given { IsGiven (asks_of asking) given }
    ensures { IfOk result (HasActed setup.now cluster.old event.now followed given cluster.new) }
{
    let cells = holds(cluster, alloc, setup, event)?;
    let time = piece_time(cluster, event);
    let stamp = stamp_of(setup, &cluster.clocks, cells.as_slice(), followed, time)?;
    let (met, seen) = meet_row(cluster, alloc, setup, stamp, event, given)?;
    let crashes = count(cluster, asking, met);
    set_clocks(&mut cluster.clocks, stamp.time, cells.as_slice());
    let follower = follows(cluster, event, asking, met, crashes);
    Ok(Acted {
        stamp,
        met,
        seen,
        follower,
    })
}

/// The time of the piece that is handed over, 0 where there is none.
fn piece_time(cluster: &Cluster, event: &Event) -> u64
    ensures { result ≡ time_of (steps.piece_for cluster.now event.now) }
{
    match piece_for(cluster, event) {
        Some(piece) => piece.time,
        None => 0,
    }
}

/// The row, or what stands in its place by what luck gives and where memory is wanted; no crash is counted yet.
#[tactic(auto, using(crate::proofs::RowLaws::given_meets))]
fn meet_row(
    cluster: &mut Cluster,
    alloc: Global,
    setup: &Setup,
    stamp: Stamp,
    event: &Event,
    given: Met,
) -> Result<(Met, Seen), NoMemory>
    requires row { is_client event.now ≡ false }
    requires given { IsGiven (asked cluster.old event.now) given }
    ensures { IfOk result (λ r. HasChanged setup.now cluster.old event.now stamp given r.0 cluster.new r.1) }
{
    match given {
        Met::Row => change_row(cluster, alloc, setup, stamp, event, given),
        Met::CrashedAfter => change_row(cluster, alloc, setup, stamp, event, given),
        Met::CrashedBefore => Ok((given, Seen::CrashedBefore)),
        Met::Failed => Ok((given, Seen::Failed)),
        Met::Lost => Ok((given, Seen::Lost)),
        Met::NoMemory => Err(NoMemory),
        Met::NoMemoryInMove => Err(NoMemory),
    }
}

/// The row, or want of memory where that is the event's own.
#[tactic(auto, using(crate::proofs::RowLaws::want_seen_row, crate::proofs::RowLaws::given_meets))]
fn change_row(
    cluster: &mut Cluster,
    alloc: Global,
    setup: &Setup,
    stamp: Stamp,
    event: &Event,
    given: Met,
) -> Result<(Met, Seen), NoMemory>
    requires row { is_client event.now ≡ false }
    requires acts { luck.acts given ≡ true }
    requires given { IsGiven (asked cluster.old event.now) given }
    ensures { IfOk result (λ r. HasChanged setup.now cluster.old event.now stamp given r.0 cluster.new r.1) }
{
    match change(cluster, alloc, setup, stamp, event) {
        Ok(seen) => Ok((given, seen)),
        Err(NoMemory) => {
            if wants(event) {
                return Ok((Met::NoMemory, Seen::NoMemory));
            }
            Err(NoMemory)
        }
    }
}

/// Whether want of memory is the event's own.
fn wants(event: &Event) -> bool
    ensures { result ≡ luck.may_want_memory event.now }
{
    matches!(
        event,
        Event::Client { .. }
            | Event::Clone { .. }
            | Event::Fetch { .. }
            | Event::Cut { .. }
            | Event::Apply { .. }
            | Event::Again { .. }
            | Event::Record { .. }
    )
}

/// Counts a crash of the coordinator; the number of its crashes where one was counted.
fn count(cluster: &mut Cluster, asking: Asking, met: Met) -> u32
    ensures counted { cluster.new ≡ counted_by (asks_of asking) met cluster.old }
    ensures crashes { is_counted (asks_of asking) met ≡ true → result ≡ cluster.new.control.crashes }
{
    match (asking, met) {
        (Asking::Commits(Who::Coordinator), Met::CrashedBefore) => cluster.control.crashed(),
        (Asking::Commits(Who::Coordinator), Met::CrashedAfter) => cluster.control.crashed(),
        _ => 0,
    }
}
