//! The sweep: rounds of steps, in which each link reads, cuts, has its pieces applied and records, until all is done.

ghost use Rattle.std.specs.Prelude.{◌≡◌, ◌∷◌, [], length, true, OnOk};
ghost use Rattle.resh_setup.specs.Validity.{IsValid};
ghost use Rattle.resh_cells.specs.Cells.{link_in};
ghost use Rattle.resh_events.specs.Sweep as table;
ghost use Rattle.resh_core.specs.Cores.{HasSwept, IsSound, tolds};
ghost use Rattle.resh_core.specs.Making.{core_of};
ghost use Rattle.resh_core.specs.Sweeping.{HasTried, have_asked_all, reading_at};
ghost use Rattle.resh_core.specs.Sweeping.{client_trials, lane_trials, link_trials};
ghost use Rattle.resh_core.specs.Sweeping.{recipient_trials, report_trials, tell_trials};

use crate::lists::{client_count, shard_count};
use crate::lucks::Lucks;
use crate::making::State;
use crate::rows::may_step;
use crate::stepping::step;
use resh_asking::may_ask;
use resh_cells::Cluster;
use resh_coord::Phase;
use resh_luck::Luck;
use resh_setup::{Event, Setup};
use resh_sweeps::rounds_end;
use resh_value::{NoMemory, ShardId};

/// Makes rounds until all is done. Each leaves less to do.
pub(crate) fn sweep<L: Luck>(
    state: &mut State,
    setup: &Setup,
    lucks: &mut Lucks<L>,
) -> Result<(), NoMemory>
    requires sound { IsSound setup.now state.old.order state.old.cluster }
    ensures swept { OnOk result (HasSwept (core_of setup.now state.old) (tolds L.told lucks.old)
        (core_of setup.now state.new) (tolds L.told lucks.new)) }
    ensures sound { OnOk result (IsSound setup.now state.new.order state.new.cluster) }
    ensures over { OnOk result (table.is_over setup.now state.new.cluster ≡ true) }
{
    rounds_end();
    'rounds: while !is_over(&state.cluster, setup) {
        make_round(state, setup, lucks)?;
    }
    Ok(())
}

/// Whether the coordinator is done and no client has a command left.
pub(crate) fn is_over(cluster: &Cluster, setup: &Setup) -> bool
    requires { IsValid setup.now }
    ensures { result ≡ table.is_over setup.now cluster.now }
{
    match cluster.control.phase() {
        Phase::Done => have_asked_all(cluster, setup),
        _ => false,
    }
}

/// Whether no client has a command left.
fn have_asked_all(cluster: &Cluster, setup: &Setup) -> bool
    requires { IsValid setup.now }
    ensures { result ≡ have_asked_all setup.now cluster.now }
{
    let clients = setup.clients.len() as u32;
    (0..clients).all(|client| !may_ask(cluster, setup, client))
}

/// A round: each client, begin, each tell, each link, each report, advance.
fn make_round<L: Luck>(
    state: &mut State,
    setup: &Setup,
    lucks: &mut Lucks<L>,
) -> Result<(), NoMemory>
    requires sound { IsSound setup.now state.old.order state.old.cluster }
    ensures { OnOk result (HasTried setup.now state.old (tolds L.told lucks.old) (table.round setup.now) state.new
        (tolds L.told lucks.new)) }
{
    try_clients(state, setup, lucks)?;
    try_step(state, setup, &Event::Begin, lucks)?;
    try_tells(state, setup, lucks)?;
    try_recipients(state, setup, lucks)?;
    try_reports(state, setup, lucks)?;
    try_step(state, setup, &Event::Advance, lucks)?;
    Ok(())
}

/// A step, whose lines nobody reads; nothing where it is idle, as most steps of a round are.
fn try_step<L: Luck>(
    state: &mut State,
    setup: &Setup,
    event: &Event,
    lucks: &mut Lucks<L>,
) -> Result<(), NoMemory>
    requires sound { IsSound setup.now state.old.order state.old.cluster }
    ensures { OnOk result (HasTried setup.now state.old (tolds L.told lucks.old) (table.step event.now ∷ []) state.new
        (tolds L.told lucks.new)) }
{
    if !may_step(&state.cluster, setup, event) {
        return Ok(());
    }
    let _lines = step(state, setup, event, lucks)?;
    Ok(())
}

fn try_clients<L: Luck>(
    state: &mut State,
    setup: &Setup,
    lucks: &mut Lucks<L>,
) -> Result<(), NoMemory>
    requires sound { IsSound setup.now state.old.order state.old.cluster }
    ensures { OnOk result (HasTried setup.now state.old (tolds L.told lucks.old)
        (client_trials (length setup.now.clients)) state.new (tolds L.told lucks.new)) }
{
    for client in 0..client_count(setup)? {
        try_step(state, setup, &Event::Client { client }, lucks)?;
    }
    Ok(())
}

fn try_tells<L: Luck>(
    state: &mut State,
    setup: &Setup,
    lucks: &mut Lucks<L>,
) -> Result<(), NoMemory>
    requires sound { IsSound setup.now state.old.order state.old.cluster }
    ensures { OnOk result (HasTried setup.now state.old (tolds L.told lucks.old)
        (tell_trials (length setup.now.shards)) state.new (tolds L.told lucks.new)) }
{
    for shard in 0..shard_count(setup)? {
        let event = Event::Tell {
            shard: ShardId(shard),
        };
        try_step(state, setup, &event, lucks)?;
    }
    Ok(())
}

fn try_reports<L: Luck>(
    state: &mut State,
    setup: &Setup,
    lucks: &mut Lucks<L>,
) -> Result<(), NoMemory>
    requires sound { IsSound setup.now state.old.order state.old.cluster }
    ensures { OnOk result (HasTried setup.now state.old (tolds L.told lucks.old)
        (report_trials (length setup.now.shards)) state.new (tolds L.told lucks.new)) }
{
    for shard in 0..shard_count(setup)? {
        let event = Event::Report {
            recipient: ShardId(shard),
        };
        try_step(state, setup, &event, lucks)?;
    }
    Ok(())
}

fn try_recipients<L: Luck>(
    state: &mut State,
    setup: &Setup,
    lucks: &mut Lucks<L>,
) -> Result<(), NoMemory>
    requires sound { IsSound setup.now state.old.order state.old.cluster }
    ensures { OnOk result (HasTried setup.now state.old (tolds L.told lucks.old)
        (recipient_trials setup.now (length setup.now.shards)) state.new (tolds L.told lucks.new)) }
{
    for recipient in 0..shard_count(setup)? {
        try_links(state, setup, ShardId(recipient), lucks)?;
    }
    Ok(())
}

fn try_links<L: Luck>(
    state: &mut State,
    setup: &Setup,
    recipient: ShardId,
    lucks: &mut Lucks<L>,
) -> Result<(), NoMemory>
    requires sound { IsSound setup.now state.old.order state.old.cluster }
    ensures { OnOk result (HasTried setup.now state.old (tolds L.told lucks.old)
        (link_trials setup.now recipient (length setup.now.shards)) state.new (tolds L.told lucks.new)) }
{
    for donor in 0..shard_count(setup)? {
        try_link(state, setup, recipient, ShardId(donor), lucks)?;
    }
    Ok(())
}

/// A link reads, cuts, has its pieces applied lane by lane, and records.
fn try_link<L: Luck>(
    state: &mut State,
    setup: &Setup,
    recipient: ShardId,
    donor: ShardId,
    lucks: &mut Lucks<L>,
) -> Result<(), NoMemory>
    requires sound { IsSound setup.now state.old.order state.old.cluster }
    ensures { OnOk result (HasTried setup.now state.old (tolds L.told lucks.old)
        (table.link_round setup.now recipient donor) state.new (tolds L.told lucks.new)) }
{
    try_reading(state, setup, recipient, donor, lucks)?;
    try_step(state, setup, &Event::Cut { recipient, donor }, lucks)?;
    try_lanes(state, setup, recipient, donor, lucks)?;
    try_step(state, setup, &Event::Record { recipient, donor }, lucks)?;
    Ok(())
}

/// A link that is read out fetches, and another one clones.
fn try_reading<L: Luck>(
    state: &mut State,
    setup: &Setup,
    recipient: ShardId,
    donor: ShardId,
    lucks: &mut Lucks<L>,
) -> Result<(), NoMemory>
    requires sound { IsSound setup.now state.old.order state.old.cluster }
    ensures { OnOk result (HasTried setup.now state.old (tolds L.told lucks.old)
        (table.reading recipient donor ∷ []) state.new (tolds L.told lucks.new)) }
{
    let event = next_reading(&state.cluster, recipient, donor);
    try_step(state, setup, &event, lucks)?;
    Ok(())
}

fn next_reading(cluster: &Cluster, recipient: ShardId, donor: ShardId) -> Event
    ensures { result ≡ reading_at cluster.now recipient donor }
{
    if is_read_out(cluster, recipient, donor) {
        return Event::Fetch { recipient, donor };
    }
    Event::Clone { recipient, donor }
}

#[tactic(auto, using(resh_cells::proofs::Places::or_default, resh_cells::proofs::Places::or_item))]
fn is_read_out(cluster: &Cluster, recipient: ShardId, donor: ShardId) -> bool
    ensures { result ≡ (link_in cluster.now recipient.0 donor.0).link.read_out }
{
    match cluster.links.get(recipient.0) {
        Some(links) => match links.get(donor.0) {
            Some(cell) => cell.link.read_out(),
            None => false,
        },
        None => false,
    }
}

#[tactic(auto, using(resh_cells::proofs::Places::or_default, resh_cells::proofs::Places::or_item))]
fn has_failed(cluster: &Cluster, recipient: ShardId, donor: ShardId) -> bool
    ensures { result ≡ (link_in cluster.now recipient.0 donor.0).link.failed }
{
    match cluster.links.get(recipient.0) {
        Some(links) => match links.get(donor.0) {
            Some(cell) => cell.link.has_failed(),
            None => false,
        },
        None => false,
    }
}

fn try_lanes<L: Luck>(
    state: &mut State,
    setup: &Setup,
    recipient: ShardId,
    donor: ShardId,
    lucks: &mut Lucks<L>,
) -> Result<(), NoMemory>
    requires sound { IsSound setup.now state.old.order state.old.cluster }
    ensures { OnOk result (HasTried setup.now state.old (tolds L.told lucks.old)
        (lane_trials recipient donor setup.now.lanes) state.new (tolds L.told lucks.new)) }
{
    for lane in 0..setup.lanes {
        try_applies(state, setup, recipient, donor, lane, lucks)?;
    }
    Ok(())
}

/// Applies one after another, as long as one isn't idle and the link hasn't failed. Each leaves less to do.
fn try_applies<L: Luck>(
    state: &mut State,
    setup: &Setup,
    recipient: ShardId,
    donor: ShardId,
    lane: u32,
    lucks: &mut Lucks<L>,
) -> Result<(), NoMemory>
    requires sound { IsSound setup.now state.old.order state.old.cluster }
    ensures { OnOk result (HasTried setup.now state.old (tolds L.told lucks.old)
        (table.applying recipient donor lane ∷ []) state.new (tolds L.told lucks.new)) }
{
    'applies: while goes_on(&state.cluster, setup, recipient, donor, lane) {
        let event = Event::Apply {
            recipient,
            donor,
            lane,
        };
        let _lines = step(state, setup, &event, lucks)?;
    }
    Ok(())
}

/// Whether an apply isn't idle and its link hasn't failed.
fn goes_on(cluster: &Cluster, setup: &Setup, recipient: ShardId, donor: ShardId, lane: u32) -> bool
    ensures { result ≡ table.goes_on setup.now cluster.now recipient donor lane }
{
    let event = Event::Apply {
        recipient,
        donor,
        lane,
    };
    may_step(cluster, setup, &event) && !has_failed(cluster, recipient, donor)
}
