//! What an event asks of luck, and what it meets.

ghost use Rattle.std.specs.Prelude.{◌≡◌, cond, map, not, slice_index_or, slice_set, [], IfOk, OnOk};
ghost use Rattle.resh_luck.specs.Fates.{after_commit, after_tries, loses, next_fate, no_calls};
ghost use Rattle.resh_events.specs.Follows.{limit};
ghost use Rattle.resh_events.specs.Luck as luck;
ghost use Rattle.resh_events.specs.Lucks as lucks_of;
ghost use Rattle.resh_events.specs.Plans.{given_by, met_of, tried};
ghost use Rattle.resh_events.specs.Steps as steps;
ghost use Rattle.resh_events.specs.rows.Again.{takes};
ghost use Rattle.resh_core.specs.Cores.{tolds};
ghost use Rattle.resh_core.specs.Making.{asks_of};

use crate::lucks::Lucks;
use crate::rows::piece_for;
use resh_cells::{Cells, Cluster};
use resh_copying::takes_again;
use resh_luck::{Fate, Luck, delivered};
use resh_setup::{Event, Met, Setup, Who};
use resh_value::{NoMemory, ShardId};

/// What an event asks of luck.
#[derive(Debug, Drop, Clone, Copy, PartialEq, Eq)]
pub enum Asking {
    Quiet,
    Commits(Who),
    Delivers(Who),
}

/// What a step asks.
pub(crate) fn asks(cluster: &Cluster, event: &Event) -> Asking
    ensures { asks_of result ≡ luck.asks cluster.now event.now (steps.piece_for cluster.now event.now) }
{
    match event {
        Event::Begin | Event::Advance => Asking::Commits(Who::Coordinator),
        Event::Record { recipient, donor } => Asking::Commits(Who::Link {
            recipient: *recipient,
            donor: *donor,
        }),
        Event::Apply {
            recipient,
            donor,
            lane,
        } => Asking::Commits(Who::Lane {
            recipient: *recipient,
            donor: *donor,
            lane: *lane,
        }),
        Event::Again {
            recipient,
            donor,
            lane,
            ..
        } => { asking_again(cluster, event, *recipient, *donor, *lane) }
        Event::Tell { .. } => Asking::Delivers(Who::Coordinator),
        Event::Clone { recipient, donor } | Event::Fetch { recipient, donor } => {
            Asking::Delivers(Who::Link {
                recipient: *recipient,
                donor: *donor,
            })
        }
        _ => Asking::Quiet,
    }
}

/// A lane commits where it takes the piece.
fn asking_again(
    cluster: &Cluster,
    event: &Event,
    recipient: ShardId,
    donor: ShardId,
    lane: u32,
) -> Asking
    ensures { let piece = steps.piece_for cluster.now event.now in
        asks_of result ≡ cond (takes cluster.now recipient.0 donor.0 lane piece)
        (luck.commits (Who.Lane recipient donor lane)) luck.quiet }
{
    let piece = piece_for(cluster, event);
    if takes_again(cluster, recipient, donor, lane, piece) {
        return Asking::Commits(Who::Lane {
            recipient,
            donor,
            lane,
        });
    }
    Asking::Quiet
}

/// What comes of the calls of the activity that is asked. Want of memory also comes where it has no luck.
pub(crate) fn meet<L: Luck>(
    lucks: &mut Lucks<L>,
    setup: &Setup,
    asking: Asking,
) -> Result<Met, NoMemory>
    ensures met { IfOk result (λ met. met ≡ given_by setup.now (tolds L.told lucks.old) (asks_of asking)) }
    ensures told { OnOk result (tolds L.told lucks.new
        ≡ lucks_of.called setup.now (asks_of asking) (tolds L.told lucks.old)) }
{
    match asking {
        Asking::Quiet => Ok(Met::Row),
        Asking::Commits(who) => commit_of(lucks, setup, who),
        Asking::Delivers(who) => delivery_of(lucks, setup, who),
    }
}

fn commit_of<L: Luck>(lucks: &mut Lucks<L>, setup: &Setup, who: Who) -> Result<Met, NoMemory>
    ensures met { IfOk result (λ met. met ≡ given_by setup.now (tolds L.told lucks.old) (luck.commits who)) }
    ensures told { OnOk result (tolds L.told lucks.new
        ≡ lucks_of.called setup.now (luck.commits who) (tolds L.told lucks.old)) }
{
    match who {
        Who::Coordinator => Ok(met_by(lucks.coordinator.commit())),
        Who::Link { recipient, donor } => {
            commit_at(&mut lucks.links, link_place(setup, recipient, donor)?)
        }
        Who::Lane {
            recipient,
            donor,
            lane,
        } => { commit_at(&mut lucks.lanes, lane_place(setup, recipient, donor, lane)?) }
    }
}

fn delivery_of<L: Luck>(lucks: &mut Lucks<L>, setup: &Setup, who: Who) -> Result<Met, NoMemory>
    ensures met { IfOk result (λ met. met ≡ given_by setup.now (tolds L.told lucks.old) (luck.delivers who)) }
    ensures told { OnOk result (tolds L.told lucks.new
        ≡ lucks_of.called setup.now (luck.delivers who) (tolds L.told lucks.old)) }
{
    match who {
        Who::Coordinator => Ok(met_by_tries(delivered(&mut lucks.coordinator))),
        Who::Link { recipient, donor } => {
            deliver_at(&mut lucks.links, link_place(setup, recipient, donor)?)
        }
        Who::Lane {
            recipient,
            donor,
            lane,
        } => { deliver_at(&mut lucks.lanes, lane_place(setup, recipient, donor, lane)?) }
    }
}

fn commit_at<L: Luck>(lucks: &mut Cells<L>, place: u32) -> Result<Met, NoMemory>
    ensures met { IfOk result (λ met. met
        ≡ met_of (next_fate (slice_index_or (map L.told lucks.old) place (no_calls [])))) }
    ensures told { OnOk result (map L.told lucks.new ≡ slice_set (map L.told lucks.old) place
        (after_commit (slice_index_or (map L.told lucks.old) place (no_calls [])))) }
{
    match lucks.get_mut(place) {
        Some(luck) => Ok(met_by(luck.commit())),
        None => Err(NoMemory),
    }
}

fn deliver_at<L: Luck>(lucks: &mut Cells<L>, place: u32) -> Result<Met, NoMemory>
    ensures met { IfOk result (λ met. met
        ≡ tried (loses limit (slice_index_or (map L.told lucks.old) place (no_calls [])))) }
    ensures told { OnOk result (map L.told lucks.new ≡ slice_set (map L.told lucks.old) place
        (after_tries limit (slice_index_or (map L.told lucks.old) place (no_calls [])))) }
{
    match lucks.get_mut(place) {
        Some(luck) => Ok(met_by_tries(delivered(luck))),
        None => Err(NoMemory),
    }
}

fn link_place(setup: &Setup, recipient: ShardId, donor: ShardId) -> Result<u32, NoMemory>
    ensures { IfOk result (λ place. place ≡ lucks_of.link_place setup.now recipient donor) }
{
    let place = recipient.0 as u128 * setup.shards.len() as u128 + donor.0 as u128;
    match u32::try_from(place) {
        Ok(place) => Ok(place),
        Err(_) => Err(NoMemory),
    }
}

fn lane_place(setup: &Setup, recipient: ShardId, donor: ShardId, lane: u32) -> Result<u32, NoMemory>
    ensures { IfOk result (λ place. place ≡ lucks_of.lane_place setup.now recipient donor lane) }
{
    let link = link_place(setup, recipient, donor)?;
    let place = link as u64 * setup.lanes as u64 + lane as u64;
    match u32::try_from(place) {
        Ok(place) => Ok(place),
        Err(_) => Err(NoMemory),
    }
}

fn met_by(fate: Fate) -> Met
    ensures { result ≡ met_of fate }
{
    match fate {
        Fate::Kept => Met::Row,
        Fate::CrashedBefore => Met::CrashedBefore,
        Fate::CrashedAfter => Met::CrashedAfter,
        Fate::Failed => Met::Failed,
    }
}

fn met_by_tries(came: bool) -> Met
    ensures { result ≡ tried (not came) }
{
    if came { Met::Row } else { Met::Lost }
}
