//! A recipient reports that its clone is kept, that it is near, or that it is consistent.

ghost use Rattle.std.specs.Prelude.{◌≡◌, true, IfOk, OnOk};
ghost use Rattle.std.specs.List.{list_all};
ghost use Rattle.std.specs.Option.{option_copied};
ghost use Rattle.resh_coord.specs.Control.{may_report};
ghost use Rattle.resh_fetcher.specs.Links.{is_cloned};
ghost use Rattle.resh_recip.specs.States as recipient;
ghost use Rattle.resh_rules.specs.Pools.{lesser};
ghost use Rattle.resh_events.specs.rows.Report as table;

use crate::rows::row_of;
use resh_cells::{Cluster, LaneCell, LinkCell, ShardCell};
use resh_coord::Phase;
use resh_recip::RecipientPhase;
use resh_setup::Seen;
use resh_value::{NoMemory, ShardId, Value, compare};
use std::alloc::Global;

/// Whether a recipient may report: it hasn't in this phase, and its links have what the phase asks of them.
pub fn may_report(cluster: &Cluster, recipient: ShardId) -> bool
    ensures { result ≡ table.may cluster.now recipient.0 }
{
    cluster.control.may_report(recipient)
        && are_ready(cluster.control.phase(), row_of(&cluster.links, recipient.0))
}

/// A recipient reports; once writes are blocked, also the least `_id` that waits in a stash of its lanes. Want of memory
/// also comes where the coordinator takes no report of it, or the recipient's machine may not move.
pub fn report(cluster: &mut Cluster, alloc: Global, recipient: ShardId) -> Result<Seen, NoMemory>
    ensures ok { OnOk result (cluster.new ≡ table.change cluster.old recipient.0) }
    ensures seen { IfOk result (λ seen. seen ≡ table.seen cluster.old recipient.0) }
{
    if !cluster.control.may_report(recipient) {
        return Err(NoMemory);
    }
    match cluster.control.phase() {
        Phase::Cloning => report_cloned(cluster, recipient),
        Phase::Applying => report_near(cluster, recipient),
        Phase::BlockingWrites => report_consistent(cluster, alloc, recipient),
        _ => Err(NoMemory),
    }
}

fn are_ready(phase: Phase, links: &[LinkCell]) -> bool
    ensures { result ≡ table.are_ready phase links.now }
{
    match phase {
        Phase::Cloning => are_cloned(links),
        Phase::Applying => are_near(links),
        Phase::BlockingWrites => are_finished(links),
        _ => false,
    }
}

/// Whether the clone part of each link is kept.
fn are_cloned(links: &[LinkCell]) -> bool
    ensures { result ≡ list_all (λ cell. is_cloned cell.link) links.now }
{
    links.iter().all(|cell| cell.link.cloned())
}

fn are_near(links: &[LinkCell]) -> bool
    ensures { result ≡ list_all (λ cell. cell.link.near) links.now }
{
    links.iter().all(|cell| cell.link.near())
}

/// Whether the final entry of each link is kept.
fn are_finished(links: &[LinkCell]) -> bool
    ensures { result ≡ list_all (λ cell. cell.link.kept.finished) links.now }
{
    links.iter().all(|cell| cell.link.finished())
}

#[tactic(auto, using(crate::proofs::Changing::or_item))]
fn report_cloned(cluster: &mut Cluster, recipient: ShardId) -> Result<Seen, NoMemory>
    requires phase { cluster.old.control.phase ≡ Phase.Cloning }
    requires may { may_report cluster.old.control recipient.0 ≡ true }
    ensures ok { OnOk result (cluster.new ≡ table.change cluster.old recipient.0) }
    ensures seen { IfOk result (λ seen. seen ≡ table.seen cluster.old recipient.0) }
{
    cluster.control.reported(recipient, None);
    match cluster.shards.get_mut(recipient.0) {
        Some(cell) => {
            clone_made(cell)?;
            Ok(Seen::Cloned)
        }
        None => Err(NoMemory),
    }
}

fn report_near(cluster: &mut Cluster, recipient: ShardId) -> Result<Seen, NoMemory>
    requires phase { cluster.old.control.phase ≡ Phase.Applying }
    requires may { may_report cluster.old.control recipient.0 ≡ true }
    ensures ok { OnOk result (cluster.new ≡ table.change cluster.old recipient.0) }
    ensures seen { IfOk result (λ seen. seen ≡ table.seen cluster.old recipient.0) }
{
    cluster.control.reported(recipient, None);
    Ok(Seen::Near)
}

#[tactic(auto, using(crate::proofs::Changing::or_item))]
fn report_consistent(
    cluster: &mut Cluster,
    alloc: Global,
    recipient: ShardId,
) -> Result<Seen, NoMemory>
    requires phase { cluster.old.control.phase ≡ Phase.BlockingWrites }
    requires may { may_report cluster.old.control recipient.0 ≡ true }
    ensures ok { OnOk result (cluster.new ≡ table.change cluster.old recipient.0) }
    ensures seen { IfOk result (λ seen. seen ≡ table.seen cluster.old recipient.0) }
{
    let clash = copied(first_waiting(row_of(&cluster.lanes, recipient.0)), alloc)?;
    let seen = seen_of(&clash, alloc)?;
    cluster.control.reported(recipient, clash);
    match cluster.shards.get_mut(recipient.0) {
        Some(cell) => {
            all_applied(cell)?;
            Ok(seen)
        }
        None => Err(NoMemory),
    }
}

/// The recipient's clone is made, where its machine may take it.
fn clone_made(cell: &mut ShardCell) -> Result<(), NoMemory>
    ensures { OnOk result (cell.new ≡ record cell.old { recipient = recipient.cloned cell.old.recipient }) }
{
    match cell.recipient.phase() {
        RecipientPhase::AwaitingFetchTime => Err(NoMemory),
        _ => {
            cell.recipient.cloned();
            Ok(())
        }
    }
}

/// All that the donors logged is applied, where the recipient's machine may take it.
fn all_applied(cell: &mut ShardCell) -> Result<(), NoMemory>
    ensures { OnOk result (cell.new ≡ record cell.old { recipient = recipient.consistent cell.old.recipient }) }
{
    match cell.recipient.phase() {
        RecipientPhase::AwaitingFetchTime | RecipientPhase::Cloning => Err(NoMemory),
        _ => {
            cell.recipient.consistent();
            Ok(())
        }
    }
}

fn seen_of(clash: &Option<Value>, alloc: Global) -> Result<Seen, NoMemory>
    ensures { IfOk result (λ seen. seen ≡ table.consistent_seen clash.now) }
{
    match clash {
        None => Ok(Seen::Consistent),
        Some(id) => Ok(Seen::Clash {
            id: id.copy(alloc)?,
        }),
    }
}

fn copied(id: Option<&Value>, alloc: Global) -> Result<Option<Value>, NoMemory>
    ensures { IfOk result (λ copy. copy ≡ option_copied id.entry) }
{
    match id {
        None => Ok(None),
        Some(id) => Ok(Some(id.copy(alloc)?)),
    }
}

/// The least `_id` that waits in a stash of some lanes.
fn first_waiting(lanes: &[LaneCell]) -> Option<&Value>
    ensures { option_copied result ≡ table.first_waiting lanes.now }
{
    match lanes {
        [first, rest @ ..] => lesser(first.lane.pool().first_stashed(), first_waiting(rest)),
        [] => None,
    }
}

/// The lesser of two `_id`s, where there are any.
fn lesser<'a>(first: Option<&'a Value>, second: Option<&'a Value>) -> Option<&'a Value>
    ensures { option_copied result ≡ lesser (option_copied first.entry) (option_copied second.entry) }
{
    let Some(a) = first else {
        return second;
    };
    match second {
        Some(b) if compare(a, b).is_gt() => second,
        _ => first,
    }
}
