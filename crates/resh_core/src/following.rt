//! What follows an event by what it met.

ghost use Rattle.std.specs.Prelude.{◌≡◌, true};
ghost use Rattle.std.specs.Option.{option_map};
ghost use Rattle.resh_cells.specs.Cells.{link_in};
ghost use Rattle.resh_events.specs.Follows as table;
ghost use Rattle.resh_events.specs.Luck as luck;
ghost use Rattle.resh_core.specs.Making.{asks_of, is_counted};

use crate::meeting::Asking;
use resh_cells::Cluster;
use resh_coord::{Cause, Node, Why};
use resh_copying::may_crash;
use resh_setup::{Event, Met, Who};
use resh_value::ShardId;

/// This many crashes of a link or of the coordinator are a failure.
const LIMIT: u32 = 64;

/// The event that follows; the number of the coordinator's crashes is given where one was counted.
pub(crate) fn follows(
    cluster: &Cluster,
    event: &Event,
    asking: Asking,
    met: Met,
    crashes: u32,
) -> Option<Event>
    requires { is_counted (asks_of asking) met ≡ true → crashes ≡ cluster.now.control.crashes }
    ensures { result ≡ table.follows cluster.now event.now (asks_of asking) met }
{
    match met {
        Met::Row => after_row(cluster, event),
        Met::CrashedBefore => after_fate(cluster, asking, crashes),
        Met::CrashedAfter => after_fate(cluster, asking, crashes),
        Met::Failed => after_failing(asking),
        Met::Lost => after_losses(asking),
        Met::NoMemory => after_want(event),
        Met::NoMemoryInMove => None,
    }
}

fn after_row(cluster: &Cluster, event: &Event) -> Option<Event>
    ensures { result ≡ table.after_row cluster.now event.now }
{
    match event {
        Event::Crash { recipient, donor } => {
            let who = Who::Link {
                recipient: *recipient,
                donor: *donor,
            };
            let last = link_crashes(cluster, *recipient, *donor) == LIMIT;
            only_if(last, failure(who, Why::Crashes))
        }
        _ => None,
    }
}

#[tactic(auto, using(resh_cells::proofs::Places::or_default, resh_cells::proofs::Places::or_item))]
fn link_crashes(cluster: &Cluster, r: ShardId, d: ShardId) -> u32
    ensures { result ≡ (link_in cluster.now r.0 d.0).link.crashes }
{
    match cluster.links.get(r.0) {
        Some(links) => match links.get(d.0) {
            Some(cell) => cell.link.crashes(),
            None => 0,
        },
        None => 0,
    }
}

fn after_fate(cluster: &Cluster, asking: Asking, crashes: u32) -> Option<Event>
    requires { is_counted (asks_of asking) Met.CrashedBefore ≡ true → crashes ≡ cluster.now.control.crashes }
    ensures { result ≡ table.after_fate cluster.now (asks_of asking) }
{
    match asking {
        Asking::Commits(who) => after_crash(cluster, who, crashes),
        _ => None,
    }
}

fn after_crash(cluster: &Cluster, who: Who, crashes: u32) -> Option<Event>
    requires { is_counted (luck.commits who) Met.CrashedBefore ≡ true → crashes ≡ cluster.now.control.crashes }
    ensures { result ≡ table.after_crash cluster.now who }
{
    match who {
        Who::Coordinator => only_if(crashes == LIMIT, failure(who, Why::Crashes)),
        Who::Link { recipient, donor } => crash_of(cluster, recipient, donor),
        Who::Lane {
            recipient,
            donor,
            ..
        } => crash_of(cluster, recipient, donor),
    }
}

fn crash_of(cluster: &Cluster, recipient: ShardId, donor: ShardId) -> Option<Event>
    ensures { let cell = link_in cluster.now recipient.0 donor.0 in
        result ≡ table.only_if cell.link.is_open (Event.Crash recipient donor) }
{
    only_if(
        may_crash(cluster, recipient, donor),
        Event::Crash { recipient, donor },
    )
}

fn after_failing(asking: Asking) -> Option<Event>
    ensures { result ≡ table.after_failing (asks_of asking) }
{
    match asking {
        Asking::Commits(who) => Some(failure(who, Why::Commit)),
        _ => None,
    }
}

fn after_losses(asking: Asking) -> Option<Event>
    ensures { result ≡ table.after_losses (asks_of asking) }
{
    match asking {
        Asking::Delivers(who) => Some(failure(who, Why::Link)),
        _ => None,
    }
}

/// A link's want of memory fails it.
fn after_want(event: &Event) -> Option<Event>
    ensures { result ≡ option_map table.wanted (table.own_link event.now) }
{
    match own_link(event) {
        Some(link) => Some(Event::Fail {
            link: Some(link),
            cause: Cause::NoMemory,
        }),
        None => None,
    }
}

fn own_link(event: &Event) -> Option<(ShardId, ShardId)>
    ensures { result ≡ table.own_link event.now }
{
    match event {
        Event::Clone { recipient, donor }
        | Event::Fetch { recipient, donor }
        | Event::Cut { recipient, donor }
        | Event::Apply {
            recipient,
            donor,
            ..
        }
        | Event::Again {
            recipient,
            donor,
            ..
        }
        | Event::Record { recipient, donor } => Some((*recipient, *donor)),
        _ => None,
    }
}

fn only_if(test: bool, event: Event) -> Option<Event>
    ensures { result ≡ table.only_if test event }
{
    if test { Some(event) } else { None }
}

fn failure(who: Who, why: Why) -> Event
    ensures { result ≡ table.failure who why }
{
    Event::Fail {
        link: link_of(who),
        cause: Cause::Failed {
            node: node_of(who),
            cause: why,
        },
    }
}

fn link_of(who: Who) -> Option<(ShardId, ShardId)>
    ensures { result ≡ table.link_of who }
{
    match who {
        Who::Coordinator => None,
        Who::Link { recipient, donor } => Some((recipient, donor)),
        Who::Lane {
            recipient,
            donor,
            ..
        } => Some((recipient, donor)),
    }
}

fn node_of(who: Who) -> Node
    ensures { result ≡ table.node_of who }
{
    match who {
        Who::Coordinator => Node::Coordinator,
        Who::Link { recipient, .. } => Node::Shard(recipient),
        Who::Lane { recipient, .. } => Node::Shard(recipient),
    }
}
