//! A failure is heard.

ghost use Rattle.std.specs.Prelude.{◌≡◌, IfOk, OnOk};
ghost use Rattle.resh_fetcher.specs.Links.{failed};
ghost use Rattle.resh_cells.specs.Cells.{no_link, with_link};
ghost use Rattle.resh_events.specs.rows.Fail as table;
ghost use Rattle.resh_telling.specs.Rows.{at_place, in_row};

use resh_cells::{Cells, Cluster, LinkCell};
use resh_coord::Cause;
use resh_setup::Seen;
use resh_value::{NoMemory, ShardId};
use std::alloc::Global;

/// Whether a failure may be heard: of a node, or want of memory of a link.
pub fn may_fail(link: Option<(ShardId, ShardId)>, cause: &Cause) -> bool
    ensures { result ≡ table.may link cause.now }
{
    match cause {
        Cause::Failed { .. } => true,
        Cause::NoMemory => link.is_some(),
        Cause::Clash { .. } | Cause::Asked { .. } => false,
    }
}

/// The link, if there is one, is closed for its own events, and the coordinator aborts where nothing is decided. Want of
/// memory also comes where the link isn't there.
pub fn fail(
    cluster: &mut Cluster,
    alloc: Global,
    link: Option<(ShardId, ShardId)>,
    cause: &Cause,
) -> Result<Seen, NoMemory>
    ensures ok { OnOk result (cluster.new ≡ table.change cluster.old link cause.now) }
    ensures seen { IfOk result (λ seen. seen ≡ table.seen cluster.old link cause.now) }
{
    let seen = seen_of(cluster, link, cause);
    fail_link(cluster, link)?;
    cluster.control.fail(cause.copy(alloc)?);
    Ok(seen)
}

fn fail_link(cluster: &mut Cluster, link: Option<(ShardId, ShardId)>) -> Result<(), NoMemory>
    ensures { OnOk result (cluster.new ≡ table.with_failed link cluster.old) }
{
    match link {
        None => Ok(()),
        Some((recipient, donor)) => fail_in(&mut cluster.links, recipient.0, donor.0),
    }
}

#[tactic(auto, using(crate::proofs::Changing::or_item))]
fn fail_in(links: &mut Cells<Cells<LinkCell>>, recipient: u32, donor: u32) -> Result<(), NoMemory>
    ensures { OnOk result (links.new ≡ in_row recipient donor (with_link failed) no_link links.old) }
{
    match links.get_mut(recipient) {
        Some(row) => fail_at(row, donor),
        None => Err(NoMemory),
    }
}

#[tactic(auto, using(crate::proofs::Changing::or_item))]
fn fail_at(row: &mut Cells<LinkCell>, donor: u32) -> Result<(), NoMemory>
    ensures { OnOk result (row.new ≡ at_place donor (with_link failed) no_link row.old) }
{
    match row.get_mut(donor) {
        Some(cell) => {
            cell.link.fail();
            Ok(())
        }
        None => Err(NoMemory),
    }
}

fn seen_of(cluster: &Cluster, link: Option<(ShardId, ShardId)>, cause: &Cause) -> Seen
    ensures { result ≡ table.seen cluster.now link cause.now }
{
    let late = cluster.control.decision().is_some();
    match cause {
        Cause::Failed { node, cause } => Seen::Fails {
            node: *node,
            cause: *cause,
            late,
        },
        Cause::NoMemory => match link {
            None => Seen::Idle,
            Some((recipient, _)) => Seen::FailsForMemory { recipient, late },
        },
        Cause::Clash { .. } | Cause::Asked { .. } => Seen::Idle,
    }
}
