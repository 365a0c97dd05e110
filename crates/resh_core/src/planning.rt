//! The lucks that a plan says.

ghost use Rattle.std.specs.Prelude.{◌≡◌, ◌++◌, IfOk, OnOk};
ghost use Rattle.resh_luck.specs.Fates.{no_calls};
ghost use Rattle.resh_model.specs.Licence as licence;
ghost use Rattle.resh_events.specs.Lucks as events;
ghost use Rattle.resh_core.specs.Cores.{tolds};
ghost use Rattle.resh_core.specs.Planning.{lane_list, lane_row, lane_rows, link_row, link_rows, tolds_in};

use crate::lists::shard_count;
use crate::lucks::Lucks;
use resh_cells::Cells;
use resh_luck::{Luck, PlanRow, PlannedLuck};
use resh_setup::{Setup, Who};
use resh_value::{NoMemory, ShardId};
use std::alloc::Global;

/// Each activity's luck: the rows of the plan that name it, in the plan's order, and no call made.
#[tactic(auto, using(crate::proofs::PlanLaws::planned_by))]
pub fn planned(alloc: Global, setup: &Setup) -> Result<Lucks<PlannedLuck>, NoMemory>
    ensures { IfOk result (λ lucks. tolds ⟦<PlannedLuck as Luck>⟧.told lucks ≡ events.planned setup.now) }
{
    let shards = shard_count(setup)?;
    let coordinator = luck_of(alloc, setup, Who::Coordinator)?;
    let links = link_lucks(alloc, setup, shards)?;
    let lanes = lane_lucks(alloc, setup, shards)?;
    Ok(Lucks {
        coordinator,
        links: Cells::of(links),
        lanes: Cells::of(lanes),
    })
}

fn link_lucks(alloc: Global, setup: &Setup, shards: u32) -> Result<Vec<PlannedLuck>, NoMemory>
    ensures { IfOk result (λ lucks. tolds_in lucks.items ≡ link_rows setup.now shards shards) }
{
    let mut lucks = Vec::new(alloc);
    for recipient in 0..shards {
        add_links(&mut lucks, alloc, setup, recipient, shards)?;
    }
    Ok(lucks)
}

fn add_links(
    lucks: &mut Vec<PlannedLuck>,
    alloc: Global,
    setup: &Setup,
    recipient: u32,
    shards: u32,
) -> Result<(), NoMemory>
    ensures { OnOk result (tolds_in lucks.new.items ≡ tolds_in lucks.old.items ++ link_row setup.now recipient shards) }
{
    for donor in 0..shards {
        let who = Who::Link {
            recipient: ShardId(recipient),
            donor: ShardId(donor),
        };
        lucks.push(luck_of(alloc, setup, who)?)?;
    }
    Ok(())
}

fn lane_lucks(alloc: Global, setup: &Setup, shards: u32) -> Result<Vec<PlannedLuck>, NoMemory>
    ensures { IfOk result (λ lucks. tolds_in lucks.items ≡ lane_rows setup.now shards shards) }
{
    let mut lucks = Vec::new(alloc);
    for recipient in 0..shards {
        add_lane_rows(&mut lucks, alloc, setup, recipient, shards)?;
    }
    Ok(lucks)
}

fn add_lane_rows(
    lucks: &mut Vec<PlannedLuck>,
    alloc: Global,
    setup: &Setup,
    recipient: u32,
    shards: u32,
) -> Result<(), NoMemory>
    ensures { OnOk result (tolds_in lucks.new.items ≡ tolds_in lucks.old.items ++ lane_row setup.now recipient shards) }
{
    for donor in 0..shards {
        add_lanes(lucks, alloc, setup, ShardId(recipient), ShardId(donor))?;
    }
    Ok(())
}

fn add_lanes(
    lucks: &mut Vec<PlannedLuck>,
    alloc: Global,
    setup: &Setup,
    recipient: ShardId,
    donor: ShardId,
) -> Result<(), NoMemory>
    ensures { OnOk result (tolds_in lucks.new.items
        ≡ tolds_in lucks.old.items ++ lane_list setup.now recipient donor setup.now.lanes) }
{
    for lane in 0..setup.lanes {
        let who = Who::Lane {
            recipient,
            donor,
            lane,
        };
        lucks.push(luck_of(alloc, setup, who)?)?;
    }
    Ok(())
}

fn luck_of(alloc: Global, setup: &Setup, who: Who) -> Result<PlannedLuck, NoMemory>
    ensures { IfOk result (λ luck. ⟦<PlannedLuck as Luck>⟧.told luck ≡ no_calls (events.rows_of setup.now who)) }
{
    let rows = rows_of(alloc, setup, who)?;
    Ok(PlannedLuck::new(rows))
}

fn rows_of(alloc: Global, setup: &Setup, who: Who) -> Result<Vec<PlanRow>, NoMemory>
    ensures { IfOk result (λ rows. rows.items ≡ events.rows_of setup.now who) }
{
    let rows = setup
        .plan
        .as_slice()
        .iter()
        .filter(|planned| is_same(planned.who, who))
        .map(|planned| planned.row)
        .collect(alloc)?;
    Ok(rows)
}

fn is_same(one: Who, other: Who) -> bool
    ensures { result ≡ licence.same_who one other }
{
    match one {
        Who::Coordinator => matches!(other, Who::Coordinator),
        Who::Link { recipient, donor } => is_link(other, recipient, donor),
        Who::Lane {
            recipient,
            donor,
            lane,
        } => is_lane(other, recipient, donor, lane),
    }
}

fn is_link(who: Who, r: ShardId, d: ShardId) -> bool
    ensures { result ≡ licence.same_who (Who.Link r d) who }
{
    match who {
        Who::Link { recipient, donor } => r.0 == recipient.0 && d.0 == donor.0,
        _ => false,
    }
}

fn is_lane(who: Who, r: ShardId, d: ShardId, l: u32) -> bool
    ensures { result ≡ licence.same_who (Who.Lane r d l) who }
{
    match who {
        Who::Lane {
            recipient,
            donor,
            lane,
        } => r.0 == recipient.0 && d.0 == donor.0 && l == lane,
        _ => false,
    }
}
