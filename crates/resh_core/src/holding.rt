//! The cells that an event holds, but for a client's.

ghost use Rattle.std.specs.Prelude.{◌≡◌, ◌∷◌, ◌++◌, [], false, IfOk, OnOk};
ghost use Rattle.resh_cells.specs.Clocks.{lane_cells, link_cells};
ghost use Rattle.resh_cells.specs.declared.cell.Cell.TheVariants as named;
ghost use Rattle.resh_events.specs.rows.Fail as failing;
ghost use Rattle.resh_events.specs.Table as table;
ghost use Rattle.resh_core.specs.Making.{is_client};

use crate::lists::shard_count;
use resh_cells::{Cell, Cluster};
use resh_setup::{Event, Setup};
use resh_value::{NoMemory, ShardId};
use std::alloc::Global;

/// The cells that an event holds, each once and by rising number.
#[tactic(auto, unfolding(resh_events::specs::Table::holds))]
pub(crate) fn holds(
    cluster: &Cluster,
    alloc: Global,
    setup: &Setup,
    event: &Event,
) -> Result<Vec<Cell>, NoMemory>
    requires { is_client event.now ≡ false }
    ensures { IfOk result (λ cells. cells.items ≡ table.holds setup.now cluster.now event.now) }
{
    let _cluster = cluster;
    match event {
        Event::Client { .. } => Err(NoMemory),
        Event::Begin => one(alloc, Cell::Coordinator),
        Event::Advance => one(alloc, Cell::Coordinator),
        Event::Tell { shard } => all_of(alloc, setup, *shard),
        Event::Report { recipient } => all_of(alloc, setup, *recipient),
        Event::Retell { shard, .. } => two(alloc, Cell::Coordinator, shard_cell(*shard)),
        Event::Clone { recipient, donor } => {
            two(alloc, shard_cell(*donor), link_cell(*recipient, *donor))
        }
        Event::Fetch { recipient, donor } => {
            two(alloc, shard_cell(*donor), link_cell(*recipient, *donor))
        }
        Event::Cut { recipient, donor } => one(alloc, link_cell(*recipient, *donor)),
        Event::Apply {
            recipient,
            lane,
            ..
        } => one(alloc, lane_cell(*recipient, *lane)),
        Event::Again {
            recipient,
            lane,
            ..
        } => one(alloc, lane_cell(*recipient, *lane)),
        Event::Record { recipient, donor } => lanes_and_link(alloc, setup, *recipient, *donor),
        Event::Crash { recipient, donor } => lanes_and_link(alloc, setup, *recipient, *donor),
        Event::Fail { link, .. } => of_failure(alloc, *link),
    }
}

fn of_failure(alloc: Global, link: Option<(ShardId, ShardId)>) -> Result<Vec<Cell>, NoMemory>
    ensures { IfOk result (λ cells. cells.items ≡ failing.holds link) }
{
    match link {
        None => one(alloc, Cell::Coordinator),
        Some((recipient, donor)) => two(alloc, Cell::Coordinator, link_cell(recipient, donor)),
    }
}

fn one(alloc: Global, cell: Cell) -> Result<Vec<Cell>, NoMemory>
    ensures { IfOk result (λ cells. cells.items ≡ cell ∷ []) }
{
    let mut cells = Vec::new(alloc);
    cells.push(cell)?;
    Ok(cells)
}

fn two(alloc: Global, first: Cell, second: Cell) -> Result<Vec<Cell>, NoMemory>
    ensures { IfOk result (λ cells. cells.items ≡ first ∷ second ∷ []) }
{
    let mut cells = one(alloc, first)?;
    cells.push(second)?;
    Ok(cells)
}

/// The coordinator, the shard, and all lanes and links whose recipient it is.
fn all_of(alloc: Global, setup: &Setup, shard: ShardId) -> Result<Vec<Cell>, NoMemory>
    ensures { IfOk result (λ cells. cells.items
        ≡ named.Coordinator ∷ named.Shard shard.0 ∷ lane_cells setup.now shard.0 ++ link_cells setup.now shard.0) }
{
    let mut cells = two(alloc, Cell::Coordinator, shard_cell(shard))?;
    add_lanes(&mut cells, setup, shard)?;
    add_links(&mut cells, setup, shard)?;
    Ok(cells)
}

fn lanes_and_link(
    alloc: Global,
    setup: &Setup,
    recipient: ShardId,
    donor: ShardId,
) -> Result<Vec<Cell>, NoMemory>
    ensures { IfOk result (λ cells. cells.items
        ≡ lane_cells setup.now recipient.0 ++ named.Link recipient.0 donor.0 ∷ []) }
{
    let mut cells = Vec::new(alloc);
    add_lanes(&mut cells, setup, recipient)?;
    cells.push(link_cell(recipient, donor))?;
    Ok(cells)
}

fn add_lanes(cells: &mut Vec<Cell>, setup: &Setup, recipient: ShardId) -> Result<(), NoMemory>
    ensures { OnOk result (cells.new.items ≡ cells.old.items ++ lane_cells setup.now recipient.0) }
{
    for lane in 0..setup.lanes {
        cells.push(lane_cell(recipient, lane))?;
    }
    Ok(())
}

fn add_links(cells: &mut Vec<Cell>, setup: &Setup, recipient: ShardId) -> Result<(), NoMemory>
    ensures { OnOk result (cells.new.items ≡ cells.old.items ++ link_cells setup.now recipient.0) }
{
    for donor in 0..shard_count(setup)? {
        cells.push(link_cell(recipient, ShardId(donor)))?;
    }
    Ok(())
}

fn shard_cell(shard: ShardId) -> Cell
    ensures { result ≡ named.Shard shard.0 }
{
    Cell::Shard { shard: shard.0 }
}

fn lane_cell(recipient: ShardId, lane: u32) -> Cell
    ensures { result ≡ named.Lane recipient.0 lane }
{
    Cell::Lane {
        recipient: recipient.0,
        lane,
    }
}

fn link_cell(recipient: ShardId, donor: ShardId) -> Cell
    ensures { result ≡ named.Link recipient.0 donor.0 }
{
    Cell::Link {
        recipient: recipient.0,
        donor: donor.0,
    }
}
