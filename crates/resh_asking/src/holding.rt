//! The cells that a client's command holds, and its stamp.

ghost use Rattle.std.specs.Prelude.{◌≡◌, [], ◌∷◌, ◌++◌, filter, length, map, IfOk, OnOk};
ghost use Rattle.resh_bag.specs.Parts.{is_among};
ghost use Rattle.resh_cells.specs.declared.cell.Cell.TheVariants as named;
ghost use Rattle.resh_events.specs.Targets.{shard_cells};
ghost use Rattle.resh_asking.specs.Turns.{IsHeld};

use crate::asked::Held;
use resh_cells::{Cell, Cluster, stamp_of};
use resh_setup::Setup;
use resh_value::NoMemory;
use std::alloc::Global;

/// The cells of some shards, each once and by rising number, and the client's.
pub(crate) fn hold_shards(
    cluster: &Cluster,
    alloc: Global,
    setup: &Setup,
    client: u32,
    shards: &[u32],
) -> Result<Held, NoMemory>
    ensures { IfOk result (IsHeld setup.now cluster.now
        (shard_cells setup.now shards.now ++ named.Client client ∷ [])) }
{
    let mut cells = shard_cells(alloc, setup, shards)?;
    cells.push(Cell::Client { client })?;
    hold(cluster, setup, cells)
}

/// The coordinator and the client.
pub(crate) fn hold_coordinator(
    cluster: &Cluster,
    alloc: Global,
    setup: &Setup,
    client: u32,
) -> Result<Held, NoMemory>
    ensures { IfOk result (IsHeld setup.now cluster.now (named.Coordinator ∷ named.Client client ∷ [])) }
{
    let mut cells = Vec::new(alloc);
    cells.push(Cell::Coordinator)?;
    cells.push(Cell::Client { client })?;
    hold(cluster, setup, cells)
}

fn hold(cluster: &Cluster, setup: &Setup, cells: Vec<Cell>) -> Result<Held, NoMemory>
    ensures { IfOk result (IsHeld setup.now cluster.now cells.items) }
{
    let stamp = stamp_of(setup, &cluster.clocks, cells.as_slice(), 0, 0)?;
    Ok(Held { cells, stamp })
}

fn shard_cells(alloc: Global, setup: &Setup, shards: &[u32]) -> Result<Vec<Cell>, NoMemory>
    ensures { IfOk result (λ cells. cells.items ≡ shard_cells setup.now shards.now) }
{
    let count = shard_count(setup)?;
    let mut cells = Vec::new(alloc);
    for shard in 0..count {
        add_among(&mut cells, shards, shard)?;
    }
    Ok(cells)
}

/// Adds a shard's cell, where it is one of the shards.
fn add_among(cells: &mut Vec<Cell>, shards: &[u32], shard: u32) -> Result<(), NoMemory>
    ensures { OnOk result (cells.new.items
        ≡ cells.old.items ++ map named.Shard (filter (is_among shards.now) (shard ∷ []))) }
{
    if is_among(shards, shard) {
        cells.push(Cell::Shard { shard })?;
        return Ok(());
    }
    Ok(())
}

fn is_among(shards: &[u32], shard: u32) -> bool
    ensures { result ≡ is_among shards.now shard }
{
    shards.iter().any(|one| *one == shard)
}

fn shard_count(setup: &Setup) -> Result<u32, NoMemory>
    ensures { IfOk result (λ count. count ≡ length setup.now.shards) }
{
    match u32::try_from(setup.shards.len()) {
        Ok(count) => Ok(count),
        Err(_) => Err(NoMemory),
    }
}
