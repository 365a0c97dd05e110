//! The stamp of an event, by the clocks of the cells that it holds.

ghost use Rattle.std.specs.Prelude.{◌≡◌, ◌<◌, [], ◌∷◌, map, slice_index_or, slice_set, IfOk};
ghost use Rattle.std.specs.List.{fold};
ghost use Rattle.resh_stamp.specs.Times.{end_of_time, latest, next_time};
ghost use Rattle.resh_cells.specs.Cells.{set_in};
ghost use Rattle.resh_cells.specs.Clocks.{clock_of, first_number, number_of, with_clock};

use crate::cell::Cell;
use crate::cells::Cells;
use crate::cluster::Clocks;
use resh_setup::Setup;
use resh_stamp::{END_OF_TIME, Stamp};
use resh_value::NoMemory;

/// The stamp of an event that holds these cells, follows another one's time and is given a piece of a time, each 0 where
/// there is none: one more than the latest of these times and of the cells' clocks, and the number of the first cell.
/// Want of memory comes too where no time is left.
pub fn stamp_of(
    setup: &Setup,
    clocks: &Clocks,
    cells: &[Cell],
    followed: u64,
    piece: u64,
) -> Result<Stamp, NoMemory>
    ensures time { IfOk result (λ stamp. stamp.time
        ≡ next_time followed (piece ∷ map (clock_of clocks.now) cells.now)) }
    ensures node { IfOk result (λ stamp. stamp.node ≡ first_number setup.now cells.now) }
    ensures in_time { IfOk result (λ stamp. stamp.time < end_of_time) }
{
    let latest = latest_of(clocks, followed.max(piece), cells);
    if latest >= END_OF_TIME - 1 {
        return Err(NoMemory);
    }
    let node = match cells {
        [first, ..] => number_of(setup, *first)?,
        [] => 0,
    };
    Ok(Stamp {
        time: latest + 1,
        node,
    })
}

/// Sets the clocks of these cells.
pub fn set_clocks(clocks: &mut Clocks, time: u64, cells: &[Cell])
    ensures { clocks.new ≡ fold (with_clock time) clocks.old cells.now }
{
    match cells {
        [] => {}
        [first, rest @ ..] => {
            set_clock(clocks, time, *first);
            set_clocks(clocks, time, rest);
        }
    }
}

/// The latest of a time and of the clocks of some cells.
fn latest_of(clocks: &Clocks, time: u64, cells: &[Cell]) -> u64
    ensures { result ≡ latest time (map (clock_of clocks.now) cells.now) }
{
    match cells {
        [] => time,
        [first, rest @ ..] => latest_of(clocks, time.max(clock_of(clocks, *first)), rest),
    }
}

fn clock_of(clocks: &Clocks, cell: Cell) -> u64
    ensures { result ≡ clock_of clocks.now cell }
{
    match cell {
        Cell::Coordinator => clocks.control,
        Cell::Shard { shard } => time_in(&clocks.shards, shard),
        Cell::Lane { recipient, lane } => time_in_row(&clocks.lanes, recipient, lane),
        Cell::Link { recipient, donor } => time_in_row(&clocks.links, recipient, donor),
        Cell::Client { client } => time_in(&clocks.clients, client),
    }
}

#[tactic(auto, using(crate::proofs::Places::or_default, crate::proofs::Places::or_item))]
fn time_in(times: &Cells<u64>, place: u32) -> u64
    ensures { result ≡ slice_index_or times.now place 0 }
{
    match times.get(place) {
        Some(time) => *time,
        None => 0,
    }
}

#[tactic(auto, using(crate::proofs::Places::or_default, crate::proofs::Places::or_item))]
fn time_in_row(rows: &Cells<Cells<u64>>, row: u32, place: u32) -> u64
    ensures { result ≡ slice_index_or (slice_index_or rows.now row []) place 0 }
{
    match rows.get(row) {
        Some(times) => time_in(times, place),
        None => 0,
    }
}

fn set_clock(clocks: &mut Clocks, time: u64, cell: Cell)
    ensures { clocks.new ≡ with_clock time clocks.old cell }
{
    match cell {
        Cell::Coordinator => clocks.control = time,
        Cell::Shard { shard } => set_time(&mut clocks.shards, shard, time),
        Cell::Lane { recipient, lane } => set_in_row(&mut clocks.lanes, recipient, lane, time),
        Cell::Link { recipient, donor } => set_in_row(&mut clocks.links, recipient, donor, time),
        Cell::Client { client } => set_time(&mut clocks.clients, client, time),
    }
}

#[tactic(auto, using(crate::proofs::Places::set_past))]
fn set_time(times: &mut Cells<u64>, place: u32, time: u64)
    ensures { times.new ≡ slice_set times.old place time }
{
    if let Some(at) = times.get_mut(place) {
        *at = time;
    }
}

#[tactic(auto, using(crate::proofs::Places::set_past, crate::proofs::Places::or_item))]
fn set_in_row(rows: &mut Cells<Cells<u64>>, row: u32, place: u32, time: u64)
    ensures { rows.new ≡ set_in rows.old row place time }
{
    if let Some(times) = rows.get_mut(row) {
        set_time(times, place, time);
    }
}

/// The number of a cell; want of memory where it has none below 2^32.
fn number_of(setup: &Setup, cell: Cell) -> Result<u32, NoMemory>
    ensures { IfOk result (λ number. number ≡ number_of setup.now cell) }
{
    let shards = small(setup.shards.len())? as u128;
    let lanes = setup.lanes as u128;
    let number = match cell {
        Cell::Coordinator => 0,
        Cell::Shard { shard } => 1 + shard as u128,
        Cell::Lane { recipient, lane } => 1 + shards + (recipient as u128 * lanes + lane as u128),
        Cell::Link { recipient, donor } => {
            1 + shards + shards * lanes + (recipient as u128 * shards + donor as u128)
        }
        Cell::Client { client } => 1 + shards + shards * lanes + shards * shards + client as u128,
    };
    match u32::try_from(number) {
        Ok(number) => Ok(number),
        Err(_) => Err(NoMemory),
    }
}

fn small(number: u64) -> Result<u32, NoMemory>
    ensures { IfOk result (λ small. small ≡ number) }
{
    match u32::try_from(number) {
        Ok(small) => Ok(small),
        Err(_) => Err(NoMemory),
    }
}
