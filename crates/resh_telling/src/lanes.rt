//! All lanes of a recipient.

ghost use Rattle.std.specs.Prelude.{◌≡◌, ◌++◌, map, true, IfOk, OnOk};
ghost use Rattle.std.specs.List.{All};
ghost use Rattle.std.specs.FinMap.{values};
ghost use Rattle.resh_lane.specs.Lanes.{emptied, with_started};
ghost use Rattle.resh_versions.specs.Chains.{IsStored};
ghost use Rattle.resh_events.specs.rows.Tell.{outputs};
ghost use Rattle.resh_telling.specs.Rows.{on_row, row_of};

use resh_cells::{Cells, LaneCell};
use resh_value::{Document, Documents, NoMemory, Sequence};
use std::alloc::Global;

/// Notes on each lane of a recipient that its links are open.
#[tactic(auto, using(crate::proofs::Changing::or_item))]
pub(crate) fn start_lanes(
    lanes: &mut Cells<Cells<LaneCell>>,
    recipient: u32,
) -> Result<(), NoMemory>
    ensures { OnOk result (lanes.new ≡ on_row recipient (with_started true) lanes.old) }
{
    match lanes.get_mut(recipient) {
        Some(row) => start_all(row),
        None => Err(NoMemory),
    }
}

/// Empties each lane of a recipient.
#[tactic(auto, using(crate::proofs::Changing::or_item))]
pub(crate) fn clear_lanes(
    lanes: &mut Cells<Cells<LaneCell>>,
    recipient: u32,
) -> Result<(), NoMemory>
    ensures { OnOk result (lanes.new ≡ on_row recipient emptied lanes.old) }
{
    match lanes.get_mut(recipient) {
        Some(row) => clear_all(row),
        None => Err(NoMemory),
    }
}

/// Hands the documents of all lanes of a recipient out, and empties the lanes.
#[tactic(auto, using(crate::proofs::Changing::or_item))]
pub(crate) fn finish_lanes(
    lanes: &mut Cells<Cells<LaneCell>>,
    alloc: Global,
    recipient: u32,
) -> Result<Documents, NoMemory>
    ensures lanes { OnOk result (lanes.new ≡ on_row recipient emptied lanes.old) }
    ensures documents { IfOk result (λ documents. documents ≡ outputs (row_of lanes.old recipient)) }
    ensures whole { IfOk result (λ documents. All IsStored documents) }
{
    match lanes.get_mut(recipient) {
        Some(row) => finish_all(row, alloc),
        None => Err(NoMemory),
    }
}

#[tactic(auto, using(crate::proofs::Changing::changes))]
fn start_all(lanes: &mut Cells<LaneCell>) -> Result<(), NoMemory>
    ensures { OnOk result (lanes.new ≡ map (with_started true) lanes.old) }
{
    for place in 0..u32::MAX {
        match lanes.get_mut(place) {
            Some(cell) => start(cell),
            None => return Ok(()),
        }
    }
    Err(NoMemory)
}

#[tactic(auto, using(crate::proofs::Changing::changes))]
fn clear_all(lanes: &mut Cells<LaneCell>) -> Result<(), NoMemory>
    ensures { OnOk result (lanes.new ≡ map emptied lanes.old) }
{
    for place in 0..u32::MAX {
        match lanes.get_mut(place) {
            Some(cell) => clear(cell),
            None => return Ok(()),
        }
    }
    Err(NoMemory)
}

#[tactic(auto, using(crate::proofs::Changing::gathers))]
fn finish_all(lanes: &mut Cells<LaneCell>, alloc: Global) -> Result<Documents, NoMemory>
    ensures lanes { OnOk result (lanes.new ≡ map emptied lanes.old) }
    ensures documents { IfOk result (λ documents. documents ≡ outputs lanes.old) }
    ensures whole { IfOk result (λ documents. All IsStored documents) }
{
    let mut documents = Vec::new(alloc);
    for place in 0..u32::MAX {
        match lanes.get_mut(place) {
            Some(cell) => finish(cell, &mut documents)?,
            None => return Ok(Sequence::from_vec(documents)),
        }
    }
    Err(NoMemory)
}

fn start(cell: &mut LaneCell)
    ensures { cell.new ≡ with_started true cell.old }
{
    cell.lane.start();
}

fn clear(cell: &mut LaneCell)
    ensures { cell.new ≡ emptied cell.old }
{
    cell.lane.clear();
}

/// Puts a lane's documents behind others, and empties it.
fn finish(cell: &mut LaneCell, documents: &mut Vec<Document>) -> Result<(), NoMemory>
    ensures lane { OnOk result (cell.new ≡ emptied cell.old) }
    ensures documents { OnOk result (documents.new.items ≡ documents.old.items ++ values cell.old.pool.output) }
    ensures whole { All IsStored documents.old.items → OnOk result (All IsStored documents.new.items) }
{
    let mut more = cell.lane.finish()?.into_vec();
    documents.append(&mut more)?;
    Ok(())
}
