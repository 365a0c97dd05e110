//! All links of a recipient.

ghost use Rattle.std.specs.Prelude.{◌≡◌, map, OnOk};
ghost use Rattle.resh_fetcher.specs.Links.{closed, started};
ghost use Rattle.resh_cells.specs.Cells.{with_link};
ghost use Rattle.resh_telling.specs.Rows.{on_row};

use resh_cells::{Cells, LinkCell};
use resh_value::NoMemory;

/// Starts each link of a recipient, where none is.
#[tactic(auto, using(crate::proofs::Changing::or_item))]
pub(crate) fn start_links(
    links: &mut Cells<Cells<LinkCell>>,
    recipient: u32,
    fetch_time: u64,
) -> Result<(), NoMemory>
    ensures { OnOk result (links.new ≡ on_row recipient (with_link (λ l. started l fetch_time)) links.old) }
{
    match links.get_mut(recipient) {
        Some(row) => start_all(row, fetch_time),
        None => Err(NoMemory),
    }
}

/// Closes each link of a recipient.
#[tactic(auto, using(crate::proofs::Changing::or_item))]
pub(crate) fn close_links(
    links: &mut Cells<Cells<LinkCell>>,
    recipient: u32,
) -> Result<(), NoMemory>
    ensures { OnOk result (links.new ≡ on_row recipient (with_link closed) links.old) }
{
    match links.get_mut(recipient) {
        Some(row) => close_all(row),
        None => Err(NoMemory),
    }
}

#[tactic(auto, using(crate::proofs::Changing::changes))]
fn start_all(links: &mut Cells<LinkCell>, fetch_time: u64) -> Result<(), NoMemory>
    ensures { OnOk result (links.new ≡ map (with_link (λ l. started l fetch_time)) links.old) }
{
    for place in 0..u32::MAX {
        match links.get_mut(place) {
            Some(cell) => start(cell, fetch_time)?,
            None => return Ok(()),
        }
    }
    Err(NoMemory)
}

#[tactic(auto, using(crate::proofs::Changing::changes))]
fn close_all(links: &mut Cells<LinkCell>) -> Result<(), NoMemory>
    ensures { OnOk result (links.new ≡ map (with_link closed) links.old) }
{
    for place in 0..u32::MAX {
        match links.get_mut(place) {
            Some(cell) => close(cell),
            None => return Ok(()),
        }
    }
    Err(NoMemory)
}

fn start(cell: &mut LinkCell, fetch_time: u64) -> Result<(), NoMemory>
    ensures { OnOk result (cell.new ≡ with_link (λ l. started l fetch_time) cell.old) }
{
    if cell.link.is_started() {
        return Err(NoMemory);
    }
    cell.link.start(fetch_time);
    Ok(())
}

fn close(cell: &mut LinkCell)
    ensures { cell.new ≡ with_link closed cell.old }
{
    cell.link.close();
}
