//! The faults of a chunk map's rows, in order.

ghost use Rattle.std.specs.Prelude.{◌≡◌, ◌<◌, ◌^◌, None};
ghost use Rattle.std.specs.Option.{option_copied};
ghost use Rattle.resh_chunks.specs.Bounds.{has_wrong_length};
ghost use Rattle.resh_chunks.specs.Chunks.{joint_fault, row_fault, end_fault, rows_fault};

use crate::bound::{Bound, ChunkRow};
use crate::faults::ChunkFault;
use std::cmp::Ordering;

/// The first fault of the rows of a map over so many names and shards.
pub(crate) fn fault_of(names: u64, shards: u32, rows: &[ChunkRow]) -> Option<ChunkFault>
    ensures { result ≡ rows_fault names shards None 0 rows.now }
{
    let mut before: Option<&Bound> = None;
    let mut rest = rows;
    let mut row_number = 0u64;
    while let [row, later @ ..] = rest {
        if let Some(fault) = fault_of_row(names, shards, before, row_number, row) {
            return Some(fault);
        }
        before = Some(&row.max);
        rest = later;
        row_number += 1;
    }
    fault_of_end(before)
}

fn fault_of_row(
    names: u64,
    shards: u32,
    before: Option<&Bound>,
    row_number: u64,
    row: &ChunkRow,
) -> Option<ChunkFault>
    ensures { result ≡ row_fault names shards (option_copied before.entry) row_number row.now }
{
    if is_wrong_length(names, &row.min) || is_wrong_length(names, &row.max) {
        return Some(ChunkFault::WrongLength { row: row_number });
    }
    if row.shard.0 >= shards {
        return Some(ChunkFault::UnknownShard { row: row_number });
    }
    if let Some(fault) = fault_of_joint(before, row_number, &row.min) {
        return Some(fault);
    }
    match row.min.compare(&row.max) {
        Ordering::Less => None,
        _ => Some(ChunkFault::EmptyRange { row: row_number }),
    }
}

fn is_wrong_length(names: u64, bound: &Bound) -> bool
    ensures { result ≡ has_wrong_length names bound.now }
{
    match bound {
        Bound::At(key) => key.len() < 1 || names < key.len(),
        _ => false,
    }
}

fn fault_of_joint(before: Option<&Bound>, row_number: u64, min: &Bound) -> Option<ChunkFault>
    ensures { result ≡ joint_fault (option_copied before.entry) row_number min.now }
{
    match before {
        None => match min {
            Bound::Min => None,
            _ => Some(ChunkFault::FirstNotMin),
        },
        Some(before) => match min.compare(before) {
            Ordering::Less => Some(ChunkFault::Overlap { row: row_number }),
            Ordering::Equal => None,
            Ordering::Greater => Some(ChunkFault::Gap { row: row_number }),
        },
    }
}

fn fault_of_end(before: Option<&Bound>) -> Option<ChunkFault>
    ensures { result ≡ end_fault (option_copied before.entry) }
{
    match before {
        None => Some(ChunkFault::FirstNotMin),
        Some(Bound::Max) => None,
        Some(_) => Some(ChunkFault::LastNotMax),
    }
}
