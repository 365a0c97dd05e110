//! The parts of a batch behind the pieces that were cut before.

ghost use Rattle.std.specs.Prelude.{◌≡◌, ◌∷◌, [], length, take, slice_set, IfOk, MatchOption, OnErr, OnOk};
ghost use Rattle.resh_cells.specs.Cuts.{cut_for, joined, joined_from, with_part};

use crate::cuts::Sent;
use resh_split::{Parts, Pieces};
use resh_value::NoMemory;

/// Puts each lane's part behind its pieces. Want of memory leaves all as it was.
pub fn join(sent: &mut Sent, parts: Parts) -> Result<(), NoMemory>
    ensures ok { OnOk result (sent.new ≡ joined sent.old parts) }
    ensures unchanged { OnErr result (sent.new ≡ sent.old) }
{
    let mut parts = parts.into_vec();
    join_from(sent, 0, &mut parts)
}

/// Puts parts behind the pieces of the lanes from one on.
#[tactic(auto, using(crate::proofs::Joins::put_back))]
fn join_from(sent: &mut Sent, lane: u32, parts: &mut Vec<Pieces>) -> Result<(), NoMemory>
    ensures ok { OnOk result (sent.new ≡ joined_from lane sent.old parts.old.items) }
    ensures unchanged { OnErr result (sent.new ≡ sent.old) }
{
    let Some(part) = take_front(parts) else {
        return Ok(());
    };
    let Some(next) = lane.checked_add(1) else {
        return Err(NoMemory);
    };
    let len = put(sent, lane, part)?;
    match join_from(sent, next, parts) {
        Ok(()) => Ok(()),
        Err(NoMemory) => {
            cut_to(sent, lane, len);
            Err(NoMemory)
        }
    }
}

/// Takes the first part.
fn take_front(parts: &mut Vec<Pieces>) -> Option<Pieces>
    ensures { MatchOption result (parts.old.items ≡ []) (λ part. parts.old.items ≡ part ∷ parts.new.items) }
{
    if parts.is_empty() {
        return None;
    }
    Some(parts.remove(0))
}

/// Puts a part behind a lane's pieces; how many there were.
#[tactic(auto, using(crate::proofs::Places::set_past, crate::proofs::Places::set_same, crate::proofs::Places::or_item, crate::proofs::Places::or_default))]
fn put(sent: &mut Sent, lane: u32, part: Pieces) -> Result<u64, NoMemory>
    ensures ok { OnOk result (sent.new ≡ with_part lane part sent.old) }
    ensures len { IfOk result (λ len. len ≡ length (cut_for sent.old lane)) }
    ensures unchanged { OnErr result (sent.new ≡ sent.old) }
{
    match sent.get_mut(lane) {
        Some(pieces) => {
            let len = pieces.len();
            pieces.append(part)?;
            Ok(len)
        }
        None => Ok(0),
    }
}

/// Leaves so many of a lane's pieces.
#[tactic(auto, using(crate::proofs::Places::set_past, crate::proofs::Places::or_item))]
fn cut_to(sent: &mut Sent, lane: u32, len: u64)
    ensures { sent.new ≡ slice_set sent.old lane (take len (cut_for sent.old lane)) }
{
    if let Some(pieces) = sent.get_mut(lane) {
        pieces.truncate(len);
    }
}
