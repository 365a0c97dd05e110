ghost use Rattle.std.specs.Prelude.{◌≡◌, ◌≤◌, [], ◌++◌, length, take, IfOk, OnErr, OnOk};
ghost use Rattle.std.specs.Option.{option_copied};
ghost use Rattle.resh_cells.specs.Cuts.{last_cut, AreBelow};

use crate::cells::Cells;
use resh_oplog::Piece;
use resh_split::Pieces;
use resh_value::NoMemory;
use std::alloc::Global;
use std::marker::Model;

/// All pieces that a link ever cut for one lane, in that order; contracts see the list of them.
#[derive(Debug, Drop)]
pub struct Cuts {
    pieces: Vec<Piece>,
    // above the position of each of them
    end: u64,
}

/// The pieces that a link ever cut, by lane.
pub type Sent = Cells<Cuts>;

impl Model for Cuts {
    ghost use Rattle.std.specs.Prelude.{List};
    ghost use Rattle.std.specs.Coded.{coded_list};
    ghost use Rattle.resh_cells.specs.Cuts.{AreBelow};
    ghost use Rattle.resh_oplog.specs.contracts.piece.Piece as piece;
    ghost use Rattle.resh_oplog.specs.declared.piece.Piece.{Piece};

    ghost Value = { List Piece };

    ghost coded = { coded_list piece.the_row.coded };

    ghost view = { λ c. c.pieces.items };

    ghost invariant = { λ c. AreBelow c.end c.pieces.items };
}

impl Cuts {
    /// No pieces.
    pub fn new(alloc: Global) -> Cuts
        ensures { result ≡ [] }
    {
        Cuts {
            pieces: Vec::new(alloc),
            end: 0,
        }
    }

    /// How many pieces there are.
    pub fn len(&self) -> u64
        ensures { result ≡ length self.now }
    {
        self.pieces.len() as u64
    }

    /// The piece of a position that was cut last; `None` exactly where none was.
    #[tactic(auto, using(crate::proofs::LastCut::none_past))]
    pub fn last(&self, position: u64) -> Option<&Piece>
        ensures { option_copied result ≡ last_cut self.now position }
    {
        if position >= self.end {
            return None;
        }
        self.pieces
            .iter()
            .rev()
            .find(|piece| piece.position == position)
    }

    /// Puts pieces behind those that are there. Want of memory leaves all as it was.
    #[tactic(auto, using(crate::proofs::Below::below_both))]
    pub fn append(&mut self, more: Pieces) -> Result<(), NoMemory>
        ensures ok { OnOk result (self.new ≡ self.old ++ more) }
        ensures unchanged { OnErr result (self.new ≡ self.old) }
    {
        let mut more = more.into_vec();
        let end = end_of(self.end, more.as_slice())?;
        match self.pieces.append(&mut more) {
            Ok(()) => {
                self.end = end;
                Ok(())
            }
            Err(_) => Err(NoMemory),
        }
    }

    /// Takes the last pieces away, so that so many are left.
    #[tactic(auto, using(crate::proofs::Below::below_front))]
    pub fn truncate(&mut self, len: u64)
        ensures { self.new ≡ take len self.old }
    {
        self.pieces.truncate(len as usize);
    }
}

/// A position above an end and above those of some pieces, the last of which stands highest; want of memory where it
/// doesn't.
#[tactic(auto, using(crate::proofs::Below::below_by_test))]
fn end_of(end: u64, pieces: &[Piece]) -> Result<u64, NoMemory>
    ensures end { IfOk result (λ above. end ≤ above) }
    ensures pieces { IfOk result (λ above. AreBelow above pieces.now) }
{
    let above = match pieces.last() {
        Some(last) => last.position.saturating_add(1).max(end),
        None => end,
    };
    if pieces.iter().all(|piece| piece.position < above) {
        return Ok(above);
    }
    Err(NoMemory)
}
