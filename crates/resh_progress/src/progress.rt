ghost use Rattle.std.specs.Prelude.{◌≡◌, ◌≤◌, IfOk};
ghost use Rattle.resh_progress.specs.Start.{start};

use crate::kept::{Counts, Kept};
use resh_value::{NoMemory, Sequence};
use std::alloc::Global;
use std::marker::Model;

/// What a link kept last, which contracts see as that record.
#[derive(Debug, Drop)]
pub struct Progress {
    kept: Kept,
}

impl Model for Progress {
    ghost use Rattle.resh_progress.specs.contracts.kept.Kept as kept_row;
    ghost use Rattle.resh_progress.specs.declared.kept.Kept.{Kept};

    ghost Value = { Kept };

    ghost coded = { kept_row.the_row.coded };

    ghost view = { λ p. p.kept };
}

impl Progress {
    /// Nothing is kept of a link with so many lanes.
    pub fn new(alloc: Global, lanes: u32) -> Result<Progress, NoMemory>
        ensures { IfOk result (λ progress. progress ≡ start lanes) }
    {
        Ok(Progress {
            kept: Kept {
                place: 0,
                lanes: zeros(alloc, lanes)?,
                last_id: None,
                mark: None,
                read_out: false,
                finished: false,
            },
        })
    }

    /// Keeps a record whose place isn't before the kept one's.
    pub fn keep(&mut self, kept: Kept)
        requires { self.old.place ≤ kept.place }
        ensures { self.new ≡ kept }
    {
        self.kept = kept;
    }

    /// The record that was kept last.
    pub fn resume(&self) -> &Kept
        ensures { result.now ≡ self.now }
    {
        &self.kept
    }
}

fn zeros(alloc: Global, lanes: u32) -> Result<Counts, NoMemory>
    ensures { IfOk result (λ counts. counts ≡ (start lanes).lanes) }
{
    let mut counts = Vec::new(alloc);
    for _ in 0..lanes {
        counts.push(0)?;
    }
    Ok(Sequence::from_vec(counts))
}
