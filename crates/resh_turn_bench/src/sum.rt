//! The value that is changed: a sum, with the numbers that were added.

ghost use Rattle.std.specs.Prelude.{◌≡◌, []};
ghost use Rattle.resh_turn.specs.Replay.{replay};
ghost use Rattle.resh_turn_bench.specs.Sums.{added};

use resh_turn::{Journal, Made, Story};
use resh_value::NoMemory;
use std::alloc::Global;

#[derive(Drop)]
pub(crate) struct Sum {
    total: u64,
    journal: Vec<Made<u64>>,
    ghost summed: { total ≡ replay added 0 journal.items },
}

impl Sum {
    pub(crate) fn new(alloc: Global) -> Sum
        ensures { result.journal.items ≡ [] }
    {
        Sum {
            total: 0,
            journal: Vec::new(alloc),
        }
    }
}

impl Journal for Sum {
    type Step = u64;

    type State = u64;

    ghost start = { λ _. 0 };

    ghost journal = { λ s. s.journal.items };
}

impl Story for Sum {
    ghost use Rattle.std.specs.Prelude.{◌≡◌, ◌-◌};
    ghost use Rattle.std.specs.Vec.{vec_capacity, vec_len};
    ghost use Rattle.resh_turn_bench.specs.Sums.{added};

    type Answer = u64;

    ghost state = { λ s. s.total };

    ghost spare = { λ s. vec_capacity s.journal - vec_len s.journal };

    ghost next = { added };

    ghost allows = { λ _ _. Unit {0} };

    ghost answers = { λ total step answer. answer ≡ added total step };

    ghost sure = { λ _. Unit {0} };

    ghost replays = { λ s. s.summed };

    fn reserve(&mut self, steps: u64) -> Result<(), NoMemory> {
        Ok(self.journal.reserve(steps as usize)?)
    }

    fn act(&mut self, step: u64, by: u32) -> Result<u64, NoMemory> {
        self.journal.push_reserved(Made { by, step });
        self.total = self.total.wrapping_add(step);
        Ok(self.total)
    }

    fn length(&self) -> u64 {
        self.journal.len() as u64
    }
}
