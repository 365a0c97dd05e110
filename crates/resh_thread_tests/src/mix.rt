//! A value into which numbers are mixed, so that their order shows.

ghost use Rattle.std.specs.Prelude.{◌≡◌, [], IfSome};
ghost use Rattle.resh_turn.specs.Replay.{Each, replay};
ghost use Rattle.resh_thread_tests.specs.Mixes.{mixed};

use resh_turn::{Journal, Made, Pass, Passes, Story, TurnCell};
use resh_value::NoMemory;
use std::alloc::Global;

/// What the numbers gave, and those numbers.
#[derive(Drop)]
pub(crate) struct Mix {
    pub(crate) value: u64,
    pub(crate) journal: Vec<Made<u64>>,
    ghost replayed: { value ≡ replay mixed 0 journal.items },
}

impl Mix {
    pub(crate) fn new(alloc: Global) -> Mix
        ensures { result.journal.items ≡ [] }
    {
        Mix {
            value: 0,
            journal: Vec::new(alloc),
        }
    }
}

impl Journal for Mix {
    type Step = u64;

    type State = u64;

    ghost start = { λ _. 0 };

    ghost journal = { λ m. m.journal.items };
}

impl Story for Mix {
    ghost use Rattle.std.specs.Prelude.{◌≡◌, ◌-◌};
    ghost use Rattle.std.specs.Vec.{vec_capacity, vec_len};
    ghost use Rattle.resh_thread_tests.specs.Mixes.{mixed};

    type Answer = u64;

    ghost state = { λ m. m.value };

    ghost spare = { λ m. vec_capacity m.journal - vec_len m.journal };

    ghost next = { mixed };

    ghost allows = { λ _ _. Unit {0} };

    ghost answers = { λ value step answer. answer ≡ mixed value step };

    ghost sure = { λ _. Unit {0} };

    ghost replays = { λ m. m.replayed };

    fn reserve(&mut self, steps: u64) -> Result<(), NoMemory> {
        Ok(self.journal.reserve(steps as usize)?)
    }

    fn act(&mut self, step: u64, by: u32) -> Result<u64, NoMemory> {
        self.journal.push_reserved(Made { by, step });
        self.value = self.value.wrapping_mul(3).wrapping_add(step);
        Ok(self.value)
    }

    fn length(&self) -> u64 {
        self.journal.len() as u64
    }
}

/// The last of a cell's passes.
#[tactic(auto, using(resh_turn::proofs::Numbering::last_of))]
pub(crate) fn popped(cell: &TurnCell<Mix>, passes: &mut Passes<Mix>) -> Option<Pass<Mix>>
    requires { Each (λ pass. pass.cell ≡ cell.now.cell) passes.old }
    ensures pass { IfSome result (λ pass. pass.cell ≡ cell.now.cell) }
    ensures rest { Each (λ pass. pass.cell ≡ cell.now.cell) passes.new }
{
    passes.pop()
}
