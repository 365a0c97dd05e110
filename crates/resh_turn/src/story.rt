//! What a value is that is shared by turns.

ghost use Rattle.std.specs.Prelude.{◌≡◌, ℕ, ◌+◌, ◌<◌, ◌≤◌, List, length, IfOk, OnErr, IsOk};
ghost use Rattle.resh_turn.specs.Replay.{Adds, made, replay};

use resh_value::NoMemory;

/// A step that was made, and the number of the pass that made it.
#[derive(Drop)]
pub struct Made<T> {
    pub by: u32,
    pub step: T,
}

/// A value that keeps the state it began with, and a journal of the steps since.
pub trait Journal: Drop {
    ghost use Rattle.resh_turn.specs.declared.story.Made.{Made};

    type Step;

    type State;

    ghost start: { Self → Self.State };

    ghost journal: { Self → List (Made Self.Step) };
}

/// A value that changes by steps. Its state is the one that it began with after the steps of its journal.
pub trait Story: Journal {
    ghost use Rattle.resh_turn.specs.declared.story.Made.{Made};

    type Answer;

    ghost state: { Self → Self.State };

    /// For how many steps there is room.
    ghost spare: { Self → ℕ };

    /// The state after a step.
    ghost next: { Self.State → Made Self.Step → Self.State };

    /// A state allows a step.
    ghost allows: { Self.State → Self.Step → Type 0 };

    /// What a step answers at a state.
    ghost answers: { Self.State → Made Self.Step → Self.Answer → Type 0 };

    /// A step can't want memory once it has room.
    ghost sure: { Self.Step → Type 0 };

    /// Makes room for so many steps.
    fn reserve(&mut self, steps: u64) -> Result<(), NoMemory>
        ensures start { Self.start self.new ≡ Self.start self.old }
        ensures journal { Self.journal self.new ≡ Self.journal self.old }
        ensures room { IfOk result (λ _. steps ≤ spare self.new) }
        ensures kept { spare self.old ≤ spare self.new };

    /// Makes a step, in the name of a pass. After want of memory all is as before.
    fn act(&mut self, step: Self::Step, by: u32) -> Result<Self::Answer, NoMemory>
        requires room { 0 < spare self.old }
        requires allowed { allows (state self.old) step }
        ensures start { Self.start self.new ≡ Self.start self.old }
        ensures journal { IfOk result (λ _. Adds (made by step) (Self.journal self.old) (Self.journal self.new)) }
        ensures answer { IfOk result (λ it. answers (state self.old) (made by step) it) }
        ensures used { IfOk result (λ _. spare self.new + 1 ≡ spare self.old) }
        ensures same { OnErr result (Self.journal self.new ≡ Self.journal self.old) }
        ensures room_stays { OnErr result (spare self.new ≡ spare self.old) }
        ensures sure { sure step → IsOk result };

    /// How many steps were made.
    fn length(&self) -> u64
        ensures { result ≡ length (Self.journal self.now) };

    /// The state is the first one after all steps of the journal.
    ghost replays: { (s : Self) → state s ≡ replay next (Self.start s) (Self.journal s) };
}
