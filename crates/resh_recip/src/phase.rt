ghost use Rattle.std.specs.Prelude.{refl};
ghost use Rattle.std.proofs.Common.{rules};

use resh_progress::{Message, Phases};

/// What a recipient does; the phases come in this order.
#[derive(Debug, Drop, Clone, Copy, PartialEq, Eq)]
pub enum RecipientPhase {
    AwaitingFetchTime,
    Cloning,
    Applying,
    StrictConsistency,
    Done,
}

impl Phases for RecipientPhase {
    ghost use Rattle.resh_recip.specs.declared.phase.RecipientPhase.{RecipientPhase};
    ghost use Rattle.resh_recip.specs.Phases.{next_phase, place_of};
    ghost use Rattle.resh_recip.specs.States.{told_until};
    ghost use Rattle.resh_recip.specs.lemmas.Going.{on_going};

    ghost first = { RecipientPhase.AwaitingFetchTime };

    ghost last = { RecipientPhase.Done };

    ghost next_phase = { next_phase };

    ghost place_of = { place_of };

    ghost told_until = { told_until };

    ghost rises = { λ phase later kind moves. Prim.search (rules, moves) };

    ghost starts = { refl };

    ghost goes_on = { on_going };

    ghost ends = { λ kind. Prim.search rules };

    fn first() -> RecipientPhase {
        Self::AwaitingFetchTime
    }

    fn next(self, message: &Message) -> Option<RecipientPhase> {
        match self {
            RecipientPhase::AwaitingFetchTime => match message {
                Message::Donate { .. } => Some(RecipientPhase::Cloning),
                Message::Release => Some(RecipientPhase::Done),
                _ => None,
            },
            RecipientPhase::Cloning | RecipientPhase::Applying => match message {
                Message::Release => Some(RecipientPhase::Done),
                _ => None,
            },
            RecipientPhase::StrictConsistency => match message {
                Message::Install | Message::Release => Some(RecipientPhase::Done),
                _ => None,
            },
            RecipientPhase::Done => None,
        }
    }
}
