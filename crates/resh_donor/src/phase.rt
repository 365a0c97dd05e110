ghost use Rattle.std.specs.Prelude.{refl};
ghost use Rattle.std.proofs.Common.{rules};

use resh_progress::{Message, Phases};

/// What a donor does; the phases come in this order.
#[derive(Debug, Drop, Clone, Copy, PartialEq, Eq)]
pub enum DonorPhase {
    Unused,
    PreparingToDonate,
    Donating,
    BlockingWrites,
    Done,
}

impl Phases for DonorPhase {
    ghost use Rattle.resh_donor.specs.declared.phase.DonorPhase.{DonorPhase};
    ghost use Rattle.resh_donor.specs.Phases.{next_phase, place_of};
    ghost use Rattle.resh_donor.specs.States.{told_until};
    ghost use Rattle.resh_donor.specs.lemmas.Going.{on_going};

    ghost first = { DonorPhase.Unused };

    ghost last = { DonorPhase.Done };

    ghost next_phase = { next_phase };

    ghost place_of = { place_of };

    ghost told_until = { told_until };

    ghost rises = { λ phase later kind moves. Prim.search (rules, moves) };

    ghost starts = { refl };

    ghost goes_on = { on_going };

    ghost ends = { λ kind. Prim.search rules };

    fn first() -> DonorPhase {
        Self::Unused
    }

    fn next(self, message: &Message) -> Option<DonorPhase> {
        match self {
            DonorPhase::Unused => match message {
                Message::Prepare => Some(DonorPhase::PreparingToDonate),
                Message::Release => Some(DonorPhase::Done),
                _ => None,
            },
            DonorPhase::PreparingToDonate => match message {
                Message::Donate { .. } => Some(DonorPhase::Donating),
                Message::Release => Some(DonorPhase::Done),
                _ => None,
            },
            DonorPhase::Donating => match message {
                Message::Block => Some(DonorPhase::BlockingWrites),
                Message::Release => Some(DonorPhase::Done),
                _ => None,
            },
            DonorPhase::BlockingWrites => match message {
                Message::Install | Message::Release => Some(DonorPhase::Done),
                _ => None,
            },
            DonorPhase::Done => None,
        }
    }
}
