//! What holds of every recipient, each a contract of a function that does nothing.

ghost use Rattle.resh_recip.specs.Laws.{ARepeatChangesNothing, OtherKindsAreKept, OnlyEndsEnd, OnlyThreeAreTold, OwnMovesAreMadeOnce, OwnMovesMayBeMade, PhasesNeverGoBack, ReachesOn, TheEndIsKept, WhatWasToldIsPassed};

use crate::phase::RecipientPhase;
use resh_progress::machine_laws;

/// A repeat changes nothing, only an install or a release ends a recipient, and after the end nothing moves.
pub fn recipient_laws()
    ensures repeat { ARepeatChangesNothing }
    ensures others { OtherKindsAreKept }
    ensures own { OwnMovesAreMadeOnce }
    ensures own_may { OwnMovesMayBeMade }
    ensures ends { OnlyEndsEnd }
    ensures kept { TheEndIsKept }
    ensures never_back { PhasesNeverGoBack }
    ensures told { OnlyThreeAreTold }
    ensures passed { WhatWasToldIsPassed }
    ensures reached { ReachesOn }
{
    machine_laws::<RecipientPhase>();
}
