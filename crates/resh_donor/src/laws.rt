//! What holds of every donor, each a contract of a function that does nothing.

ghost use Rattle.resh_donor.specs.Laws.{ARepeatChangesNothing, OtherKindsAreKept, OnlyEndsEnd, TheEndIsKept, PhasesNeverGoBack, ReachesOn, WhatWasToldIsPassed};

use crate::phase::DonorPhase;
use resh_progress::machine_laws;

/// A repeat changes nothing, only an install or a release ends a donor, and after the end nothing moves.
pub fn donor_laws()
    ensures repeat { ARepeatChangesNothing }
    ensures others { OtherKindsAreKept }
    ensures ends { OnlyEndsEnd }
    ensures kept { TheEndIsKept }
    ensures never_back { PhasesNeverGoBack }
    ensures passed { WhatWasToldIsPassed }
    ensures reached { ReachesOn }
{
    machine_laws::<DonorPhase>();
}
