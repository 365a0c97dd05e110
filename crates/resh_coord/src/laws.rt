//! What holds of every coordinator, as the contract of a function that does nothing.

ghost use Rattle.resh_coord.specs.Laws.{DecidesOnce, EachPhaseBeginsAnew, PhasesNeverGoBack};

/// At most one decision is made, who was told and who reported is forgotten with each phase, and phases never go back.
pub fn coordinator_laws()
    ensures once { DecidesOnce }
    ensures anew { EachPhaseBeginsAnew }
    ensures never_back { PhasesNeverGoBack }
{}
