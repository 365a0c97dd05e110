//! Laws of cloning, as the contract of a function that does nothing.

ghost use Rattle.resh_cloner.specs.Laws.{ClonesEach, ClonesInOrder, GoesOn, StaysCloned};

/// The clone part of a feed is what stood at the fetch time and comes to the recipient, each document once, by `_id`.
/// What is read behind the documents that were read is the rest of it. Later writes change nothing of it.
pub fn clone_laws()
    ensures each { ClonesEach }
    ensures in_order { ClonesInOrder }
    ensures goes_on { GoesOn }
    ensures stays { StaysCloned }
{}
