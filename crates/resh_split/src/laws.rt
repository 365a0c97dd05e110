//! What holds of the pieces of batches, as the contract of a function that does nothing.

ghost use Rattle.resh_split.specs.Laws.{BatchesJoin, PiecesStand};

/// A piece's position is its number among its lane's items of the feed, and the batches of a link join without a gap.
pub fn split_laws()
    ensures stand { PiecesStand }
    ensures join { BatchesJoin }
{}
