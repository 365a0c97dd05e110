//! Laws of lanes, each a contract of a function that does nothing.

ghost use Rattle.resh_lane.specs.Laws.{FitsByTest, GoesOnFitting, StaysLane, TakesInOrder};

/// Over any pieces that a lane applied, what it holds of each `_id` is what the entries of that `_id` make of it, and
/// the slot of each donor is what the donor's own make of it. The pieces of a donor came at rising positions, one after
/// another, from where the lane was to where it is. A lane that fits the feeds of its donors fits them with the item at
/// its position, after going back, and once they are longer; at the end of a feed the donor's slots are what it leaves.
pub fn lane_laws()
    ensures order { TakesInOrder }
    ensures feeds { GoesOnFitting }
    ensures stays { StaysLane }
    ensures fits { FitsByTest }
{}
