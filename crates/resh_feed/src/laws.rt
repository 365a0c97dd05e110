//! Laws of feeds and slots, as the contract of a function that does nothing.

ghost use Rattle.resh_feed.specs.Laws.{Absorbs, GoesOnFitting, PartsByLane, ReadsOn, WholeIsFormed};

/// An item that comes again before items among which it stands changes nothing of what they leave. So a slot that fits
/// its feed fits it with the next item, after going back, and once the feed is longer, and at the end is what the feed
/// leaves. A lane's part of a feed has its effects on the lane's own `_id`s and no other, and an item's number in it is
/// its position. What is read next is what stands behind what was read.
pub fn feed_laws()
    ensures absorbs { Absorbs }
    ensures fits { GoesOnFitting }
    ensures formed { WholeIsFormed }
    ensures lanes { PartsByLane }
    ensures reads { ReadsOn }
{}
