//! Laws of recipients, each a contract of a function that does nothing.

ghost use Rattle.resh_place.specs.Laws.{CutsStand, NotesDecide, OutputsAreParts, PartsStand, TakeTheirParts};

/// Lanes at the ends of all feeds hold the recipient's part of the collection, each of them its own `_id`s alone. A
/// document waits exactly where a clash stands, and where none does the outputs together are the part, and what the
/// shard has once it has installed them.
pub fn part_laws()
    ensures taken { TakeTheirParts }
    ensures stands { PartsStand }
    ensures outputs { OutputsAreParts }
{}

/// Where each recipient noted the least `_id` that waits in its lanes, no note stands exactly where no clash does, the
/// first note is the first clash, and the mark that is decided by it may come.
pub fn note_laws()
    ensures { NotesDecide }
{}

/// Each piece that a link ever cut for a lane stands in the lane's part of its donor's feed, at its position.
pub fn cut_laws()
    ensures { CutsStand }
{}
