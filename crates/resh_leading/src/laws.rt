//! Laws of what leads a sweep on, each a contract of a function that does nothing.

ghost use Rattle.resh_leading.specs.Laws.{FeedsAreFew, OpensLeading, StaysLeading};

/// The opening state leads on, and so does a cluster after an event.
pub fn leads_on()
    ensures opens { OpensLeading }
    ensures stays { StaysLeading }
{}

/// No feed has more items than the setup's documents and commands can make.
pub fn feeds_are_few()
    ensures { FeedsAreFew }
{}
