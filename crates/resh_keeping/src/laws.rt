//! Laws of clusters, each a contract of a function that does nothing.

ghost use Rattle.resh_keeping.specs.Laws.{ClocksKeep, Keeps, Opens};

/// A cluster is of its setup at its opening, after every event, whatever the event met, and when clocks are set.
pub fn keeping_laws()
    ensures opens { Opens }
    ensures keeps { Keeps }
    ensures clocks { ClocksKeep }
{}
