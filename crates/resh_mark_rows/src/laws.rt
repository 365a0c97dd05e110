//! Laws of the rows that decide the fetch time and the mark, each a contract of a function that does nothing.

ghost use Rattle.resh_mark_rows.specs.Laws.{ConsistentStand, MarkRowsKeep};

/// Where the coordinator leaves the phase of preparing, and where it leaves the blocking of writes, the invariant is
/// kept, and the mark that is decided may come.
pub fn mark_row_laws()
    ensures { MarkRowsKeep }
{}

/// From its report that it is consistent up to the mark, a recipient's outputs and stashes stand for its parts of the
/// collection by old owner, and a document waits exactly where a clash stands.
pub fn consistent_laws()
    ensures { ConsistentStand }
{}
