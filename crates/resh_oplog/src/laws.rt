//! Laws of logs, as the contract of a function that does nothing.

ghost use Rattle.resh_oplog.specs.Laws.{ReadsLater, SaysFit, SaysWhole};

/// Which contents are whole, which entry may come next, and that what is read past the last mark of a time is later.
pub fn log_laws()
    ensures whole { SaysWhole }
    ensures fits { SaysFit }
    ensures later { ReadsLater }
{}
