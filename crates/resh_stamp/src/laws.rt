//! Laws of stamps, marks and times, as the contract of a function that does nothing.

ghost use Rattle.resh_stamp.specs.Laws.{HasNext, IsStrictOrder, TimesEnd};
ghost use Rattle.resh_stamp.specs.Times.{mark_cmp, stamp_cmp};

/// Stamps and marks are totally ordered, and no two are alike. What stands above the last mark of a time is later. An
/// event has a time exactly where each clock is before the end of time.
pub fn stamp_laws()
    ensures stamps { IsStrictOrder stamp_cmp }
    ensures marks { IsStrictOrder mark_cmp }
    ensures times_end { TimesEnd }
    ensures has_next { HasNext }
{}
