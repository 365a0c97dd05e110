//! Laws of the rows of the coordinator, a contract of a function that does nothing.

ghost use Rattle.resh_control_rows.specs.Laws.{ControlRowsKeep};

use resh_fetcher::link_laws;

/// A begin, each phase that is left but for those before the fetch time and the mark, a report, a failure and a drop
/// keep the invariant.
pub fn control_row_laws()
    ensures { ControlRowsKeep }
{
    link_laws();
}
