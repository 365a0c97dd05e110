//! Laws of the rows of lanes, a contract of a function that does nothing.

ghost use Rattle.resh_lane_rows.specs.Laws.{LaneRowsKeep};

use resh_fetcher::link_laws;

/// Each row of a lane keeps the invariant where it may be made: a piece that is applied, once or again, and a crash.
pub fn lane_row_laws()
    ensures { LaneRowsKeep }
{
    link_laws();
}
