//! Laws of the rows of links, a contract of a function that does nothing.

ghost use Rattle.resh_link_rows.specs.Laws.{LinkRowsKeep};

use resh_fetcher::link_laws;

/// Each row of a link keeps the invariant where it may be made: a clone, a fetch, a cut and a record.
pub fn link_row_laws()
    ensures { LinkRowsKeep }
{
    link_laws();
}
