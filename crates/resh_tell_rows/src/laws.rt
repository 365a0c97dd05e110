//! Laws of the rows in which a shard is told something, a contract of a function that does nothing.

ghost use Rattle.resh_tell_rows.specs.Laws.{TellRowsKeep};

use resh_fetcher::link_laws;

/// A shard that is told to prepare, to donate, to block, to install or to release keeps the invariant, and so does a
/// message that comes again.
pub fn tell_row_laws()
    ensures { TellRowsKeep }
{
    link_laws();
}
