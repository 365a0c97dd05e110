//! The law of a shard's write, a contract of a function that does nothing.

ghost use Rattle.resh_write_rows.specs.Laws.{WriteKeeps};

use resh_fetcher::link_laws;

/// A shard that isn't blocked keeps the invariant by a write of what it holds, later than its clock, whose documents are
/// its own.
pub fn write_row_laws()
    ensures { WriteKeeps }
{
    link_laws();
}
