//! Laws of the invariant, each a contract of a function that does nothing.

ghost use Rattle.resh_invariant.specs.Frames.{KeepsByCell};
ghost use Rattle.resh_invariant.specs.Laws.{OpensKept};

use resh_fetcher::link_laws;

/// The opening state of a valid setup keeps the invariant.
pub fn opening_laws()
    ensures { OpensKept }
{}

/// The invariant is kept where the cells of one kind change, if what is said of these is kept.
pub fn frame_laws()
    ensures { KeepsByCell }
{
    link_laws();
}
