//! What holds of every link, as the contract of a function that does nothing.

ghost use Rattle.resh_fetcher.specs.Conditions.{FitsByTest, MayByTest};
ghost use Rattle.resh_fetcher.specs.Laws.{StandsOn};

/// The tests of what may come next say what they are meant to. A link stands in its feed, which is what is kept, what
/// is out, what is in the buffer and the rest; each call leaves it standing there, and what it gets next is the next of
/// the rest.
pub fn link_laws()
    ensures may { MayByTest }
    ensures fits { FitsByTest }
    ensures stands { StandsOn }
{}
