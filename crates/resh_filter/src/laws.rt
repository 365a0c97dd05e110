//! Laws of filters, each a contract of a function that does nothing.

ghost use Rattle.resh_filter.specs.Laws.{EmptyMatchesAll, MatchesByName, MatchesItself, MatchesOwnFields, NullIsMissing};

/// A filter matches by the values under its names: the empty one matches every document, one made of a document's own
/// fields matches it, and a null under a name that the document lacks may as well not be there.
pub fn filter_laws()
    ensures by_name { MatchesByName }
    ensures own_fields { MatchesOwnFields }
    ensures itself { MatchesItself }
    ensures null { NullIsMissing }
    ensures empty { EmptyMatchesAll }
{}
