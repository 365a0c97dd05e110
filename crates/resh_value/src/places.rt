//! The search for a name among fields by rising name.

ghost use Rattle.std.specs.Prelude.{◌≡◌, MatchResult};
ghost use Rattle.resh_value.specs.Lookup.{StandsAt, GoesTo};
ghost use Rattle.resh_value.specs.Names.{HasRisingNames};

use crate::words::Words;
use std::cmp::Ordering;

/// The place of a name's field, or else the one where it would be put.
pub(crate) fn place_of<T>(pairs: &[(Words, T)], name: &[u8]) -> Result<usize, usize>
    requires { HasRisingNames pairs.now }
    ensures { MatchResult result (StandsAt pairs.now name.now) (GoesTo pairs.now name.now) }
{
    let mut low = 0;
    let mut high = pairs.len();
    while low < high {
        let middle = low + (high - low) / 2;
        match name.cmp(pairs[middle].0.as_bytes()) {
            Ordering::Equal => return Ok(middle),
            Ordering::Less => high = middle,
            Ordering::Greater => low = middle + 1,
        }
    }
    Err(low)
}
