ghost use Rattle.std.specs.Prelude.{◌≡◌, None, Some, IfOk, MatchResult};
ghost use Rattle.resh_value.specs.Names.{same_name};
ghost use Rattle.resh_chunks.specs.Pattern.{pattern_fault};

use crate::faults::PatternFault;
use resh_value::{Names, NoMemory, Words};
use std::marker::Model;

/// A shard key has at most so many fields.
pub(crate) const MOST_NAMES: usize = 3;

/// The names of a shard key's fields, one to three and distinct, which contracts see as the list of them.
#[derive(Debug, Drop)]
pub struct KeyPattern {
    names: Names,
}

impl Model for KeyPattern {
    ghost use Rattle.std.specs.Prelude.{◌≡◌, List, ℕ, None};

    ghost Value = { List (List ℕ) };

    ghost use Rattle.resh_chunks.specs.Pattern.{pattern_fault};

    ghost view = { λ p. p.names };

    ghost invariant = { λ p. pattern_fault p.names ≡ None };
}

impl KeyPattern {
    /// The pattern of these names, or the first fault: their number, then the first name that is repeated.
    pub fn new(names: Names) -> Result<KeyPattern, PatternFault>
        ensures { MatchResult result (λ p. (p ≡ names) × (pattern_fault names ≡ None))
            (λ f. pattern_fault names ≡ Some f) }
    {
        match fault_of(names.as_slice()) {
            Some(fault) => Err(fault),
            None => Ok(KeyPattern { names }),
        }
    }

    pub fn names(&self) -> &Names
        ensures names { result.now ≡ self.now }
        ensures valid { pattern_fault self.now ≡ None }
    {
        &self.names
    }

    pub fn copy(&self) -> Result<KeyPattern, NoMemory>
        ensures { IfOk result (λ p. p ≡ self.now) }
    {
        Ok(KeyPattern {
            names: self.names.copy()?,
        })
    }
}

fn fault_of(names: &[Words]) -> Option<PatternFault>
    ensures { result ≡ pattern_fault names.now }
{
    match names {
        [_] => None,
        [first, second] => {
            if same(second, first) {
                return Some(PatternFault::Repeated { place: 1 });
            }
            None
        }
        [first, second, third] => {
            if same(second, first) {
                return Some(PatternFault::Repeated { place: 1 });
            }
            if same(third, first) || same(third, second) {
                return Some(PatternFault::Repeated { place: 2 });
            }
            None
        }
        others => Some(PatternFault::Count {
            got: others.len() as u64,
        }),
    }
}

fn same(a: &Words, b: &Words) -> bool
    ensures { result ≡ same_name a.now b.now }
{
    a.as_bytes() == b.as_bytes()
}
