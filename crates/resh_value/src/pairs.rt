//! Edits of pairs by rising name, each at the place that the search finds.

ghost use Rattle.std.specs.Prelude.{◌≡◌, ◌+◌, ◌<◌, ◌≤◌, length, vec_len, vec_capacity, OnOk, OnErr, IsOk, IfOk};
ghost use Rattle.resh_value.specs.Change.{changed, with_fields, without_fields};
ghost use Rattle.resh_value.specs.Lookup.{field_of, with_field, without_field};
ghost use Rattle.resh_value.specs.Names.{HasRisingNames};

use crate::memory::NoMemory;
use crate::places::place_of;
use crate::words::Words;
use std::mem::replace;

/// Puts a value under a name and gives the old one. It needs no memory where the list has room.
pub(crate) fn put_pair<T: Drop>(
    pairs: &mut Vec<(Words, T)>,
    name: Words,
    value: T,
) -> Result<Option<T>, NoMemory>
    requires { HasRisingNames pairs.old.items }
    ensures old { IfOk result (λ old. old ≡ field_of pairs.old.items name) }
    ensures ok { OnOk result (pairs.new.items ≡ with_field pairs.old.items name value) }
    ensures unchanged { OnErr result (pairs.new.items ≡ pairs.old.items) }
    ensures rising { HasRisingNames pairs.new.items }
    ensures room { vec_len pairs.old < vec_capacity pairs.old → IsOk result }
    ensures grown { vec_len pairs.new ≤ vec_len pairs.old + 1 }
    ensures capacity { vec_capacity pairs.old ≤ vec_capacity pairs.new }
{
    match place_of(pairs.as_slice(), name.as_bytes()) {
        Ok(place) => Ok(Some(replace(&mut pairs[place].1, value))),
        Err(place) => {
            pairs.insert(place, (name, value))?;
            Ok(None)
        }
    }
}

/// Takes the value under a name out; `None` exactly where there is none.
pub(crate) fn take_pair<T: Drop>(pairs: &mut Vec<(Words, T)>, name: &Words) -> Option<T>
    requires { HasRisingNames pairs.old.items }
    ensures taken { result ≡ field_of pairs.old.items name.now }
    ensures rest { pairs.new.items ≡ without_field pairs.old.items name.now }
    ensures rising { HasRisingNames pairs.new.items }
    ensures shrunk { vec_len pairs.new ≤ vec_len pairs.old }
    ensures capacity { vec_capacity pairs.new ≡ vec_capacity pairs.old }
{
    match place_of(pairs.as_slice(), name.as_bytes()) {
        Ok(place) => {
            let (_, value) = pairs.remove(place);
            Some(value)
        }
        Err(_) => None,
    }
}

/// Removes the pairs of some names, then puts values. Room is found first, so that want of memory leaves all pairs.
pub(crate) fn edit_pairs<T: Drop>(
    pairs: &mut Vec<(Words, T)>,
    unset: &[Words],
    assign: Vec<(Words, T)>,
) -> Result<(), NoMemory>
    requires { HasRisingNames pairs.old.items }
    ensures ok { OnOk result (pairs.new.items ≡ changed assign.items unset.now pairs.old.items) }
    ensures unchanged { OnErr result (pairs.new.items ≡ pairs.old.items) }
    ensures rising { HasRisingNames pairs.new.items }
{
    pairs.reserve(assign.len())?;
    take_pairs(pairs, unset);
    put_pairs(pairs, assign);
    Ok(())
}

#[tactic(auto, using(crate::proofs::ChangeLaws::without_one_more))]
fn take_pairs<T: Drop>(pairs: &mut Vec<(Words, T)>, names: &[Words])
    requires { HasRisingNames pairs.old.items }
    ensures rest { pairs.new.items ≡ without_fields pairs.old.items names.now }
    ensures rising { HasRisingNames pairs.new.items }
    ensures shrunk { vec_len pairs.new ≤ vec_len pairs.old }
    ensures capacity { vec_capacity pairs.new ≡ vec_capacity pairs.old }
{
    for name in names {
        take_pair(pairs, name);
    }
}

// There is room for each pair, so no put wants memory.
fn put_pairs<T: Drop>(pairs: &mut Vec<(Words, T)>, assign: Vec<(Words, T)>)
    requires rising { HasRisingNames pairs.old.items }
    requires room { vec_len pairs.old + vec_len assign ≤ vec_capacity pairs.old }
    ensures put { pairs.new.items ≡ with_fields pairs.old.items assign.items }
    ensures rising { HasRisingNames pairs.new.items }
{
    for (name, value) in assign {
        let _ = put_pair(pairs, name, value);
    }
}
