ghost use Rattle.std.specs.Prelude.{◌≡◌, [], length, OnOk, OnErr, IfOk};
ghost use Rattle.std.specs.Option.{option_copied};
ghost use Rattle.resh_value.specs.Change.{changed};
ghost use Rattle.resh_value.specs.Lookup.{field_of, with_field, without_field};
ghost use Rattle.resh_value.specs.Names.{HasRisingNames};

use crate::memory::NoMemory;
use crate::pairs::{edit_pairs, put_pair, take_pair};
use crate::places::place_of;
use crate::words::Words;
use std::alloc::Global;
use std::marker::Model;

/// Values under names, by rising name, which contracts see as the list of (name, value).
#[derive(Debug, Drop)]
pub struct Fields<T> {
    pairs: Vec<(Words, T)>,
}

impl<T> Model for Fields<T> {
    ghost use Rattle.std.specs.Prelude.{List, ℕ};
    ghost use Rattle.std.specs.Coded.{coded_list, coded×, coded_ℕ};

    ghost Value = { List (List ℕ × T) };

    ghost coded = { coded_list (coded× (coded_list coded_ℕ) T.code) };

    ghost use Rattle.resh_value.specs.Names.{HasRisingNames};

    ghost view = { λ d. d.pairs.items };

    ghost invariant = { λ d. HasRisingNames d.pairs.items };
}

impl<T> Fields<T> {
    /// No field yet; it keeps the allocator.
    pub fn new(alloc: Global) -> Fields<T>
        ensures { result ≡ [] }
    {
        Fields {
            pairs: Vec::new(alloc),
        }
    }

    /// The fields, whose names rise.
    pub(crate) fn from_pairs(pairs: Vec<(Words, T)>) -> Fields<T>
        requires { HasRisingNames pairs.items }
        ensures { result ≡ pairs.items }
    {
        Fields { pairs }
    }

    pub fn len(&self) -> u64
        ensures { result ≡ length self.now }
    {
        self.pairs.len() as u64
    }

    /// The fields by rising name.
    pub fn pairs(&self) -> &[(Words, T)]
        ensures fields { result.now ≡ self.now }
        ensures rising { HasRisingNames self.now }
    {
        self.pairs.as_slice()
    }

    pub(crate) fn alloc(&self) -> Global {
        *self.pairs.allocator()
    }

    /// The value under a name; `None` exactly where there is none.
    pub fn get(&self, name: &Words) -> Option<&T>
        ensures { option_copied result ≡ field_of self.now name.now }
    {
        self.get_by(name.as_str())
    }

    /// The value under a name that is given as a text.
    pub fn get_by(&self, name: &str) -> Option<&T>
        ensures found { option_copied result ≡ field_of self.now name.now }
        ensures rising { HasRisingNames self.now }
    {
        let pairs = self.pairs.as_slice();
        match place_of(pairs, name.as_bytes()) {
            Ok(place) => Some(&pairs[place].1),
            Err(_) => None,
        }
    }
}

impl<T: Drop> Fields<T> {
    /// Removes the fields of some names, then puts values. Want of memory leaves the fields as they were.
    pub(crate) fn edit(&mut self, unset: &[Words], assign: Fields<T>) -> Result<(), NoMemory>
        ensures ok { OnOk result (self.new ≡ changed assign unset.now self.old) }
        ensures unchanged { OnErr result (self.new ≡ self.old) }
    {
        edit_pairs(&mut self.pairs, unset, assign.pairs)
    }

    /// Puts a value under a name and gives the old one. Want of memory leaves the fields as they were.
    pub fn put(&mut self, name: Words, value: T) -> Result<Option<T>, NoMemory>
        ensures old { IfOk result (λ old. old ≡ field_of self.old name) }
        ensures ok { OnOk result (self.new ≡ with_field self.old name value) }
        ensures unchanged { OnErr result (self.new ≡ self.old) }
    {
        put_pair(&mut self.pairs, name, value)
    }

    /// Takes the value under a name out; `None` exactly where there is none.
    pub fn remove(&mut self, name: &Words) -> Option<T>
        ensures taken { result ≡ field_of self.old name.now }
        ensures rest { self.new ≡ without_field self.old name.now }
    {
        take_pair(&mut self.pairs, name)
    }
}
