ghost use Rattle.std.specs.Prelude.{◌≡◌, ◌<◌, ◌^◌, [], ◌∷◌, ◌++◌, length, slice_get, ◌↔◌, IsTrue, IfErr, MatchOption, OnOk, OnErr};
ghost use Rattle.std.specs.Option.{option_copied};
ghost use Rattle.std.specs.Hash as fed;
ghost use Rattle.std.specs.Hash.{items_Alike};
ghost use Rattle.std.specs.Cmp.Lexicographic.{pointwise, slice_cmp, slice_partial_cmp, lists_agrees, lists_equiv, lists_per, lists_po, lists_ties, lists_total};

use std::alloc::Global;
use std::cmp::Ordering;
use std::hash::{Hash, Hasher};
use std::marker::Model;

/// A list that contracts see as the list of its items, so that a copy equals what it copies.
#[derive(Debug, Drop)]
pub struct Sequence<T> {
    items: Vec<T>,
}

impl<T> Model for Sequence<T> {
    ghost use Rattle.std.specs.Prelude.{List};
    ghost use Rattle.std.specs.Coded.{coded_list};

    ghost Value = { List T };

    ghost coded = { coded_list T.code };

    ghost view = { λ s. s.items.items };
}

impl<T> Sequence<T> {
    /// An empty list, which keeps the allocator.
    pub fn new(alloc: Global) -> Sequence<T>
        ensures { result ≡ [] }
    {
        Sequence {
            items: Vec::new(alloc),
        }
    }

    pub fn from_vec(items: Vec<T>) -> Sequence<T>
        ensures { result ≡ items.items }
    {
        Sequence { items }
    }

    pub fn into_vec(self) -> Vec<T>
        ensures { result.items ≡ self }
    {
        let Sequence { items } = self;
        items
    }

    pub(crate) fn alloc(&self) -> Global {
        *self.items.allocator()
    }

    pub fn as_slice(&self) -> &[T]
        ensures { result.now ≡ self.now }
    {
        self.items.as_slice()
    }

    pub fn is_empty(&self) -> bool
        ensures { IsTrue result ↔ (self.now ≡ []) }
    {
        self.items.is_empty()
    }

    /// The number of items.
    pub fn len(&self) -> u64
        ensures { result ≡ length self.now }
    {
        self.items.len() as u64
    }

    /// The item at a place, counted from 0; `None` exactly where there is none.
    pub fn get(&self, place: u64) -> Option<&T>
        ensures { option_copied result ≡ slice_get self.now place }
    {
        self.items.get(place as usize)
    }

    /// Puts an item at the end. Want of memory hands it back and leaves the list as it was.
    pub fn push(&mut self, item: T) -> Result<(), T>
        ensures ok { OnOk result (self.new ≡ self.old ++ item ∷ []) }
        ensures unchanged { OnErr result (self.new ≡ self.old) }
        ensures handed_back { IfErr result (λ back. back ≡ item) }
    {
        match self.items.push(item) {
            Ok(()) => Ok(()),
            Err(failed) => Err(failed.value),
        }
    }

    /// Takes the last item out; `None` exactly where the list is empty.
    pub fn pop(&mut self) -> Option<T>
        ensures { MatchOption result ((self.old ≡ []) × (self.new ≡ [])) (λ last. self.old ≡ self.new ++ last ∷ []) }
    {
        self.items.pop()
    }
}

impl<T: PartialEq> PartialEq for Sequence<T> {
    ghost eq = { pointwise T.eq };

    ghost laws = { lists_per T.laws };

    fn eq(&self, other: &Sequence<T>) -> bool {
        self.items == other.items
    }
}

impl<T: Eq> Eq for Sequence<T> {
    ghost laws = { lists_equiv T.Eq.laws };
}

impl<T: PartialOrd> PartialOrd for Sequence<T> {
    ghost partial_cmp = { slice_partial_cmp T.partial_cmp };

    ghost laws = { lists_po T.PartialOrd.laws };

    fn partial_cmp(&self, other: &Sequence<T>) -> Option<Ordering> {
        self.items.partial_cmp(&other.items)
    }
}

/// Lists are compared item by item, and the one that ends first is less.
impl<T: Ord> Ord for Sequence<T> {
    ghost cmp = { slice_cmp T.cmp };

    ghost total = { lists_total T.total };

    ghost matches_partial_cmp = { lists_agrees T.matches_partial_cmp };

    ghost matches_eq = { lists_ties T.cmp T.matches_eq };

    fn cmp(&self, other: &Sequence<T>) -> Ordering {
        self.items.cmp(&other.items)
    }
}

impl<T: Hash> Hash for Sequence<T> {
    ghost hash_input = { fed.slice T.hash_input };

    ghost respects_eq = { (items_Alike (record { fed = T.respects_eq })).fed };

    fn hash<H: Hasher>(&self, state: &mut H) {
        self.items.hash(state);
    }
}
