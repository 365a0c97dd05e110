//! The `_id` of a document.

ghost use Rattle.std.specs.Prelude.{◌≡◌, ◌↔◌, IsTrue, IfOk, codes, unwrap_or};
ghost use Rattle.std.specs.Option.{option_copied};
ghost use Rattle.resh_value.specs.Lookup.{field_of, id_of};
ghost use Rattle.resh_value.specs.Names.{HasRisingNames};
ghost use Rattle.resh_value.specs.Order.{is_same};
ghost use Rattle.resh_value.specs.Whole.{IsWhole, is_whole};

use crate::fields::Fields;
use crate::memory::NoMemory;
use crate::order::compare;
use crate::value::Value;
use std::alloc::Global;

impl Fields<Value> {
    /// The value by which the document is known on its shard; `None` exactly where it has none.
    pub fn id(&self) -> Option<&Value>
        ensures found { option_copied result ≡ field_of self.now (codes "_id") }
        ensures rising { HasRisingNames self.now }
    {
        self.get_by("_id")
    }

    /// The value under `_id`, and else this one.
    pub fn id_or<'a>(&'a self, other: &'a Value) -> &'a Value
        ensures { result.now ≡ unwrap_or (field_of self.now (codes "_id")) other.now }
    {
        self.get_by("_id").unwrap_or(other)
    }

    /// A copy of the value under `_id`; null where the document has none.
    pub fn copy_id(&self, alloc: Global) -> Result<Value, NoMemory>
        ensures { IfOk result (λ id. id ≡ id_of self.now) }
    {
        match self.id() {
            Some(id) => id.copy(alloc),
            None => Ok(Value::Null),
        }
    }

    /// Whether the document is one that can be stored: it has an `_id`. Its names rise in any case.
    #[tactic(auto, using(crate::proofs::WholeLaws::whole_by_id))]
    pub fn is_whole(&self) -> bool
        ensures value { result ≡ is_whole self.now }
        ensures exactly { IsTrue result ↔ IsWhole self.now }
    {
        self.id().is_some()
    }
}

impl Value {
    /// Whether both are the same value; equal `_id`s are one.
    pub fn is_same(&self, other: &Value) -> bool
        ensures value { result ≡ is_same self.now other.now }
        ensures exactly { IsTrue result ↔ (self.now ≡ other.now) }
    {
        compare(self, other).is_eq()
    }
}
