//! Changes of a document's top-level fields.

ghost use Rattle.std.specs.Prelude.{◌≡◌, IsTrue, false, OnOk, OnErr, IfOk, IfSome, IfNone, codes, is_some};
ghost use Rattle.resh_value.specs.Change.{changed, is_among, is_named};
ghost use Rattle.resh_value.specs.Lookup.{field_of};
ghost use Rattle.resh_value.specs.Names.{HasRisingNames};

use crate::fields::Fields;
use crate::memory::NoMemory;
use crate::value::{Document, Names, Value};
use crate::words::Words;
use std::alloc::Global;

/// Values that top-level fields get, and the names of the fields that go. No name is in both.
#[derive(Debug, Drop)]
pub struct Change {
    pub assign: Document,
    pub unset: Names,
    ghost apart: { IsTrue (are_apart assign unset) },
}

ghost use Rattle.resh_value.specs.Change.{are_apart};

impl Change {
    /// A change of these values and names; `None` exactly where a name is in both.
    pub fn new(assign: Document, unset: Names) -> Option<Change>
        ensures none { IfNone result (are_apart assign unset ≡ false) }
        ensures some { IfSome result (λ change. (change.assign ≡ assign) × (change.unset ≡ unset)) }
    {
        if have_no_common_name(&assign, &unset) {
            Some(Change { assign, unset })
        } else {
            None
        }
    }

    /// Whether the change assigns or unsets the field of a name.
    pub fn names(&self, name: &Words) -> bool
        ensures named { result ≡ is_named self.now.assign self.now.unset name.now }
        ensures rising { HasRisingNames self.now.assign }
    {
        self.names_text(name.as_str())
    }

    /// Whether the change assigns or unsets `_id`.
    pub fn names_id(&self) -> bool
        ensures named { result ≡ is_named self.now.assign self.now.unset (codes "_id") }
        ensures rising { HasRisingNames self.now.assign }
    {
        self.names_text("_id")
    }

    fn names_text(&self, name: &str) -> bool
        ensures named { result ≡ is_named self.now.assign self.now.unset name.now }
        ensures rising { HasRisingNames self.now.assign }
    {
        is_assigned(&self.assign, name) || is_among(&self.unset, name)
    }

    /// A change with the same values and names, each on its own allocator.
    pub fn copy(&self, _alloc: Global) -> Result<Change, NoMemory>
        ensures { IfOk result (λ change. change ≡ self.now) }
    {
        let assign = self.assign.copy()?;
        let unset = self.unset.copy()?;
        Ok(Change { assign, unset })
    }
}

impl Fields<Value> {
    /// Removes the fields that `change` unsets and assigns its values. Want of memory leaves the document as it was.
    pub fn apply_change(&mut self, change: &Change) -> Result<(), NoMemory>
        ensures ok { OnOk result (self.new ≡ changed change.now.assign change.now.unset self.old) }
        ensures unchanged { OnErr result (self.new ≡ self.old) }
    {
        let assign = change.assign.copy()?;
        self.edit(change.unset.as_slice(), assign)
    }
}

fn is_assigned(assign: &Document, name: &str) -> bool
    ensures assigned { result ≡ is_some (field_of assign.now name.now) }
    ensures rising { HasRisingNames assign.now }
{
    assign.get_by(name).is_some()
}

fn is_among(names: &Names, name: &str) -> bool
    ensures { result ≡ is_among names.now name.now }
{
    names
        .as_slice()
        .iter()
        .any(|other| name.cmp(other.as_str()).is_eq())
}

fn have_no_common_name(assign: &Document, unset: &Names) -> bool
    ensures { result ≡ are_apart assign.now unset.now }
{
    unset
        .as_slice()
        .iter()
        .all(|name| assign.get(name).is_none())
}
