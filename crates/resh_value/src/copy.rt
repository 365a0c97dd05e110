//! Copies that contracts see as equal.

ghost use Rattle.std.specs.Prelude.{◌≡◌, IfOk};

use crate::change::Change;
use crate::fields::Fields;
use crate::memory::NoMemory;
use crate::sequence::Sequence;
use crate::value::{Document, Items, ShardId, Value};
use crate::words::Words;
use std::alloc::Global;

/// A value that can be copied where memory is found.
pub trait Copied: Drop + Sized {
    fn copied(&self, alloc: Global) -> Result<Self, NoMemory>
        ensures { IfOk result (λ c. c ≡ self.now) };
}

impl Copied for Words {
    fn copied(&self, _alloc: Global) -> Result<Words, NoMemory> {
        self.copy()
    }
}

impl Copied for Value {
    fn copied(&self, alloc: Global) -> Result<Value, NoMemory> {
        self.copy(alloc)
    }
}

impl Copied for Fields<Value> {
    fn copied(&self, _alloc: Global) -> Result<Document, NoMemory> {
        self.copy()
    }
}

impl<T: Copied> Copied for Sequence<T> {
    fn copied(&self, _alloc: Global) -> Result<Sequence<T>, NoMemory> {
        self.copy()
    }
}

impl Copied for Change {
    fn copied(&self, alloc: Global) -> Result<Change, NoMemory> {
        self.copy(alloc)
    }
}

impl<T: Copied> Copied for Option<T> {
    fn copied(&self, alloc: Global) -> Result<Option<T>, NoMemory> {
        match self {
            Some(value) => Ok(Some(value.copied(alloc)?)),
            None => Ok(None),
        }
    }
}

impl Copied for bool {
    fn copied(&self, _alloc: Global) -> Result<bool, NoMemory> {
        Ok(*self)
    }
}

impl Copied for u32 {
    fn copied(&self, _alloc: Global) -> Result<u32, NoMemory> {
        Ok(*self)
    }
}

impl Copied for u64 {
    fn copied(&self, _alloc: Global) -> Result<u64, NoMemory> {
        Ok(*self)
    }
}

impl Copied for i64 {
    fn copied(&self, _alloc: Global) -> Result<i64, NoMemory> {
        Ok(*self)
    }
}

impl Copied for ShardId {
    fn copied(&self, _alloc: Global) -> Result<ShardId, NoMemory> {
        Ok(*self)
    }
}

impl<T: Copied> Sequence<T> {
    /// A list of copies, on the list's own allocator.
    pub fn copy(&self) -> Result<Sequence<T>, NoMemory>
        ensures { IfOk result (λ s. s ≡ self.now) }
    {
        let alloc = self.alloc();
        let items = self.as_slice();
        let mut list = Vec::with_capacity(alloc, items.len())?;
        for item in items {
            list.push(item.copied(alloc)?)?;
        }
        Ok(Sequence::from_vec(list))
    }
}

impl Value {
    #[cycle(copies)]
    pub fn copy(&self, alloc: Global) -> Result<Value, NoMemory>
        ensures { IfOk result (λ v. v ≡ self.now) }
    {
        match self {
            Value::Null => Ok(Value::Null),
            Value::Int(n) => Ok(Value::Int(*n)),
            Value::Text(text) => Ok(Value::Text(text.copy()?)),
            Value::Doc(fields) => Ok(Value::Doc(fields.copy()?)),
            Value::List(items) => Ok(Value::List(copy_items(items)?)),
            Value::Oid(bytes) => Ok(Value::Oid(*bytes)),
            Value::Bool(b) => Ok(Value::Bool(*b)),
            Value::Date(n) => Ok(Value::Date(*n)),
        }
    }
}

#[cycle(copies)]
fn copy_items(items: &Items) -> Result<Items, NoMemory>
    ensures { IfOk result (λ s. s ≡ items.now) }
{
    let alloc = items.alloc();
    let items = items.as_slice();
    let mut copies = Vec::with_capacity(alloc, items.len())?;
    for item in items {
        copies.push(item.copy(alloc)?)?;
    }
    Ok(Sequence::from_vec(copies))
}

impl Fields<Value> {
    #[cycle(copies)]
    pub fn copy(&self) -> Result<Document, NoMemory>
        ensures { IfOk result (λ d. d ≡ self.now) }
    {
        let alloc = self.alloc();
        let pairs = self.pairs();
        let mut copies = Vec::with_capacity(alloc, pairs.len())?;
        for (name, value) in pairs {
            copies.push((name.copy()?, value.copy(alloc)?))?;
        }
        Ok(Fields::from_pairs(copies))
    }
}
