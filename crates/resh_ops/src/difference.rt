//! The change that leads from one document to another.

ghost use Rattle.std.specs.Prelude.{◌≡◌, ◌++◌, [], ◌∷◌, ℕ, List, IfOk, OnOk, cond, false, is_none};
ghost use Rattle.std.specs.Option.{option_copied};
ghost use Rattle.resh_value.specs.Change.{is_named};
ghost use Rattle.resh_value.specs.Lookup.{field_of, with_field};
ghost use Rattle.resh_value.specs.Names.{HasRisingNames};
ghost use Rattle.resh_ops.specs.Changes.{LeadsTo, assigned, is_other, unset};

use resh_value::{Change, Document, Names, NoMemory, Value, Words};
use std::alloc::Global;

/// The change that leads from one document to another.
pub(crate) fn difference(
    alloc: Global,
    before: &Document,
    after: &Document,
) -> Result<Change, NoMemory>
    ensures leads { IfOk result (λ change. LeadsTo before.now after.now change.assign change.unset) }
    ensures rising { IfOk result (λ change. HasRisingNames change.assign) }
    ensures named { IfOk result (λ change. (name : List ℕ) → field_of after.now name ≡ field_of before.now name
        → is_named change.assign change.unset name ≡ false) }
{
    let assign = assigned(alloc, before, after)?;
    let unset = unset(alloc, before, after)?;
    Ok(Change { assign, unset })
}

// The fields of `after` that are new or have another value than before.
fn assigned(alloc: Global, before: &Document, after: &Document) -> Result<Document, NoMemory>
    ensures fields { IfOk result (λ d. d ≡ assigned before.now after.now) }
    ensures rising { HasRisingNames after.now }
{
    let mut assign = Document::new(alloc);
    for (name, value) in after.pairs() {
        assign_other(alloc, &mut assign, before, name, value)?;
    }
    Ok(assign)
}

fn assign_other(
    alloc: Global,
    assign: &mut Document,
    before: &Document,
    name: &Words,
    value: &Value,
) -> Result<(), NoMemory>
    ensures { OnOk result
        (assign.new ≡ cond (is_other (field_of before.now name.now) value.now)
        (with_field assign.old name.now value.now) assign.old) }
{
    if is_other(before.get(name), value) {
        let value = value.copy(alloc)?;
        assign.put(name.copy()?, value)?;
        return Ok(());
    }
    Ok(())
}

fn is_other(held: Option<&Value>, value: &Value) -> bool
    ensures { result ≡ is_other (option_copied held.entry) value.now }
{
    match held {
        Some(held) => held != value,
        None => true,
    }
}

// The names of the fields of `before` that are gone.
fn unset(alloc: Global, before: &Document, after: &Document) -> Result<Names, NoMemory>
    ensures names { IfOk result (λ names. names ≡ unset before.now after.now) }
    ensures rising { HasRisingNames before.now }
{
    let mut names = Vec::new(alloc);
    for (name, _) in before.pairs() {
        unset_missing(&mut names, after, name)?;
    }
    Ok(Names::from_vec(names))
}

fn unset_missing(names: &mut Vec<Words>, after: &Document, name: &Words) -> Result<(), NoMemory>
    ensures { OnOk result
        (names.new.items ≡ names.old.items ++ cond (is_none (field_of after.now name.now)) (name.now ∷ []) []) }
{
    if after.get(name).is_none() {
        names.push(name.copy()?)?;
        return Ok(());
    }
    Ok(())
}
