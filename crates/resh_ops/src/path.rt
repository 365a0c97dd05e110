//! Paths into documents.

ghost use Rattle.std.specs.Prelude.{◌≡◌, [], IfOk, OnOk, unwrap_or};
ghost use Rattle.resh_value.specs.Lookup.{field_of, with_field};
ghost use Rattle.resh_value.specs.declared.value.Value.{Value};
ghost use Rattle.resh_ops.specs.Paths.{reach, reached, write, erase, embedded, dotted};

use resh_value::{Document, NoMemory, Value, Words};
use std::alloc::Global;

/// What a path reaches.
#[derive(Drop)]
pub(crate) enum Reached<'a> {
    Here(&'a Value),
    /// No field.
    Missing,
    /// A value on the way that is no document.
    Scalar,
}

/// Follows a path from a document.
pub(crate) fn reach<'a>(document: &'a Document, path: &[Words]) -> Reached<'a>
    ensures { reached result ≡ reach path.now document.now }
{
    match path {
        [] => Reached::Missing,
        [name] => match document.get(name) {
            Some(value) => Reached::Here(value),
            None => Reached::Missing,
        },
        [name, rest @ ..] => match document.get(name) {
            Some(Value::Doc(inner)) => reach(inner, rest),
            Some(_) => Reached::Scalar,
            None => Reached::Missing,
        },
    }
}

/// The document with a value at a path, where a field on the way that holds no document is replaced by one.
pub(crate) fn written(
    alloc: Global,
    mut document: Document,
    path: &[Words],
    value: Value,
) -> Result<Document, NoMemory>
    ensures { IfOk result (λ d. d ≡ write path.now value document) }
{
    match path {
        [] => Ok(document),
        [name] => {
            document.put(name.copy()?, value)?;
            Ok(document)
        }
        [name, rest @ ..] => {
            let inner = take_embedded(alloc, &mut document, name)?;
            let inner = written(alloc, inner, rest, value)?;
            document.put(name.copy()?, Value::Doc(inner))?;
            Ok(document)
        }
    }
}

/// The document without the field that a path reaches.
pub(crate) fn erased(
    alloc: Global,
    mut document: Document,
    path: &[Words],
) -> Result<Document, NoMemory>
    ensures { IfOk result (λ d. d ≡ erase path.now document) }
{
    match path {
        [] => Ok(document),
        [name] => {
            document.remove(name);
            Ok(document)
        }
        [name, rest @ ..] => {
            let inner = take_embedded(alloc, &mut document, name)?;
            let inner = erased(alloc, inner, rest)?;
            document.put(name.copy()?, Value::Doc(inner))?;
            Ok(document)
        }
    }
}

// Takes the document that a field holds, or an empty one; null stands in its place until the next put.
#[tactic(auto, using(crate::proofs::PathSteps::puts_again))]
fn take_embedded(alloc: Global, document: &mut Document, name: &Words) -> Result<Document, NoMemory>
    ensures taken { IfOk result (λ inner. inner ≡ unwrap_or (embedded (field_of document.old name.now)) []) }
    ensures place { OnOk result
        ((value : Value) → with_field document.new name.now value ≡ with_field document.old name.now value) }
{
    let old = document.put(name.copy()?, Value::Null)?;
    Ok(embedded_in(alloc, old))
}

// The document that a field held, or an empty one.
fn embedded_in(alloc: Global, field: Option<Value>) -> Document
    ensures { result ≡ unwrap_or (embedded field) [] }
{
    match field {
        Some(Value::Doc(document)) => document,
        Some(_) => Document::new(alloc),
        None => Document::new(alloc),
    }
}

/// A path's names, joined by dots.
pub fn dotted(alloc: Global, path: &[Words]) -> Result<Words, NoMemory>
    ensures { IfOk result (λ text. text ≡ dotted path.now) }
{
    match path {
        [] => Words::of(alloc, ""),
        [first, rest @ ..] => {
            let mut text = String::from_str(alloc, first.as_str())?;
            for name in rest {
                text.push_str(".")?;
                text.push_str(name.as_str())?;
            }
            Ok(Words::from_string(text))
        }
    }
}
