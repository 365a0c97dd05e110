//! Hashes of values and documents, which agree with their order.

ghost use Rattle.std.specs.Prelude.{◌≡◌};
ghost use Rattle.std.specs.Hash as fed;
ghost use Rattle.std.specs.List.{fold};
ghost use Rattle.resh_value.specs.Hash.{content_input_of, document_input, field_input, input_of};
ghost use Rattle.resh_value.specs.derived.HashLaws.{values_alike, documents_alike};

use crate::order::kind_of;
use crate::value::{Document, Value};
use crate::words::Words;
use std::hash::{Hash, Hasher};

// The kind, and then what the value holds.
#[cycle(hash)]
fn feed<H: Hasher>(value: &Value, state: &mut H)
    ensures { state.new ≡ fold H.write state.old (input_of value.now) }
{
    state.write_u8(kind_of(value));
    feed_content(value, state);
}

#[cycle(hash)]
fn feed_content<H: Hasher>(value: &Value, state: &mut H)
    ensures { state.new ≡ fold H.write state.old (content_input_of value.now) }
{
    match value {
        Value::Null => {}
        Value::Int(n) => n.hash(state),
        Value::Text(text) => text.hash(state),
        Value::Doc(document) => feed_document(document.pairs(), state),
        Value::List(items) => feed_items(items.as_slice(), state),
        Value::Oid(bytes) => bytes.hash(state),
        Value::Bool(truth) => truth.hash(state),
        Value::Date(n) => n.hash(state),
    }
}

// The length, and then each name and value.
#[cycle(hash)]
fn feed_document<H: Hasher>(fields: &[(Words, Value)], state: &mut H)
    ensures { state.new ≡ fold H.write state.old (document_input fields.now) }
{
    state.write_usize(fields.len());
    for i in 0..fields.len() {
        feed_field(&fields[i], state);
    }
}

#[cycle(hash)]
fn feed_field<H: Hasher>(field: &(Words, Value), state: &mut H)
    ensures { state.new ≡ fold H.write state.old (field_input input_of field.now) }
{
    let (name, value) = field;
    name.hash(state);
    feed(value, state);
}

// The length, and then each item.
#[cycle(hash)]
fn feed_items<H: Hasher>(items: &[Value], state: &mut H)
    ensures { state.new ≡ fold H.write state.old (fed.slice input_of items.now) }
{
    state.write_usize(items.len());
    for i in 0..items.len() {
        feed(&items[i], state);
    }
}

impl Hash for Value {
    ghost hash_input = { input_of };

    ghost respects_eq = { values_alike };

    fn hash<H: Hasher>(&self, state: &mut H) {
        feed(self, state);
    }
}

impl Hash for Document {
    ghost hash_input = { document_input };

    ghost respects_eq = { documents_alike };

    fn hash<H: Hasher>(&self, state: &mut H) {
        feed_document(self.pairs(), state);
    }
}
