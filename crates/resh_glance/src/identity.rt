//! The `_id` of a document, which mostly is its first field.

ghost use Rattle.std.specs.Prelude.{◌≡◌, codes, unwrap_or};
ghost use Rattle.std.specs.Option.{option_copied};
ghost use Rattle.resh_value.specs.Lookup.{field_of};

use resh_value::{Document, Value};

/// The value under `_id`; `None` exactly where there is none. It is searched for only where it isn't the first field.
pub fn id(document: &Document) -> Option<&Value>
    ensures { option_copied result ≡ field_of document.now (codes "_id") }
{
    if let [(name, value), ..] = document.pairs() {
        if name.is("_id") {
            return Some(value);
        }
    }
    document.id()
}

/// The value under `_id`, and else this one.
pub fn id_or<'a>(document: &'a Document, other: &'a Value) -> &'a Value
    ensures { result.now ≡ unwrap_or (field_of document.now (codes "_id")) other.now }
{
    id(document).unwrap_or(other)
}
