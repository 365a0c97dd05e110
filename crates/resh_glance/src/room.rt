//! Room that suffices for the text of a value. Each count stops at 2^64 - 1.

ghost use Rattle.std.specs.Prelude.{◌≤◌, ◌∷◌, [], map, codes};
ghost use Rattle.std.specs.Fmt.{signed_decimal};
ghost use Rattle.json.specs.Token.{key, string, number};
ghost use Rattle.resh_value.specs.Text.{tokens_of, document_tokens, array_tokens, tag_tokens, hex_of};
ghost use Rattle.resh_glance.specs.Room.{Covers};

use resh_value::{Document, Items, Value, Words};

/// The most bytes that a byte of a text gets, as in `\u0000`.
const ESCAPED: u64 = 6;
/// A pair of brackets, each with a comma.
const BRACKETS: u64 = 4;
/// `null` and a comma.
const NULL: u64 = 5;
/// `false` and a comma.
const BOOL: u64 = 6;
/// An `$oid` around its digits, with quotes and commas.
const OID_FRAME: u64 = 15;
/// A `$date` and a `$numberLong` around a number, with quotes and commas.
const DATE_FRAME: u64 = 35;

/// Room for a document and a comma.
#[cycle(room)]
pub(crate) fn document_room(document: &Document) -> u64
    ensures { Covers result (document_tokens document.now) }
{
    let mut room = BRACKETS;
    for (name, value) in document.pairs() {
        room = room.saturating_add(key_room(name));
        room = room.saturating_add(value_room(value));
    }
    room
}

#[cycle(room)]
fn items_room(items: &Items) -> u64
    ensures { Covers result (array_tokens (map tokens_of items.now)) }
{
    let mut room = BRACKETS;
    for item in items.as_slice() {
        room = room.saturating_add(value_room(item));
    }
    room
}

#[cycle(room)]
#[tactic(auto, unfolding(resh_value::specs::Text::tokens_of))]
fn value_room(value: &Value) -> u64
    ensures { Covers result (tokens_of value.now) }
{
    match value {
        Value::Doc(document) => document_room(document),
        Value::List(items) => items_room(items),
        Value::Text(text) => text_room(text),
        Value::Int(n) => int_room(*n),
        Value::Oid(bytes) => oid_room(bytes),
        Value::Date(n) => date_room(*n),
        Value::Null => NULL,
        Value::Bool(_) => BOOL,
    }
}

/// A name with its quotes, a colon and a comma.
fn key_room(name: &Words) -> u64
    ensures { Covers result (key name.now ∷ []) }
{
    let length = name.as_bytes().len() as u64;
    length.saturating_mul(ESCAPED).saturating_add(4)
}

/// A text with its quotes and a comma.
fn text_room(text: &Words) -> u64
    ensures { Covers result (string text.now ∷ []) }
{
    let length = text.as_bytes().len() as u64;
    length.saturating_mul(ESCAPED).saturating_add(3)
}

/// A number of up to nineteen digits with its sign and a comma.
fn int_room(n: i64) -> u64
    ensures covers { Covers result (number (signed_decimal n) ∷ []) }
    ensures small { result ≤ 21 }
{
    if n < 0 { 21 } else { 20 }
}

/// Two digits for each byte.
fn oid_room(bytes: &[u8; 12]) -> u64
    ensures { Covers result (tag_tokens (codes "$oid") (string (hex_of bytes.now) ∷ [])) }
{
    bytes.len() as u64 * 2 * ESCAPED + OID_FRAME
}

fn date_room(n: i64) -> u64
    ensures { Covers result
        (tag_tokens (codes "$date") (tag_tokens (codes "$numberLong") (string (signed_decimal n) ∷ []))) }
{
    int_room(n) * ESCAPED + DATE_FRAME
}
