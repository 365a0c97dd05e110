//! The text of values and documents.

ghost use Rattle.std.specs.Prelude.{◌≡◌, ◌<◌, ◌/◌, ◌%◌, ◌==◌, if◌then◌else◌, [], ◌∷◌, ◌++◌, slice_index, IfOk, OnOk, map, codes, IsAscii};
ghost use Rattle.std.specs.Char.{digit_char};
ghost use Rattle.std.specs.Fmt.{signed_decimal};
ghost use Rattle.json.specs.Token.{string};
ghost use Rattle.json.specs.Print.{print, quoted};
ghost use Rattle.resh_value.specs.Text.{text_of, tokens_of, document_text, document_tokens, array_tokens, tag_tokens, hex_of};

use crate::fields::Fields;
use crate::memory::NoMemory;
use crate::value::{Items, Value};
use crate::words::Words;
use json::Writer;
use std::alloc::Global;

impl Value {
    /// Writes the tokens of the value.
    #[cycle(write)]
    #[tactic(auto, unfolding(crate::specs::Text::tokens_of))]
    pub fn write(&self, writer: &mut Writer) -> Result<(), NoMemory>
        ensures tokens { OnOk result (writer.new.tokens ≡ writer.old.tokens ++ tokens_of self.now) }
        ensures before { writer.new.before ≡ writer.old.before }
    {
        match self {
            Value::Doc(document) => document.write(writer),
            Value::List(items) => write_items(items, writer),
            Value::Oid(bytes) => write_oid(bytes, writer),
            Value::Date(n) => write_date(*n, writer),
            Value::Null => Ok(writer.null()?),
            Value::Int(n) => Ok(writer.i64(*n)?),
            Value::Text(text) => Ok(writer.string(text.as_str())?),
            Value::Bool(b) => Ok(writer.boolean(*b)?),
        }
    }

    /// The compact JSON text of the value.
    pub fn text(&self, alloc: Global) -> Result<Words, NoMemory>
        ensures { IfOk result (λ t. t ≡ text_of self.now) }
    {
        let mut writer = Writer::new(Vec::new(alloc));
        self.write(&mut writer)?;
        Ok(written_text(writer))
    }
}

impl Fields<Value> {
    /// Writes the tokens of the document.
    #[cycle(write)]
    pub fn write(&self, writer: &mut Writer) -> Result<(), NoMemory>
        ensures tokens { OnOk result (writer.new.tokens ≡ writer.old.tokens ++ document_tokens self.now) }
        ensures before { writer.new.before ≡ writer.old.before }
    {
        writer.begin_object()?;
        for (name, value) in self.pairs() {
            writer.key(name.as_str())?;
            value.write(writer)?;
        }
        writer.end_object()?;
        Ok(())
    }

    /// The compact JSON text of the document.
    pub fn text(&self, alloc: Global) -> Result<Words, NoMemory>
        ensures { IfOk result (λ t. t ≡ document_text self.now) }
    {
        let mut writer = Writer::new(Vec::new(alloc));
        self.write(&mut writer)?;
        Ok(written_text(writer))
    }

    /// The compact JSON text of the document, behind what `out` holds.
    pub fn append_text(&self, out: Vec<u8>) -> Result<Vec<u8>, NoMemory>
        ensures { IfOk result (λ bytes. bytes.items ≡ out.items ++ document_text self.now) }
    {
        let mut writer = Writer::new(out);
        self.write(&mut writer)?;
        Ok(writer.into_inner())
    }
}

/// A text as a JSON string, behind what `out` holds.
#[tactic(auto, unfolding(json::specs::Print::print_from))]
pub fn append_quoted(out: Vec<u8>, text: &str) -> Result<Vec<u8>, NoMemory>
    ensures { IfOk result (λ bytes. bytes.items ≡ out.items ++ quoted text.now) }
{
    let mut writer = Writer::new(out);
    writer.string(text)?;
    Ok(writer.into_inner())
}

fn written_text(writer: Writer) -> Words
    requires { writer.before ≡ [] }
    ensures { result ≡ print writer.tokens }
{
    match String::from_utf8(writer.into_inner()) {
        Ok(text) => Words::from_string(text),
        Err(_) => unreachable!(),
    }
}

#[cycle(write)]
fn write_items(items: &Items, writer: &mut Writer) -> Result<(), NoMemory>
    ensures tokens { OnOk result (writer.new.tokens ≡ writer.old.tokens ++ array_tokens (map tokens_of items.now)) }
    ensures before { writer.new.before ≡ writer.old.before }
{
    writer.begin_array()?;
    for item in items.as_slice() {
        item.write(writer)?;
    }
    writer.end_array()?;
    Ok(())
}

fn write_oid(bytes: &[u8; 12], writer: &mut Writer) -> Result<(), NoMemory>
    ensures tokens { OnOk result
        (writer.new.tokens ≡ writer.old.tokens ++ tag_tokens (codes "$oid") (string (hex_of bytes.now) ∷ [])) }
    ensures before { writer.new.before ≡ writer.old.before }
{
    let digits = hex_of(bytes);
    match str::from_utf8(&digits) {
        Ok(text) => write_oid_text(text, writer),
        Err(_) => unreachable!(),
    }
}

fn write_oid_text(text: &str, writer: &mut Writer) -> Result<(), NoMemory>
    ensures tokens { OnOk result
        (writer.new.tokens ≡ writer.old.tokens ++ tag_tokens (codes "$oid") (string text.now ∷ [])) }
    ensures before { writer.new.before ≡ writer.old.before }
{
    writer.begin_object()?;
    writer.key("$oid")?;
    writer.string(text)?;
    writer.end_object()?;
    Ok(())
}

fn hex_of(bytes: &[u8; 12]) -> [u8; 24]
    ensures value { result ≡ hex_of bytes.now }
    ensures ascii { IsAscii result }
{
    let mut digits = [0u8; 24];
    for place in 0..24 {
        digits[place] = digit_at(bytes, place);
    }
    digits
}

fn digit_at(bytes: &[u8; 12], place: usize) -> u8
    requires { place < 24 }
    ensures value { result
        ≡ (if place % 2 == 0 then digit_char (slice_index bytes.now (place / 2) / 16) else digit_char
        (slice_index bytes.now (place / 2) % 16)) }
    ensures ascii { result < 128 }
{
    let byte = bytes[place / 2];
    if place % 2 == 0 {
        hex_digit(byte / 16)
    } else {
        hex_digit(byte % 16)
    }
}

fn hex_digit(n: u8) -> u8
    requires { n < 16 }
    ensures value { result ≡ digit_char n }
    ensures ascii { result < 128 }
{
    if n < 10 { b'0' + n } else { b'a' + (n - 10) }
}

fn write_date(n: i64, writer: &mut Writer) -> Result<(), NoMemory>
    ensures tokens { OnOk result
        (writer.new.tokens ≡ writer.old.tokens
        ++ tag_tokens (codes "$date") (tag_tokens (codes "$numberLong") (string (signed_decimal n) ∷ []))) }
    ensures before { writer.new.before ≡ writer.old.before }
{
    writer.begin_object()?;
    writer.key("$date")?;
    writer.begin_object()?;
    writer.key("$numberLong")?;
    writer.quoted_i64(n)?;
    writer.end_object()?;
    writer.end_object()?;
    Ok(())
}
