//! Pieces of text, each put behind what is written already.

ghost use Rattle.std.specs.Prelude.{◌≡◌, [], ◌∷◌, ◌++◌, codes, decimal, IfOk};
ghost use Rattle.resh_value.specs.Text.{text_of};
ghost use Rattle.resh_report.specs.Lines.{line, name_at, names_of};

use resh_setup::Client;
use resh_value::{NoMemory, Value, Words};

/// Writes a text as it stands.
pub(crate) fn append(mut out: Vec<u8>, text: &str) -> Result<Vec<u8>, NoMemory>
    ensures { IfOk result (λ bytes. bytes.items ≡ out.items ++ text.now) }
{
    out.extend_from_slice(text.as_bytes())?;
    Ok(out)
}

/// Writes a line of this text.
pub(crate) fn append_line(out: Vec<u8>, text: &str) -> Result<Vec<u8>, NoMemory>
    ensures { IfOk result (λ bytes. bytes.items ≡ out.items ++ line text.now) }
{
    append_line_feed(append(out, text)?)
}

pub(crate) fn append_line_feed(mut out: Vec<u8>) -> Result<Vec<u8>, NoMemory>
    ensures { IfOk result (λ bytes. bytes.items ≡ out.items ++ 10 ∷ []) }
{
    out.push(b'\n')?;
    Ok(out)
}

/// Writes a number's decimal digits.
pub(crate) fn append_number(out: Vec<u8>, number: u64) -> Result<Vec<u8>, NoMemory>
    ensures { IfOk result (λ bytes. bytes.items ≡ out.items ++ decimal number) }
{
    let digits = format!(in *out.allocator(); "{number}")?;
    append(out, digits.as_str())
}

/// Writes a space and a number.
pub(crate) fn append_spaced(out: Vec<u8>, number: u64) -> Result<Vec<u8>, NoMemory>
    ensures { IfOk result (λ bytes. bytes.items ≡ out.items ++ codes " " ++ decimal number) }
{
    append_number(append(out, " ")?, number)
}

/// Writes the name at a place, or nothing where there is none.
pub(crate) fn append_name(out: Vec<u8>, names: &[Words], place: usize) -> Result<Vec<u8>, NoMemory>
    ensures { IfOk result (λ bytes. bytes.items ≡ out.items ++ name_at names.now place) }
{
    match names.get(place) {
        Some(name) => append(out, name.as_str()),
        None => Ok(out),
    }
}

/// Writes the name of the client at a place, or nothing where there is none.
pub(crate) fn append_client_name(
    out: Vec<u8>,
    clients: &[Client],
    place: usize,
) -> Result<Vec<u8>, NoMemory>
    ensures { IfOk result (λ bytes. bytes.items ≡ out.items ++ name_at (names_of clients.now) place) }
{
    match clients.get(place) {
        Some(client) => append(out, client.name.as_str()),
        None => Ok(out),
    }
}

/// Writes a value's compact JSON text.
pub(crate) fn append_value(out: Vec<u8>, value: &Value) -> Result<Vec<u8>, NoMemory>
    ensures { IfOk result (λ bytes. bytes.items ≡ out.items ++ text_of value.now) }
{
    let text = value.text(*out.allocator())?;
    append(out, text.as_str())
}
