//! Paths into a JSON value, as JSON Pointers.

ghost use Rattle.std.specs.Prelude.{◌≡◌, ◌≢◌, ◌++◌, IfOk, OnOk, flat_map, string_bytes, encode_utf8};
ghost use Rattle.resh_value.specs.Paths.{pointer_escape, to_name, to_place};

use crate::memory::NoMemory;
use crate::words::Words;
use std::alloc::{AllocError, Global};

/// The path to the member of a name, below `path`.
pub fn path_to_name(alloc: Global, path: &Words, name: &str) -> Result<Words, NoMemory>
    ensures { IfOk result (λ w. w ≡ path.now ++ to_name name.now) }
{
    let mut text = String::from_str(alloc, path.as_str())?;
    text.push_str("/")?;
    push_escaped(&mut text, name)?;
    Ok(Words::from_string(text))
}

/// The path to the item at a place, counted from 0, below `path`.
pub fn path_to_place(alloc: Global, path: &Words, place: u64) -> Result<Words, NoMemory>
    ensures { IfOk result (λ w. w ≡ path.now ++ to_place place) }
{
    let text = format!(in alloc; "{}/{place}", path.as_str())?;
    Ok(Words::from_string(text))
}

fn push_escaped(text: &mut String, name: &str) -> Result<(), AllocError>
    ensures { OnOk result (string_bytes text.new ≡ string_bytes text.old ++ flat_map pointer_escape name.now) }
{
    for c in name.chars() {
        push_escaped_char(text, c)?;
    }
    Ok(())
}

fn push_escaped_char(text: &mut String, c: char) -> Result<(), AllocError>
    ensures { OnOk result (string_bytes text.new ≡ string_bytes text.old ++ flat_map pointer_escape (encode_utf8 c)) }
{
    if c == '~' {
        return text.push_str("~0");
    }
    if c == '/' {
        return text.push_str("~1");
    }
    text.push(c)
}

/// Two texts as one.
pub(crate) fn joined(alloc: Global, first: &Words, rest: &Words) -> Result<Words, NoMemory>
    ensures { IfOk result (λ w. w ≡ first.now ++ rest.now) }
{
    let mut text = String::from_str(alloc, first.as_str())?;
    text.push_str(rest.as_str())?;
    Ok(Words::from_string(text))
}
