//! Objects that stand for one value by their only name.

ghost use Rattle.std.specs.Prelude.{◌≡◌, ◌<◌, true, length, drop, slice_index, ◌==◌, option_map};
ghost use Rattle.std.specs.Char.{digit_value, is_ascii_digit, is_ascii_hexdigit};
ghost use Rattle.std.specs.List.{list_all};
ghost use Rattle.std.specs.Str.Parse.{starts_with_minus};
ghost use Rattle.serde_json.specs.View.{view, members_view};
ghost use Rattle.serde_json.specs.Data.{member, no_members};
ghost use Rattle.resh_value.specs.Tags.{tag_of, tagged, oid_in, whole_in, date_in, instant_of, oid_of, whole_of, bytes_of_hex, digits_of, is_numeral};

use crate::value::Value;
use serde_json::{Map, Value as Json};

/// What an object stands for: the outer answer is whether its only name is a tag's, the inner whether the content is.
pub(crate) fn tag_of(members: &Map<String, Json>) -> Option<Option<Value>>
    ensures { result ≡ tag_of (members_view members.now.entries) }
{
    if members.len() != 1 {
        return None;
    }
    match members.first_key_value() {
        Some((name, content)) => tagged(name.as_str(), content),
        None => None,
    }
}

fn tagged(name: &str, content: &Json) -> Option<Option<Value>>
    ensures { result ≡ tagged name.now (view content.now) }
{
    if name == "$oid" {
        return Some(oid_in(content));
    }
    if name == "$numberLong" {
        return Some(int_of(whole_in(content)));
    }
    if name == "$numberInt" {
        return Some(int_of(small_whole_in(content)));
    }
    if name == "$date" {
        return Some(date_in(content));
    }
    None
}

fn int_of(whole: Option<i64>) -> Option<Value>
    ensures { result ≡ option_map Value.Int whole }
{
    match whole {
        Some(n) => Some(Value::Int(n)),
        None => None,
    }
}

fn oid_in(content: &Json) -> Option<Value>
    ensures { result ≡ oid_in (view content.now) }
{
    match content.as_str() {
        Some(text) => oid_value(text),
        None => None,
    }
}

fn oid_value(text: &str) -> Option<Value>
    ensures { result ≡ option_map Value.Oid (oid_of text.now) }
{
    match oid_of(text) {
        Some(bytes) => Some(Value::Oid(bytes)),
        None => None,
    }
}

fn whole_in(content: &Json) -> Option<i64>
    ensures { result ≡ whole_in 63 (view content.now) }
{
    match content.as_str() {
        Some(text) => whole_of(text),
        None => None,
    }
}

fn small_whole_in(content: &Json) -> Option<i64>
    ensures { result ≡ whole_in 31 (view content.now) }
{
    match content.as_str() {
        Some(text) => small_whole_of(text),
        None => None,
    }
}

fn date_in(content: &Json) -> Option<Value>
    ensures { result ≡ date_in (view content.now) }
{
    match content.as_object() {
        Some(members) => instant_of(members),
        None => None,
    }
}

fn instant_of(members: &Map<String, Json>) -> Option<Value>
    ensures { result ≡ instant_of (members_view members.now.entries) }
{
    if members.len() != 1 {
        return None;
    }
    match members.first_key_value() {
        Some((name, content)) => instant_under(name.as_str(), content),
        None => None,
    }
}

fn instant_under(name: &str, content: &Json) -> Option<Value>
    ensures { result ≡ instant_of (member name.now (view content.now) no_members) }
{
    if name == "$numberLong" {
        return date_of(whole_in(content));
    }
    None
}

fn date_of(whole: Option<i64>) -> Option<Value>
    ensures { result ≡ option_map Value.Date whole }
{
    match whole {
        Some(n) => Some(Value::Date(n)),
        None => None,
    }
}

fn oid_of(text: &str) -> Option<[u8; 12]>
    ensures { result ≡ oid_of text.now }
{
    let digits = text.as_bytes();
    if digits.len() == 24 && has_hex_digits_alone(digits) {
        Some(bytes_of_hex(digits))
    } else {
        None
    }
}

fn has_hex_digits_alone(digits: &[u8]) -> bool
    ensures { result ≡ list_all is_ascii_hexdigit digits.now }
{
    digits.iter().all(|b| b.is_ascii_hexdigit())
}

fn bytes_of_hex(digits: &[u8]) -> [u8; 12]
    requires length { length digits.now ≡ 24 }
    requires hex { list_all is_ascii_hexdigit digits.now ≡ true }
    ensures { result ≡ bytes_of_hex digits.now }
{
    let mut bytes = [0u8; 12];
    for i in 0..12 {
        bytes[i] = hex_value(digits[2 * i]) * 16 + hex_value(digits[2 * i + 1]);
    }
    bytes
}

fn hex_value(digit: u8) -> u8
    requires { is_ascii_hexdigit digit ≡ true }
    ensures value { result ≡ digit_value digit }
    ensures small { result < 16 }
{
    if digit <= b'9' {
        digit - b'0'
    } else if digit <= b'F' {
        digit - b'A' + 10
    } else {
        digit - b'a' + 10
    }
}

fn whole_of(text: &str) -> Option<i64>
    ensures { result ≡ whole_of 63 text.now }
{
    if !is_numeral(digits_of(text.as_bytes())) {
        return None;
    }
    match text.parse::<i64>() {
        Ok(n) => Some(n),
        Err(_) => None,
    }
}

fn small_whole_of(text: &str) -> Option<i64>
    ensures { result ≡ whole_of 31 text.now }
{
    if !is_numeral(digits_of(text.as_bytes())) {
        return None;
    }
    match text.parse::<i32>() {
        Ok(n) => Some(i64::from(n)),
        Err(_) => None,
    }
}

fn digits_of(text: &[u8]) -> &[u8]
    ensures { result.now ≡ digits_of text.now }
{
    if !text.is_empty() && text[0] == b'-' {
        &text[1..]
    } else {
        text
    }
}

fn is_numeral(digits: &[u8]) -> bool
    ensures { result ≡ is_numeral digits.now }
{
    !digits.is_empty() && digits.len() <= 19 && has_digits_alone(digits)
}

fn has_digits_alone(digits: &[u8]) -> bool
    ensures { result ≡ list_all is_ascii_digit digits.now }
{
    digits.iter().all(|b| b.is_ascii_digit())
}
