//! The walk through a JSON value: kinds, names that aren't listed, and fields.

ghost use Rattle.std.specs.Prelude.{◌≡◌, map, option_map};
ghost use Rattle.std.specs.List.{list_any};
ghost use Rattle.serde_json.specs.Data.{Data};
ghost use Rattle.serde_json.specs.Find.{get_member};
ghost use Rattle.serde_json.specs.View.{view, number_view, members_view};
ghost use Rattle.resh_value.specs.Names.{same_name};
ghost use Rattle.resh_value.specs.Outcome.{Gives};
ghost use Rattle.resh_value.specs.Paths.{to_name};
ghost use Rattle.resh_value.specs.Walk.{at_step};
ghost use Rattle.resh_config.specs.Faults.{Read};
ghost use Rattle.resh_config.specs.Walk.{GivesSeen, unlisted, row_with, field, field_or, number_in, number_within, text_in};

use crate::faults::{Fault, missing, over_limit, unknown_name, wrong_kind};
use resh_value::WalkFault;
use serde_json::{Map, Number, Value as Json};
use std::alloc::Global;

/// What reads the content of a field.
pub(crate) trait FieldReader: Drop + Sized {
    type Content: Drop;

    ghost reads: { Self → Data → Read Self.Content };

    fn read(self, alloc: Global, json: &Json) -> Result<Self::Content, Fault>
        ensures { Gives WalkFault.NoMemory result (reads self (view json.now)) };
}

/// The members of an object that has no names but these.
pub(crate) fn row_with<'a>(
    alloc: Global,
    json: &'a Json,
    names: &[&str],
) -> Result<&'a Map<String, Json>, Fault>
    ensures { GivesSeen (λ m. members_view m.now.entries) result
        (row_with (map (λ n. n.now) names.now) (view json.now)) }
{
    match json {
        Json::Object(members) => match unlisted(members, names) {
            None => Ok(members),
            Some(name) => Err(unknown_name(alloc, name)),
        },
        _ => Err(wrong_kind(alloc)),
    }
}

/// The first name that isn't listed, in byte order.
pub(crate) fn unlisted<'a>(members: &'a Map<String, Json>, names: &[&str]) -> Option<&'a str>
    ensures { option_map (λ n. n.now) result
        ≡ unlisted (map (λ n. n.now) names.now) (members_view members.now.entries) }
{
    for (name, _) in members.iter() {
        if !is_listed(name.as_str(), names) {
            return Some(name.as_str());
        }
    }
    None
}

fn is_listed(name: &str, names: &[&str]) -> bool
    ensures { result ≡ list_any (same_name name.now) (map (λ n. n.now) names.now) }
{
    names
        .iter()
        .any(|listed| name.as_bytes() == listed.as_bytes())
}

/// Reads a field that has to be there.
pub(crate) fn required<R: FieldReader>(
    alloc: Global,
    members: &Map<String, Json>,
    name: &str,
    reader: R,
) -> Result<R::Content, Fault>
    ensures { Gives WalkFault.NoMemory result (field (members_view members.now.entries) name.now (R.reads reader)) }
{
    match member(members, name) {
        None => Err(missing(alloc, name)),
        Some(json) => read_under(alloc, name, json, reader),
    }
}

/// Reads a field that may be missing.
pub(crate) fn optional<R: FieldReader>(
    alloc: Global,
    members: &Map<String, Json>,
    name: &str,
    reader: R,
    default: R::Content,
) -> Result<R::Content, Fault>
    ensures { Gives WalkFault.NoMemory result
        (field_or default (members_view members.now.entries) name.now (R.reads reader)) }
{
    match member(members, name) {
        None => Ok(default),
        Some(json) => read_under(alloc, name, json, reader),
    }
}

pub(crate) fn member<'a>(members: &'a Map<String, Json>, name: &str) -> Option<&'a Json>
    ensures { option_map (λ v. view v.now) result ≡ get_member name.now (members_view members.now.entries) }
{
    members.get(name)
}

fn read_under<R: FieldReader>(
    alloc: Global,
    name: &str,
    json: &Json,
    reader: R,
) -> Result<R::Content, Fault>
    ensures { Gives WalkFault.NoMemory result (at_step (to_name name.now) (R.reads reader (view json.now))) }
{
    match reader.read(alloc, json) {
        Ok(content) => Ok(content),
        Err(fault) => Err(fault.under_name(alloc, name)),
    }
}

/// Reads a whole number from `low` to `high`.
#[derive(Drop)]
pub(crate) struct NumberIn {
    pub(crate) low: u32,
    pub(crate) high: u32,
}

impl FieldReader for NumberIn {
    type Content = u32;

    ghost reads = { λ n. number_in n.low n.high };

    fn read(self, alloc: Global, json: &Json) -> Result<u32, Fault> {
        match json {
            Json::Number(number) => number_within(alloc, self.low, self.high, number),
            _ => Err(wrong_kind(alloc)),
        }
    }
}

fn number_within(alloc: Global, low: u32, high: u32, number: &Number) -> Result<u32, Fault>
    ensures { result ≡ number_within low high (number_view number.now) }
{
    match number.as_u64() {
        Some(n) => {
            if n > i64::MAX as u64 {
                return Err(wrong_kind(alloc));
            }
            if n < u64::from(low) || n > u64::from(high) {
                return Err(over_limit(alloc, u64::from(high)));
            }
            Ok(n as u32)
        }
        None => {
            if number.is_i64() {
                return Err(over_limit(alloc, u64::from(high)));
            }
            Err(wrong_kind(alloc))
        }
    }
}

pub(crate) fn text_in<'a>(alloc: Global, json: &'a Json) -> Result<&'a str, Fault>
    ensures { GivesSeen (λ t. t.now) result (text_in (view json.now)) }
{
    match json {
        Json::String(text) => Ok(text.as_str()),
        _ => Err(wrong_kind(alloc)),
    }
}
