//! Values and documents from JSON.

ghost use Rattle.std.specs.Prelude.{◌≡◌, ◌≢◌};
ghost use Rattle.serde_json.specs.Data.{array, object};
ghost use Rattle.serde_json.specs.View.{view, number_view, items_view, members_view};
ghost use Rattle.resh_value.specs.Outcome.{Gives};
ghost use Rattle.resh_value.specs.FromJson.{value_of, document_of, walked_value, walked_document, fault_of, under, at_step, whole, value_at, items_at, members_at, object_value, has_dollar_name, is_dollar_name};

use crate::fault::{ValueFault, ValueFaultKind};
use crate::fields::Fields;
use crate::limits::DOLLAR;
use crate::sequence::Sequence;
use crate::tags::tag_of;
use crate::value::{Document, Items, Value};
use crate::walk_fault::WalkFault;
use crate::words::Words;
use serde_json::{Map, Number, Value as Json};
use std::alloc::Global;

type Fault = WalkFault<ValueFaultKind>;

/// Arrays and objects nest up to this level.
const DEEPEST: u32 = 32;

impl Value {
    /// The value of a JSON value, or the first fault of a depth-first walk, with its path after `path`.
    pub fn from_json(alloc: Global, json: &Json, path: &Words) -> Result<Value, ValueFault>
        ensures { Gives ValueFault.NoMemory result (at_step path.now (value_of (view json.now))) }
    {
        match Value::walk(alloc, json) {
            Ok(value) => Ok(value),
            Err(fault) => Err(answered_under(alloc, path, fault)),
        }
    }

    /// The value of a JSON value, or the first fault of a depth-first walk, with its path from here.
    pub fn walk(alloc: Global, json: &Json) -> Result<Value, Fault>
        ensures { Gives WalkFault.NoMemory result (walked_value (view json.now)) }
    {
        value_at(alloc, json, 1)
    }
}

impl Fields<Value> {
    /// The document of a JSON object, or the first fault of a depth-first walk, with its path after `path`.
    pub fn from_json(alloc: Global, json: &Json, path: &Words) -> Result<Document, ValueFault>
        ensures { Gives ValueFault.NoMemory result (at_step path.now (document_of (view json.now))) }
    {
        match Document::walk(alloc, json) {
            Ok(document) => Ok(document),
            Err(fault) => Err(answered_under(alloc, path, fault)),
        }
    }

    /// The document of a JSON object, or the first fault of a depth-first walk, with its path from here.
    pub fn walk(alloc: Global, json: &Json) -> Result<Document, Fault>
        ensures { Gives WalkFault.NoMemory result (walked_document (view json.now)) }
    {
        match json {
            Json::Object(members) => {
                if has_dollar_name(members) {
                    return Err(WalkFault::here(alloc, ValueFaultKind::DollarName));
                }
                members_at(alloc, members, 2)
            }
            _ => Err(WalkFault::here(alloc, ValueFaultKind::NotDocument)),
        }
    }
}

#[tactic(auto, using(crate::proofs::reading::Walked::answered_under))]
fn answered_under(alloc: Global, path: &Words, fault: Fault) -> ValueFault
    ensures fault { result ≢ ValueFault.NoMemory → result ≡ under path.now (fault_of fault) }
    ensures memory { fault ≡ WalkFault.NoMemory → result ≡ ValueFault.NoMemory }
{
    ValueFault::of(fault.under(alloc, path))
}

#[cycle(walk)]
fn value_at(alloc: Global, json: &Json, level: u32) -> Result<Value, Fault>
    ensures { Gives WalkFault.NoMemory result (value_at level (view json.now)) }
{
    match json {
        Json::Null => Ok(Value::Null),
        Json::Bool(b) => Ok(Value::Bool(*b)),
        Json::Number(number) => whole(alloc, number),
        Json::String(text) => Ok(Value::Text(Words::of(alloc, text.as_str())?)),
        Json::Array(items) => list_at(alloc, items, level),
        Json::Object(members) => object_at(alloc, members, level),
    }
}

fn whole(alloc: Global, number: &Number) -> Result<Value, Fault>
    ensures { result ≡ whole (number_view number.now) }
{
    match number.as_i64() {
        Some(n) => Ok(Value::Int(n)),
        None => Err(WalkFault::here(alloc, ValueFaultKind::NotWhole)),
    }
}

#[cycle(walk)]
fn list_at(alloc: Global, items: &Vec<Json>, level: u32) -> Result<Value, Fault>
    ensures { Gives WalkFault.NoMemory result (value_at level (array (items_view items.now.items))) }
{
    if level > DEEPEST {
        return Err(WalkFault::here(alloc, ValueFaultKind::TooDeep));
    }
    match items_at(alloc, items, level + 1) {
        Ok(values) => Ok(Value::List(values)),
        Err(fault) => Err(fault),
    }
}

#[cycle(walk)]
fn items_at(alloc: Global, items: &Vec<Json>, level: u32) -> Result<Items, Fault>
    ensures { Gives WalkFault.NoMemory result (items_at level 0 (items_view items.now.items)) }
{
    let mut values = Vec::with_capacity(alloc, items.len())?;
    for (place, item) in items.iter().enumerate() {
        match value_at(alloc, item, level) {
            Ok(value) => values.push(value)?,
            Err(fault) => return Err(fault.under_place(alloc, place as u64)),
        }
    }
    Ok(Sequence::from_vec(values))
}

#[cycle(walk)]
fn object_at(alloc: Global, members: &Map<String, Json>, level: u32) -> Result<Value, Fault>
    ensures { Gives WalkFault.NoMemory result (value_at level (object (members_view members.now.entries))) }
{
    if level > DEEPEST {
        return Err(WalkFault::here(alloc, ValueFaultKind::TooDeep));
    }
    match tag_of(members) {
        Some(Some(value)) => Ok(value),
        Some(None) => Err(WalkFault::here(alloc, ValueFaultKind::BadTag)),
        None => plain_object_at(alloc, members, level + 1),
    }
}

#[cycle(walk)]
fn plain_object_at(alloc: Global, members: &Map<String, Json>, level: u32) -> Result<Value, Fault>
    ensures { Gives WalkFault.NoMemory result
        (object_value None (has_dollar_name (members_view members.now.entries))
        (members_at level (members_view members.now.entries))) }
{
    if has_dollar_name(members) {
        return Err(WalkFault::here(alloc, ValueFaultKind::DollarName));
    }
    match members_at(alloc, members, level) {
        Ok(document) => Ok(Value::Doc(document)),
        Err(fault) => Err(fault),
    }
}

#[cycle(walk)]
fn members_at(alloc: Global, members: &Map<String, Json>, level: u32) -> Result<Document, Fault>
    ensures { Gives WalkFault.NoMemory result (members_at level (members_view members.now.entries)) }
{
    let mut pairs = Vec::with_capacity(alloc, members.len())?;
    for (name, member) in members.iter() {
        match value_at(alloc, member, level) {
            Ok(value) => pairs.push((Words::of(alloc, name.as_str())?, value))?,
            Err(fault) => return Err(fault.under_name(alloc, name.as_str())),
        }
    }
    Ok(Fields::from_pairs(pairs))
}

fn has_dollar_name(members: &Map<String, Json>) -> bool
    ensures { result ≡ has_dollar_name (members_view members.now.entries) }
{
    for (name, _) in members.iter() {
        if is_dollar_name(name.as_str()) {
            return true;
        }
    }
    false
}

fn is_dollar_name(name: &str) -> bool
    ensures { result ≡ is_dollar_name name.now }
{
    let bytes = name.as_bytes();
    !bytes.is_empty() && bytes[0] == DOLLAR
}
