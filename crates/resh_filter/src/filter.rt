ghost use Rattle.std.specs.Prelude.{◌≡◌, ◌≢◌, ◌↔◌, [], IsTrue, IfOk, option_map};
ghost use Rattle.serde_json.specs.View.{view, members_view};
ghost use Rattle.resh_value.specs.Outcome.{Gives};
ghost use Rattle.resh_value.specs.Paths.{to_name};
ghost use Rattle.resh_value.specs.Walk.{under};
ghost use Rattle.resh_filter.specs.Filters.{HasValues, agrees, at_step, dotted_in, fault_of, filter_of, first_dotted, gives, is_dotted, matches, under as under_answered, walked_filter};

use crate::fault::{FilterFault, FilterFaultKind, in_value};
use resh_value::{Copied, DOT, Document, NoMemory, Value, WalkFault, Words, compare};
use serde_json::{Map, Value as Json};
use std::alloc::Global;
use std::marker::Model;

type Fault = WalkFault<FilterFaultKind>;

/// What top-level fields have to equal, which contracts see as the list of (name, value). Null stands for a missing
/// field too.
#[derive(Debug, Drop)]
pub struct Filter {
    fields: Document,
}

impl Model for Filter {
    ghost use Rattle.std.specs.Prelude.{List, ℕ};
    ghost use Rattle.std.specs.Coded.{coded_list, coded×, coded_ℕ};
    ghost use Rattle.resh_value.specs.declared.value.Value.{Value as FieldValue};
    ghost use Rattle.resh_value.specs.contracts.value.Value as field_value;

    ghost Value = { List (List ℕ × FieldValue) };

    ghost coded = { coded_list (coded× (coded_list coded_ℕ) field_value.the_row.coded) };

    ghost view = { λ f. f.fields };
}

impl Filter {
    /// The filter of a JSON object, or its first fault, with its path after `path`: no object, then the first dotted
    /// name in byte order, then the first fault of a depth-first walk through the object as a document.
    pub fn read(alloc: Global, json: &Json, path: &Words) -> Result<Filter, FilterFault>
        ensures { Gives FilterFault.NoMemory result (at_step path.now (filter_of (view json.now))) }
    {
        match Filter::walk(alloc, json) {
            Ok(filter) => Ok(filter),
            Err(fault) => Err(answered_under(alloc, path, fault)),
        }
    }

    /// The filter of a JSON object, or its first fault, with its path from here.
    pub fn walk(alloc: Global, json: &Json) -> Result<Filter, Fault>
        ensures { Gives WalkFault.NoMemory result (walked_filter (view json.now)) }
    {
        match dotted_in(json) {
            Some(name) => Err(dotted_name(alloc, name)),
            None => match Document::walk(alloc, json) {
                Ok(fields) => Ok(Filter { fields }),
                Err(fault) => Err(in_value(fault)),
            },
        }
    }

    /// Whether each pair's value equals what the document has under its name, null where it has nothing.
    #[tactic(auto, using(crate::proofs::MatchLemmas::answer_by_name))]
    pub fn matches(&self, document: &Document) -> bool
        ensures value { result ≡ matches self.now document.now }
        ensures exactly { IsTrue result ↔ HasValues document.now self.now }
    {
        all_agree(self.fields.pairs(), document)
    }

    /// Whether the filter has a pair of this name.
    pub fn gives(&self, name: &Words) -> bool
        ensures { result ≡ gives self.now name.now }
    {
        self.fields.get(name).is_some()
    }

    /// The pairs, as a document.
    pub fn fields(&self) -> &Document
        ensures { result.now ≡ self.now }
    {
        &self.fields
    }

    pub fn copy(&self) -> Result<Filter, NoMemory>
        ensures { IfOk result (λ f. f ≡ self.now) }
    {
        let fields = self.fields.copy()?;
        Ok(Filter { fields })
    }
}

impl Copied for Filter {
    fn copied(&self, _alloc: Global) -> Result<Filter, NoMemory> {
        self.copy()
    }
}

fn dotted_name(alloc: Global, name: &str) -> Fault
    ensures { result ≢ WalkFault.NoMemory
        → result ≡ under (to_name name.now) (WalkFault.At [] FilterFaultKind.DottedName) }
{
    WalkFault::here(alloc, FilterFaultKind::DottedName).under_name(alloc, name)
}

#[tactic(auto, using(crate::proofs::Answered::answered_under))]
fn answered_under(alloc: Global, path: &Words, fault: Fault) -> FilterFault
    ensures fault { result ≢ FilterFault.NoMemory → result ≡ under_answered path.now (fault_of fault) }
    ensures memory { fault ≡ WalkFault.NoMemory → result ≡ FilterFault.NoMemory }
{
    FilterFault::of(fault.under(alloc, path))
}

/// The first dotted name of an object, in byte order.
fn dotted_in(json: &Json) -> Option<&str>
    ensures { option_map (λ n. n.now) result ≡ dotted_in (view json.now) }
{
    match json {
        Json::Object(members) => first_dotted(members),
        _ => None,
    }
}

fn first_dotted(members: &Map<String, Json>) -> Option<&str>
    ensures { option_map (λ n. n.now) result ≡ first_dotted (members_view members.now.entries) }
{
    for (name, _) in members.iter() {
        if is_dotted(name.as_str()) {
            return Some(name.as_str());
        }
    }
    None
}

fn is_dotted(name: &str) -> bool
    ensures { result ≡ is_dotted name.now }
{
    name.as_bytes().contains(&DOT)
}

fn all_agree(pairs: &[(Words, Value)], document: &Document) -> bool
    ensures { result ≡ matches pairs.now document.now }
{
    pairs
        .iter()
        .all(|(name, value)| agrees(document, name, value))
}

fn agrees(document: &Document, name: &Words, value: &Value) -> bool
    ensures { result ≡ agrees document.now (name.now, value.now) }
{
    let null = Value::Null;
    match document.get(name) {
        Some(found) => compare(value, found).is_eq(),
        None => compare(value, &null).is_eq(),
    }
}
