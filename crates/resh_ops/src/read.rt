//! Updates from JSON.

ghost use Rattle.serde_json.specs.Data.{object};
ghost use Rattle.serde_json.specs.View.{view, members_view};
ghost use Rattle.resh_value.specs.Outcome.{Gives};
ghost use Rattle.resh_ops.specs.Reading.{at_step, update_of, operators_in, operator_in, kind_of, actions_in, action_in, walked_update};

use crate::conflicts::without_conflict;
use crate::faults::UpdateFault;
use crate::kind::Kind;
use crate::operands::operator_in as operator_with;
use crate::operator::Action;
use crate::path_text::path_of;
use crate::read_faults::{Fault, answered_under, bad_operand, unknown_operator};
use crate::update::Update;
use resh_value::{Sequence, WalkFault, Words};
use serde_json::{Map, Value as Json};
use std::alloc::Global;

impl Update {
    /// The update that a JSON value is, or its first fault. The fault of an operand that is no value has its path after
    /// `path`.
    pub fn read(alloc: Global, json: &Json, path: &Words) -> Result<Update, UpdateFault>
        ensures { Gives UpdateFault.NoMemory result (at_step path.now (update_of (view json.now))) }
    {
        match Update::walk(alloc, json) {
            Ok(update) => Ok(update),
            Err(fault) => Err(answered_under(alloc, path, fault)),
        }
    }

    /// The update that a JSON value is, or its first fault, with its path from here.
    #[tactic(auto, using(crate::proofs::ReadPaths::update_has_paths))]
    pub fn walk(alloc: Global, json: &Json) -> Result<Update, Fault>
        ensures { Gives WalkFault.NoMemory result (walked_update (view json.now)) }
    {
        match update_of(alloc, json) {
            Ok(actions) => Ok(Update::of(actions)),
            Err(fault) => Err(fault),
        }
    }
}

fn update_of(alloc: Global, json: &Json) -> Result<Sequence<Action>, Fault>
    ensures { Gives WalkFault.NoMemory result (walked_update (view json.now)) }
{
    match json {
        Json::Object(members) => update_with(alloc, members),
        _ => Err(bad_operand(alloc, "")),
    }
}

#[tactic(auto, using(crate::proofs::ReadLemmas::some_members))]
fn update_with(alloc: Global, members: &Map<String, Json>) -> Result<Sequence<Action>, Fault>
    ensures { Gives WalkFault.NoMemory result (walked_update (object (members_view members.now.entries))) }
{
    if members.is_empty() {
        return Err(bad_operand(alloc, ""));
    }
    match operators_in(alloc, members) {
        Ok(actions) => without_conflict(alloc, actions),
        Err(fault) => Err(fault),
    }
}

fn operators_in(alloc: Global, members: &Map<String, Json>) -> Result<Sequence<Action>, Fault>
    ensures { Gives WalkFault.NoMemory result (operators_in (members_view members.now.entries)) }
{
    let mut actions = Vec::new(alloc);
    for (name, json) in members.iter() {
        match operator_in(alloc, name.as_str(), json) {
            Ok(more) => actions.append(&mut more.into_vec())?,
            Err(fault) => return Err(fault),
        }
    }
    Ok(Sequence::from_vec(actions))
}

/// An operator at each of its paths.
fn operator_in(alloc: Global, name: &str, json: &Json) -> Result<Sequence<Action>, Fault>
    ensures { Gives WalkFault.NoMemory result (operator_in name.now (kind_of name.now) (view json.now)) }
{
    match Kind::of(name) {
        None => Err(unknown_operator(alloc, name)),
        Some(kind) => match json {
            Json::Object(members) => match actions_in(alloc, kind, members) {
                Ok(actions) => Ok(actions),
                Err(fault) => Err(fault.under_name(alloc, name)),
            },
            _ => Err(bad_operand(alloc, name)),
        },
    }
}

fn actions_in(
    alloc: Global,
    kind: Kind,
    members: &Map<String, Json>,
) -> Result<Sequence<Action>, Fault>
    ensures { Gives WalkFault.NoMemory result (actions_in kind (members_view members.now.entries)) }
{
    let mut actions = Vec::with_capacity(alloc, members.len())?;
    for (path, json) in members.iter() {
        match action_in(alloc, kind, path.as_str(), json) {
            Ok(action) => actions.push(action)?,
            Err(fault) => return Err(fault),
        }
    }
    Ok(Sequence::from_vec(actions))
}

/// The operator at the path of a text.
fn action_in(alloc: Global, kind: Kind, text: &str, json: &Json) -> Result<Action, Fault>
    ensures { Gives WalkFault.NoMemory result (action_in kind text.now (view json.now)) }
{
    match path_of(alloc, text, text) {
        Ok(path) => match operator_with(alloc, kind, text, json) {
            Ok(operator) => Ok(Action { path, operator }),
            Err(fault) => Err(fault.under_name(alloc, text)),
        },
        Err(fault) => Err(fault),
    }
}
