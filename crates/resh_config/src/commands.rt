//! The commands of a client.

ghost use Rattle.std.specs.Prelude.{◌≡◌, ◌+◌, ◌&&◌, nat_lt, map, is_none, is_some};
ghost use Rattle.std.specs.List.{list_all};
ghost use Rattle.serde_json.specs.Find.{get_member};
ghost use Rattle.serde_json.specs.View.{view, members_view};
ghost use Rattle.resh_value.specs.Outcome.{Gives};
ghost use Rattle.resh_config.specs.Walk.{unlisted};
ghost use Rattle.resh_config.specs.Documents.{document_in};
ghost use Rattle.resh_setup.specs.Validity.{command_count};
ghost use Rattle.resh_config.specs.Clients.{form_of, filter_in, update_in, says_true, command_of, command_in, commands_in};

use crate::documents::Inserted;
use crate::faults::{Fault, in_filter, in_update, over_limit, wrong_kind};
use crate::form::Form;
use crate::lists::{ItemReader, count, items_of};
use crate::walk::{FieldReader, member, required, unlisted};
use resh_command::{Command, Commands};
use resh_filter::Filter;
use resh_ops::Update;
use resh_setup::Client;
use resh_value::WalkFault;
use serde_json::{Map, Value as Json};
use std::alloc::Global;

/// So many commands all clients may have together.
const MOST_COMMANDS: u64 = 20_000;

/// Reads the commands of a client that others stand before.
#[derive(Drop)]
pub(crate) struct ClientCommands<'a> {
    pub(crate) before: &'a [Client],
}

impl FieldReader for ClientCommands<'_> {
    type Content = Commands;

    ghost reads = { λ c. commands_in c.before.now };

    fn read(self, alloc: Global, json: &Json) -> Result<Commands, Fault> {
        match json {
            Json::Array(items) => {
                if are_too_many(self.before, count(items)) {
                    return Err(over_limit(alloc, MOST_COMMANDS));
                }
                items_of(alloc, &mut CommandReader, items)
            }
            _ => Err(wrong_kind(alloc)),
        }
    }
}

/// Whether so many more commands than these clients have are too many.
fn are_too_many(clients: &[Client], more: u64) -> bool
    ensures { result ≡ nat_lt 20000 (command_count clients.now + more) }
{
    let mut left = MOST_COMMANDS;
    let mut rest = clients;
    while let [client, later @ ..] = rest {
        match left.checked_sub(client.commands.len()) {
            Some(fewer) => left = fewer,
            None => return true,
        }
        rest = later;
    }
    more > left
}

#[derive(Drop)]
struct CommandReader;

impl ItemReader for CommandReader {
    type Item = Command;

    ghost reads = { λ _. command_in };

    fn read(&mut self, alloc: Global, _before: &[Command], json: &Json) -> Result<Command, Fault> {
        match json {
            Json::Object(members) => command_of(alloc, members, form_of(members)),
            _ => Err(wrong_kind(alloc)),
        }
    }
}

/// The form whose names an object has.
fn form_of(members: &Map<String, Json>) -> Option<Form>
    ensures { result ≡ form_of (members_view members.now.entries) }
{
    if has_names(members, &["insert"]) {
        return Some(Form::Insert);
    }
    if has_names(members, &["update", "with"]) {
        return Some(Form::Update);
    }
    if has_names(members, &["delete"]) {
        return Some(Form::Delete);
    }
    if has_names(members, &["find"]) {
        return Some(Form::Find);
    }
    if has_names(members, &["count"]) {
        return Some(Form::Count);
    }
    if has_names(members, &["abort"]) {
        return Some(Form::Abort);
    }
    None
}

/// Whether an object has these names and no others.
fn has_names(members: &Map<String, Json>, names: &[&str]) -> bool
    ensures { result ≡ (is_none (unlisted (map (λ n. n.now) names.now) (members_view members.now.entries))
        && list_all (λ n. is_some (get_member n.now (members_view members.now.entries))) names.now) }
{
    unlisted(members, names).is_none() && has_each(members, names)
}

fn has_each(members: &Map<String, Json>, names: &[&str]) -> bool
    ensures { result ≡ list_all (λ n. is_some (get_member n.now (members_view members.now.entries))) names.now }
{
    names.iter().all(|name| has_name(members, name))
}

fn has_name(members: &Map<String, Json>, name: &str) -> bool
    ensures { result ≡ is_some (get_member name.now (members_view members.now.entries)) }
{
    member(members, name).is_some()
}

/// The command of a form, from the members of its object.
fn command_of(
    alloc: Global,
    members: &Map<String, Json>,
    form: Option<Form>,
) -> Result<Command, Fault>
    ensures { Gives WalkFault.NoMemory result (command_of (members_view members.now.entries) form) }
{
    match form {
        Some(Form::Insert) => {
            let document = required(alloc, members, "insert", Inserted)?;
            Ok(Command::Insert(document))
        }
        Some(Form::Update) => {
            let filter = required(alloc, members, "update", FilterReader)?;
            let update = required(alloc, members, "with", UpdateReader)?;
            Ok(Command::Update { filter, update })
        }
        Some(Form::Delete) => {
            let filter = required(alloc, members, "delete", FilterReader)?;
            Ok(Command::Delete { filter })
        }
        Some(Form::Find) => {
            let filter = required(alloc, members, "find", FilterReader)?;
            Ok(Command::Find { filter })
        }
        Some(Form::Count) => {
            let filter = required(alloc, members, "count", FilterReader)?;
            Ok(Command::Count { filter })
        }
        Some(Form::Abort) => {
            if says_true(members, "abort") {
                return Ok(Command::Abort);
            }
            Err(wrong_kind(alloc))
        }
        None => Err(wrong_kind(alloc)),
    }
}

/// Whether an object has `true` under a name.
fn says_true(members: &Map<String, Json>, name: &str) -> bool
    ensures { result ≡ says_true (get_member name.now (members_view members.now.entries)) }
{
    match member(members, name) {
        Some(Json::Bool(b)) => *b,
        _ => false,
    }
}

#[derive(Drop)]
struct FilterReader;

impl FieldReader for FilterReader {
    type Content = Filter;

    ghost reads = { λ _. filter_in };

    fn read(self, alloc: Global, json: &Json) -> Result<Filter, Fault> {
        match Filter::walk(alloc, json) {
            Ok(filter) => Ok(filter),
            Err(fault) => Err(in_filter(fault)),
        }
    }
}

#[derive(Drop)]
struct UpdateReader;

impl FieldReader for UpdateReader {
    type Content = Update;

    ghost reads = { λ _. update_in };

    fn read(self, alloc: Global, json: &Json) -> Result<Update, Fault> {
        match Update::walk(alloc, json) {
            Ok(update) => Ok(update),
            Err(fault) => Err(in_update(alloc, fault)),
        }
    }
}
