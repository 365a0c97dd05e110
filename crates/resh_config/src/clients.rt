//! Clients, each with a name that no client before it has.

ghost use Rattle.std.specs.Prelude.{◌≡◌};
ghost use Rattle.std.specs.List.{list_any};
ghost use Rattle.serde_json.specs.View.{members_view};
ghost use Rattle.resh_value.specs.Outcome.{Gives};
ghost use Rattle.resh_setup.specs.Validity.{is_called, is_new_name};
ghost use Rattle.resh_config.specs.Clients.{client_name_in, client_of, client_in, clients_in};

use crate::commands::ClientCommands;
use crate::faults::Fault;
use crate::lists::{ItemReader, list_in};
use crate::names::{accept, is_node_name, is_same};
use crate::walk::{FieldReader, required, row_with, text_in};
use resh_setup::{Client, Clients};
use resh_value::{WalkFault, Words};
use serde_json::{Map, Value as Json};
use std::alloc::Global;

/// So many clients there may be.
const MOST_CLIENTS: u64 = 16;

/// Reads the clients.
#[derive(Drop)]
pub(crate) struct ClientList;

impl FieldReader for ClientList {
    type Content = Clients;

    ghost reads = { λ _. clients_in };

    fn read(self, alloc: Global, json: &Json) -> Result<Clients, Fault> {
        list_in(alloc, &mut ClientRow, MOST_CLIENTS, json)
    }
}

#[derive(Drop)]
struct ClientRow;

impl ItemReader for ClientRow {
    type Item = Client;

    ghost reads = { λ _. client_in };

    fn read(&mut self, alloc: Global, before: &[Client], json: &Json) -> Result<Client, Fault> {
        let members = row_with(alloc, json, &["name", "commands"])?;
        client_of(alloc, before, members)
    }
}

fn client_of(alloc: Global, before: &[Client], members: &Map<String, Json>) -> Result<Client, Fault>
    ensures { Gives WalkFault.NoMemory result (client_of before.now (members_view members.now.entries)) }
{
    let name = required(alloc, members, "name", ClientName { before })?;
    let commands = required(alloc, members, "commands", ClientCommands { before })?;
    Ok(Client { name, commands })
}

#[derive(Drop)]
struct ClientName<'a> {
    before: &'a [Client],
}

impl FieldReader for ClientName<'_> {
    type Content = Words;

    ghost reads = { λ c. client_name_in c.before.now };

    fn read(self, alloc: Global, json: &Json) -> Result<Words, Fault> {
        match text_in(alloc, json) {
            Ok(name) => accept(alloc, is_new_name(self.before, name), name),
            Err(fault) => Err(fault),
        }
    }
}

fn is_new_name(before: &[Client], name: &str) -> bool
    ensures { result ≡ is_new_name before.now name.now }
{
    is_node_name(name) && !is_taken(before, name)
}

fn is_taken(clients: &[Client], name: &str) -> bool
    ensures { result ≡ list_any (is_called name.now) clients.now }
{
    clients
        .iter()
        .any(|client| is_same(name, client.name.as_str()))
}
