//! What is said of a setup that was only read.

ghost use Rattle.std.specs.Prelude.{◌≡◌, ◌++◌, IfOk};
ghost use Rattle.resh_setup.specs.Validity.{command_count};
ghost use Rattle.resh_report.specs.Checked.{checked_text, client_counts, counted, data_counts, step_counts};

use crate::text::{append, append_line_feed, append_number};
use resh_setup::{Client, Setup};
use resh_value::NoMemory;
use std::alloc::Global;

/// The line of a setup that was only read: how much of each part it has.
pub fn checked(alloc: Global, setup: &Setup) -> Result<Vec<u8>, NoMemory>
    ensures { IfOk result (λ bytes. bytes.items ≡ checked_text setup.now) }
{
    let out = append(Vec::new(alloc), "checked: ")?;
    let out = append_data(out, setup)?;
    let out = append_clients(out, setup)?;
    append_line_feed(append_steps(out, setup)?)
}

fn append_data(out: Vec<u8>, setup: &Setup) -> Result<Vec<u8>, NoMemory>
    ensures { IfOk result (λ bytes. bytes.items ≡ out.items ++ data_counts setup.now) }
{
    let out = append_counted(out, setup.shards.len(), " shards, ")?;
    append_counted(out, setup.documents.len(), " documents, ")
}

fn append_clients(out: Vec<u8>, setup: &Setup) -> Result<Vec<u8>, NoMemory>
    ensures { IfOk result (λ bytes. bytes.items ≡ out.items ++ client_counts setup.now) }
{
    let commands = command_count(setup.clients.as_slice())?;
    let out = append_counted(out, setup.clients.len(), " clients, ")?;
    append_counted(out, commands, " commands, ")
}

fn append_steps(out: Vec<u8>, setup: &Setup) -> Result<Vec<u8>, NoMemory>
    ensures { IfOk result (λ bytes. bytes.items ≡ out.items ++ step_counts setup.now) }
{
    let out = append_counted(out, setup.steps.len(), " steps, ")?;
    append_counted(out, setup.plan.len(), " plan rows")
}

/// Writes a number and what it counts.
fn append_counted(out: Vec<u8>, number: u64, what: &str) -> Result<Vec<u8>, NoMemory>
    ensures { IfOk result (λ bytes. bytes.items ≡ out.items ++ counted number what.now) }
{
    append(append_number(out, number)?, what)
}

/// How many commands the clients have together.
pub(crate) fn command_count(clients: &[Client]) -> Result<u64, NoMemory>
    ensures { IfOk result (λ count. count ≡ command_count clients.now) }
{
    let mut count = 0u64;
    let mut rest = clients;
    while let [client, later @ ..] = rest {
        let Some(more) = count.checked_add(client.commands.len()) else {
            return Err(NoMemory);
        };
        count = more;
        rest = later;
    }
    Ok(count)
}
