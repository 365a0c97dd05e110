//! The order of a run, a line for each turn.

ghost use Rattle.std.specs.Prelude.{◌≡◌, ℕ, ◌+◌, ◌^◌, ◌<◌, ◌==◌, List, [], ◌∷◌, ◌++◌, decimal, codes, cond, IfOk, OnOk};
ghost use Rattle.resh_setup.specs.declared.turn.Turn.{Turn};
ghost use Rattle.resh_report.specs.Lines.{line, name_at, names_of};
ghost use Rattle.resh_report.specs.Page.{turn_lines, turn_text, refused_mark};
ghost use Rattle.resh_report.specs.Counts.{HasCounts, HasRoom, count_of};

use crate::text::{append, append_client_name, append_line, append_line_feed, append_spaced};
use resh_setup::{Client, Turn};
use resh_value::NoMemory;
use std::collections::HashMap;

/// How many turns each client has had.
type Counts = HashMap<u32, u64>;

/// Writes the turns, each with its number among its client's.
pub(crate) fn append_turns(
    out: Vec<u8>,
    clients: &[Client],
    turns: &[Turn],
) -> Result<Vec<u8>, NoMemory>
    ensures { IfOk result (λ bytes. bytes.items ≡ out.items ++ turn_lines (names_of clients.now) [] turns.now) }
{
    let mut out = out;
    let mut counts = HashMap::new(*out.allocator());
    for turn in turns {
        out = append_turn(out, clients, &mut counts, turn)?;
    }
    Ok(out)
}

fn append_turn(
    out: Vec<u8>,
    clients: &[Client],
    counts: &mut Counts,
    turn: &Turn,
) -> Result<Vec<u8>, NoMemory>
    requires room { HasRoom counts.old }
    ensures line { IfOk result (λ bytes. (before : List Turn) → HasCounts before counts.old
        → bytes.items ≡ out.items ++ line (turn_text (names_of clients.now) before turn.now)) }
    ensures counted { OnOk result ((before : List Turn) → HasCounts before counts.old
        → HasCounts (before ++ turn.now ∷ []) counts.new) }
{
    match turn {
        Turn::Command { client, refused } => {
            let number = next_number(counts, *client)?;
            append_command(out, clients, *client, number, *refused)
        }
        Turn::Switch => append_line(out, "switch"),
        Turn::Drop(_) => append_line(out, "drop"),
    }
}

/// The number of the client's next turn, which is counted.
fn next_number(counts: &mut Counts, client: u32) -> Result<u64, NoMemory>
    requires room { HasRoom counts.old }
    ensures number { IfOk result (λ number. number ≡ count_of counts.old client + 1) }
    ensures counted { OnOk result ((other : ℕ)
        → count_of counts.new other ≡ count_of counts.old other + cond (other == client) 1 0) }
{
    let number = counts.get(&client).copied().unwrap_or(0) + 1;
    counts.insert(client, number)?;
    Ok(number)
}

fn append_command(
    out: Vec<u8>,
    clients: &[Client],
    client: u32,
    number: u64,
    refused: bool,
) -> Result<Vec<u8>, NoMemory>
    ensures { IfOk result (λ bytes. bytes.items ≡ out.items
        ++ line (name_at (names_of clients.now) client ++ codes " " ++ decimal number ++ refused_mark refused)) }
{
    let out = append_client_name(out, clients, client as usize)?;
    let out = append_spaced(out, number)?;
    append_line(out, refused_mark(refused))
}

fn refused_mark(refused: bool) -> &'static str
    ensures { result.now ≡ refused_mark refused }
{
    if refused { " no memory" } else { "" }
}
