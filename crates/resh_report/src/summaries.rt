//! What a generated setup's run came to, in short.

ghost use Rattle.std.specs.Prelude.{◌≡◌, ◌++◌, IfOk};
ghost use Rattle.resh_report.specs.Ends.{end_line};
ghost use Rattle.resh_report.specs.Lines.{name_at, names_of};
ghost use Rattle.resh_report.specs.Summaries.{counted_line, held_line, held_lines, made_lines, summary_text, tally_lines};

use crate::checks::command_count;
use crate::pages::append_end_line;
use crate::text::{append, append_line_feed, append_name, append_number, append_spaced};
use resh_coord::End;
use resh_setup::Setup;
use resh_value::{NoMemory, Words};
use std::alloc::Global;

/// How many commands were answered in each way.
#[derive(Debug, Drop, Clone, Copy, PartialEq, Eq)]
pub struct Tally {
    pub inserted: u64,
    pub matched: u64,
    pub deleted: u64,
    pub other: u64,
}

/// The summary of a generated setup's run: the number that it was made from, how much it has, how it ended, how many
/// commands were answered in each way, and how many documents each shard holds.
pub fn summary(
    alloc: Global,
    number: u32,
    setup: &Setup,
    end: &End,
    tally: Tally,
    held: &[u64],
) -> Result<Vec<u8>, NoMemory>
    ensures { IfOk result (λ bytes. bytes.items ≡ summary_text number setup.now end.now tally held.now) }
{
    let out = append_made(Vec::new(alloc), number, setup)?;
    let out = append_end_line(out, setup.shards.as_slice(), setup.clients.as_slice(), end)?;
    let out = append_tally(out, tally)?;
    append_held(out, setup.shards.as_slice(), held)
}

fn append_made(out: Vec<u8>, number: u32, setup: &Setup) -> Result<Vec<u8>, NoMemory>
    ensures { IfOk result (λ bytes. bytes.items ≡ out.items ++ made_lines number setup.now) }
{
    let commands = command_count(setup.clients.as_slice())?;
    let out = append_counted_line(out, "generated ", number as u64)?;
    let out = append_counted_line(out, "documents ", setup.documents.len())?;
    append_counted_line(out, "commands ", commands)
}

fn append_tally(out: Vec<u8>, tally: Tally) -> Result<Vec<u8>, NoMemory>
    ensures { IfOk result (λ bytes. bytes.items ≡ out.items ++ tally_lines tally) }
{
    let out = append_counted_line(out, "inserted ", tally.inserted)?;
    let out = append_counted_line(out, "matched ", tally.matched)?;
    let out = append_counted_line(out, "deleted ", tally.deleted)?;
    append_counted_line(out, "other ", tally.other)
}

/// Writes a line of a word and a number.
fn append_counted_line(out: Vec<u8>, what: &str, number: u64) -> Result<Vec<u8>, NoMemory>
    ensures { IfOk result (λ bytes. bytes.items ≡ out.items ++ counted_line what.now number) }
{
    append_line_feed(append_number(append(out, what)?, number)?)
}

fn append_held(out: Vec<u8>, names: &[Words], held: &[u64]) -> Result<Vec<u8>, NoMemory>
    ensures { IfOk result (λ bytes. bytes.items ≡ out.items ++ held_lines names.now 0 held.now) }
{
    let mut out = out;
    let mut rest = held;
    let mut place = 0usize;
    while let [count, later @ ..] = rest {
        out = append_held_line(out, names, place, *count)?;
        rest = later;
        place += 1;
    }
    Ok(out)
}

fn append_held_line(
    out: Vec<u8>,
    names: &[Words],
    place: usize,
    count: u64,
) -> Result<Vec<u8>, NoMemory>
    ensures { IfOk result (λ bytes. bytes.items ≡ out.items ++ held_line (name_at names.now place) count) }
{
    let out = append_name(append(out, "shard ")?, names, place)?;
    append_line_feed(append_spaced(out, count)?)
}
