//! The page of a run.

ghost use Rattle.std.specs.Prelude.{◌≡◌, ◌++◌, flat_map, IfOk};
ghost use Rattle.resh_report.specs.Lines.{line, name_at, names_of};
ghost use Rattle.resh_report.specs.Ends.{end_line};
ghost use Rattle.resh_report.specs.Page.{page_text, page_with_lines_text, run_text, holdings_lines, shard_lines, document_line};

use crate::ends::append_end;
use crate::replies::append_answers;
use crate::text::{append, append_line, append_line_feed, append_name, append_spaced};
use crate::turns::append_turns;
use resh_coord::End;
use resh_setup::{Answers, Client, Holdings, Setup, Turns};
use resh_value::{Document, Documents, NoMemory, Sequence, Words};
use std::alloc::Global;

/// The lines of a file's steps, without their line feeds.
pub type Lines = Sequence<Words>;

/// The page of a run: its turns in their order, each client's replies, each shard's documents, and its end. `replies`
/// has a list for each client of the setup, and `shards` one for each shard.
pub fn page(
    alloc: Global,
    setup: &Setup,
    order: &Turns,
    end: &End,
    replies: &Answers,
    shards: &Holdings,
) -> Result<Vec<u8>, NoMemory>
    ensures { IfOk result (λ bytes. bytes.items ≡
        page_text setup.now.shards (names_of setup.now.clients) order.now end.now replies.now shards.now) }
{
    let out = append_line(Vec::new(alloc), "steps")?;
    append_run(out, setup, order, end, replies, shards)
}

/// The page of a run with the lines of a file's steps, each as `line` gives it.
pub fn page_with_lines(
    alloc: Global,
    setup: &Setup,
    order: &Turns,
    end: &End,
    replies: &Answers,
    shards: &Holdings,
    lines: &Lines,
) -> Result<Vec<u8>, NoMemory>
    ensures { IfOk result (λ bytes. bytes.items ≡ page_with_lines_text lines.now
        setup.now.shards (names_of setup.now.clients) order.now end.now replies.now shards.now) }
{
    let out = append_line(Vec::new(alloc), "steps")?;
    let out = append_lines(out, lines.as_slice())?;
    append_run(out, setup, order, end, replies, shards)
}

fn append_lines(out: Vec<u8>, lines: &[Words]) -> Result<Vec<u8>, NoMemory>
    ensures { IfOk result (λ bytes. bytes.items ≡ out.items ++ flat_map line lines.now) }
{
    let mut out = out;
    for words in lines {
        out = append_line(out, words.as_str())?;
    }
    Ok(out)
}

/// Writes the page from the order on.
fn append_run(
    out: Vec<u8>,
    setup: &Setup,
    order: &Turns,
    end: &End,
    replies: &Answers,
    shards: &Holdings,
) -> Result<Vec<u8>, NoMemory>
    ensures { IfOk result (λ bytes. bytes.items ≡ out.items ++ run_text
        setup.now.shards (names_of setup.now.clients) order.now end.now replies.now shards.now) }
{
    let names = setup.shards.as_slice();
    let clients = setup.clients.as_slice();
    let out = append_line(out, "order")?;
    let out = append_turns(out, clients, order.as_slice())?;
    let out = append_answers(out, clients, replies.as_slice())?;
    let out = append_holdings(out, names, shards.as_slice())?;
    append_end_line(out, names, clients, end)
}

fn append_holdings(
    out: Vec<u8>,
    names: &[Words],
    holdings: &[Documents],
) -> Result<Vec<u8>, NoMemory>
    ensures { IfOk result (λ bytes. bytes.items ≡ out.items ++ holdings_lines names.now 0 holdings.now) }
{
    let mut out = out;
    let mut rest = holdings;
    let mut place = 0usize;
    while let [held, later @ ..] = rest {
        out = append_shard(out, names, place, held)?;
        rest = later;
        place += 1;
    }
    Ok(out)
}

fn append_shard(
    out: Vec<u8>,
    names: &[Words],
    place: usize,
    held: &Documents,
) -> Result<Vec<u8>, NoMemory>
    ensures { IfOk result (λ bytes. bytes.items ≡ out.items ++ shard_lines (name_at names.now place) held.now) }
{
    let out = append_name(append(out, "shard ")?, names, place)?;
    let out = append_line_feed(append_spaced(out, held.len())?)?;
    append_documents(out, held.as_slice())
}

fn append_documents(out: Vec<u8>, documents: &[Document]) -> Result<Vec<u8>, NoMemory>
    ensures { IfOk result (λ bytes. bytes.items ≡ out.items ++ flat_map document_line documents.now) }
{
    let mut out = out;
    let mut text = Vec::new(*out.allocator());
    for document in documents {
        text.clear();
        text = document.append_text(text)?;
        out.extend_from_slice(text.as_slice())?;
        out.push(b'\n')?;
    }
    Ok(out)
}

pub(crate) fn append_end_line(
    out: Vec<u8>,
    names: &[Words],
    clients: &[Client],
    end: &End,
) -> Result<Vec<u8>, NoMemory>
    ensures { IfOk result (λ bytes. bytes.items ≡ out.items ++ end_line names.now (names_of clients.now) end.now) }
{
    let out = append_end(append(out, "end ")?, names, clients, end)?;
    append_line_feed(out)
}
