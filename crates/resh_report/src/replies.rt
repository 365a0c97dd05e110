//! What each client was answered.

ghost use Rattle.std.specs.Prelude.{◌≡◌, ◌++◌, decimal, flat_map, IfOk};
ghost use Rattle.resh_report.specs.Lines.{line, name_at, names_of};
ghost use Rattle.resh_report.specs.Replies.{answers_lines, client_lines, replies_lines, reply_lines, found_line, change_fault_text};

use crate::refusals::append_at_path;
use crate::text::{append, append_client_name, append_line, append_line_feed, append_number};
use resh_command::{Replies, Reply};
use resh_ops::ChangeFault;
use resh_setup::Client;
use resh_value::{Document, NoMemory};

/// Writes each client's name and its replies.
pub(crate) fn append_answers(
    out: Vec<u8>,
    clients: &[Client],
    answers: &[Replies],
) -> Result<Vec<u8>, NoMemory>
    ensures { IfOk result (λ bytes. bytes.items ≡ out.items ++ answers_lines (names_of clients.now) 0 answers.now) }
{
    let mut out = out;
    let mut rest = answers;
    let mut place = 0usize;
    while let [replies, later @ ..] = rest {
        out = append_client(out, clients, place, replies)?;
        rest = later;
        place += 1;
    }
    Ok(out)
}

fn append_client(
    out: Vec<u8>,
    clients: &[Client],
    place: usize,
    replies: &Replies,
) -> Result<Vec<u8>, NoMemory>
    ensures { IfOk result (λ bytes.
        bytes.items ≡ out.items ++ client_lines (name_at (names_of clients.now) place) replies.now) }
{
    let out = append_client_name(append(out, "client ")?, clients, place)?;
    append_replies(append_line_feed(out)?, replies.as_slice())
}

fn append_replies(out: Vec<u8>, replies: &[Reply]) -> Result<Vec<u8>, NoMemory>
    ensures { IfOk result (λ bytes. bytes.items ≡ out.items ++ replies_lines 1 replies.now) }
{
    let mut out = out;
    let mut rest = replies;
    let mut number = 1u64;
    while let [reply, later @ ..] = rest {
        out = append(append_number(out, number)?, " ")?;
        out = append_reply(out, reply)?;
        rest = later;
        number += 1;
    }
    Ok(out)
}

fn append_reply(out: Vec<u8>, reply: &Reply) -> Result<Vec<u8>, NoMemory>
    ensures { IfOk result (λ bytes. bytes.items ≡ out.items ++ reply_lines reply.now) }
{
    match reply {
        Reply::Inserted => append_line(out, "inserted"),
        Reply::Duplicate => append_line(out, "duplicate id"),
        Reply::Matched { changed: true } => append_line(out, "matched 1 changed 1"),
        Reply::Matched { changed: false } => append_line(out, "matched 1 changed 0"),
        Reply::NotFound => append_line(out, "not found"),
        Reply::Deleted => append_line(out, "deleted"),
        Reply::Found { count, first } => {
            let out = append_counted(out, "found ", *count)?;
            append_found(out, first.as_slice())
        }
        Reply::Counted { count } => append_counted(out, "count ", *count),
        Reply::NoKey => append_line(out, "no key"),
        Reply::Refused(fault) => {
            let out = append_change_fault(append(out, "refused: ")?, fault)?;
            append_line_feed(out)
        }
        Reply::AbortAccepted => append_line(out, "abort accepted"),
        Reply::AbortTooLate => append_line(out, "abort too late"),
        Reply::NoMemory => append_line(out, "no memory"),
    }
}

fn append_counted(out: Vec<u8>, what: &str, count: u64) -> Result<Vec<u8>, NoMemory>
    ensures { IfOk result (λ bytes. bytes.items ≡ out.items ++ line (what.now ++ decimal count)) }
{
    append_line_feed(append_number(append(out, what)?, count)?)
}

fn append_found(out: Vec<u8>, documents: &[Document]) -> Result<Vec<u8>, NoMemory>
    ensures { IfOk result (λ bytes. bytes.items ≡ out.items ++ flat_map found_line documents.now) }
{
    let mut out = out;
    for document in documents {
        let begun = append(out, "  ")?;
        out = append_line_feed(document.append_text(begun)?)?;
    }
    Ok(out)
}

fn append_change_fault(out: Vec<u8>, fault: &ChangeFault) -> Result<Vec<u8>, NoMemory>
    ensures { IfOk result (λ bytes. bytes.items ≡ out.items ++ change_fault_text fault.now) }
{
    match fault {
        ChangeFault::NotNumber { path } => append_at_path(out, "not number", path),
        ChangeFault::OutOfRange { path } => append_at_path(out, "out of range", path),
        ChangeFault::NotArray { path } => append_at_path(out, "not array", path),
        ChangeFault::ThroughScalar { path } => append_at_path(out, "through scalar", path),
        ChangeFault::TooLarge => append(out, "too large"),
        ChangeFault::TooDeep => append(out, "too deep"),
        ChangeFault::NoMemory => append(out, "no memory"),
    }
}
