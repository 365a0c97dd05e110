//! The summary of a generated setup's run.

ghost use Rattle.std.specs.Prelude.{◌≡◌, ◌+◌, IfOk};
ghost use Rattle.resh_gen.specs.Summary.{counted_with, summary_of, tally_in, tally_of};

use resh_command::{Replies, Reply};
use resh_coord::End;
use resh_report::Tally;
use resh_setup::{Answers, Setup};
use resh_value::NoMemory;
use std::alloc::Global;

/// The summary of the run of a number's setup, which came to this end: `replies` has a list for each client, and `held`
/// how many documents each shard holds.
pub fn summary(
    alloc: Global,
    number: u32,
    setup: &Setup,
    end: &End,
    replies: &Answers,
    held: &[u64],
) -> Result<Vec<u8>, NoMemory>
    ensures { IfOk result (λ bytes. bytes.items ≡ summary_of number setup.now end.now replies.now held.now) }
{
    let tally = tally_in(replies.as_slice())?;
    resh_report::summary(alloc, number, setup, end, tally, held)
}

/// How many commands of all clients were answered in each way.
fn tally_in(answers: &[Replies]) -> Result<Tally, NoMemory>
    ensures { IfOk result (λ tally. tally ≡ tally_in answers.now) }
{
    let mut tally = Tally {
        inserted: 0,
        matched: 0,
        deleted: 0,
        other: 0,
    };
    let mut rest = answers;
    while let [replies, later @ ..] = rest {
        tally = tally_of(tally, replies.as_slice())?;
        rest = later;
    }
    Ok(tally)
}

/// A tally with these replies.
fn tally_of(before: Tally, replies: &[Reply]) -> Result<Tally, NoMemory>
    ensures { IfOk result (λ tally. tally ≡ tally_of before replies.now) }
{
    let mut tally = before;
    let mut rest = replies;
    while let [reply, later @ ..] = rest {
        tally = counted_with(tally, reply)?;
        rest = later;
    }
    Ok(tally)
}

/// A tally with one reply more.
fn counted_with(tally: Tally, reply: &Reply) -> Result<Tally, NoMemory>
    ensures { IfOk result (λ more. more ≡ counted_with tally reply.now) }
{
    match reply {
        Reply::Inserted => Ok(Tally {
            inserted: one_more(tally.inserted)?,
            ..tally
        }),
        Reply::Matched { .. } => Ok(Tally {
            matched: one_more(tally.matched)?,
            ..tally
        }),
        Reply::Deleted => Ok(Tally {
            deleted: one_more(tally.deleted)?,
            ..tally
        }),
        _ => Ok(Tally {
            other: one_more(tally.other)?,
            ..tally
        }),
    }
}

fn one_more(count: u64) -> Result<u64, NoMemory>
    ensures { IfOk result (λ more. more ≡ count + 1) }
{
    match count.checked_add(1) {
        Some(more) => Ok(more),
        None => Err(NoMemory),
    }
}
