ghost use Rattle.std.specs.Prelude.{◌≡◌, false, None};
ghost use Rattle.resh_io.specs.Causes.{Rose};
ghost use Rattle.resh_run.specs.Answer.{said};
ghost use Rattle.resh_run.specs.Promises.{Checks, Commits, Completes, FailsToWrite, Headline, Prints, RefusesFaults};
ghost use Rattle.resh_run.specs.Promises.{RefusesLong, RunsCluster, RunsNothing, RunsOneMark, RunsPlaced, Sums};
ghost use Rattle.resh_run.specs.Promises.{TellsUsage};
ghost use Rattle.resh_run.specs.Seen.{seen};
ghost use Rattle.resh_run.specs.Top.{IsOutcome, IsSent, is_fed, said_in};
ghost use Rattle.resh_run.specs.Words.{asked_by};

use crate::decision::{Said, decide};
use crate::texts::{no_memory, read_fault, too_long, usage};
use resh_coord::End;
use resh_io::{Sink, Source, write_all};
use resh_setup::{Trace, Turns};
use resh_value::Sequence;
use std::alloc::Global;

/// How the top call ended.
#[derive(Debug, Drop)]
pub struct Outcome {
    /// The status of the process: the one that is meant, or 5 where the sink failed.
    pub status: u8,
    /// 0 committed, checked or printed, 1 aborted, 2 wrong words, 3 refused input, 4 a failed source, 6 want of memory.
    pub meant: u8,
    /// The turns in the order in which they were served; empty where nothing ran.
    pub order: Turns,
    /// How the run ended, where one was made.
    pub end: Option<End>,
    /// The number of bytes of the text that were written.
    pub sent: u64,
    /// The events of `plain` on a cluster, in the order in which they were made; `None` where no cluster ran, and for a
    /// generated setup.
    pub trace: Option<Trace>,
}

/// Does what the words ask: `plain` reads a cluster file from the source, reshards its collection and writes the page;
/// `check` reads the file and counts its parts; `generate N` reshards a generated setup and writes the summary, and
/// with `--print` writes the setup's file.
///
/// The whole text of `meant` is handed to the sink; where the sink fails, the status is 5.
pub fn plain_main<S: Source, K: Sink>(
    alloc: Global,
    words: &[String],
    source: &mut S,
    sink: &mut K,
) -> Outcome
    ensures outcome { IsOutcome words.now (seen S.left S.faults source.old source.new)
        (seen K.written K.faults sink.old sink.new) result }
    ensures headline { Headline words.now (seen S.left S.faults source.old source.new)
        (seen K.written K.faults sink.old sink.new) result }
    ensures placed { RunsPlaced words.now (seen S.left S.faults source.old source.new)
        (seen K.written K.faults sink.old sink.new) result }
    ensures cluster { RunsCluster words.now (seen S.left S.faults source.old source.new)
        (seen K.written K.faults sink.old sink.new) result }
    ensures usage { TellsUsage words.now result }
    ensures left_bytes { is_fed (asked_by words.now) ≡ false → S.left source.new ≡ S.left source.old }
    ensures left_count { is_fed (asked_by words.now) ≡ false → S.faults source.new ≡ S.faults source.old }
    ensures refused { RefusesFaults words.now (seen S.left S.faults source.old source.new)
        (seen K.written K.faults sink.old sink.new) result }
    ensures too_long { RefusesLong words.now (seen S.left S.faults source.old source.new)
        (seen K.written K.faults sink.old sink.new) result }
    ensures read_fault { result.meant ≡ 4 → Rose (S.faults source.old) (S.faults source.new) }
    ensures write_fault { FailsToWrite (seen K.written K.faults sink.old sink.new) result }
    ensures nothing_ran { RunsNothing words.now result }
    ensures checks { Checks words.now (seen S.left S.faults source.old source.new)
        (seen K.written K.faults sink.old sink.new) result }
    ensures sums { Sums words.now (seen K.written K.faults sink.old sink.new) result }
    ensures prints { Prints words.now (seen K.written K.faults sink.old sink.new) result }
    ensures complete { Completes words.now (seen S.left S.faults source.old source.new) result }
    ensures commits { Commits words.now (seen S.left S.faults source.old source.new)
        (seen K.written K.faults sink.old sink.new) result }
    ensures one_mark { RunsOneMark words.now (seen S.left S.faults source.old source.new) result }
{
    let saying = decide(alloc, words, source);
    send(alloc, saying, sink)
}

/// Hands the text of what is said to the sink.
fn send<K: Sink>(alloc: Global, saying: Said, sink: &mut K) -> Outcome
    ensures said { said_in result (said saying).text ≡ said saying }
    ensures sent { IsSent (seen K.written K.faults sink.old sink.new) (said saying).text result }
{
    match saying {
        Said::Usage => hand_over(2, Sequence::new(alloc), None, usage(), sink),
        Said::ReadFault => hand_over(4, Sequence::new(alloc), None, read_fault(), sink),
        Said::TooLong => hand_over(3, Sequence::new(alloc), None, too_long(), sink),
        Said::NoMemory => hand_over(6, Sequence::new(alloc), None, no_memory(), sink),
        Said::Refused(text) => hand_over(3, Sequence::new(alloc), None, text.as_slice(), sink),
        Said::Checked(text) => hand_over(0, Sequence::new(alloc), None, text.as_slice(), sink),
        Said::Printed(text) => hand_over(0, Sequence::new(alloc), None, text.as_slice(), sink),
        Said::Ran {
            order,
            end,
            page,
            trace,
        } => {
            let meant = match end {
                End::Committed => 0,
                End::Aborted(_) => 1,
            };
            let outcome = hand_over(meant, order, Some(end), page.as_slice(), sink);
            Outcome { trace, ..outcome }
        }
    }
}

fn hand_over<K: Sink>(
    meant: u8,
    order: Turns,
    end: Option<End>,
    text: &[u8],
    sink: &mut K,
) -> Outcome
    ensures meant { result.meant ≡ meant }
    ensures order { result.order ≡ order }
    ensures end { result.end ≡ end }
    ensures trace { result.trace ≡ None }
    ensures sent { IsSent (seen K.written K.faults sink.old sink.new) text.now result }
{
    match write_all(sink, text) {
        Ok(()) => Outcome {
            status: meant,
            meant,
            order,
            end,
            sent: text.len() as u64,
            trace: None,
        },
        Err(cut) => Outcome {
            status: 5,
            meant,
            order,
            end,
            sent: cut.sent,
            trace: None,
        },
    }
}
