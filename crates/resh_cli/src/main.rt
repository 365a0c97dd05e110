//! The program `reshard`: the words and the standard streams of the process, handed to the top call.
#![tactic(auto)]

ghost use Rattle.std.specs.Process.{exit_status};
ghost use Rattle.resh_run.specs.Seen.{seen};
ghost use Rattle.resh_run.specs.Top.{EndsWith};

use resh_io::{Sink, Source, StdSink, StdSource};
use resh_run::plain_main;
use std::alloc::{AllocError, Global};
use std::env;
use std::io::{self, ErrorKind};
use std::process::ExitCode;

const NO_MEMORY: u8 = 6;

/// Ends with the status of the top call.
fn main(rt: HostRuntime) -> ExitCode {
    let mut source = StdSource::new(rt.reader());
    let mut sink = StdSink::new(io::writer(&rt));
    match words(&rt) {
        Ok(words) => run(rt.alloc(), words.as_slice(), &mut source, &mut sink),
        Err(Unread::NoMemory) => ExitCode::from(NO_MEMORY),
        Err(Unread::NotText) => run(rt.alloc(), &[], &mut source, &mut sink),
    }
}

/// Makes the top call, and gives its status: the one that is meant, or 5 where the sink failed.
fn run<S: Source, K: Sink>(
    alloc: Global,
    words: &[String],
    source: &mut S,
    sink: &mut K,
) -> ExitCode
    ensures { EndsWith words.now (seen S.left S.faults source.old source.new)
        (seen K.written K.faults sink.old sink.new) (exit_status result) }
{
    let outcome = plain_main(alloc, words, source, sink);
    ExitCode::from(outcome.status)
}

/// Why the words couldn't be read: a word that isn't UTF-8 counts as wrong words.
#[derive(Debug, Drop)]
enum Unread {
    NoMemory,
    NotText,
}

/// The words of the command line, without the program's name.
fn words(rt: &HostRuntime) -> Result<Vec<String>, Unread> {
    match env::args(rt) {
        Ok(arguments) => match arguments.skip(1).collect(rt.alloc()) {
            Ok(words) => Ok(words),
            Err(AllocError) => Err(Unread::NoMemory),
        },
        Err(error) => match error.kind() {
            ErrorKind::OutOfMemory => Err(Unread::NoMemory),
            _ => Err(Unread::NotText),
        },
    }
}
