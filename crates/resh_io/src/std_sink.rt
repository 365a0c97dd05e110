// A writer of std as a sink.
ghost use Rattle.std.specs.Prelude.{◌≡◌, OnOk, OnErr};
ghost use Rattle.std.specs.Io.{WritesAtMost};
ghost use Rattle.std.specs.Io.KnownBytes.{WriteAppends};
ghost use Rattle.resh_io.specs.Causes.{HasCause, next_count};
ghost use Rattle.resh_io.specs.Standard.{sink_writer, sink_faults};
ghost use Rattle.resh_io.specs.Writing.{TakesSome};

use crate::{Sink, WriteFailed};
use std::io::Write;

/// A writer of std as a sink. It tells the bytes that the writer tells, and standard output tells none.
/// Each `Err` of the writer is a fault, and so is a call that takes nothing of a piece that isn't empty.
#[derive(Drop)]
pub struct StdSink<W> {
    writer: W,
    faults: u64,
}

impl<W: Write> StdSink<W> {
    pub fn new(writer: W) -> Self
        ensures writer { sink_writer result ≡ writer }
        ensures faults { sink_faults result ≡ 0 }
    {
        StdSink { writer, faults: 0 }
    }
}

impl<W: Write> Sink for StdSink<W> {
    ghost written = { λ s. W.contents (sink_writer s) };

    ghost faults = { sink_faults };

    fn write(&mut self, piece: &[u8]) -> Result<usize, WriteFailed>
        ensures bound { WritesAtMost result piece.now }
        ensures some { TakesSome result piece.now }
        ensures bytes { WriteAppends (W.contents (sink_writer self.old))
            (W.contents (sink_writer self.new)) result piece.now }
        ensures cause { HasCause (sink_faults self.old) (sink_faults self.new) result }

        // A call that fails counts once, and another doesn't count.
        ensures ok { OnOk result (sink_faults self.new ≡ sink_faults self.old) }
        ensures err { OnErr result (sink_faults self.new ≡ next_count (sink_faults self.old)) }
    {
        match self.writer.write(piece) {
            Ok(count) if count > 0 || piece.is_empty() => Ok(count),
            _ => {
                self.faults = self.faults.saturating_add(1);
                Err(WriteFailed)
            }
        }
    }
}
