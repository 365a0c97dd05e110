// A reader of std as a source.
ghost use Rattle.std.specs.Prelude.{◌≡◌, OnOk, OnErr};
ghost use Rattle.std.specs.Io.{ReadsAtMost};
ghost use Rattle.std.specs.Io.KnownBytes.{ReadConsumes};
ghost use Rattle.resh_io.specs.Causes.{HasCause, next_count};
ghost use Rattle.resh_io.specs.Standard.{source_reader, source_faults};

use crate::{ReadFailed, Source};
use std::io::Read;

/// A reader of std as a source. It tells the bytes that the reader tells, and standard input tells none.
/// Each `Err` of the reader is a fault.
#[derive(Drop)]
pub struct StdSource<R> {
    reader: R,
    faults: u64,
}

impl<R: Read> StdSource<R> {
    pub fn new(reader: R) -> Self
        ensures reader { source_reader result ≡ reader }
        ensures faults { source_faults result ≡ 0 }
    {
        StdSource { reader, faults: 0 }
    }
}

impl<R: Read> Source for StdSource<R> {
    ghost left = { λ s. R.remaining (source_reader s) };

    ghost faults = { source_faults };

    fn read(&mut self, into: &mut [u8]) -> Result<usize, ReadFailed>
        ensures bound { ReadsAtMost result into.new }
        ensures bytes { ReadConsumes (R.remaining (source_reader self.old))
            (R.remaining (source_reader self.new)) result into.new }
        ensures cause { HasCause (source_faults self.old) (source_faults self.new) result }

        // A call that fails counts once, and another doesn't count.
        ensures ok { OnOk result (source_faults self.new ≡ source_faults self.old) }
        ensures err { OnErr result (source_faults self.new ≡ next_count (source_faults self.old)) }
    {
        match self.reader.read(into) {
            Ok(count) => Ok(count),
            Err(_) => {
                self.faults = self.faults.saturating_add(1);
                Err(ReadFailed)
            }
        }
    }
}
