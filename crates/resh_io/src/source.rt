// What gives bytes.
ghost use Rattle.std.specs.Prelude.{List, ℕ};
ghost use Rattle.std.specs.declared.option.Option.{Option};
ghost use Rattle.std.specs.Io.{ReadsAtMost};
ghost use Rattle.std.specs.Io.KnownBytes.{ReadConsumes};
ghost use Rattle.resh_io.specs.Causes.{HasCause};

/// A read failed, and took no byte.
#[derive(Clone, Copy, Debug, PartialEq, Eq)]
pub struct ReadFailed;

pub trait Source {
    /// The bytes that are left, where the source tells them.
    ghost left: { Self → Option (List ℕ) };

    /// How many faults there were. A count of 2^64 - 1 stays there.
    ghost faults: { Self → ℕ };

    /// Reads some of the bytes that are left into the front of the slice, and answers how many.
    /// An answer of 0 into a slice that isn't empty is the end of input.
    fn read(&mut self, into: &mut [u8]) -> Result<usize, ReadFailed>
        ensures bound { ReadsAtMost result into.new }
        ensures bytes { ReadConsumes (left self.old) (left self.new) result into.new }
        ensures cause { HasCause (faults self.old) (faults self.new) result };
}
