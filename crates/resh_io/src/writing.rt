// Writing a whole.
ghost use Rattle.resh_io.specs.Causes.{HasCause};
ghost use Rattle.resh_io.specs.Writing.{WritesAll};

use crate::{Sink, WriteFailed};

/// The sink failed after so many bytes.
#[derive(Clone, Copy, Debug, PartialEq, Eq)]
pub struct Cut {
    pub sent: u64,
}

/// Writes all the bytes in order. It takes no memory.
/// After a fault the sink has the first `sent` of them, and no other.
pub fn write_all<K: Sink>(sink: &mut K, bytes: &[u8]) -> Result<(), Cut>
    ensures bytes { WritesAll (K.written sink.old) (K.written sink.new) bytes.now result }
    ensures cause { HasCause (K.faults sink.old) (K.faults sink.new) result }
{
    let mut sent = 0;
    while sent < bytes.len() {
        match sink.write(&bytes[sent..]) {
            Ok(count) => sent += count,
            Err(WriteFailed) => return Err(Cut { sent: sent as u64 }),
        }
    }
    Ok(())
}
