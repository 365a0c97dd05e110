//! Sources and sinks of bytes that count their faults, and reading or writing a whole.
#![tactic(auto)]

mod memory_sink;
mod memory_source;
mod reading;
mod sink;
mod source;
mod std_sink;
mod std_source;
mod writing;

pub use memory_sink::MemorySink;
pub use memory_source::MemorySource;
pub use reading::{ReadAllFault, read_all};
pub use sink::{Sink, WriteFailed};
pub use source::{ReadFailed, Source};
pub use std_sink::StdSink;
pub use std_source::StdSource;
pub use writing::{Cut, write_all};
