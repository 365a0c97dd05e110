// A sink that keeps its bytes in memory.
ghost use Rattle.std.specs.Prelude.{◌≡◌, ◌<◌, [], min, length, take, Some, IsErr, IfOk, OnErr, Contains};
ghost use Rattle.std.specs.Io.{WritesAtMost};
ghost use Rattle.std.specs.Io.KnownBytes.{WriteAppends};
ghost use Rattle.resh_io.specs.Causes.{HasCause, next_count};
ghost use Rattle.resh_io.specs.Memory.{after_write, after_failed_write};
ghost use Rattle.resh_io.specs.Writing.{TakesSome};

use crate::{Sink, WriteFailed};
use std::alloc::Global;
use std::marker::Model;

/// Keeps what is written, takes at most so many bytes in a call, and fails at the calls that are listed, counted
/// from 1. The count of calls stops at 2^64 - 1. A call that finds no memory fails too.
#[derive(Drop)]
pub struct MemorySink {
    bytes: Vec<u8>,
    failing: Vec<u64>,
    most: usize,
    calls: u64,
    faults: u64,
}

impl Model for MemorySink {
    ghost use Rattle.std.specs.Prelude.{◌<◌};
    ghost use Rattle.resh_io.specs.Memory.{SinkState};

    ghost Value = { SinkState };

    ghost view = { λ s. record {
      bytes = s.bytes.items;
      failing = s.failing.items;
      most = s.most;
      calls = s.calls;
      faults = s.faults;
    } };

    ghost invariant = { λ s. 0 < s.most };
}

impl MemorySink {
    pub fn new(alloc: Global, failing: Vec<u64>, most: usize) -> Self
        requires { 0 < most }
        ensures { result
            ≡ record { bytes = []; failing = failing.items; most = most; calls = 0; faults = 0 } }
    {
        MemorySink {
            bytes: Vec::new(alloc),
            failing,
            most,
            calls: 0,
            faults: 0,
        }
    }

    /// The bytes that were written.
    pub fn bytes(&self) -> &[u8]
        ensures { result.now ≡ self.now.bytes }
    {
        &self.bytes
    }

    /// How many calls failed.
    pub fn faults(&self) -> u64
        ensures { result ≡ self.now.faults }
    {
        self.faults
    }
}

impl Sink for MemorySink {
    ghost written = { λ s. Some s.bytes };

    ghost faults = { λ s. s.faults };

    fn write(&mut self, piece: &[u8]) -> Result<usize, WriteFailed>
        ensures bound { WritesAtMost result piece.now }
        ensures some { TakesSome result piece.now }
        ensures bytes { WriteAppends (Some self.old.bytes) (Some self.new.bytes) result piece.now }
        ensures cause { HasCause self.old.faults self.new.faults result }

        // It fails at the calls that are listed, and else only for want of memory.
        ensures fails { Contains self.old.failing (next_count self.old.calls) → IsErr result }
        ensures err { OnErr result (self.new ≡ after_failed_write self.old) }

        // Another call takes as many bytes as it may.
        ensures count { IfOk result (λ n. n ≡ min self.old.most (length piece.now)) }
        ensures ok { IfOk result (λ n. self.new ≡ after_write self.old (take n piece.now)) }
    {
        self.calls = self.calls.saturating_add(1);
        let count = self.most.min(piece.len());
        if self.failing.contains(&self.calls)
            || self.bytes.extend_from_slice(&piece[..count]).is_err()
        {
            self.faults = self.faults.saturating_add(1);
            return Err(WriteFailed);
        }
        Ok(count)
    }
}
