ghost use Rattle.std.specs.Prelude.{◌≡◌, ◌≤◌, ◌+◌, length, drop, Some, None, []};

use crate::{Failed, Sink, Source};
use std::alloc::Global;

/// Bytes in memory, and the places of the calls that fail.
#[derive(Drop)]
pub struct MemSource {
    bytes: Vec<u8>,
    at: usize,
    failing: Vec<u64>,
    calls: u64,
    faults: u64,
    ghost within: { at ≤ length bytes.items },
}

impl MemSource {
    ghost use Rattle.std.specs.Prelude.{◌≡◌};
    ghost use Rattle.xfs_base.specs.Memories.{left_of, failing_reads, reads_of, source_faults};

    /// `failing` has the places, from 1, of the calls that fail.
    pub fn new(bytes: Vec<u8>, failing: Vec<u64>) -> MemSource
        ensures left { left_of result ≡ bytes.items }
        ensures failing { failing_reads result ≡ failing.items }
        ensures calls { reads_of result ≡ 0 }
        ensures faults { source_faults result ≡ 0 }
    {
        MemSource {
            bytes,
            at: 0,
            failing,
            calls: 0,
            faults: 0,
        }
    }
}

impl Source for MemSource {
    ghost use Rattle.std.specs.Prelude.{Some, Contains, OnOk, OnErr};
    ghost use Rattle.std.specs.Io.{ReadsAtMost};
    ghost use Rattle.std.specs.Io.KnownBytes.{ReadConsumes};
    ghost use Rattle.xfs_base.specs.Causes.{HasCause};
    ghost use Rattle.xfs_base.specs.Memories.{left_of, failing_reads, reads_of, source_faults, CountsRead};

    ghost left = { λ s. Some (drop s.at s.bytes.items) };

    ghost faults = { λ s. s.faults };

    fn read(&mut self, into: &mut [u8]) -> Result<usize, Failed>
        ensures bound { ReadsAtMost result into.new }
        ensures bytes { ReadConsumes (Some (left_of self.old)) (Some (left_of self.new)) result into.new }
        ensures cause { HasCause (source_faults self.old) (source_faults self.new) result }
        // It fails exactly at the places that were handed in.
        ensures failed { OnErr result (Contains (failing_reads self.old) (reads_of self.new)) }
        ensures passed { OnOk result (¬ Contains (failing_reads self.old) (reads_of self.new)) }
        ensures counted { CountsRead self.old self.new }
    {
        self.calls = self.calls.saturating_add(1);
        if self.failing.contains(&self.calls) {
            self.faults = self.faults.saturating_add(1);
            return Err(Failed);
        }
        let count = into.len().min(self.bytes.len() - self.at);
        into[..count].copy_from_slice(&self.bytes[self.at..self.at + count]);
        self.at += count;
        Ok(count)
    }
}

/// Bytes written to memory, and the places of the calls that fail.
#[derive(Drop)]
pub struct MemSink {
    bytes: Vec<u8>,
    failing: Vec<u64>,
    calls: u64,
    faults: u64,
}

impl MemSink {
    ghost use Rattle.std.specs.Prelude.{◌≡◌, []};
    ghost use Rattle.xfs_base.specs.Memories.{taken_of, failing_writes, writes_of, sink_faults};

    /// `failing` has the places, from 1, of the calls that fail.
    pub fn new(alloc: Global, failing: Vec<u64>) -> MemSink
        ensures taken { taken_of result ≡ [] }
        ensures failing { failing_writes result ≡ failing.items }
        ensures calls { writes_of result ≡ 0 }
        ensures faults { sink_faults result ≡ 0 }
    {
        MemSink {
            bytes: Vec::new(alloc),
            failing,
            calls: 0,
            faults: 0,
        }
    }

    /// What it has taken.
    pub fn bytes(&self) -> &[u8]
        ensures { result.now ≡ taken_of self.now }
    {
        &self.bytes
    }
}

impl Sink for MemSink {
    ghost use Rattle.std.specs.Prelude.{◌≡◌, Some, Ok, Contains, OnOk, length};
    ghost use Rattle.std.specs.Io.{WritesAtMost};
    ghost use Rattle.std.specs.Io.KnownBytes.{WriteAppends};
    ghost use Rattle.xfs_base.specs.Causes.{HasCause};
    ghost use Rattle.xfs_base.specs.Memories.{taken_of, failing_writes, writes_of, sink_faults, CountsWrite};

    ghost held = { λ s. Some s.bytes.items };

    ghost faults = { λ s. s.faults };

    fn write(&mut self, bytes: &[u8]) -> Result<usize, Failed>
        ensures bound { WritesAtMost result bytes.now }
        ensures some { result ≡ Ok 0 → length bytes.now ≡ 0 }
        ensures bytes { WriteAppends (Some (taken_of self.old)) (Some (taken_of self.new)) result bytes.now }
        ensures cause { HasCause (sink_faults self.old) (sink_faults self.new) result }
        // It fails at the places that were handed in, and elsewhere only where memory is refused.
        ensures passed { OnOk result (¬ Contains (failing_writes self.old) (writes_of self.new)) }
        ensures counted { CountsWrite self.old self.new }
    {
        self.calls = self.calls.saturating_add(1);
        if self.failing.contains(&self.calls) || self.bytes.extend_from_slice(bytes).is_err() {
            self.faults = self.faults.saturating_add(1);
            return Err(Failed);
        }
        Ok(bytes.len())
    }
}
