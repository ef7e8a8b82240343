//! The bytes of one record, in memory whose room is there from the start.
ghost use Rattle.std.specs.Prelude.{◌≡◌, ◌≤◌, ◌+◌, ◌-◌, ◌++◌, [], length, drop, IfOk};
ghost use Rattle.std.specs.Int.{to_be_bytes, w16};
ghost use Rattle.xfs_journal.specs.declared.buffer.TheConstants.{MOST};

use std::alloc::{AllocError, Global};
use std::marker::Model;

/// The most bytes that one record takes behind its gate byte: its length, its body, and the closing gate byte.
pub(crate) const MOST: usize = 1028;

/// Bytes, with room for those of any record: none of its calls takes memory.
#[derive(Drop)]
pub(crate) struct Buffer {
    bytes: Vec<u8>,
}

impl Model for Buffer {
    ghost use Rattle.std.specs.Prelude.{ℕ, List, ◌≤◌, vec_capacity};
    ghost use Rattle.xfs_journal.specs.declared.buffer.TheConstants.{MOST};

    ghost Value = { List ℕ };

    ghost view = { λ b. b.bytes.items };

    ghost invariant = { λ b. MOST ≤ vec_capacity b.bytes };
}

impl Buffer {
    pub(crate) fn new(alloc: Global) -> Result<Buffer, AllocError>
        ensures { IfOk result (λ b. b ≡ []) }
    {
        Ok(Buffer {
            bytes: Vec::with_capacity(alloc, MOST)?,
        })
    }

    pub(crate) fn bytes(&self) -> &[u8]
        ensures { result.now ≡ self.now }
    {
        &self.bytes
    }

    pub(crate) fn len(&self) -> usize
        ensures { result ≡ length self.now }
    {
        self.bytes.len()
    }

    pub(crate) fn clear(&mut self)
        ensures { self.new ≡ [] }
    {
        self.bytes.clear();
    }

    // Puts bytes behind those that are there.
    pub(crate) fn put(&mut self, bytes: &[u8])
        requires { length self.old + length bytes.now ≤ MOST }
        ensures { self.new ≡ self.old ++ bytes.now }
    {
        let _ = self.bytes.extend_from_slice(bytes);
    }

    // Writes in place of the first two bytes how many stand behind them.
    pub(crate) fn write_size(&mut self)
        requires some { 2 ≤ length self.old }
        requires most { length self.old ≤ MOST }
        ensures { self.new ≡ to_be_bytes w16 (length self.old - 2) ++ drop 2 self.old }
    {
        let [high, low] = ((self.bytes.len() - 2) as u16).to_be_bytes();
        self.bytes[0] = high;
        self.bytes[1] = low;
    }
}
