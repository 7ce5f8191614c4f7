//! A writer that fails on purpose.

ghost use Rattle.std.specs.Prelude.{◌≡◌, ◌≤◌, ◌<◌, ◌+◌, ◌-◌, ◌^◌, [], Some, IfOk, OnErr};
ghost use Rattle.std.specs.Io.{WritesAtMost};
ghost use Rattle.std.specs.Io.KnownBytes.{WriteAppends};
ghost use Rattle.pysource.specs.Bytes.{write_failures};

use pysource::{ByteOut, WriteFailed};
use std::alloc::Global;

/// A writer that has room for some bytes, and takes at most `most` of them at a write. Where the
/// room is used up, every write fails, or takes none.
#[derive(Drop)]
pub struct FakeWriter {
    taken: Vec<u8>,
    most: usize,
    room: usize,
    takes_none: bool,
    failures: u64,
}

impl FakeWriter {
    /// A writer that took nothing yet, and of which no write has failed.
    pub fn new(alloc: Global, most: usize, room: usize, takes_none: bool) -> FakeWriter
        ensures taken { result.taken.items ≡ [] }
        ensures most { result.most ≡ most }
        ensures room { result.room ≡ room }
        ensures takes_none { result.takes_none ≡ takes_none }
        ensures none { result.failures ≡ 0 }
    {
        FakeWriter {
            taken: Vec::new(alloc),
            most,
            room,
            takes_none,
            failures: 0,
        }
    }

    /// The bytes that were taken.
    pub fn taken(&self) -> &[u8]
        ensures { result.now ≡ self.now.taken.items }
    {
        self.taken.as_slice()
    }
}

impl ByteOut for FakeWriter {
    ghost sent = { λ w. record { taken = Some w.taken.items; failures = w.failures } };

    fn failures(&self) -> u64 {
        self.failures
    }

    /// Takes no more than there is room for. A write also fails where there is no memory.
    fn write(&mut self, buf: &[u8]) -> Result<usize, WriteFailed>
        requires { self.old.failures < 2 ^ 64 - 1 }
        ensures bound { WritesAtMost result buf.now }
        ensures bytes { WriteAppends (Some self.old.taken.items)
            (Some self.new.taken.items) result buf.now }
        ensures failed { self.new.failures ≡ self.old.failures + write_failures result buf.now }
        ensures most { IfOk result (λ count. count ≤ self.old.most) }
        ensures room { IfOk result (λ count. count + self.new.room ≡ self.old.room) }
        ensures err { OnErr result (self.new.room ≡ self.old.room) }
        ensures kept { self.new.most ≡ self.old.most }
        ensures way { self.new.takes_none ≡ self.old.takes_none }
    {
        if buf.is_empty() {
            return Ok(0);
        }
        let count = buf.len().min(self.most).min(self.room);
        if count == 0 {
            self.failures += 1;
            return if self.takes_none {
                Ok(0)
            } else {
                Err(WriteFailed)
            };
        }
        if self.taken.extend_from_slice(&buf[..count]).is_err() {
            self.failures += 1;
            return Err(WriteFailed);
        }
        self.room -= count;
        Ok(count)
    }
}
