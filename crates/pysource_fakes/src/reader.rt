//! A reader that fails on purpose.

ghost use Rattle.std.specs.Prelude.{◌≡◌, ◌≤◌, ◌<◌, ◌+◌, ◌-◌, ◌^◌, [], true, Some, IfOk, IsErr};
ghost use Rattle.std.specs.Prelude.{OnErr, length};
ghost use Rattle.std.specs.Io.{ReadsAtMost};
ghost use Rattle.std.specs.Io.KnownBytes.{ReadConsumes};
ghost use Rattle.pysource.specs.Bytes.{read_failures};

use pysource::{ByteIn, ReadFailed};

/// A reader of some bytes, which gives at most `most` of them at a read. After the last it ends,
/// or every read fails.
#[derive(Drop)]
pub struct FakeReader<'a> {
    bytes: &'a [u8],
    most: usize,
    fails: bool,
    failures: u64,
    // A read gives none only where none are left.
    ghost gives_some: { 0 < most },
}

impl<'a> FakeReader<'a> {
    /// A reader of these bytes, of which no read has failed yet.
    pub fn new(bytes: &'a [u8], most: usize, fails: bool) -> FakeReader<'a>
        requires { 0 < most }
        ensures bytes { result.bytes.now ≡ bytes.now }
        ensures most { result.most ≡ most }
        ensures fails { result.fails ≡ fails }
        ensures none { result.failures ≡ 0 }
    {
        FakeReader {
            bytes,
            most,
            fails,
            failures: 0,
        }
    }

    /// The bytes that were not given yet.
    pub fn left(&self) -> &'a [u8]
        ensures { result.now ≡ self.now.bytes.now }
    {
        self.bytes
    }
}

impl ByteIn for FakeReader<'_> {
    ghost seen = { λ r. record
        { to_come = Some r.bytes.now; failures = r.failures; may_fail = r.fails } };

    fn failures(&self) -> u64 {
        self.failures
    }

    /// Fails only after the last byte, and only where the reader was told to.
    fn read(&mut self, buf: &mut [u8]) -> Result<usize, ReadFailed>
        requires { self.old.failures < 2 ^ 64 - 1 }
        ensures bound { ReadsAtMost result buf.new }
        ensures bytes { ReadConsumes (Some self.old.bytes.now)
            (Some self.new.bytes.now) result buf.new }
        ensures failed { self.new.failures ≡ self.old.failures + read_failures result }
        ensures same { self.new.fails ≡ self.old.fails }
        ensures able { OnErr result (self.old.fails ≡ true) }
        ensures most { IfOk result (λ count. count ≤ self.old.most) }
        ensures last { OnErr result (self.old.bytes.now ≡ []) }
        ensures told { self.old.fails ≡ true → self.old.bytes.now ≡ [] → 0 < length buf.new
            → IsErr result }
        ensures kept { self.new.most ≡ self.old.most }
    {
        if self.bytes.is_empty() && self.fails && !buf.is_empty() {
            self.failures += 1;
            return Err(ReadFailed);
        }
        let count = self.most.min(buf.len()).min(self.bytes.len());
        let (front, rest) = self.bytes.split_at(count);
        buf[..count].copy_from_slice(front);
        self.bytes = rest;
        Ok(count)
    }
}
