//! Readers and writers of bytes that count their failures, and the two loops over them.
//!
//! A contract can't name what a file, a pipe or a terminal will give. So a reader states the bytes
//! that it will give where they are known, and `None` where they aren't, and whether a read may
//! fail; a writer likewise states those that it took. Each counts its failures, so that a caller
//! can say of a whole run whether any read or write in it failed.

ghost use Rattle.std.specs.Prelude.{◌≡◌, ◌≤◌, ℕ, ◌+◌, ◌-◌, ◌^◌, ◌<◌, Bool, true, List, Option};
ghost use Rattle.std.specs.Prelude.{None, OnOk, OnErr, IfOk, IsErrOf, length, vec_len};
ghost use Rattle.std.specs.Io.{ReadsAtMost, WritesAtMost};
ghost use Rattle.std.specs.Io.KnownBytes.{ReadConsumes, WriteAppends, Appends, Consumes, IsAtEnd};
ghost use Rattle.pysource.specs.Bytes.{Seen, Sent, read_failures, IsSteady, write_failures};
ghost use Rattle.pysource.specs.Bytes.{TakesFront, GivesTooMany};
ghost use Rattle.pysource.specs.Limits.{source_limit};

use std::alloc::Global;
use std::io::{Read, Write};
use thiserror::Error;

/// A read that failed. It gave no bytes.
#[derive(Debug, Drop, Error)]
#[error("read failed")]
pub struct ReadFailed;

/// A write that failed. It took no bytes.
#[derive(Debug, Drop, Error)]
#[error("write failed")]
pub struct WriteFailed;

/// A reader of bytes that counts its failures.
pub trait ByteIn {
    // The bytes to come, the failures, and whether there may be any.
    ghost seen: { Self → Seen };

    /// How many reads failed so far.
    fn failures(&self) -> u64
        ensures { result ≡ (seen self.now).failures };

    /// Fills the front of `buf` with the next bytes, and answers how many they are: 0 at the end
    /// (or for an empty `buf`). An error is counted, and comes only where a read may fail.
    fn read(&mut self, buf: &mut [u8]) -> Result<usize, ReadFailed>
        requires { (seen self.old).failures < 2 ^ 64 - 1 }
        ensures bound { ReadsAtMost result buf.new }
        ensures bytes { ReadConsumes
            (seen self.old).to_come (seen self.new).to_come result buf.new }
        ensures failed { (seen self.new).failures
            ≡ (seen self.old).failures + read_failures result }
        ensures same { (seen self.new).may_fail ≡ (seen self.old).may_fail }
        ensures able { OnErr result ((seen self.old).may_fail ≡ true) };
}

/// A writer of bytes that counts its failures.
pub trait ByteOut {
    // The bytes that were taken, and the failures.
    ghost sent: { Self → Sent };

    /// How many writes failed so far, or took none of some bytes.
    fn failures(&self) -> u64
        ensures { result ≡ (sent self.now).failures };

    /// Takes bytes from the front of `buf`, and answers how many. An error is counted, and so is
    /// an answer of 0 for a `buf` that isn't empty.
    fn write(&mut self, buf: &[u8]) -> Result<usize, WriteFailed>
        requires { (sent self.old).failures < 2 ^ 64 - 1 }
        ensures bound { WritesAtMost result buf.now }
        ensures bytes { WriteAppends (sent self.old).taken (sent self.new).taken result buf.now }
        ensures failed { (sent self.new).failures
            ≡ (sent self.old).failures + write_failures result buf.now };
}

impl<R: ByteIn> ByteIn for &mut R {
    ghost seen = { λ r. R.seen r.now };

    fn failures(&self) -> u64 {
        (**self).failures()
    }

    fn read(&mut self, buf: &mut [u8]) -> Result<usize, ReadFailed> {
        (**self).read(buf)
    }
}

impl<W: ByteOut> ByteOut for &mut W {
    ghost sent = { λ w. W.sent w.now };

    fn failures(&self) -> u64 {
        (**self).failures()
    }

    fn write(&mut self, buf: &[u8]) -> Result<usize, WriteFailed> {
        (**self).write(buf)
    }
}

/// A reader or writer of the standard library, with the count of its failures.
#[derive(Drop)]
pub struct Counted<T> {
    inner: T,
    failures: u64,
}

impl<T> Counted<T> {
    /// Wraps a reader or writer. No failure is counted yet.
    pub fn new(inner: T) -> Counted<T>
        ensures inner { result.inner ≡ inner }
        ensures none { result.failures ≡ 0 }
    {
        Counted { inner, failures: 0 }
    }
}

impl<R: Read> ByteIn for Counted<R> {
    ghost seen = { λ r. record
        { to_come = R.remaining r.inner; failures = r.failures; may_fail = true } };

    fn failures(&self) -> u64 {
        self.failures
    }

    fn read(&mut self, buf: &mut [u8]) -> Result<usize, ReadFailed> {
        match self.inner.read(buf) {
            Ok(count) => Ok(count),
            Err(_) => {
                self.failures += 1;
                Err(ReadFailed)
            }
        }
    }
}

impl<W: Write> ByteOut for Counted<W> {
    ghost sent = { λ w. record { taken = W.contents w.inner; failures = w.failures } };

    fn failures(&self) -> u64 {
        self.failures
    }

    fn write(&mut self, buf: &[u8]) -> Result<usize, WriteFailed> {
        match self.inner.write(buf) {
            Ok(count) => {
                if count == 0 && !buf.is_empty() {
                    self.failures += 1;
                }
                Ok(count)
            }
            Err(_) => {
                self.failures += 1;
                Err(WriteFailed)
            }
        }
    }
}

/// Writes all of `bytes`, in as many writes as the writer needs, or stops at the first failure:
/// an error, or a write that takes none. What was taken then is a front of `bytes`, and exactly
/// one failure was counted.
pub fn write_all<W: ByteOut>(writer: &mut W, bytes: &[u8]) -> Result<(), WriteFailed>
    requires { (W.sent writer.old).failures < 2 ^ 64 - 1 }
    ensures ok { OnOk result
        (Appends (W.sent writer.old).taken (W.sent writer.new).taken bytes.now) }
    ensures unfailed { OnOk result ((W.sent writer.new).failures ≡ (W.sent writer.old).failures) }
    ensures front { OnErr result
        (TakesFront (W.sent writer.old).taken (W.sent writer.new).taken bytes.now) }
    ensures failed { OnErr result
        ((W.sent writer.new).failures ≡ (W.sent writer.old).failures + 1) }
{
    let mut at = 0;
    while at < bytes.len() {
        let count = writer.write(&bytes[at..])?;
        if count == 0 {
            return Err(WriteFailed);
        }
        at += count;
    }
    Ok(())
}

/// The most bytes that a source may have.
pub const SOURCE_LIMIT: usize = 1_073_741_824;

/// How many bytes are asked of a reader at once.
pub(crate) const PIECE: usize = 8192;

/// Why a source could not be read whole.
#[derive(Debug, Drop, Error)]
pub enum InputFault {
    /// A read failed, or the reader gave more than `SOURCE_LIMIT` bytes.
    #[error("read failed")]
    Read,
    /// Memory for the bytes ran out.
    #[error("out of memory")]
    Memory,
}

/// All the bytes that the reader gives up to its end, at most `SOURCE_LIMIT`. A failed read and a
/// byte too many are both `InputFault::Read`; the reader's count of failures tells them apart.
/// Where no read can fail, `Read` means a byte too many.
pub fn read_all<R: ByteIn>(alloc: Global, reader: &mut R) -> Result<Vec<u8>, InputFault>
    requires { (R.seen reader.old).failures < 2 ^ 64 - 1 }
    ensures ok { IfOk result
        (λ v. Consumes (R.seen reader.old).to_come (R.seen reader.new).to_come v.items) }
    ensures end { OnOk result (IsAtEnd (R.seen reader.new).to_come) }
    ensures within { IfOk result (λ v. vec_len v ≤ source_limit) }
    ensures unfailed { OnOk result ((R.seen reader.new).failures ≡ (R.seen reader.old).failures) }
    ensures read { IsErrOf result InputFault.Read →
        (R.seen reader.new).failures ≡ (R.seen reader.old).failures →
        GivesTooMany (R.seen reader.old).to_come (R.seen reader.new).to_come source_limit }
    ensures memory { IsErrOf result InputFault.Memory →
        (R.seen reader.new).failures ≡ (R.seen reader.old).failures }
    ensures once { (R.seen reader.new).failures ≤ (R.seen reader.old).failures + 1 }
    ensures gave { OnErr result ((given : List ℕ)
        × Consumes (R.seen reader.old).to_come (R.seen reader.new).to_come given) }
    ensures steady { IsSteady (R.seen reader.old) (R.seen reader.new) }
{
    let mut all = Vec::new(alloc);
    let mut piece = [0u8; PIECE];
    loop {
        match reader.read(&mut piece) {
            Err(_) => return Err(InputFault::Read),
            Ok(0) => return Ok(all),
            Ok(n) => {
                if n > SOURCE_LIMIT - all.len() {
                    return Err(InputFault::Read);
                }
                if all.extend_from_slice(&piece[..n]).is_err() {
                    return Err(InputFault::Memory);
                }
            }
        }
    }
}
