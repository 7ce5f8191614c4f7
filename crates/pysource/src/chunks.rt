//! The lines of a source that a reader gives, one at a time, from a reader of its own.
//!
//! Python language reference, 2.1.2 "Physical lines" and 2.1.4 "Encoding declarations".

ghost use Rattle.std.specs.Prelude.{◌≡◌, ℕ, ◌+◌, ◌-◌, ◌^◌, ◌<◌, ◌≤◌, length};
ghost use Rattle.std.specs.Prelude.{IfOk, IfErr};
ghost use Rattle.std.specs.String.{string_bytes};
ghost use Rattle.pysource.specs.Bytes.{Seen};
ghost use Rattle.pysource.specs.Limits.{source_limit};
ghost use Rattle.pysource.specs.Streams.{NextLine, Opens, Refuses};
ghost use Rattle.pysource.specs.Taking.{fails};

use crate::bytes::ByteIn;
use crate::encodings::Encoding;
use crate::line_reader::{LineRead, LineReader, StreamFault};
use std::alloc::{AllocError, Global};

/// Reads the lines of a source from a reader of its own.
#[derive(Drop)]
pub struct Chunks<R: ByteIn> {
    reader: R,
    told: u64,
    lines: LineReader,
    // The reader can be read further where reading isn't over.
    ghost possible: { told < 2 ^ 64 - 1 },
    // Besides the failures that it reported when it was taken, at most one was counted.
    ghost counted: { (R.seen reader).failures ≡ told + fails lines.reach },
}

impl<R: ByteIn> Chunks<R> {
    /// Opens the lines of a source, as [`LineReader::new`] does. A refusal drops the reader. Where
    /// no read can fail, `Read` means that the source has more bytes than `SOURCE_LIMIT`.
    pub fn new(alloc: Global, mut reader: R) -> Result<Chunks<R>, StreamFault>
    where
        R: Drop,
        requires { (R.seen reader).failures < 2 ^ 64 - 1 }
        ensures opens { IfOk result (λ c. Opens (R.seen reader) (R.seen c.reader) c.lines) }
        ensures told { IfOk result (λ c. c.told ≡ (R.seen reader).failures) }
        ensures refuses { IfErr result (λ e. (seen : Seen) × Refuses (R.seen reader) seen e) }
    {
        let told = reader.failures();
        let lines = LineReader::new(alloc, &mut reader)?;
        Ok(Chunks {
            reader,
            told,
            lines,
        })
    }

    /// The encoding that the first two lines declare.
    pub fn encoding(&self) -> &Encoding
        ensures { result.now ≡ self.now.lines.encoding }
    {
        self.lines.encoding()
    }

    /// The reader, as far as it was read.
    pub fn reader(&self) -> &R
        ensures { result.now ≡ self.now.reader }
    {
        &self.reader
    }

    /// Appends the next line, as [`LineReader::next_line`] does.
    pub fn next_line(&mut self, chunk: &mut String) -> Result<LineRead, AllocError>
        ensures reads { NextLine (R.seen self.old.reader) (R.seen self.new.reader)
            self.old.lines self.new.lines
            (string_bytes chunk.old) (string_bytes chunk.new) result }
        ensures within { self.new.lines.count ≤ source_limit }
        ensures pending { length self.new.lines.pending ≤ self.new.lines.count }
        ensures told { self.new.told ≡ self.old.told }
    {
        self.lines.next_line(&mut self.reader, chunk)
    }
}
