//! The lines of a source that a reader gives, one at a time.
//!
//! Python language reference, 2.1.2 "Physical lines" and 2.1.4 "Encoding declarations".
//!
//! Only the bytes of the line that is due are held, and at most 8,192 after it.

ghost use Rattle.std.specs.Prelude.{◌≡◌, ℕ, ◌+◌, ◌-◌, ◌^◌, ◌<◌, ◌≤◌, List, [], Option, length};
ghost use Rattle.std.specs.Prelude.{IfOk};
ghost use Rattle.std.specs.String.{string_bytes};
ghost use Rattle.pysource.specs.Limits.{source_limit};
ghost use Rattle.pysource.specs.Streams.{NextLine, Open, of_source, searches_second, PushesLine};
ghost use Rattle.pysource.specs.Taking.{ReadsBytes, Grows, FoundHead, FoundDue};
ghost use Rattle.pysource.specs.Inner.Heads.{FoundHeads};

use crate::buffers::Intake;
use crate::bytes::ByteIn;
use crate::encodings::{
    Charset, Encoding, SourceFault, cookie_of, encoding_of, has_mark, leads_on, without_mark,
};
use crate::faults::LineFault;
use crate::places::Place;
use crate::sources::first_bad;
use std::alloc::{AllocError, Global};
use std::marker::Model;
use thiserror::Error;

/// What a call for the next line met.
#[derive(Clone, Copy, Debug, PartialEq, Eq, Drop)]
pub enum LineRead {
    /// A line, which was appended whole: its line end too, which only the last line may lack.
    Text,
    /// The end of the source. Nothing was appended.
    End,
    /// A faulty line. Nothing was appended.
    Fault(LineFault),
    /// The line could not be read whole: a read failed, or the source has more bytes than
    /// `SOURCE_LIMIT`. Nothing was appended.
    Read,
}

/// Why the lines of a source could not be opened.
#[derive(Debug, Drop, Error)]
pub enum StreamFault {
    /// The cookie of this row (column 0) names another encoding than UTF-8 or ASCII.
    #[error("unsupported encoding")]
    UnsupportedEncoding(Place),
    /// The cookie of this row (column 0) names ASCII, though a byte order mark stands in front.
    #[error("byte order mark with another encoding")]
    BomConflict(Place),
    /// The lines that decide the encoding could not be read whole: a read failed, or they have
    /// more bytes than `SOURCE_LIMIT`.
    #[error("read failed")]
    Read,
    /// Memory for the bytes ran out.
    #[error("out of memory")]
    Memory,
}

impl From<AllocError> for StreamFault {
    ghost use Rattle.pysource.specs.declared.line_reader.StreamFault.TheVariants.{Memory};

    ghost from_gives = { λ error r. r ≡ Memory };

    fn from(_error: AllocError) -> StreamFault {
        StreamFault::Memory
    }
}

impl From<SourceFault> for StreamFault {
    ghost from_gives = { λ fault result. result ≡ of_source fault };

    fn from(fault: SourceFault) -> StreamFault {
        match fault {
            SourceFault::UnsupportedEncoding(place) => StreamFault::UnsupportedEncoding(place),
            SourceFault::BomConflict(place) => StreamFault::BomConflict(place),
            SourceFault::Memory => StreamFault::Memory,
        }
    }
}

/// How far reading has come.
#[derive(Clone, Copy, Debug, PartialEq, Eq, Drop)]
pub enum Reach {
    /// More may come.
    Reading,
    /// The reader is at its end.
    End,
    /// A read failed.
    Broken,
    /// The reader gave more bytes than `SOURCE_LIMIT`.
    Passed,
}

/// Reads the lines of a source, from a reader that is lent to each call.
#[derive(Drop)]
pub struct LineReader {
    encoding: Encoding,
    row: usize,
    intake: Intake,
    fault: Option<LineFault>,
}

impl Model for LineReader {
    ghost use Rattle.std.specs.Prelude.{ℕ, ◌+◌, ◌≤◌, length};
    ghost use Rattle.pysource.specs.Limits.{source_limit};
    ghost use Rattle.pysource.specs.Streams.{Buffered};

    ghost Value = { Buffered };

    ghost view = { λ s. record {
      encoding = s.encoding;
      row = s.row;
      pending = s.intake.buffer;
      reach = s.intake.reach;
      count = s.intake.count;
      fault = s.fault;
    } };

    ghost invariant = { λ s. (1 ≤ s.row) × (s.row + length s.intake.buffer ≤ s.intake.count + 1)
        × (s.intake.count ≤ source_limit) };
}

/// Whether the second line is searched for a cookie after this first one.
fn searches_second(first: &[u8]) -> bool
    ensures { result ≡ searches_second first.now }
{
    let line = without_mark(first);
    cookie_of(line).is_empty() && leads_on(line)
}

/// Appends a line, or answers its fault.
fn push_line(
    charset: Charset,
    row: usize,
    line: &[u8],
    chunk: &mut String,
) -> Result<Option<LineFault>, AllocError>
    ensures { PushesLine charset row line.now (string_bytes chunk.old)
        (string_bytes chunk.new) result }
{
    match first_bad(charset, line) {
        None => {
            // Without a bad byte the line is text, as `first_bad` ensures.
            chunk.push_str(unsafe { std::str::from_utf8_unchecked(line) })?;
            Ok(None)
        }
        Some((at, code)) => {
            let before = unsafe { std::str::from_utf8_unchecked(&line[..at]) };
            let place = Place {
                row,
                column: before.chars().count(),
            };
            Ok(Some(LineFault { code, place }))
        }
    }
}

/// The end of a line that decides the encoding and begins at `start`.
fn head_line<R: ByteIn>(
    intake: &mut Intake,
    reader: &mut R,
    start: usize,
) -> Result<usize, StreamFault>
    requires possible { intake.old.reach ≡ Reach.Reading
        → (R.seen reader.old).failures < 2 ^ 64 - 1 }
    requires within { intake.old.count ≤ source_limit }
    requires start { start ≤ length intake.old.buffer }
    ensures grows { Grows (R.seen reader.old) (R.seen reader.new) intake.old intake.new }
    ensures within { intake.new.count ≤ source_limit }
    ensures found { FoundHead start intake.old intake.new result }
{
    match intake.line_end(reader, start)? {
        Some(end) => Ok(end),
        None => match intake.reach {
            Reach::End => Ok(intake.buffer.bytes().len()),
            _ => Err(StreamFault::Read),
        },
    }
}

/// The ends of the lines that decide the encoding: of the first, and of the second where that is
/// searched for a cookie.
fn read_head<R: ByteIn>(intake: &mut Intake, reader: &mut R) -> Result<(usize, usize), StreamFault>
    requires possible { (R.seen reader.old).failures < 2 ^ 64 - 1 }
    requires buffer { intake.old.buffer ≡ [] }
    requires reach { intake.old.reach ≡ Reach.Reading }
    requires count { intake.old.count ≡ 0 }
    ensures takes { ReadsBytes (R.seen reader.old) (R.seen reader.new)
        Reach.Reading intake.new.reach 0 intake.new.count intake.new.buffer }
    ensures within { intake.new.count ≤ source_limit }
    ensures found { FoundHeads intake.new result }
{
    let first = head_line(intake, reader, 0)?;
    match intake.reach {
        Reach::Reading => {}
        _ => return Ok((first, first)),
    }
    if !searches_second(&intake.buffer.bytes()[..first]) {
        return Ok((first, first));
    }
    let second = head_line(intake, reader, first)?;
    Ok((first, second))
}

/// The line that is due, by its length: 0 where no line is left, and `None` where it could not be
/// read whole.
fn due_line<R: ByteIn>(intake: &mut Intake, reader: &mut R) -> Result<Option<usize>, AllocError>
    requires possible { intake.old.reach ≡ Reach.Reading
        → (R.seen reader.old).failures < 2 ^ 64 - 1 }
    requires within { intake.old.count ≤ source_limit }
    ensures grows { Grows (R.seen reader.old) (R.seen reader.new) intake.old intake.new }
    ensures within { intake.new.count ≤ source_limit }
    ensures found { FoundDue intake.old intake.new result }
{
    match intake.line_end(reader, 0)? {
        Some(end) => Ok(Some(end)),
        None => match intake.reach {
            Reach::End => Ok(Some(intake.buffer.bytes().len())),
            _ => Ok(None),
        },
    }
}

impl LineReader {
    /// Opens the lines of a source: it reads the first line, and the second where that is
    /// searched for a cookie, decides the encoding by them, and skips the byte order mark.
    ///
    /// At most 8,192 bytes more than these lines are taken.
    ///
    /// # Errors
    ///
    /// `UnsupportedEncoding` and `BomConflict` as [`encoding_of`] for these lines, `Read` where one
    /// of them could not be read whole, and `Memory`. What was taken of the reader is lost then.
    pub fn new<R: ByteIn>(alloc: Global, reader: &mut R) -> Result<LineReader, StreamFault>
        requires { (R.seen reader.old).failures < 2 ^ 64 - 1 }
        ensures opening { Open (R.seen reader.old) (R.seen reader.new) result }
    {
        let mut intake = Intake::new(alloc);
        let (first, second) = read_head(&mut intake, reader)?;
        let bytes = intake.buffer.bytes();
        let encoding = encoding_of(&bytes[..first], &bytes[first..second])?;
        if has_mark(bytes) {
            intake.buffer.skip(3);
        }
        Ok(LineReader {
            encoding,
            row: 1,
            intake,
            fault: None,
        })
    }

    /// The encoding that the first two lines declare.
    pub fn encoding(&self) -> &Encoding
        ensures { result.now ≡ self.now.encoding }
    {
        &self.encoding
    }

    /// The row of the line that is due, from 1.
    pub fn row(&self) -> usize
        ensures { result ≡ self.now.row }
    {
        self.row
    }

    /// Appends the next line, with its line end, to `chunk`, and answers `Text`; or answers `End`
    /// after the last, `Fault` where the line is faulty, and `Read` where it could not be read
    /// whole, at each further call too.
    ///
    /// At most 8,192 bytes after a line are taken, or what was left of those taken before.
    ///
    /// # Errors
    ///
    /// If memory runs out, nothing is appended, and the line is still due. Memory is taken only for
    /// a line that may still come: after the end, a faulty line or a failed read the call cannot
    /// fail.
    pub fn next_line<R: ByteIn>(
        &mut self,
        reader: &mut R,
        chunk: &mut String,
    ) -> Result<LineRead, AllocError>
        requires { self.old.reach ≡ Reach.Reading → (R.seen reader.old).failures < 2 ^ 64 - 1 }
        ensures reads { NextLine (R.seen reader.old) (R.seen reader.new) self.old self.new
            (string_bytes chunk.old) (string_bytes chunk.new) result }
        ensures within { self.new.count ≤ source_limit }
        ensures pending { length self.new.pending ≤ self.new.count }
    {
        if let Some(fault) = self.fault {
            return Ok(LineRead::Fault(fault));
        }
        let len = match due_line(&mut self.intake, reader)? {
            None => return Ok(LineRead::Read),
            Some(0) => return Ok(LineRead::End),
            Some(len) => len,
        };
        let line = &self.intake.buffer.bytes()[..len];
        match push_line(self.encoding.charset(), self.row, line, chunk)? {
            None => {
                self.intake.buffer.skip(len);
                self.row += 1;
                Ok(LineRead::Text)
            }
            Some(fault) => {
                self.fault = Some(fault);
                Ok(LineRead::Fault(fault))
            }
        }
    }
}
