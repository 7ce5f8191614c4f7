//! The listing of a source that is read line by line.
//!
//! Python library reference, `tokenize`.

ghost use Rattle.std.specs.Prelude.{◌≡◌, ◌≤◌, ◌<◌, ◌-◌, ◌+◌, ◌^◌, ◌||◌, ℕ, List, Bool, length};
ghost use Rattle.std.specs.Prelude.{drop, string_bytes, Ok, Err, Option, Some, None, IfOk, IfErr};
ghost use Rattle.std.specs.Prelude.{IfSome, IsTrue, ◌↔◌, Result, OnErr};
ghost use Rattle.std.specs.Str.{chars};
ghost use Rattle.pysource.specs.Parts.{Parts};
ghost use Rattle.pysource.specs.declared.line_reader.Reach.{Reach};
ghost use Rattle.pysource.specs.Streams.{Refuses};
ghost use Rattle.pylex_listing.specs.ListingLines.{text_of};
ghost use Rattle.pylex_lexeme.specs.Lexemes.{is_open_string};
ghost use Rattle.pylex_listing.specs.Steps.{most_entries};
ghost use Rattle.pylex.specs.Streamed.{AwaitsLine, Begins, BeginsAnew, Next, ResumeRefusal};
ghost use Rattle.pylex.specs.Streamed.{StreamsIn};
ghost use Rattle.pylex.specs.Inner.LineSteps.{IsEndedBy, IsStreaming, Lacks, Looks, LooksAhead};
ghost use Rattle.pylex.specs.Inner.LineSteps.{Passes, PassesOn, PeekedIn, Searches, lacks};
ghost use Rattle.pylex.specs.Inner.LineSteps.{streamed};

use crate::cursor::Cursor;
use crate::held_lines::HeldLines;
use crate::line_state::LineState;
use crate::machine::Machine;
use crate::peeked::Peeked;
use pylex_lexeme::string::is_open_string;
use pylex_listing::{Entry, Kind, ListingError, Step};
use pysource::{ByteIn, LineError, LineFault, LineRead, LineReader, Place, StreamFault};
use std::alloc::{AllocError, Global};
use std::marker::Model;
use thiserror::Error;

/// What a lister meets in the lines that it holds: with the place after it, by how far it is
/// looked there and the bytes up to it, and where the lines end here the fault of the next.
#[derive(Clone, Copy, Debug, PartialEq, Eq)]
pub struct Found {
    pub peeked: Peeked,
    pub now: LineState,
    pub at: usize,
    pub fault: Option<LineFault>,
}

/// What is met in the lines held.
#[inline(always)]
fn look(machine: &Machine, chunk: &HeldLines) -> Found
    requires { IsStreaming machine.now chunk.now None }
    ensures looks { Looks machine.entry.now chunk.entry.now result }
    ensures fault { result.fault ≡ None }
{
    // Where all was looked at the lexemes end.
    if chunk.at == chunk.text.len() {
        return Found {
            peeked: Peeked::Stop,
            now: machine.now(),
            at: chunk.at,
            fault: None,
        };
    }
    let (peeked, now, left) = machine.peek(chunk.rest());
    Found {
        peeked,
        now,
        at: chunk.text.len() - left.len(),
        fault: None,
    }
}

/// Whether more lines could change what is met where this is left: it is nothing, or a literal that
/// is open.
#[inline(always)]
fn lacks(left: &str) -> bool
    ensures { result ≡ lacks left.now }
{
    left.is_empty() || is_open_string(left)
}

/// The fault of an answer that is no line.
fn fault_of(line: LineRead, row: usize) -> Option<LineFault>
    ensures { Lacks line row result }
{
    match line {
        LineRead::Text | LineRead::End => None,
        LineRead::Fault(fault) => Some(fault),
        LineRead::Read => Some(LineFault {
            code: LineError::FailedRead,
            place: Place { row, column: 0 },
        }),
    }
}

/// What is met next: it reads on as long as the lines held don't decide it.
#[inline(always)]
fn find<R: ByteIn>(
    machine: &mut Machine,
    chunk: &mut HeldLines,
    reader: &mut R,
) -> Result<Found, AllocError>
    requires reading { chunk.old.lines.reach ≡ Reach.Reading
        → (R.seen reader.old).failures < 2 ^ 64 - 1 }
    requires streaming { IsStreaming machine.old chunk.old None }
    requires given { 0 < machine.old.given }
    ensures ahead { IfOk result (λ f. LooksAhead f chunk.old.lines chunk.new.lines) }
    ensures searches { Searches (R.seen reader.old) (R.seen reader.new)
        machine.old machine.new chunk.old chunk.new }
    ensures peeked { IfOk result (PeekedIn machine.new chunk.new) }
    ensures awaits { OnErr result (AwaitsLine (streamed machine.old chunk.old None)) }
{
    loop {
        let found = look(machine, chunk);
        let Peeked::Stop = found.peeked else {
            return Ok(found);
        };
        if !lacks(&chunk.text[found.at..]) {
            return Ok(found);
        }
        let line = chunk.read_on(reader, found.at)?;
        let LineRead::Text = line else {
            return Ok(Found {
                fault: fault_of(line, chunk.lines.row()),
                ..found
            });
        };
        machine.look_from(found.now);
    }
}

/// Advances past what was found, where that gives an entry.
#[inline(always)]
fn pass(
    machine: &mut Machine,
    chunk: &mut HeldLines,
    last: &mut Option<Entry>,
    found: Found,
) -> Result<Step, AllocError>
    requires streaming { IsStreaming machine.old chunk.old None }
    requires given { 0 < machine.old.given }
    requires last { last.old ≡ None }
    requires peeked { PeekedIn machine.old chunk.old found }
    ensures streaming { IsStreaming machine.new chunk.new last.new }
    ensures passes { Passes machine.old chunk.old found
        (streamed machine.new chunk.new last.new) result }
{
    let left = &chunk.text[found.at..];
    let step = machine.advance(found.peeked, found.now, left, found.fault)?;
    if let Step::Entry(entry) = step {
        chunk.at = found.at;
        *last = Some(entry);
    }
    Ok(step)
}

/// Gives the entry of the next lexeme in the lines held that gives one, after a line's margin;
/// otherwise nothing is changed.
#[inline(always)]
fn pass_on(machine: &mut Machine, chunk: &mut HeldLines, last: &mut Option<Entry>) -> Option<Entry>
    requires streaming { IsStreaming machine.old chunk.old None }
    requires given { 0 < machine.old.given }
    requires last { last.old ≡ None }
    ensures some { IfSome result
        (λ entry. PassesOn machine.old chunk.old entry machine.new chunk.new last.new) }
    ensures none { result ≡ None
        → (machine.new ≡ machine.old) × (chunk.new ≡ chunk.old) × (last.new ≡ last.old) }
{
    let (entry, left) = machine.step_on(chunk.rest())?;
    chunk.at = chunk.text.len() - left.len();
    *last = Some(entry);
    Some(entry)
}

/// Why a lister can't resume after a cursor.
#[derive(Debug, Drop, Error)]
pub enum ResumeFault {
    /// The encoding was refused, a read failed before the cursor's count of entries, or memory
    /// ran out.
    #[error("{0}")]
    Stream(StreamFault),
    /// The source has no such cursor.
    #[error("cursor of another source")]
    AnotherSource,
}

impl From<AllocError> for ResumeFault {
    ghost use Rattle.pylex.specs.declared.line_lister.ResumeFault.TheVariants.{Stream};
    ghost use Rattle.pysource.specs.declared.line_reader.StreamFault.TheVariants.{Memory};

    ghost from_gives = { λ error r. r ≡ Stream Memory };

    fn from(_error: AllocError) -> ResumeFault {
        ResumeFault::Stream(StreamFault::Memory)
    }
}

/// Why a lister can't resume after a cursor, where its source's listing ends before.
fn ended_before(step: Step) -> ResumeFault
    ensures { IsEndedBy step result }
{
    if let Step::Fault(fault) = step {
        if let ListingError::Line(LineError::FailedRead) = fault.code {
            return ResumeFault::Stream(StreamFault::Read);
        }
    }
    ResumeFault::AnotherSource
}

/// Lists the entries of a source that is read line by line, from a reader that the caller lends for
/// each call.
///
/// Only whole lines are held, those that a literal joins to the line that is looked at, and at most
/// 8,192 bytes that were read after them, or after the lines that decide the encoding.
#[derive(Drop)]
pub struct LineLister {
    machine: Machine,
    chunk: HeldLines,
    /// The entry that was given last, while its text is held.
    last: Option<Entry>,
}

impl Model for LineLister {
    ghost use Rattle.pylex.specs.Streamed.{Streamed};
    ghost use Rattle.pylex.specs.Inner.LineSteps.{IsStreaming, streamed};

    ghost Value = { Streamed };

    ghost view = { λ l. streamed l.machine l.chunk l.last };

    ghost invariant = { λ l. IsStreaming l.machine l.chunk l.last };
}

impl LineLister {
    /// Begins at the start of the source that the reader gives. It reads the lines that decide the
    /// encoding, and at most 8,192 bytes past them; none is held yet.
    ///
    /// # Errors
    ///
    /// As [`LineReader::new`].
    pub fn new<R: ByteIn>(alloc: Global, reader: &mut R) -> Result<LineLister, StreamFault>
        requires { (R.seen reader.old).failures < 2 ^ 64 - 1 }
        ensures begins { IfOk result (BeginsAnew (R.seen reader.old) (R.seen reader.new)) }
        ensures given { IfOk result (λ v. v.shown.given ≡ 0) }
        ensures refuses { IfErr result
            (λ fault. Refuses (R.seen reader.old) (R.seen reader.new) fault) }
    {
        let lines = LineReader::new(alloc, reader)?;
        Ok(LineLister {
            machine: Machine::start(alloc),
            chunk: HeldLines::new(alloc, lines),
            last: None,
        })
    }

    /// Resumes after a cursor of this very source. It lists the source from its start up to there.
    ///
    /// # Errors
    ///
    /// As [`LineLister::new`]; [`ResumeFault::AnotherSource`] where the source has no such cursor,
    /// and [`StreamFault::Read`] where a read failed before as many entries.
    pub fn resume_checked<R: ByteIn>(
        alloc: Global,
        reader: &mut R,
        cursor: &Cursor,
    ) -> Result<LineLister, ResumeFault>
        requires { (R.seen reader.old).failures < 2 ^ 64 - 1 }
        ensures begins { IfOk result
            (λ v. Begins (R.seen reader.old) (R.seen reader.new) v cursor.now.given) }
        ensures shown { IfOk result (λ v. v.shown ≡ cursor.now) }
        ensures misses { IfErr result
            (ResumeRefusal (R.seen reader.old) (R.seen reader.new) cursor.now) }
    {
        let mut lister = LineLister::new(alloc, reader).map_err(ResumeFault::Stream)?;
        for _given in 0..cursor.given() {
            let step = lister.next(reader)?;
            let Step::Entry(_) = step else {
                return Err(ended_before(step));
            };
        }
        if !lister.shows(cursor) {
            return Err(ResumeFault::AnotherSource);
        }
        Ok(lister)
    }

    /// Whether this is the lister's cursor.
    fn shows(&self, cursor: &Cursor) -> bool
        ensures { IsTrue result ↔ (cursor.now ≡ self.now.shown) }
    {
        self.machine.is_at(cursor)
    }

    /// The next entry, the end, or the fault that ends the listing; after the end or a fault the
    /// same again.
    ///
    /// A line that could not be read whole is such a fault, at its row and column 0.
    ///
    /// # Errors
    ///
    /// Memory is taken where a line is read and where an INDENT comes. If it runs out, the
    /// same step is still due. After the end or a fault none is taken.
    #[inline(always)]
    pub fn next<R: ByteIn>(&mut self, reader: &mut R) -> Result<Step, AllocError>
        requires { self.old.lines.reach ≡ Reach.Reading
            → (R.seen reader.old).failures < 2 ^ 64 - 1 }
        ensures steps { Next (R.seen reader.old) (R.seen reader.new) self.old self.new result }
        ensures given { self.new.shown.given ≤ most_entries }
    {
        if self.machine.is_at_start() {
            let entry = self.machine.begin();
            self.last = Some(entry);
            return Ok(Step::Entry(entry));
        }
        self.last = None;
        // The answer of `next_after` is a value of its own: it stands in memory, and so would that
        // of the way below.
        if self.chunk.at == self.chunk.text.len() {
            let step = self.next_after(reader);
            return step;
        }
        let Some(entry) = pass_on(&mut self.machine, &mut self.chunk, &mut self.last) else {
            let step = self.next_after(reader);
            return step;
        };
        Ok(Step::Entry(entry))
    }

    /// The next step, where the lines that are held may not decide it, or it is none of a lexeme.
    #[inline(never)]
    fn next_after<R: ByteIn>(&mut self, reader: &mut R) -> Result<Step, AllocError>
        requires reading { self.old.lines.reach ≡ Reach.Reading
            → (R.seen reader.old).failures < 2 ^ 64 - 1 }
        requires given { 0 < self.old.shown.given }
        requires last { self.old.last ≡ None }
        ensures steps { Next (R.seen reader.old) (R.seen reader.new) self.old self.new result }
        ensures given { self.new.shown.given ≤ most_entries }
    {
        let found = find(&mut self.machine, &mut self.chunk, reader)?;
        pass(&mut self.machine, &mut self.chunk, &mut self.last, found)
    }

    /// The lister's cursor: what is kept of the listing after the entries that were given.
    pub fn cursor(&self) -> Result<Cursor, AllocError>
        ensures { IfOk result (λ cursor. cursor ≡ self.now.shown) }
    {
        self.machine.cursor()
    }

    /// The text of the entry that was given last, no other call of `next` having followed: the
    /// encoding's name for that of the encoding.
    pub fn text(&self, entry: &Entry) -> &str
        requires { self.now.last ≡ Some entry.now }
        ensures { (p : Parts) (k : ℕ) (more : List ℕ) (broken : Bool)
            → StreamsIn self.entry.now p k more broken → result.now ≡ text_of p entry.now }
    {
        match entry.kind {
            Kind::Encoding => self.chunk.lines.encoding().text(),
            _ => self.chunk.between(entry.from, entry.to),
        }
    }

    /// The lines that are held, whole and with their line ends: directly after an entry those in
    /// which it stands, after that of the encoding none. They are one line, or lines that literals
    /// join: at each line end within them, but the last, a literal is open in the source.
    pub fn held(&self) -> &str
        ensures { result.now ≡ self.entry.now.held }
    {
        self.chunk.text.as_str()
    }
}
