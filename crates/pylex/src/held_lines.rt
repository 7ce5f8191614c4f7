//! The lines of a source that a lister holds, and how it reads further ones.

ghost use Rattle.std.specs.Prelude.{◌≡◌, ◌≤◌, ◌<◌, ◌-◌, ◌+◌, ◌^◌, ℕ, [], length, drop};
ghost use Rattle.std.specs.Prelude.{string_bytes, slice_range, IfOk, Ok, Err};
ghost use Rattle.pysource.specs.Streams.{Buffered};
ghost use Rattle.pysource.specs.Limits.{source_limit};
ghost use Rattle.pysource.specs.declared.line_reader.Reach.{Reach};
ghost use Rattle.std.specs.Str.{IsCharBoundary};
ghost use Rattle.pylex.specs.Held.{Joins, LinesAfter};
ghost use Rattle.pylex.specs.Inner.Chunked.{AddsLine, AddsOn, HoldsOn, IsHeldLines, IsLonger};
ghost use Rattle.pylex.specs.Inner.Chunked.{ReadsOn};

use pylex_lexeme::string::{OpenLiteral, open_literal};
use pysource::{ByteIn, LineRead, LineReader};
use std::alloc::{AllocError, Global};
use std::mem;

/// Some whole lines of a source, and the reader of those after them.
#[derive(Drop)]
pub struct HeldLines {
    pub lines: LineReader,
    /// The lines that are held.
    pub text: String,
    /// No text: room for the line that takes the place of those held.
    pub spare: String,
    /// The offset at which the text that is held begins in the source's.
    pub base: usize,
    /// How much of it a lister has looked at, in bytes.
    pub at: usize,
}

/// Reads further lines after a text as long as a literal continues in the last of them, which
/// begins at `from`. If none comes, or memory runs out, it ends, with the literal still open: the
/// next call meets that again.
fn add_lines<R: ByteIn>(
    lines: &mut LineReader,
    reader: &mut R,
    literal: OpenLiteral,
    from: usize,
    text: &mut String,
)
    requires reading { lines.old.reach ≡ Reach.Reading → (R.seen reader.old).failures < 2 ^ 64 - 1 }
    requires within { lines.old.count ≤ source_limit }
    requires from { IsCharBoundary (string_bytes text.old) from }
    ensures joins { (at : ℕ) (start : Buffered)
        → LinesAfter literal at from start lines.old (string_bytes text.old)
        → Joins literal at start lines.new (string_bytes text.new) }
    ensures adds { AddsOn (R.seen reader.old) (R.seen reader.new) lines.old lines.new
        (string_bytes text.old) (string_bytes text.new) }
{
    let mut from = from;
    while literal.goes_on(&text[from..]) {
        let end = text.len();
        let Ok(line) = lines.next_line(reader, text) else {
            return;
        };
        let LineRead::Text = line else {
            return;
        };
        from = end;
    }
}

impl HeldLines {
    /// Before the first line.
    pub(crate) fn new(alloc: Global, lines: LineReader) -> HeldLines
        ensures lines { result.lines ≡ lines }
        ensures text { string_bytes result.text ≡ [] }
        ensures spare { string_bytes result.spare ≡ [] }
        ensures base { result.base ≡ 0 }
        ensures at { result.at ≡ 0 }
    {
        HeldLines {
            lines,
            text: String::new(alloc),
            spare: String::new(alloc),
            base: 0,
            at: 0,
        }
    }

    /// The text that a lister has not looked at.
    pub(crate) fn rest(&self) -> &str
        requires { IsCharBoundary (string_bytes self.now.text) self.now.at }
        ensures { result.now ≡ drop self.entry.now.at (string_bytes self.entry.now.text) }
    {
        &self.text[self.at..]
    }

    /// The text between two offsets of the source's text.
    pub(crate) fn between(&self, from: usize, to: usize) -> &str
        requires low { self.now.base ≤ from }
        requires order { from ≤ to }
        requires high { to ≤ self.now.base + length (string_bytes self.now.text) }
        requires first { IsCharBoundary (string_bytes self.now.text) (from - self.now.base) }
        requires last { IsCharBoundary (string_bytes self.now.text) (to - self.now.base) }
        ensures { result.now
            ≡ slice_range (string_bytes self.entry.now.text) (from - self.entry.now.base)
            (to - self.entry.now.base) }
    {
        &self.text[from - self.base..to - self.base]
    }

    /// Reads the next line, after what is left from `at` on: where that is nothing the line takes
    /// the place of those held, and else it lengthens them. Where no line comes nothing is changed.
    pub(crate) fn read_on<R: ByteIn>(
        &mut self,
        reader: &mut R,
        at: usize,
    ) -> Result<LineRead, AllocError>
        requires reading { self.old.lines.reach ≡ Reach.Reading
            → (R.seen reader.old).failures < 2 ^ 64 - 1 }
        requires within { self.old.lines.count ≤ source_limit }
        requires chunk { IsHeldLines self.old }
        requires at { at ≤ length (string_bytes self.old.text) }
        requires boundary { IsCharBoundary (string_bytes self.old.text) at }
        requires room { self.old.base + length (string_bytes self.old.text) < 2 ^ 62 }
        ensures on { ReadsOn (R.seen reader.old) (R.seen reader.new) self.old self.new at result }
        ensures holds { HoldsOn self.old self.new at result }
    {
        if at < self.text.len() {
            self.lengthen(reader, at)
        } else {
            self.replace(reader)
        }
    }

    /// Reads the next line after those held, and those that a literal joins to it: a long literal
    /// is looked at line by line, and not from its start again for each.
    fn lengthen<R: ByteIn>(&mut self, reader: &mut R, at: usize) -> Result<LineRead, AllocError>
        requires reading { self.old.lines.reach ≡ Reach.Reading
            → (R.seen reader.old).failures < 2 ^ 64 - 1 }
        requires within { self.old.lines.count ≤ source_limit }
        requires chunk { IsHeldLines self.old }
        requires at { at < length (string_bytes self.old.text) }
        requires boundary { IsCharBoundary (string_bytes self.old.text) at }
        ensures on { ReadsOn (R.seen reader.old) (R.seen reader.new) self.old self.new at result }
        ensures holds { HoldsOn self.old self.new at result }
    {
        let literal = open_literal(&self.text[at..]);
        let from = self.text.len();
        let line = self.add_line(reader, at)?;
        let LineRead::Text = line else {
            return Ok(line);
        };
        if let Some(literal) = literal {
            add_lines(&mut self.lines, reader, literal, from, &mut self.text);
        }
        Ok(line)
    }

    /// Reads the next line after those held.
    fn add_line<R: ByteIn>(&mut self, reader: &mut R, at: usize) -> Result<LineRead, AllocError>
        requires reading { self.old.lines.reach ≡ Reach.Reading
            → (R.seen reader.old).failures < 2 ^ 64 - 1 }
        requires chunk { IsHeldLines self.old }
        requires at { at ≤ length (string_bytes self.old.text) }
        ensures line { AddsLine self.old self.new at result }
        ensures longer { IfOk result
            (λ _. IsLonger (string_bytes self.old.text) (string_bytes self.new.text)) }
        ensures on { ReadsOn (R.seen reader.old) (R.seen reader.new) self.old self.new at result }
    {
        let line = self.lines.next_line(reader, &mut self.text)?;
        if let LineRead::Text = line {
            self.at = at;
        }
        Ok(line)
    }

    /// Reads the next line in place of those held.
    fn replace<R: ByteIn>(&mut self, reader: &mut R) -> Result<LineRead, AllocError>
        requires reading { self.old.lines.reach ≡ Reach.Reading
            → (R.seen reader.old).failures < 2 ^ 64 - 1 }
        requires chunk { IsHeldLines self.old }
        requires room { self.old.base + length (string_bytes self.old.text) < 2 ^ 62 }
        ensures on { ReadsOn (R.seen reader.old) (R.seen reader.new) self.old self.new
            (length (string_bytes self.old.text)) result }
        ensures holds { HoldsOn self.old self.new (length (string_bytes self.old.text)) result }
    {
        let line = self.lines.next_line(reader, &mut self.spare)?;
        if let LineRead::Text = line {
            self.base += self.text.len();
            mem::swap(&mut self.text, &mut self.spare);
            self.spare.clear();
            self.at = 0;
        }
        Ok(line)
    }
}
