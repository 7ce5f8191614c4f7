//! The indentation of lines, and whether it depends on how wide a tab is.
//!
//! Python language reference, 2.1.8 "Indentation".

ghost use Rattle.std.specs.Prelude.{◌≡◌, ◌++◌, true, List, [], ◌∷◌, length, drop, OnOk, None};
ghost use Rattle.std.specs.Str.{chars, IsCharBoundary};
ghost use Rattle.pylex_lexeme.specs.Chars.{is_blank_char};
ghost use Rattle.pylex_listing.specs.declared.margins.Widths.{Widths};
ghost use Rattle.pylex_listing.specs.Margins.{blanks_of, widths_of};
ghost use Rattle.pytoken.specs.Indentation.{following_offset, are_alike, margin_at};
ghost use Rattle.pyparse_tokens.specs.Inner.Indenting.{is_logical_at, start_at, are_rising};
ghost use Rattle.pyparse_tokens.specs.Inner.Indenting.{AreSpaces, begins_blank, Drops, Measures};

use crate::room::put;
use pylex::{Widths, begins_significant, widths};
use pysource::{Place, Source, place_of};
use pytoken::Refusal;
use std::alloc::{AllocError, Global};

/// Whether a character is a blank.
fn is_blank(c: char) -> bool
    ensures { result ≡ is_blank_char c }
{
    c == ' ' || c == '\t' || c == '\x0c'
}

/// What stands after the blanks at the front of a text.
fn after_blanks(text: &str) -> &str
    ensures cut { text.now ≡ blanks_of (chars text.now) ++ result.now }
    ensures rest { chars result.now ≡ drop (length (blanks_of (chars text.now))) (chars text.now) }
{
    let mut text = text;
    loop {
        let mut left = text.chars();
        let Some(first) = left.next() else {
            return text;
        };
        if !is_blank(first) {
            return text;
        }
        text = left.as_str();
    }
}

/// How many spaces stand at the front of a text.
fn space_count(text: &str) -> usize
    ensures { AreSpaces text.now result }
{
    let bytes = text.as_bytes();
    let mut count = 0;
    while count < bytes.len() && bytes[count] == b' ' {
        count += 1;
    }
    count
}

/// Whether a blank stands at the front of a text.
fn begins_blank(text: &str) -> bool
    ensures { result ≡ begins_blank (chars text.now) }
{
    match text.chars().next() {
        Some(first) => is_blank(first),
        None => false,
    }
}

/// Whether the line that begins at an offset is a logical one.
fn is_logical_at(source: &Source, offset: usize) -> bool
    requires { IsCharBoundary source.now.text offset }
    ensures logical { result ≡ is_logical_at (chars source.now.text) offset }
    ensures line { chars (drop offset source.now.text)
        ≡ following_offset (chars source.now.text) offset }
{
    begins_significant(after_blanks(&source.text()[offset..]))
}

/// The place of the first character that isn't a blank, in the line that begins at an offset.
fn start_of(source: &Source, offset: usize) -> Place
    requires { IsCharBoundary source.now.text offset }
    ensures { result ≡ start_at (chars source.now.text) offset }
{
    let text = source.text();
    place_of(text, text.len() - after_blanks(&text[offset..]).len())
}

/// Whether two lines are in the same order by both of their widths.
fn are_alike(one: Widths, other: Widths) -> bool
    ensures { result ≡ are_alike one other }
{
    (one.eight < other.eight) == (one.one < other.one)
        && (other.eight < one.eight) == (other.one < one.one)
}

/// Drops those that aren't narrower than a line, from the last on, up to one that the line stands
/// in another order to; whether there is one among them all.
///
/// Those that stay rise by both widths, so the last of them decides for all.
fn drop_wider(standing: &mut Vec<Widths>, widths: Widths) -> bool
    ensures { are_rising standing.old.items ≡ true
        → Drops standing.old.items standing.new.items widths result }
{
    while let Some(last) = standing.last() {
        if !are_alike(*last, widths) {
            return true;
        }
        if last.eight < widths.eight {
            return false;
        }
        standing.pop();
    }
    false
}

/// Whether a line is as wide as the last of these.
#[inline(always)]
fn ends_in(standing: &[Widths], widths: Widths) -> bool
    ensures { result ≡ true → (front : List Widths) × (standing.now ≡ front ++ widths ∷ []) }
{
    let Some(last) = standing.last() else {
        return false;
    };
    if last.eight != widths.eight {
        return false;
    }
    if last.one != widths.one {
        return false;
    }
    true
}

/// What one pass over the lines of a source keeps of their indentation.
#[derive(Drop)]
pub(crate) struct Indents {
    /// The widths of the lines from which on none has a smaller one: each once, rising, up to the
    /// first mixed line.
    standing: Vec<Widths>,
    /// The first line whose indentation depends on how wide a tab is; after it none is measured.
    mixed: Option<Refusal>,
}

impl Indents {
    /// No line has begun.
    pub(crate) fn new(alloc: Global) -> Indents
        ensures standing { result.standing.items ≡ [] }
        ensures mixed { result.mixed ≡ None }
    {
        Indents {
            standing: Vec::new(alloc),
            mixed: None,
        }
    }

    /// The refusal by the first line of mixed tabs and spaces.
    pub(crate) fn refusal(&self) -> Option<Refusal>
        ensures { result ≡ self.now.mixed }
    {
        self.mixed
    }

    /// Takes the logical line of these widths that begins at an offset.
    #[inline(always)]
    fn take_line(
        &mut self,
        source: &Source,
        offset: usize,
        widths: Widths,
    ) -> Result<(), AllocError>
        requires boundary { IsCharBoundary source.now.text offset }
        requires free { self.old.mixed ≡ None }
        requires logical { is_logical_at (chars source.now.text) offset ≡ true }
        requires widths { widths ≡ widths_of (following_offset (chars source.now.text) offset) }
        ensures { OnOk result
            (Measures (margin_at (chars source.now.text) offset) self.old self.new) }
    {
        // Half of all lines are as wide as the one before, and change nothing.
        if ends_in(self.standing.as_slice(), widths) {
            return Ok(());
        }
        if drop_wider(&mut self.standing, widths) {
            self.mixed = Some(Refusal::MixedTabs(start_of(source, offset)));
            return Ok(());
        }
        put(&mut self.standing, widths)?;
        Ok(())
    }

    /// Takes the line that begins at an offset with any blanks, where it is a logical one.
    fn take_any(&mut self, source: &Source, offset: usize) -> Result<(), AllocError>
        requires boundary { IsCharBoundary source.now.text offset }
        requires free { self.old.mixed ≡ None }
        ensures { OnOk result
            (Measures (margin_at (chars source.now.text) offset) self.old self.new) }
    {
        if !is_logical_at(source, offset) {
            return Ok(());
        }
        self.take_line(source, offset, widths(source, offset))
    }

    /// Takes the line that begins at an offset, where it is a logical one.
    #[inline(always)]
    pub(crate) fn take(&mut self, source: &Source, offset: usize) -> Result<(), AllocError>
        requires { IsCharBoundary source.now.text offset }
        ensures { OnOk result
            (Measures (margin_at (chars source.now.text) offset) self.old self.new) }
    {
        if self.mixed.is_some() {
            return Ok(());
        }
        let line = &source.text()[offset..];
        let count = space_count(line);
        let following = &line[count..];
        // Most lines begin with spaces alone, so many by both widths.
        if begins_blank(following) {
            return self.take_any(source, offset);
        }
        if !begins_significant(following) {
            return Ok(());
        }
        let widths = Widths {
            eight: count,
            one: count,
        };
        self.take_line(source, offset, widths)
    }
}
