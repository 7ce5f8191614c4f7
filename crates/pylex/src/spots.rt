//! Spots of a listing: directly after an entry with text, where a lister needs to keep no more than
//! its cursor shows. From one to the next the lexemes alone decide, and no place is measured.

ghost use Rattle.std.specs.Prelude.{◌≡◌, ◌+◌, ◌-◌, ◌^◌, ◌<◌, ◌≤◌, ◌&&◌, ◌==◌, not, length, count_by};
ghost use Rattle.std.specs.Prelude.{IfSome};
ghost use Rattle.pysource.specs.Places.{is_lf};
ghost use Rattle.pylex_lexeme.specs.Lexemes.{is_closer_class, is_opener_class, is_line_end_class};
ghost use Rattle.pylex_listing.specs.Lines.{count_if};
ghost use Rattle.pylex.specs.LineState.{Stands};
ghost use Rattle.pylex.specs.LineStarts.{begins_line};
ghost use Rattle.pylex.specs.Spots.{rows_in, LexemeAhead, Steps, SpotHasRoom};
ghost use Rattle.pylex.specs.Inner.LineStarting.{StartLexeme};

use crate::line_state::LineState;
use pylex_lexeme::lexeme::{Class, cut};
use pysource::Place;

/// A spot of a listing, directly after an entry that has text in the source: what a lister's cursor
/// says there, its open levels aside.
#[derive(Clone, Copy, Debug, PartialEq, Eq)]
pub struct Spot {
    /// The entries that were given.
    pub given: usize,
    /// The bytes before it.
    pub offset: usize,
    /// Its row, from 1 on.
    pub row: usize,
    /// The brackets that are open there.
    pub depth: usize,
    /// Whether a logical line has begun and has not ended.
    pub begun: bool,
}

/// The line feeds in a text.
fn feed_count(text: &str) -> usize
    ensures count { result ≡ count_by is_lf text.now }
    ensures bound { result ≤ length text.now }
{
    text.bytes().filter(|b| *b == b'\n').count()
}

/// The rows that a lexeme ends.
#[inline(always)]
fn rows_in(class: Class, text: &str) -> usize
    ensures value { result ≡ rows_in class text.now }
    ensures bound { result ≤ length text.now + 1 }
{
    match class {
        Class::String => feed_count(text),
        Class::LineEnd | Class::Join => 1,
        _ => 0,
    }
}

/// Goes past blanks and joins to the next lexeme that gives an entry: its class, its text, what is
/// left after it, and the row there; none where no lexeme stands.
#[inline(always)]
fn next_lexeme<'a>(text: &'a str, row: usize) -> Option<(Class, &'a str, &'a str, usize)>
    requires { row + length text.now < 2 ^ 62 }
    ensures ahead { IfSome result
        (λ r. LexemeAhead text.now row r.0 r.1.now r.2.now r.3) }
    ensures shorter { IfSome result (λ r. length r.2.now < length text.now) }
{
    let mut rest = text;
    let mut at = row;
    loop {
        let (class, front, back) = cut(rest)?;
        match class {
            Class::Blanks => rest = back,
            Class::Join => {
                at += 1;
                rest = back;
            }
            _ => return Some((class, front, back, at + rows_in(class, front))),
        }
    }
}

/// Whether a lexeme is a token that can begin a line.
#[inline(always)]
fn begins_line(class: Class) -> bool
    ensures { result ≡ begins_line class }
{
    match class {
        Class::Name | Class::Number | Class::String => true,
        Class::Operator(operator) => !operator.is_closer(),
        _ => false,
    }
}

/// The token that a text begins with, if it can begin a line: its class, its text, its place, and
/// the spot after it. So many entries were given before it.
#[inline(always)]
pub(crate) fn start_lexeme<'a>(
    now: LineState,
    given: usize,
    text: &'a str,
) -> Option<(Class, &'a str, Place, Spot)>
    requires stands { Stands now text.now }
    requires given { given < 2 ^ 62 }
    ensures { IfSome result (λ r. StartLexeme now given text.now r.0 r.1.now r.2 r.3) }
{
    let (class, front, _) = cut(text)?;
    if !begins_line(class) {
        return None;
    }
    let spot = Spot {
        given: given + 1,
        offset: now.now.offset + front.len(),
        row: now.now.place.row + rows_in(class, front),
        depth: now.depth + usize::from(class.is_opener()),
        begun: true,
    };
    Some((class, front, now.now.place, spot))
}

impl Spot {
    /// Whether a lexeme closes a bracket where none is open.
    #[inline(always)]
    fn is_unmatched(self, class: Class) -> bool
        ensures { result ≡ (is_closer_class class && (self.depth == 0)) }
    {
        class.is_closer() && self.depth == 0
    }

    /// The depth after a lexeme.
    #[inline(always)]
    fn depth_after(self, class: Class) -> usize
        requires { self.depth < 2 ^ 62 }
        ensures { result
            ≡ self.depth + count_if (is_opener_class class) - count_if (is_closer_class class) }
    {
        if class.is_opener() {
            return self.depth + 1;
        }
        if class.is_closer() {
            return self.depth.saturating_sub(1);
        }
        self.depth
    }

    /// Whether a logical line is open after a lexeme within one.
    #[inline(always)]
    fn goes_on(self, class: Class) -> bool
        ensures { result ≡ not (is_line_end_class class && (self.depth == 0)) }
    {
        !(class.is_line_end() && self.depth == 0)
    }

    /// Goes from a spot within a logical line past the next lexeme that gives an entry: its class,
    /// its text, what is left after it, and the spot there. `left` is the text that is left at this
    /// spot.
    ///
    /// None where no lexeme stands, or one that gives a fault.
    #[inline(always)]
    pub fn step<'a>(self, left: &'a str) -> Option<(Class, &'a str, &'a str, Spot)>
        requires { SpotHasRoom self (length left.now) }
        ensures steps { IfSome result (λ r. Steps self left.now r.0 r.1.now r.2.now r.3) }
        ensures shorter { IfSome result (λ r. length r.2.now < length left.now) }
    {
        let (class, front, back, row) = next_lexeme(left, self.row)?;
        if self.is_unmatched(class) {
            return None;
        }
        let after = Spot {
            given: self.given + 1,
            offset: self.offset + (left.len() - back.len()),
            row,
            depth: self.depth_after(class),
            begun: self.goes_on(class),
        };
        Some((class, front, back, after))
    }
}
