//! The widths of the blanks that a line begins with.
//!
//! Python language reference, 2.1.8 "Indentation".

ghost use Rattle.std.specs.Prelude.{◌≡◌, ◌+◌, ◌*◌, ◌^◌, ◌<◌, ◌≤◌, length, drop, IfSome};
ghost use Rattle.std.specs.Str.{chars, IsCharBoundary};
ghost use Rattle.pylex_lexeme.specs.Chars.{begins, is_blank_char};
ghost use Rattle.pylex_lexeme.specs.Cuts.{Cuts};
ghost use Rattle.pylex.specs.Inner.Plain.{AreSpaces, SpacesAhead};
ghost use Rattle.pylex_listing.specs.Indentation.{column_after, width_from};
ghost use Rattle.pylex_listing.specs.Margins.{column_by_one, widths_of};

use crate::leading_char::is_spaces;
use pylex_lexeme::lexeme::Class;
use pylex_listing::Widths;
use pysource::Source;

/// Whether a character is a blank.
fn is_blank(c: char) -> bool
    ensures { result ≡ is_blank_char c }
{
    c == ' ' || c == '\t' || c == '\x0c'
}

/// Whether a text begins with a blank.
#[inline(always)]
fn begins_blank(text: &str) -> bool
    ensures { result ≡ begins is_blank_char (chars text.now) }
{
    match text.chars().next() {
        Some(first) => is_blank(first),
        None => false,
    }
}

/// How many spaces stand at the front of a text.
#[inline(always)]
fn space_count(text: &str) -> usize
    ensures { SpacesAhead text.now result }
{
    let bytes = text.as_bytes();
    let mut count = 0;
    while count < bytes.len() && bytes[count] == b' ' {
        count += 1;
    }
    count
}

/// The spaces that a text begins with, and what is left after them; none where there are none, or
/// where another blank follows.
#[inline(always)]
pub(crate) fn cut_spaces(text: &str) -> Option<(&str, &str)>
    ensures spaces { IfSome result (λ r. AreSpaces r.0.now) }
    ensures cuts { IfSome result (λ r. Cuts text.now Class.Blanks r.0.now r.1.now) }
{
    let count = space_count(text);
    let (spaces, left) = text.split_at(count);
    if count == 0 || begins_blank(left) {
        return None;
    }
    Some((spaces, left))
}

/// The column after a blank: a tab goes to the next multiple of 8, a form feed sets 0.
fn column_after(column: usize, blank: char) -> usize
    requires { column < 2 ^ 63 }
    ensures value { result ≡ column_after column blank }
    ensures bound { result ≤ column + 8 }
{
    if blank == '\t' {
        (column / 8 + 1) * 8
    } else if blank == '\x0c' {
        0
    } else {
        column + 1
    }
}

/// The column after a blank where a tab counts as one space.
fn column_by_one(column: usize, blank: char) -> usize
    requires { column < 2 ^ 63 }
    ensures value { result ≡ column_by_one column blank }
    ensures bound { result ≤ column + 1 }
{
    if blank == '\x0c' { 0 } else { column + 1 }
}

/// The width of blanks that follow a width.
pub(crate) fn width_after(width: usize, blanks: &str) -> usize
    requires { width + 8 * length blanks.now < 2 ^ 63 }
    ensures value { result ≡ width_from width (chars blanks.now) }
    ensures bound { result ≤ width + 8 * length blanks.now }
{
    if is_spaces(blanks) {
        return width + blanks.len();
    }
    let mut width = width;
    for c in blanks.chars() {
        width = column_after(width, c);
    }
    width
}

/// The widths of the blanks at the front of a text.
fn widths_in(text: &str) -> Widths
    requires { 8 * length text.now < 2 ^ 62 }
    ensures { result ≡ widths_of (chars text.now) }
{
    let mut eight = 0;
    let mut one = 0;
    for c in text.chars() {
        if !is_blank(c) {
            return Widths { eight, one };
        }
        eight = column_after(eight, c);
        one = column_by_one(one, c);
    }
    Widths { eight, one }
}

/// The widths of the blanks that begin at an offset of a source's text.
pub fn widths(source: &Source, offset: usize) -> Widths
    requires { IsCharBoundary source.now.text offset }
    ensures { result ≡ widths_of (chars (drop offset source.now.text)) }
{
    widths_in(&source.text()[offset..])
}
