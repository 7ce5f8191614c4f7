//! The walk over a text that finds what its line begins with, and the place after.

ghost use Rattle.std.specs.Prelude.{◌≡◌, ◌↔◌, IsTrue, ◌+◌, ◌^◌, ◌<◌, length, true, slice_index};
ghost use Rattle.std.specs.Str.{chars};
ghost use Rattle.pylex_lexeme.specs.Characters.{hash};
ghost use Rattle.pylex_listing.specs.Machine.{place_past, lead_after};
ghost use Rattle.pylex.specs.Inner.Plain.{AreSpaces, IsPlain};
ghost use Rattle.pylex.specs.Inner.Told.{Tells};

use pylex_lexeme::lexeme::Class;
use pylex_listing::LeadingChar;
use pysource::Place;

/// What the line begins with after some more plain text.
fn after_plain(lead: LeadingChar, text: &str) -> LeadingChar
    requires { IsPlain text.now }
    ensures { result ≡ lead_after lead (chars text.now) }
{
    if lead.is_nothing() {
        return lead_of_plain(text);
    }
    lead
}

/// Whether a text is in ASCII and has no line feed: each of its bytes is a character of one line.
fn is_plain(text: &str) -> bool
    ensures { IsTrue result ↔ IsPlain text.now }
{
    text.as_bytes().iter().all(|b| *b < 128 && *b != b'\n')
}

/// Whether a text has spaces alone.
pub(crate) fn is_spaces(text: &str) -> bool
    ensures { IsTrue result ↔ AreSpaces text.now }
{
    text.as_bytes().iter().all(|b| *b == b' ')
}

/// Whether a text begins with a byte above `#`. In plain text that is no blank.
#[inline(always)]
fn begins_above_hash(text: &str) -> bool
    ensures some { result ≡ true → 0 < length text.now }
    ensures first { result ≡ true → hash < slice_index text.now 0 }
{
    let bytes = text.as_bytes();
    !bytes.is_empty() && bytes[0] > b'#'
}

/// What a line begins with after plain text at its start.
#[inline(always)]
fn lead_of_plain(text: &str) -> LeadingChar
    requires { IsPlain text.now }
    ensures { result ≡ lead_after LeadingChar.Nothing (chars text.now) }
{
    if begins_above_hash(text) {
        return LeadingChar::Other;
    }
    lead_of_chars(text)
}

/// What a line begins with after plain text at its start: by each character.
#[inline(never)]
fn lead_of_chars(text: &str) -> LeadingChar
    requires { IsPlain text.now }
    ensures { result ≡ lead_after LeadingChar.Nothing (chars text.now) }
{
    if is_spaces(text) {
        return LeadingChar::Nothing;
    }
    for c in text.chars() {
        let lead = LeadingChar::Nothing.after(c);
        if !lead.is_nothing() {
            return lead;
        }
    }
    LeadingChar::Nothing
}

/// The place after a text that begins at a place, and what its line begins with: by each character.
#[inline(never)]
fn walk_chars(place: Place, lead: LeadingChar, text: &str) -> (Place, LeadingChar)
    requires row { place.row + length text.now < 2 ^ 63 }
    requires column { place.column + length text.now < 2 ^ 63 }
    ensures place { result.0 ≡ place_past place (chars text.now) }
    ensures lead { result.1 ≡ lead_after lead (chars text.now) }
{
    let mut place = place;
    let mut lead = lead;
    for c in text.chars() {
        lead = lead.after(c);
        if c == '\n' {
            place.row += 1;
            place.column = 0;
        } else {
            place.column += 1;
        }
    }
    (place, lead)
}

/// The place after a text that begins at a place, and what its line begins with.
#[inline(always)]
pub(crate) fn walk(place: Place, lead: LeadingChar, text: &str) -> (Place, LeadingChar)
    requires row { place.row + length text.now < 2 ^ 63 }
    requires column { place.column + length text.now < 2 ^ 63 }
    ensures place { result.0 ≡ place_past place (chars text.now) }
    ensures lead { result.1 ≡ lead_after lead (chars text.now) }
{
    if !is_plain(text) {
        return walk_chars(place, lead, text);
    }
    let further = Place {
        row: place.row,
        column: place.column + text.len(),
    };
    (further, after_plain(lead, text))
}

/// The place after a lexeme that begins at a place, and what its line begins with.
#[inline(always)]
pub(crate) fn walk_lexeme(
    place: Place,
    lead: LeadingChar,
    class: Class,
    text: &str,
) -> (Place, LeadingChar)
    requires row { place.row + length text.now < 2 ^ 63 }
    requires column { place.column + length text.now < 2 ^ 63 }
    requires told { Tells class text.now }
    ensures place { result.0 ≡ place_past place (chars text.now) }
    ensures lead { result.1 ≡ lead_after lead (chars text.now) }
{
    match class {
        Class::Blanks => {
            let column = place.column + text.len();
            let row = place.row;
            (Place { row, column }, lead)
        }
        Class::LineEnd => {
            let next = Place {
                row: place.row + 1,
                column: 0,
            };
            (next, LeadingChar::Nothing)
        }
        _ => walk(place, lead, text),
    }
}

/// What a line begins with.
pub(crate) fn lead_of(line: &str) -> LeadingChar
    requires { length line.now < 2 ^ 62 }
    ensures { result ≡ lead_after LeadingChar.Nothing (chars line.now) }
{
    if line.is_empty() {
        return LeadingChar::Nothing;
    }
    let (_, lead) = walk(Place { row: 1, column: 0 }, LeadingChar::Nothing, line);
    lead
}
