//! The lines of a listing, as `python -m tokenize` prints them (library reference, `tokenize`,
//! command-line usage).

ghost use Rattle.std.specs.Prelude.{◌≡◌, ◌≤◌, ◌-◌, ◌+◌, ◌∷◌, [], ◌++◌, true, drop, length};
ghost use Rattle.std.specs.Prelude.{replicate, decimal, codes, IfOk, IfSome, OnOk, OnErr};
ghost use Rattle.std.specs.Str.{chars, IsAscii};
ghost use Rattle.std.specs.Io.{StartsWith};
ghost use Rattle.std.specs.List.{list_all};
ghost use Rattle.std.specs.String.{string_bytes};
ghost use Rattle.pysource.specs.Reprs.{is_plain, repr_text};
ghost use Rattle.pylex_listing.specs.ListingLines.{filled, kind_name, listing_line, shown_name};
ghost use Rattle.pylex_listing.specs.ListingLines.{shown_place, shown_range};
ghost use Rattle.pylex_lexeme.specs.Characters.{line_feed, space};
ghost use Rattle.pylex_lexeme.specs.Operators.{exact_name};

use itoa::write_digits;
use pylex_lexeme::scanner::char_count;
use pylex_listing::{Entry, Exact, Kind};
use pysource::{Place, push_repr};
use std::alloc::{AllocError, Global};
use std::str::from_utf8_unchecked;

/// The width of a field of places, in characters.
const RANGE_WIDTH: usize = 20;

/// The width of a name's field and of a text's, in characters.
const FIELD_WIDTH: usize = 15;

/// The room that most lines take besides their text, in bytes.
const LINE_ROOM: usize = 64;

/// Where the places of an entry end in the field that they are written to, from the last to the
/// first: the widest have room before it, and after it stand the blanks of the shortest.
const RANGE_END: usize = 84;

/// As many blanks as the widest field has.
const BLANKS: &str = "                    ";

/// Fills a field that has `taken` characters.
fn push_filling(out: &mut String, width: usize, taken: usize) -> Result<(), AllocError>
    requires { width ≤ 20 }
    ensures ok { OnOk result
        (string_bytes out.new ≡ string_bytes out.old ++ replicate (width - taken) space) }
    ensures kept { StartsWith (string_bytes out.new) (string_bytes out.old) }
{
    if taken >= width {
        return Ok(());
    }
    // A copy of a fixed length, cut off again, takes less time than one of a few bytes.
    let end = out.len() + (width - taken);
    out.push_str(BLANKS)?;
    out.truncate(end);
    Ok(())
}

/// Writes a sign before what stands from `end` on, and answers where it stands.
#[inline(always)]
fn put_sign(field: &mut [u8; 104], end: usize, sign: u8) -> usize
    requires { (1 ≤ end) × (end ≤ 104) }
    ensures start { result + 1 ≡ end }
    ensures written { drop result field.new ≡ sign ∷ drop end field.old }
{
    field[end - 1] = sign;
    end - 1
}

/// Writes a number before what stands from `end` on, and answers where it begins.
#[inline(always)]
fn put_number(field: &mut [u8; 104], end: usize, number: usize) -> usize
    requires { (20 ≤ end) × (end ≤ 104) }
    ensures start { result + length (decimal number) ≡ end }
    ensures short { end ≤ result + 20 }
    ensures written { drop result field.new ≡ decimal number ++ drop end field.old }
{
    // Most columns have one digit or two: two are written, and what is written before the number
    // takes the place of a 0.
    if number < 100 {
        let ones = put_sign(field, end, b'0' + (number % 10) as u8);
        let tens = put_sign(field, ones, b'0' + (number / 10) as u8);
        return if number < 10 { ones } else { tens };
    }
    write_digits(number as u64, field, end)
}

/// Writes a place before what stands from `end` on, and answers where it begins.
#[inline(always)]
fn put_place(field: &mut [u8; 104], end: usize, place: Place) -> usize
    requires { (41 ≤ end) × (end ≤ 104) }
    ensures start { result + length (shown_place place) ≡ end }
    ensures short { end ≤ result + 41 }
    ensures written { drop result field.new ≡ shown_place place ++ drop end field.old }
{
    let column = put_number(field, end, place.column);
    let comma = put_sign(field, column, b',');
    put_number(field, comma, place.row)
}

/// Writes the places of an entry before the blanks that end the field, and answers where they
/// begin.
#[inline(always)]
fn put_range(field: &mut [u8; 104], entry: &Entry) -> usize
    ensures start { result + length (shown_range entry.now) ≡ 84 }
    ensures written { drop result field.new ≡ shown_range entry.now ++ drop 84 field.old }
{
    let colon = put_sign(field, RANGE_END, b':');
    let end = put_place(field, colon, entry.end);
    let dash = put_sign(field, end, b'-');
    put_place(field, dash, entry.start)
}

/// Appends bytes that are ASCII.
#[inline(always)]
fn push_ascii(out: &mut String, bytes: &[u8]) -> Result<(), AllocError>
    requires { IsAscii bytes.now }
    ensures ok { OnOk result (string_bytes out.new ≡ string_bytes out.old ++ bytes.now) }
    ensures kept { StartsWith (string_bytes out.new) (string_bytes out.old) }
{
    out.push_str(unsafe { from_utf8_unchecked(bytes) })
}

/// Writes the field of an entry's places.
#[inline(always)]
fn push_range(out: &mut String, entry: &Entry) -> Result<(), AllocError>
    ensures ok { OnOk result
        (string_bytes out.new ≡ string_bytes out.old ++ filled 20 (shown_range entry.now)) }
    ensures kept { StartsWith (string_bytes out.new) (string_bytes out.old) }
{
    let mut field = [b' '; 104];
    let start = put_range(&mut field, entry);
    // Few ranges are wider than their field; the others are copied with a fixed length.
    if RANGE_END - start > RANGE_WIDTH {
        return push_ascii(out, &field[start..RANGE_END]);
    }
    push_ascii(out, &field[start..start + RANGE_WIDTH])
}

/// The name of a type of tokens, filled to the width of its field.
#[tactic(auto, using(crate::proofs::Texts::LinesLemmas::kind_filled))]
fn kind_field(kind: Kind) -> &'static str
    ensures { result.now ≡ filled 15 (kind_name kind) }
{
    match kind {
        Kind::Encoding => "ENCODING       ",
        Kind::Name => "NAME           ",
        Kind::Number => "NUMBER         ",
        Kind::String => "STRING         ",
        Kind::Op => "OP             ",
        Kind::Comment => "COMMENT        ",
        Kind::Nl => "NL             ",
        Kind::Newline => "NEWLINE        ",
        Kind::Indent => "INDENT         ",
        Kind::Dedent => "DEDENT         ",
        Kind::EndMarker => "ENDMARKER      ",
    }
}

/// Writes the field of an operator's own name.
fn push_operator(out: &mut String, operator: Exact) -> Result<(), AllocError>
    ensures ok { OnOk result
        (string_bytes out.new ≡ string_bytes out.old ++ filled 15 (exact_name operator)) }
    ensures kept { StartsWith (string_bytes out.new) (string_bytes out.old) }
{
    let name = operator.name();
    out.push_str(name)?;
    push_filling(out, FIELD_WIDTH, name.len())
}

/// Writes the field of the name that is shown for an entry.
#[inline(always)]
fn push_name(out: &mut String, entry: &Entry, exact: bool) -> Result<(), AllocError>
    ensures ok { OnOk result
        (string_bytes out.new ≡ string_bytes out.old ++ filled 15 (shown_name exact entry.now)) }
    ensures kept { StartsWith (string_bytes out.new) (string_bytes out.old) }
{
    match entry.exact {
        Some(operator) if exact => push_operator(out, operator),
        _ => out.push_str(kind_field(entry.kind)),
    }
}

/// The bytes that stand for themselves between quotes of either kind, each at its own place, and a
/// tab at every other.
static PLAIN_BYTES: [u8; 256] = *b"\
    \t\t\t\t\t\t\t\t\t\t\t\t\t\t\t\t\t\t\t\t\t\t\t\t\t\t\t\t\t\t\t\t\
    \x20!\t#$%&\t()*+,-./0123456789:;<=>?\
    @ABCDEFGHIJKLMNOPQRSTUVWXYZ[\t]^_\
    `abcdefghijklmnopqrstuvwxyz{|}~\t\
    \t\t\t\t\t\t\t\t\t\t\t\t\t\t\t\t\t\t\t\t\t\t\t\t\t\t\t\t\t\t\t\t\
    \t\t\t\t\t\t\t\t\t\t\t\t\t\t\t\t\t\t\t\t\t\t\t\t\t\t\t\t\t\t\t\t\
    \t\t\t\t\t\t\t\t\t\t\t\t\t\t\t\t\t\t\t\t\t\t\t\t\t\t\t\t\t\t\t\t\
    \t\t\t\t\t\t\t\t\t\t\t\t\t\t\t\t\t\t\t\t\t\t\t\t\t\t\t\t\t\t\t\t";

/// Whether a byte stands for itself between quotes of either kind.
#[inline(always)]
fn is_plain_byte(byte: u8) -> bool
    ensures { result ≡ is_plain byte }
{
    PLAIN_BYTES[byte as usize] != b'\t'
}

/// Whether all bytes stand for themselves between quotes of either kind.
fn are_plain(bytes: &[u8]) -> bool
    ensures { result ≡ true → list_all is_plain bytes.now ≡ true }
{
    let mut count = 0;
    while count < bytes.len() && is_plain_byte(bytes[count]) {
        count += 1;
    }
    count == bytes.len()
}

/// Copies bytes up to one that doesn't stand for itself between quotes, and answers whether there
/// is none.
#[inline(always)]
fn copy_plain(into: &mut [u8], bytes: &[u8]) -> bool
    requires { length into.old ≡ length bytes.now }
    ensures size { length into.new ≡ length into.old }
    ensures plain { result ≡ true → list_all is_plain bytes.now ≡ true }
    ensures copied { result ≡ true → into.new ≡ bytes.now }
{
    let mut count = 0;
    while count < bytes.len() {
        let byte = bytes[count];
        if !is_plain_byte(byte) {
            return false;
        }
        into[count] = byte;
        count += 1;
    }
    true
}

/// The field of a short text and the line's end, where the text's `repr` shows it as it is.
#[inline(always)]
fn short_field(text: &str) -> Option<[u8; 16]>
    requires { length text.now ≤ 13 }
    ensures ascii { IfSome result IsAscii }
    ensures field { IfSome result
        (λ field. field ≡ filled 15 (repr_text (chars text.now)) ++ codes "\n") }
{
    let mut field = *b"'              \n";
    let end = text.len() + 1;
    if !copy_plain(&mut field[1..end], text.as_bytes()) {
        return None;
    }
    field[end] = b'\'';
    Some(field)
}

/// Writes the field of a text whose `repr` shows it as it is.
#[inline(always)]
fn push_plain(out: &mut String, text: &str) -> Result<(), AllocError>
    requires { list_all is_plain text.now ≡ true }
    ensures ok { OnOk result
        (string_bytes out.new ≡ string_bytes out.old ++ filled 15 (repr_text (chars text.now))) }
    ensures kept { StartsWith (string_bytes out.new) (string_bytes out.old) }
{
    out.push('\'')?;
    out.push_str(text)?;
    out.push('\'')?;
    push_filling(out, FIELD_WIDTH, text.len() + 2)
}

/// Writes the field of a line feed, with which most lines of a source end.
#[tactic(auto, using(crate::proofs::Texts::LinesLemmas::line_feed_field))]
fn push_line_feed(out: &mut String) -> Result<(), AllocError>
    ensures ok { OnOk result
        (string_bytes out.new ≡ string_bytes out.old ++ filled 15 (repr_text (chars (line_feed ∷ [])))) }
    ensures kept { StartsWith (string_bytes out.new) (string_bytes out.old) }
{
    out.push_str("'\\n'           ")
}

/// Writes the field of a text.
fn push_text(out: &mut String, text: &str) -> Result<(), AllocError>
    ensures ok { OnOk result
        (string_bytes out.new ≡ string_bytes out.old ++ filled 15 (repr_text (chars text.now))) }
    ensures kept { StartsWith (string_bytes out.new) (string_bytes out.old) }
{
    if are_plain(text.as_bytes()) {
        return push_plain(out, text);
    }
    if text == "\n" {
        return push_line_feed(out);
    }
    let start = out.len();
    push_repr(out, text)?;
    let taken = char_count(&out.as_str()[start..]);
    push_filling(out, FIELD_WIDTH, taken)
}

/// Writes the field of a text, and the line's end.
#[inline(always)]
fn push_end(out: &mut String, text: &str) -> Result<(), AllocError>
    ensures ok { OnOk result
        (string_bytes out.new ≡ string_bytes out.old
        ++ (filled 15 (repr_text (chars text.now)) ++ codes "\n")) }
    ensures kept { StartsWith (string_bytes out.new) (string_bytes out.old) }
{
    if text.len() <= FIELD_WIDTH - 2
        && let Some(field) = short_field(text)
    {
        return push_ascii(out, &field);
    }
    push_text(out, text)?;
    out.push_str("\n")
}

/// Appends an entry's line, by its fields.
#[inline(always)]
fn push_fields(out: &mut String, entry: &Entry, text: &str, exact: bool) -> Result<(), AllocError>
    ensures ok { OnOk result
        (string_bytes out.new ≡ string_bytes out.old ++ listing_line exact entry.now text.now) }
    ensures kept { StartsWith (string_bytes out.new) (string_bytes out.old) }
{
    push_range(out, entry)?;
    push_name(out, entry, exact)?;
    push_end(out, text)
}

/// The line of an entry with this text, its line end included: the entry's places, its name and the
/// `repr` of the text, each filled to the width of its field, and none cut off. With `exact` an
/// operator is shown by its own name.
pub fn line_text(
    alloc: Global,
    entry: &Entry,
    text: &str,
    exact: bool,
) -> Result<String, AllocError>
    ensures { IfOk result (λ line. string_bytes line ≡ listing_line exact entry.now text.now) }
{
    let mut line = String::with_capacity(alloc, text.len() + LINE_ROOM)?;
    push_fields(&mut line, entry, text, exact)?;
    Ok(line)
}

/// Appends the line of an entry with this text, whole or not at all.
#[inline(always)]
pub fn push_line(out: &mut String, entry: &Entry, text: &str, exact: bool) -> Result<(), AllocError>
    ensures ok { OnOk result
        (string_bytes out.new ≡ string_bytes out.old ++ listing_line exact entry.now text.now) }
    ensures err { OnErr result (string_bytes out.new ≡ string_bytes out.old) }
{
    let start = out.len();
    let pushed = push_fields(out, entry, text, exact);
    if pushed.is_err() {
        out.truncate(start);
    }
    pushed
}
