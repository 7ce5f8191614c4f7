//! A row of a source as it is shown, with a caret below a place in it.

ghost use Rattle.std.specs.Prelude.{◌≡◌, ℕ, suc, ◌-◌, ◌==◌, ◌||◌, ◌++◌, not, drop, length, replicate};
ghost use Rattle.std.specs.Prelude.{take, OnOk};
ghost use Rattle.std.specs.List.{flat_map};
ghost use Rattle.std.specs.Str.{chars, encode_utf8_all};
ghost use Rattle.std.specs.String.{string_bytes};
ghost use Rattle.pysource.specs.Characters.{space, tab};
ghost use Rattle.pysource.specs.Cookies.{without_mark};
ghost use Rattle.pysource.specs.Reprs.{is_unprintable};
ghost use Rattle.pysource.specs.Sources.{nth_line};
ghost use Rattle.pyast_fault.specs.Rows.{below, first_shown, row_and_caret, row_text, shown_char};
ghost use Rattle.pyast_fault.specs.Rows.{utf8_front, without_line_end};

use memchr::memchr;
use pysource::{Place, push_repr_point};
use std::alloc::AllocError;
use unicode::properties::{GeneralCategory, GeneralCategoryGroup};

/// The most characters of a row that are shown.
const WIDEST: usize = 160;

/// Of a longer row, how many characters stand before the place.
const MOST_BEFORE: usize = 80;

/// The bytes after the byte order mark, where it stands in front.
fn without_mark(bytes: &[u8]) -> &[u8]
    ensures { result.now ≡ without_mark bytes.now }
{
    if bytes.starts_with(&[0xEF, 0xBB, 0xBF]) {
        &bytes[3..]
    } else {
        bytes
    }
}

/// What follows the first line.
fn after_line(bytes: &[u8]) -> &[u8]
    ensures { (n : ℕ) → nth_line result.now n ≡ nth_line bytes.now (suc n) }
{
    match memchr(b'\n', bytes) {
        Some(at) => &bytes[at + 1..],
        None => &[],
    }
}

/// The first line, with its line end.
fn first_line(bytes: &[u8]) -> &[u8]
    ensures { result.now ≡ nth_line bytes.now 0 }
{
    match memchr(b'\n', bytes) {
        Some(at) => &bytes[..at + 1],
        None => bytes,
    }
}

/// The line after so many others, with its line end; empty where there are no more.
fn nth_line(bytes: &[u8], count: usize) -> &[u8]
    ensures { result.now ≡ nth_line bytes.now count }
{
    let mut rest = bytes;
    for _ in 0..count {
        rest = after_line(rest);
    }
    first_line(rest)
}

/// A line without its line end.
fn without_line_end(line: &[u8]) -> &[u8]
    ensures { result.now ≡ without_line_end line.now }
{
    if line.ends_with(b"\r\n") {
        &line[..line.len() - 2]
    } else if line.ends_with(b"\n") {
        &line[..line.len() - 1]
    } else {
        line
    }
}

/// The longest front that is UTF-8.
fn utf8_front(bytes: &[u8]) -> &str
    ensures { result.now ≡ utf8_front bytes.now }
{
    let len = match simdutf8::compat::from_utf8(bytes) {
        Ok(text) => return text,
        Err(fault) => fault.valid_up_to(),
    };
    unsafe { std::str::from_utf8_unchecked(&bytes[..len]) }
}

/// The text of a row, from 1, without its line end, as far as it is UTF-8. It is empty where the
/// source has no such row.
fn row_text(bytes: &[u8], row: usize) -> &str
    ensures { result.now ≡ row_text bytes.now row }
{
    let line = nth_line(without_mark(bytes), row.saturating_sub(1));
    utf8_front(without_line_end(line))
}

/// The text after some of its characters.
fn skip_chars(text: &str, count: usize) -> &str
    ensures { chars result.now ≡ drop count (chars text.now) }
{
    let mut left = text.chars();
    for _ in 0..count {
        let Some(_) = left.next() else {
            return "";
        };
    }
    left.as_str()
}

/// How many characters a text has.
fn char_count(text: &str) -> usize
    ensures { result ≡ length (chars text.now) }
{
    text.chars().count()
}

/// The first character of a row that is shown.
fn first_shown(row: &str, column: usize) -> usize
    ensures { result ≡ first_shown (chars row.now) column }
{
    if char_count(row) <= WIDEST {
        0
    } else {
        column.saturating_sub(MOST_BEFORE)
    }
}

/// Whether a character is shown as it is.
fn is_shown(c: char) -> bool
    ensures { result ≡ (c == tab || not (is_unprintable c)) }
{
    let category = GeneralCategory::for_char(c);
    c == '\t'
        || c == ' '
        || !GeneralCategoryGroup::Other.contains(category)
            && !GeneralCategoryGroup::Separator.contains(category)
}

/// Appends what a character is shown by.
fn push_char(out: &mut String, c: char) -> Result<(), AllocError>
    ensures { OnOk result
        (string_bytes out.new ≡ string_bytes out.old ++ encode_utf8_all (shown_char c)) }
{
    if is_shown(c) {
        out.push(c)?;
        return Ok(());
    }
    // A `repr` has other escapes for these.
    match c {
        '\n' => out.push_str("\\x0a"),
        '\r' => out.push_str("\\x0d"),
        '\\' => out.push_str("\\x5c"),
        _ => push_repr_point(out, b'\n', u32::from(c)),
    }
}

/// Appends what the first characters of a text are shown by.
fn push_row(out: &mut String, text: &str, most: usize) -> Result<(), AllocError>
    ensures { OnOk result (string_bytes out.new ≡
        string_bytes out.old ++ encode_utf8_all (flat_map shown_char (take most (chars text.now)))) }
{
    let mut left = text.chars();
    for _ in 0..most {
        match left.next() {
            Some(c) => push_char(out, c)?,
            None => break,
        }
    }
    Ok(())
}

/// By how many characters a character is shown.
fn shown_len(c: char) -> usize
    ensures { result ≡ length (shown_char c) }
{
    if is_shown(c) {
        1
    } else if c < '\u{100}' {
        4
    } else if c < '\u{10000}' {
        6
    } else {
        10
    }
}

/// Appends some blanks.
fn push_blanks(out: &mut String, count: usize) -> Result<(), AllocError>
    ensures { OnOk result
        (string_bytes out.new ≡ string_bytes out.old ++ replicate count space) }
{
    for _ in 0..count {
        out.push(' ')?;
    }
    Ok(())
}

/// Appends what stands below the first characters of a text, and a blank for each that it lacks.
fn push_below(out: &mut String, text: &str, count: usize) -> Result<(), AllocError>
    ensures { OnOk result
        (string_bytes out.new ≡ string_bytes out.old ++ below count (chars text.now)) }
{
    let mut left = text.chars();
    for _ in 0..count {
        match left.next() {
            Some('\t') => out.push('\t')?,
            Some(c) => push_blanks(out, shown_len(c))?,
            None => out.push(' ')?,
        }
    }
    Ok(())
}

/// Appends the row of a place of a source, as it is shown, and below it a line with a caret below
/// the place; each ends in a line feed.
///
/// The row has no line end, and is cut before the first byte that isn't UTF-8; of more than 160
/// characters 160 are shown, from 80 before the place on. Unprintable characters but tabs are
/// escaped, and the caret counts characters, not how wide a terminal shows them.
pub fn push_row_and_caret(out: &mut String, bytes: &[u8], place: Place) -> Result<(), AllocError>
    ensures { OnOk result
        (string_bytes out.new ≡ string_bytes out.old ++ row_and_caret bytes.now place) }
{
    let row = row_text(bytes, place.row);
    let first = first_shown(row, place.column);
    let shown = skip_chars(row, first);
    push_row(out, shown, WIDEST)?;
    out.push('\n')?;
    push_below(out, shown, place.column - first)?;
    out.push_str("^\n")
}
