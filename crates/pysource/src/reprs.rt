//! The `repr` of texts and of bytes.
//!
//! Python library reference, `repr` of the built-in functions, `str.isprintable` for the characters
//! that are escaped, and "Bytes Objects" of the built-in types. Categories are those of Unicode 18.

ghost use Rattle.std.specs.Prelude.{◌≡◌, ◌≤◌, ◌<◌, ◌+◌, ◌++◌, [], ◌∷◌, IfOk, IsUtf8, OnOk, true};
ghost use Rattle.std.specs.Prelude.{length, take, All, if◌then◌else◌, vec_capacity, vec_len};
ghost use Rattle.std.specs.List.{list_all, prefix_len};
ghost use Rattle.std.specs.Str.{chars, encode_utf8_all};
ghost use Rattle.std.specs.Io.{StartsWith};
ghost use Rattle.std.specs.String.{string_bytes};
ghost use Rattle.pysource.specs.Reprs.{hex, escaped, hex_escape, quote_for, repr_bytes, repr_text};
ghost use Rattle.pysource.specs.Reprs.{is_plain, is_unprintable, is_unprintable_byte};

use std::alloc::{AllocError, Global};
use std::mem::{forget, replace, try_take};
use unicode::properties::{GeneralCategory, GeneralCategoryGroup};

/// Appends the last `width` digits of a number in base 16, in lower case.
fn push_hex(out: &mut String, width: u32, number: u32) -> Result<(), AllocError>
    ensures ok { OnOk result (string_bytes out.new ≡ string_bytes out.old ++ hex width number) }
    ensures kept { StartsWith (string_bytes out.new) (string_bytes out.old) }
{
    if width == 0 {
        return Ok(());
    }
    push_hex(out, width - 1, number / 16)?;
    let digit = number % 16;
    let digit = if digit < 10 {
        b'0' + digit as u8
    } else {
        b'a' + (digit - 10) as u8
    };
    out.push(char::from(digit))?;
    Ok(())
}

/// Appends `\xhh`, `\uhhhh` or `\Uhhhhhhhh`, the shortest that holds the number.
#[tactic(auto, using(crate::proofs::Printing::ReprsLemmas::encodes_hex_escape))]
fn push_escape(out: &mut String, number: u32) -> Result<(), AllocError>
    ensures encoded { OnOk result
        (string_bytes out.new ≡ string_bytes out.old ++ encode_utf8_all (hex_escape number)) }
    ensures bytes { OnOk result (string_bytes out.new ≡ string_bytes out.old ++ hex_escape number) }
    ensures kept { StartsWith (string_bytes out.new) (string_bytes out.old) }
{
    if number < 0x100 {
        out.push_str("\\x")?;
        push_hex(out, 2, number)
    } else if number < 0x1_0000 {
        out.push_str("\\u")?;
        push_hex(out, 4, number)
    } else {
        out.push_str("\\U")?;
        push_hex(out, 8, number)
    }
}

/// Appends what stands for a byte between quotes.
fn push_byte(out: &mut String, quote: u8, byte: u8) -> Result<(), AllocError>
    requires { quote < 128 }
    ensures ok { OnOk result
        (string_bytes out.new ≡ string_bytes out.old ++ escaped is_unprintable_byte quote byte) }
    ensures kept { StartsWith (string_bytes out.new) (string_bytes out.old) }
{
    if byte == b'\\' || byte == quote {
        out.push('\\')?;
        out.push(char::from(byte))?;
        Ok(())
    } else if byte == b'\t' {
        out.push_str("\\t")
    } else if byte == b'\n' {
        out.push_str("\\n")
    } else if byte == b'\r' {
        out.push_str("\\r")
    } else if byte < 0x20 || byte > 0x7E {
        push_escape(out, u32::from(byte))
    } else {
        out.push(char::from(byte))?;
        Ok(())
    }
}

/// The quote round some bytes: single, or double where only single ones stand inside.
fn quote_of(bytes: &[u8]) -> u8
    ensures { result ≡ quote_for bytes.now }
{
    if bytes.contains(&b'\'') && !bytes.contains(&b'"') {
        b'"'
    } else {
        b'\''
    }
}

/// The `repr` of bytes: `b`, and between the quotes an escape for the backslash, the quote, the
/// tab, the line feed, the carriage return and every byte outside 20 to 7E.
pub fn repr_bytes(alloc: Global, bytes: &[u8]) -> Result<String, AllocError>
    ensures { IfOk result (λ text. string_bytes text ≡ repr_bytes bytes.now) }
{
    let mut out = String::new(alloc);
    push_repr_bytes(&mut out, bytes)?;
    Ok(out)
}

/// Appends the `repr` of bytes to an output, without memory of its own: what [`repr_bytes`] gives.
/// Where the output can't grow, it keeps what it had, and may have taken a front of that.
#[tactic(auto, using(crate::proofs::Printing::ReprsLemmas::kept_front))]
pub fn push_repr_bytes(out: &mut String, bytes: &[u8]) -> Result<(), AllocError>
    ensures ok { OnOk result (string_bytes out.new ≡ string_bytes out.old ++ repr_bytes bytes.now) }
    ensures kept { StartsWith (string_bytes out.new) (string_bytes out.old) }
{
    let quote = quote_of(bytes);
    out.push('b')?;
    out.push(char::from(quote))?;
    for byte in bytes {
        push_byte(out, quote, *byte)?;
    }
    out.push(char::from(quote))?;
    Ok(())
}

/// The character of a number, where it is one that is printed as it is.
#[tactic(auto, using(crate::proofs::Printing::Categories::unprintable_no_character, crate::proofs::Printing::Categories::printable_ascii))]
fn printable(point: u32) -> Option<char>
    ensures { result ≡ (if is_unprintable point then None else Some point) }
{
    let c = char::from_u32(point)?;
    // No look-up for most characters of a source.
    if c >= ' ' && c <= '~' {
        return Some(c);
    }
    let category = GeneralCategory::for_char(c);
    if c != ' '
        && (GeneralCategoryGroup::Other.contains(category)
            || GeneralCategoryGroup::Separator.contains(category))
    {
        None
    } else {
        Some(c)
    }
}

/// Appends what stands for a code point between quotes of one kind: an escape for the backslash, that
/// quote, the tab, the line feed, the carriage return and every unprintable code point. Where the
/// output can't grow, it keeps what it had, and may have taken a front of that.
#[inline(always)]
pub fn push_repr_point(out: &mut String, quote: u8, point: u32) -> Result<(), AllocError>
    requires { quote < 128 }
    ensures ok { OnOk result (string_bytes out.new ≡
        string_bytes out.old ++ encode_utf8_all (escaped is_unprintable quote point)) }
    ensures kept { StartsWith (string_bytes out.new) (string_bytes out.old) }
{
    if point == u32::from(b'\\') || point == u32::from(quote) {
        out.push('\\')?;
        out.push(char::from(point as u8))?;
        Ok(())
    } else if point == u32::from(b'\t') {
        out.push_str("\\t")
    } else if point == u32::from(b'\n') {
        out.push_str("\\n")
    } else if point == u32::from(b'\r') {
        out.push_str("\\r")
    } else {
        match printable(point) {
            Some(c) => {
                out.push(c)?;
                Ok(())
            }
            None => push_escape(out, point),
        }
    }
}

/// The quote round some code points: single, or double where only single ones stand inside.
fn quote_of_points(points: &[u32]) -> u8
    ensures { result ≡ quote_for points.now }
{
    if points.contains(&0x27) && !points.contains(&0x22) {
        b'"'
    } else {
        b'\''
    }
}

/// The `repr` of a text, given as its code points, which may be surrogates: single quotes, or
/// double ones where the text holds single ones alone. Escaped are the backslash, the quote, the
/// tab, the line feed, the carriage return and every unprintable code point: one of category
/// "Other" or "Separator", but for the space.
pub fn repr_text(alloc: Global, points: &[u32]) -> Result<String, AllocError>
    requires { All (λ point. point ≤ 0x10_FFFF) points.now }
    ensures { IfOk result (λ text. string_bytes text ≡ repr_text points.now) }
{
    let mut out = String::new(alloc);
    push_repr_points(&mut out, points)?;
    Ok(out)
}

/// Appends the `repr` of a text, given as its code points, to an output, without memory of its
/// own: what [`repr_text`] gives. A number past 10FFFF is no code point, and is escaped as one
/// that is unprintable. Where the output can't grow, it keeps what it had, and may have taken a
/// front of that.
#[tactic(auto, using(crate::proofs::Printing::ReprsLemmas::kept_front))]
pub fn push_repr_points(out: &mut String, points: &[u32]) -> Result<(), AllocError>
    ensures ok { OnOk result (string_bytes out.new ≡ string_bytes out.old ++ repr_text points.now) }
    ensures kept { StartsWith (string_bytes out.new) (string_bytes out.old) }
{
    let quote = quote_of_points(points);
    out.push(char::from(quote))?;
    let mut rest = points;
    // Runs of plain code points are appended at once, and only what stands between them by itself.
    'runs: loop {
        let count = push_plain_points(out, rest)?;
        let (_, tail) = rest.split_at(count);
        match tail.split_first() {
            None => break 'runs,
            Some((point, following)) => {
                push_repr_point(out, quote, *point)?;
                rest = following;
            }
        }
    }
    out.push(char::from(quote))?;
    Ok(())
}

/// Appends the longest front of some code points that stands for itself between quotes, and tells
/// how long it is.
fn push_plain_points(out: &mut String, points: &[u32]) -> Result<usize, AllocError>
    ensures within { IfOk result (λ n. n ≤ length points.now) }
    ensures plain { IfOk result (λ n. list_all is_plain (take n points.now) ≡ true) }
    ensures ok { IfOk result
        (λ n. string_bytes out.new ≡ string_bytes out.old ++ take n points.now) }
    ensures kept { StartsWith (string_bytes out.new) (string_bytes out.old) }
{
    // Nothing is made ready where there is no run, as between two letters that aren't ASCII.
    if points.is_empty() || !is_plain_point(points[0]) {
        return Ok(0);
    }
    out.reserve(points.len())?;
    // Taken out and put back, so that a byte is written without a call.
    let mut bytes = try_take(out)?.into_bytes();
    let n = fill_plain(&mut bytes, points);
    forget(replace(out, unsafe { String::from_utf8_unchecked(bytes) }));
    Ok(n)
}

/// Appends the longest front of some code points that stands for itself between quotes to bytes
/// that have room for all, and tells how long it is.
#[inline(always)]
fn fill_plain(bytes: &mut Vec<u8>, points: &[u32]) -> usize
    requires { vec_len bytes.old + length points.now ≤ vec_capacity bytes.old }
    ensures within { result ≤ length points.now }
    ensures plain { list_all is_plain (take result points.now) ≡ true }
    ensures items { bytes.new.items ≡ bytes.old.items ++ take result points.now }
{
    let mut count = 0;
    while count < points.len() {
        let point = points[count];
        if !is_plain_point(point) {
            break;
        }
        bytes.push_reserved(point as u8);
        count += 1;
    }
    count
}

/// Whether a code point stands for itself between quotes of either kind.
#[inline(always)]
fn is_plain_point(point: u32) -> bool
    ensures value { result ≡ is_plain point }
    ensures ascii { result ≡ true → point < 128 }
{
    point >= 0x20 && point <= 0x7E && point != 0x27 && point != 0x22 && point != 0x5C
}

/// Whether a byte stands for itself between quotes of either kind.
fn is_plain(byte: u8) -> bool
    ensures { result ≡ is_plain byte }
{
    byte >= b' ' && byte <= b'~' && byte != b'\'' && byte != b'"' && byte != b'\\'
}

/// How many bytes at the front stand for themselves between quotes.
fn plain_len(bytes: &[u8]) -> usize
    ensures value { result ≡ prefix_len is_plain bytes.now }
    ensures within { result ≤ length bytes.now }
{
    bytes.iter().take_while(|byte| is_plain(**byte)).count()
}

/// Whether a text is of printable ASCII without quotes and backslashes. Its `repr` is then the text
/// as it is between single quotes.
pub fn is_plain_text(text: &str) -> bool
    ensures { result ≡ list_all is_plain text.now }
{
    plain_len(text.as_bytes()) == text.len()
}

/// The longest front of a text that stands for itself between quotes, and what follows it.
fn split_plain(text: &str) -> (&str, &str)
    ensures whole { text.now ≡ result.0.now ++ result.1.now }
    ensures plain { list_all is_plain result.0.now ≡ true }
    ensures rest { IsUtf8 result.1.now }
{
    text.split_at(plain_len(text.as_bytes()))
}

/// Appends the `repr` of a text that stands for itself: the text between single quotes.
fn push_plain(out: &mut String, text: &str) -> Result<(), AllocError>
    requires { list_all is_plain text.now ≡ true }
    ensures ok { OnOk result
        (string_bytes out.new ≡ string_bytes out.old ++ repr_text (chars text.now)) }
    ensures kept { StartsWith (string_bytes out.new) (string_bytes out.old) }
{
    out.push('\'')?;
    out.push_str(text)?;
    out.push('\'')?;
    Ok(())
}

/// Appends the `repr` of a text, of which some characters may not stand for themselves.
fn push_escaped(out: &mut String, text: &str) -> Result<(), AllocError>
    ensures ok { OnOk result
        (string_bytes out.new ≡ string_bytes out.old ++ repr_text (chars text.now)) }
    ensures kept { StartsWith (string_bytes out.new) (string_bytes out.old) }
{
    let quote = quote_of(text.as_bytes());
    out.push(char::from(quote))?;
    let mut rest = text;
    // Runs of plain bytes are appended at once, and only what stands between them by itself.
    loop {
        let (plain, tail) = split_plain(rest);
        out.push_str(plain)?;
        let mut characters = tail.chars();
        match characters.next() {
            None => break,
            Some(c) => push_repr_point(out, quote, u32::from(c))?,
        }
        rest = characters.as_str();
    }
    out.push(char::from(quote))?;
    Ok(())
}

/// Appends the `repr` of a text to an output, without memory of its own: what [`repr_text`] gives
/// for the text's characters. Where the output can't grow, it keeps what it had, and may have taken
/// a front of that.
pub fn push_repr(out: &mut String, text: &str) -> Result<(), AllocError>
    ensures ok { OnOk result
        (string_bytes out.new ≡ string_bytes out.old ++ repr_text (chars text.now)) }
    ensures kept { StartsWith (string_bytes out.new) (string_bytes out.old) }
{
    if is_plain_text(text) {
        push_plain(out, text)
    } else {
        push_escaped(out, text)
    }
}
