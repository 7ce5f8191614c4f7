//! Escapes in literals.
//!
//! Python language reference, 2.4.1 "String and Bytes literals".

ghost use Rattle.std.specs.Prelude.{◌≡◌, ◌≤◌, ◌==◌, ◌&&◌, not, nat_lt, nat_le, drop, length};
ghost use Rattle.std.specs.Str.Parse.{digits_value};
ghost use Rattle.pylex_lexeme.specs.Characters.{backslash};
ghost use Rattle.pytoken.specs.Escapes.{digits_at_front, escape_point, octal, hexadecimal};
ghost use Rattle.pytoken.specs.Escapes.{hexadecimal_len, names_character, escaped_by, reads};
ghost use Rattle.pytoken.specs.Inner.Readings.{ReadsEscape, first_digit, first_meaning};
ghost use Rattle.pytoken.specs.Inner.Readings.{after_meaning};

use crate::values::characters::Characters;
use crate::{Meaning, TokenError};

/// The digits of a base that stand here, at most so many: how many there are, and their value.
/// They are taken.
fn digits(text: &mut Characters, radix: u32, most: usize) -> (usize, u32)
    requires low { 2 ≤ radix }
    requires high { radix ≤ 16 }
    requires most { most ≤ 8 }
    ensures count { result.0 ≡ length (digits_at_front radix most text.old) }
    ensures value { result.1 ≡ digits_value radix (digits_at_front radix most text.old) }
    ensures following { text.new ≡ drop (length (digits_at_front radix most text.old)) text.old }
{
    let mut count = 0;
    let mut value = 0;
    while count < most {
        let Some(digit) = digit(text, radix) else {
            break;
        };
        let _ = text.bump();
        value = value * radix + digit;
        count += 1;
    }
    (count, value)
}

/// The digit that stands here.
fn digit(text: &Characters, radix: u32) -> Option<u32>
    requires low { 2 ≤ radix }
    requires high { radix ≤ 36 }
    ensures { result ≡ first_digit radix text.now }
{
    text.first()?.to_digit(radix)
}

/// One to three octal digits that stand here.
fn octal(text: &mut Characters, bytes: bool) -> Meaning
    ensures { ReadsEscape (octal bytes (digits_at_front 8 3 text.old)) text.old result text.new }
{
    let (_, value) = digits(text, 8, 3);
    if is_past_byte(bytes, value) {
        return Meaning::Wrong(TokenError::BadEscape);
    }
    Meaning::Point(value)
}

/// Whether a value is too large for a byte, of bytes.
fn is_past_byte(bytes: bool, value: u32) -> bool
    ensures { result ≡ (bytes && nat_lt 0xFF value) }
{
    bytes && value > 0xFF
}

/// A letter that stands here, and so many hexadecimal digits after it.
fn hexadecimal(text: &mut Characters, wanted: usize) -> Meaning
    requires { wanted ≤ 8 }
    ensures { ReadsEscape (hexadecimal wanted (digits_at_front 16 wanted (drop 1 text.old)))
        text.old result text.new }
{
    let _ = text.bump();
    let (count, value) = digits(text, 16, wanted);
    if is_point(count, wanted, value) {
        return Meaning::Point(value);
    }
    Meaning::Wrong(TokenError::BadEscape)
}

/// Whether there are as many digits as wanted, and their value is a code point.
fn is_point(count: usize, wanted: usize, value: u32) -> bool
    ensures { result ≡ ((count == wanted) && nat_le value 0x10_FFFF) }
{
    count == wanted && value <= 0x10_FFFF
}

/// How many hexadecimal digits a letter after a backslash asks for.
fn hexadecimal_len(letter: char, bytes: bool) -> usize
    ensures len { result ≡ hexadecimal_len bytes letter }
    ensures most { result ≤ 8 }
{
    if letter == 'x' {
        return 2;
    }
    if bytes {
        return 0;
    }
    match letter {
        'u' => 4,
        'U' => 8,
        _ => 0,
    }
}

/// Whether a letter after a backslash names a character.
fn names_character(letter: char, bytes: bool) -> bool
    ensures { result ≡ names_character bytes letter }
{
    !bytes && letter == 'N'
}

/// The point that a letter after a backslash stands for.
fn point_of(letter: char) -> Option<u32>
    ensures { result ≡ escape_point letter }
{
    match letter {
        '\\' => Some(0x5C),
        '\'' => Some(0x27),
        '"' => Some(0x22),
        'a' => Some(0x07),
        'b' => Some(0x08),
        'f' => Some(0x0C),
        'n' => Some(0x0A),
        'r' => Some(0x0D),
        't' => Some(0x09),
        'v' => Some(0x0B),
        _ => None,
    }
}

/// Takes the letter that stands here.
fn letter(text: &mut Characters, meaning: Meaning) -> Meaning
    ensures { ReadsEscape (reads meaning 1) text.old result text.new }
{
    let _ = text.bump();
    meaning
}

/// What a backslash stands for with what stands here, after it.
fn escape(text: &mut Characters, bytes: bool) -> Meaning
    ensures { ReadsEscape (escaped_by bytes text.old) text.old result text.new }
{
    let Some(first) = text.first() else {
        return Meaning::Point(0x5C);
    };
    if first == '\n' {
        return letter(text, Meaning::Nothing);
    }
    if digit(text, 8).is_some() {
        return octal(text, bytes);
    }
    let wanted = hexadecimal_len(first, bytes);
    if wanted > 0 {
        return hexadecimal(text, wanted);
    }
    if names_character(first, bytes) {
        return letter(text, Meaning::Wrong(TokenError::NamedEscape));
    }
    match point_of(first) {
        Some(point) => letter(text, Meaning::Point(point)),
        None => Meaning::Point(0x5C),
    }
}

/// What the next character of a literal stands for, with what belongs to it; it is taken.
pub(crate) fn next_meaning(text: &mut Characters, raw: bool, bytes: bool) -> Option<Meaning>
    ensures meaning { result ≡ first_meaning raw bytes text.old }
    ensures following { text.new ≡ after_meaning raw bytes text.old }
{
    let first = text.bump()?;
    if begins_escape(raw, first) {
        return Some(escape(text, bytes));
    }
    Some(Meaning::Point(u32::from(first)))
}

/// Whether a character begins an escape.
fn begins_escape(raw: bool, first: char) -> bool
    ensures { result ≡ (not raw && (first == backslash)) }
{
    !raw && first == '\\'
}
