//! Numbers (reference 2.4.5 to 2.4.7).

ghost use Rattle.std.specs.Prelude.{◌≡◌, ◌<◌, drop, true};
ghost use Rattle.pylex_lexeme.specs.Chars.{has};
ghost use Rattle.pylex_lexeme.specs.Lengths.{Took, based_len, radix_len, exponent_len, point_len};
ghost use Rattle.pylex_lexeme.specs.Lengths.{j_len, fraction_len, tail_len, begins_number, number_len};
ghost use Rattle.pylex_lexeme.specs.Lengths.{plain_len, longest};
ghost use Rattle.pylex_lexeme.specs.Numbers.{is_number};

use crate::scanner::{CharSet, Scanner};

/// Takes the zero and the letter that stand here, and the digits of their radix after them; false
/// where there are none.
fn based(text: &mut Scanner, digits: CharSet) -> bool
    ensures { Took (based_len (has digits) (drop 2 text.old)) result text.old text.new }
{
    if !text.has_digits(2, digits) {
        return false;
    }
    text.bump_count(2);
    text.bump_joined(digits);
    true
}

/// Takes the hexadecimal, octal or binary number that stands here; false where there is none.
fn radix(text: &mut Scanner) -> bool
    ensures { Took (radix_len text.old) result text.old text.new }
{
    if !text.has_next(0, CharSet::One('0')) {
        return false;
    }
    if text.has_next(1, CharSet::LetterX) {
        return based(text, CharSet::HexDigit);
    }
    if text.has_next(1, CharSet::LetterO) {
        return based(text, CharSet::OctalDigit);
    }
    if text.has_next(1, CharSet::LetterB) {
        return based(text, CharSet::BinaryDigit);
    }
    false
}

/// Takes the exponent that stands here; false where there is none.
fn exponent(text: &mut Scanner) -> bool
    ensures { Took (exponent_len text.old) result text.old text.new }
{
    if !text.has_next(0, CharSet::LetterE) {
        return false;
    }
    if text.has_next(1, CharSet::Digit) {
        text.bump_count(1);
        text.bump_joined(CharSet::Digit);
        return true;
    }
    if !text.has_next(1, CharSet::Sign) {
        return false;
    }
    if !text.has_next(2, CharSet::Digit) {
        return false;
    }
    text.bump_count(2);
    text.bump_joined(CharSet::Digit);
    true
}

/// Takes the point that stands here, and the digits after it, if any; false where there is no
/// point.
fn point(text: &mut Scanner) -> bool
    ensures { Took (point_len text.old) result text.old text.new }
{
    if !text.has_next(0, CharSet::One('.')) {
        return false;
    }
    text.bump_count(1);
    if text.has_next(0, CharSet::Digit) {
        text.bump_joined(CharSet::Digit);
        return true;
    }
    true
}

/// Takes the letter of an imaginary number; false where there is none.
fn letter_j(text: &mut Scanner) -> bool
    ensures { Took (j_len text.old) result text.old text.new }
{
    if !text.has_next(0, CharSet::LetterJ) {
        return false;
    }
    text.bump_count(1);
    true
}

/// Takes the point and the exponent that stand here, or one of them; false where there is neither.
fn fraction(text: &mut Scanner) -> bool
    ensures { Took (fraction_len text.old) result text.old text.new }
{
    if point(text) {
        let _ = exponent(text);
        return true;
    }
    exponent(text)
}

/// Takes what makes more than a whole number of the digits before it; false where there is nothing
/// of it.
fn tail(text: &mut Scanner) -> bool
    ensures { Took (tail_len text.old) result text.old text.new }
{
    if fraction(text) {
        let _ = letter_j(text);
        return true;
    }
    letter_j(text)
}

/// Takes the number in decimal digits that stands here.
///
/// Digits after a zero belong to it only where a point, an exponent or `j` follows them, unless
/// they are all zeros.
fn plain(text: &mut Scanner)
    ensures { text.new ≡ drop (plain_len text.old) text.old }
{
    let start = text.again();
    text.bump_joined(CharSet::Digit);
    if tail(text) {
        return;
    }
    if !start.has_next(0, CharSet::One('0')) {
        return;
    }
    *text = start;
    text.bump_joined(CharSet::One('0'));
}

/// Takes the number that stands here, by another scanner: so this one need not stand in memory.
#[inline(always)]
fn read_number(text: &mut Scanner)
    ensures { text.new ≡ drop (number_len text.old) text.old }
{
    let mut ahead = text.again();
    radix_or_plain(&mut ahead);
    *text = ahead;
}

/// Takes the number that stands here.
#[inline(never)]
fn radix_or_plain(text: &mut Scanner)
    ensures { text.new ≡ drop (number_len text.old) text.old }
{
    if radix(text) {
        return;
    }
    plain(text);
}

/// Takes the longest number that stands here: a digit, or a point and a digit, must be its front.
#[inline(always)]
pub(crate) fn number(text: &mut Scanner)
    requires { begins_number text.old ≡ true }
    ensures some { 0 < longest is_number text.old }
    ensures rest { text.new ≡ drop (longest is_number text.old) text.old }
{
    read_number(text);
}
