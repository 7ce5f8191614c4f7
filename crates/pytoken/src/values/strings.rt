//! The parts of string literals, and what may be wrong with them.
//!
//! Python language reference, 2.4.1 "String and Bytes literals".

ghost use Rattle.std.specs.Prelude.{◌≡◌, ◌==◌, ◌||◌, ◌&&◌, IsTrue, drop, nat_lt, true, false};
ghost use Rattle.std.specs.Str.{chars};
ghost use Rattle.std.specs.List.{list_all, list_any};
ghost use Rattle.pylex_lexeme.specs.Strings.{begins_three};
ghost use Rattle.pytoken.specs.Escapes.{meanings, escape_fault, is_named_escape, is_bad_escape};
ghost use Rattle.pytoken.specs.StringValues.{is_quote, is_marked, is_raw, prefix_len_of};
ghost use Rattle.pytoken.specs.StringValues.{is_formatted, without_last, with_line_feeds};
ghost use Rattle.pytoken.specs.StringValues.{inside, body_of, literal_fault, string_fault};
ghost use Rattle.pytoken.specs.Inner.Readings.{is_bare, is_plain, asks, is_doubtful, is_calm};

use crate::values::characters::Characters;
use crate::values::clear_bytes::are_clear;
use crate::values::escapes::next_meaning;
use crate::{Meaning, TokenError};

/// Whether a character is a quote.
pub(crate) fn is_quote(c: char) -> bool
    ensures { result ≡ is_quote c }
{
    c == '\'' || c == '"'
}

/// Whether a character is one of two.
fn is_either(c: char, one: char, other: char) -> bool
    ensures { result ≡ ((c == one) || (c == other)) }
{
    c == one || c == other
}

/// Whether a quote stands here.
#[inline(always)]
pub(crate) fn begins_bare(literal: &Characters) -> bool
    ensures { result ≡ is_bare literal.now }
{
    match literal.first() {
        Some(c) => is_quote(c),
        None => false,
    }
}

/// Whether the prefix of a literal has one of two letters.
pub(crate) fn is_marked(literal: &Characters, small: char, capital: char) -> bool
    ensures { result ≡ is_marked small capital literal.now }
{
    let mut left = literal.again();
    while let Some(c) = left.bump() {
        if is_quote(c) {
            return false;
        }
        if is_either(c, small, capital) {
            return true;
        }
    }
    false
}

/// Whether a literal is raw: whether `r` or `R` stands in its prefix.
///
/// Python language reference, 2.4.1 "String and Bytes literals".
pub fn is_raw(text: &str) -> bool
    ensures { result ≡ is_raw (with_line_feeds (chars text.now)) }
{
    is_marked(&Characters::new(text), 'r', 'R')
}

/// Takes the prefix that stands here.
fn skip_prefix(literal: &mut Characters)
    ensures { literal.new ≡ drop (prefix_len_of literal.old) literal.old }
{
    while let Some(c) = literal.first() {
        if is_quote(c) {
            break;
        }
        let _ = literal.bump();
    }
}

/// Whether three equal quotes stand here, by looking at each.
fn counts_three(literal: &Characters) -> bool
    ensures { result ≡ begins_three literal.now }
{
    let mut left = literal.again();
    let Some(first) = left.bump() else {
        return false;
    };
    let Some(second) = left.bump() else {
        return false;
    };
    if second != first {
        return false;
    }
    let Some(third) = left.first() else {
        return false;
    };
    is_quote(first) && third == first
}

/// Whether three equal quotes stand here.
#[inline(always)]
fn has_three(literal: &Characters) -> bool
    ensures { result ≡ begins_three literal.now }
{
    if literal.begins_apart() {
        return false;
    }
    counts_three(literal)
}

/// Takes some characters from both ends.
fn strip(text: &mut Characters, count: usize)
    ensures { text.new ≡ without_last count (drop count text.old) }
{
    for _front in 0..count {
        let _ = text.bump();
    }
    for _back in 0..count {
        text.bump_back();
    }
}

/// Takes one character from both ends.
#[inline(always)]
fn strip_one(text: &mut Characters)
    ensures { text.new ≡ without_last 1 (drop 1 text.old) }
{
    let _ = text.bump();
    text.bump_back();
}

/// What stands between the quotes of a literal that has no prefix.
#[inline(always)]
pub(crate) fn inside<'a>(literal: &Characters<'a>) -> Characters<'a>
    ensures { result ≡ inside literal.now }
{
    let mut left = literal.again();
    if has_three(literal) {
        strip(&mut left, 3);
    } else {
        strip_one(&mut left);
    }
    left
}

/// What stands between the quotes of a literal.
pub(crate) fn body<'a>(literal: &Characters<'a>) -> Characters<'a>
    ensures { result ≡ body_of literal.now }
{
    let mut left = literal.again();
    skip_prefix(&mut left);
    inside(&left)
}

/// Whether a meaning is `\N`.
fn is_named_escape(meaning: Meaning) -> bool
    ensures { result ≡ is_named_escape meaning }
{
    matches!(meaning, Meaning::Wrong(TokenError::NamedEscape))
}

/// Whether a meaning is an escape that means nothing.
fn is_bad_escape(meaning: Meaning) -> bool
    ensures { result ≡ is_bad_escape meaning }
{
    matches!(meaning, Meaning::Wrong(TokenError::BadEscape))
}

/// Whether one of two holds, both of which are known.
fn either(one: bool, other: bool) -> bool
    ensures { result ≡ (one || other) }
{
    one || other
}

/// The first fault in the escapes of a body.
pub(crate) fn escape_fault(body: Characters, raw: bool, bytes: bool) -> Option<TokenError>
    ensures { result ≡ escape_fault (meanings raw bytes body.entry) }
{
    let mut left = body;
    let mut named = false;
    let mut bad = false;
    while let Some(meaning) = next_meaning(&mut left, raw, bytes) {
        named = either(named, is_named_escape(meaning));
        bad = either(bad, is_bad_escape(meaning));
        let _ = left.bump_plain(raw);
    }
    if named {
        return Some(TokenError::NamedEscape);
    }
    if bad {
        return Some(TokenError::BadEscape);
    }
    None
}

/// Whether a character past ASCII stands in a text.
fn has_non_ascii(text: &Characters) -> bool
    ensures { result ≡ list_any (nat_lt 0x7F) text.now }
{
    let mut left = text.again();
    while let Some(c) = left.bump() {
        if c > '\x7f' {
            return true;
        }
    }
    false
}

/// Whether bytes hold a character past ASCII.
fn is_past_ascii(text: &Characters, bytes: bool) -> bool
    ensures { result ≡ (bytes && list_any (nat_lt 0x7F) text.now) }
{
    bytes && has_non_ascii(text)
}

/// Whether U+0000 stands in a text.
fn has_nul(text: &Characters) -> bool
    ensures { result ≡ list_any (λ c. c == 0) text.now }
{
    let mut left = text.again();
    while let Some(c) = left.bump() {
        if c == '\0' {
            return true;
        }
    }
    false
}

/// The first fault of a literal.
fn literal_fault(literal: &Characters) -> Option<TokenError>
    ensures { result ≡ literal_fault literal.now }
{
    if is_marked(literal, 'f', 'F') {
        return Some(TokenError::FString);
    }
    let raw = is_marked(literal, 'r', 'R');
    let bytes = is_marked(literal, 'b', 'B');
    if let Some(error) = escape_fault(body(literal), raw, bytes) {
        return Some(error);
    }
    if is_past_ascii(literal, bytes) {
        return Some(TokenError::NonAsciiBytes);
    }
    if has_nul(literal) {
        return Some(TokenError::Nul);
    }
    None
}

/// Whether each byte of a text is a character that stands for itself in each literal.
#[inline(always)]
pub(crate) fn are_plain(text: &str) -> bool
    ensures { IsTrue result → list_all is_plain text.now ≡ true }
{
    are_clear(text.as_bytes(), b'\\', b'\0')
}

/// Whether a character after a backslash may begin an escape that is wrong.
fn asks(c: char) -> bool
    ensures { result ≡ asks c }
{
    matches!(c, '0'..='7' | 'x' | 'u' | 'U' | 'N')
}

/// Whether a character may be wrong in a literal, by whether a backslash stands before it.
fn is_doubtful(bytes: bool, following: bool, c: char) -> bool
    ensures { result ≡ is_doubtful bytes following c }
{
    following && asks(c) || bytes && c > '\x7f' || c == '\0' || c == '\r'
}

/// Whether no character of a literal may be wrong.
fn is_calm(text: &str, bytes: bool) -> bool
    ensures { result ≡ is_calm bytes false (chars text.now) }
{
    let mut following = false;
    for c in text.chars() {
        if is_doubtful(bytes, following, c) {
            return false;
        }
        following = c == '\\';
    }
    true
}

/// The fault of a string that isn't plain. Most are seen to have none without reading their
/// escapes.
#[inline(never)]
fn unplain_fault(text: &str) -> Option<TokenError>
    requires { is_formatted (with_line_feeds (chars text.now)) ≡ false }
    ensures { result ≡ string_fault (chars text.now) }
{
    let literal = Characters::new(text);
    if is_calm(text, is_marked(&literal, 'b', 'B')) {
        return None;
    }
    literal_fault(&literal)
}

/// The fault that a string has by itself, if it has one: the first one. Most literals are seen to
/// have none without reading their characters.
pub fn string_fault(text: &str) -> Option<TokenError>
    ensures { result ≡ string_fault (chars text.now) }
{
    if is_marked(&Characters::new(text), 'f', 'F') {
        return Some(TokenError::FString);
    }
    if are_plain(text) {
        return None;
    }
    unplain_fault(text)
}
