//! A token's text that is read character by character, without its carriage returns.

ghost use Rattle.std.specs.Prelude.{◌≡◌, ◌++◌, ◌==◌, ◌&&◌, ℕ, List, [], true, false, not, drop};
ghost use Rattle.std.specs.Prelude.{slice_get, IsTrue};
ghost use Rattle.std.specs.List.{list_all, prefix_len};
ghost use Rattle.std.specs.Str.{chars, IsUtf8};
ghost use Rattle.pylex_lexeme.specs.Strings.{begins_three};
ghost use Rattle.pytoken.specs.StringValues.{with_line_feeds, without_last};
ghost use Rattle.pytoken.specs.Inner.Readings.{is_own, stands};

use crate::values::clear_bytes::are_clear;
use std::marker::Model;

/// Whether a byte is a character of ASCII, but no carriage return.
fn is_own(byte: u8) -> bool
    ensures { result ≡ is_own byte }
{
    byte <= 0x7F && byte != b'\r'
}

/// Whether two bytes are such characters, and differ.
fn are_apart(first: u8, second: u8) -> bool
    ensures { result ≡ (is_own first && (is_own second && not (second == first))) }
{
    is_own(first) && is_own(second) && second != first
}

/// Whether a byte is a character that stands for itself in a literal.
fn stands(raw: bool, byte: u8) -> bool
    ensures { result ≡ stands raw byte }
{
    is_own(byte) && (raw || byte != b'\\')
}

/// How many bytes in front are characters that stand for themselves in a literal.
fn plain_len(bytes: &[u8], raw: bool) -> usize
    ensures { result ≡ prefix_len (stands raw) bytes.now }
{
    if are_clear(bytes, b'\\', b'\r') {
        return bytes.len();
    }
    let mut len = 0;
    for byte in bytes {
        if !stands(raw, *byte) {
            break;
        }
        len += 1;
    }
    len
}

/// The first character of a text that is no carriage return, and what stands after it.
#[inline(always)]
fn first_character(text: &str) -> (Option<char>, &str)
    ensures first { result.0 ≡ slice_get (with_line_feeds (chars text.now)) 0 }
    ensures rest { with_line_feeds (chars result.1.now)
        ≡ drop 1 (with_line_feeds (chars text.now)) }
{
    match text.as_bytes().first() {
        Some(byte) if is_own(*byte) => (Some(char::from(*byte)), &text[1..]),
        Some(_) => first_of_any(text),
        None => (None, text),
    }
}

/// The same of a text that may begin with any character.
#[inline(never)]
fn first_of_any(text: &str) -> (Option<char>, &str)
    ensures first { result.0 ≡ slice_get (with_line_feeds (chars text.now)) 0 }
    ensures rest { with_line_feeds (chars result.1.now)
        ≡ drop 1 (with_line_feeds (chars text.now)) }
{
    let mut left = text.chars();
    while let Some(first) = left.next() {
        if first != '\r' {
            return (Some(first), left.as_str());
        }
    }
    (None, "")
}

/// What stands in front of the last character of a text that is no carriage return.
#[inline(always)]
fn front(text: &str) -> &str
    ensures { with_line_feeds (chars result.now)
        ≡ without_last 1 (with_line_feeds (chars text.now)) }
{
    match text.as_bytes().last() {
        Some(byte) if is_own(*byte) => &text[..text.len() - 1],
        _ => front_of_any(text),
    }
}

/// The same of a text that may end with any character.
#[inline(never)]
fn front_of_any(text: &str) -> &str
    ensures { with_line_feeds (chars result.now)
        ≡ without_last 1 (with_line_feeds (chars text.now)) }
{
    let mut text = text;
    loop {
        let mut left = text.chars();
        let Some(last) = left.next_back() else {
            return text;
        };
        text = left.as_str();
        if last != '\r' {
            return text;
        }
    }
}

/// What is left of a text, without its carriage returns.
#[derive(Drop)]
pub(crate) struct Characters<'a> {
    rest: &'a str,
}

impl<'a> Model for Characters<'a> {
    ghost Value = { List ℕ };

    ghost view = { λ s. with_line_feeds (chars s.rest.now) };

    ghost invariant = { λ s. IsUtf8 s.rest.now };
}

impl<'a> Characters<'a> {
    /// Begins at the front of a text.
    pub(crate) fn new(text: &'a str) -> Self
        ensures { result ≡ with_line_feeds (chars text.now) }
    {
        Characters { rest: text }
    }

    /// The same characters again.
    pub(crate) fn again(&self) -> Characters<'a>
        ensures { result ≡ self.now }
    {
        Characters { rest: self.rest }
    }

    /// Whether no bytes are left.
    pub(crate) fn is_done(&self) -> bool
        ensures { IsTrue result → self.now ≡ [] }
    {
        self.rest.is_empty()
    }

    /// Takes the characters in front that stand for themselves: those of ASCII up to the first
    /// carriage return, and in a literal that isn't raw up to the first backslash.
    #[inline(always)]
    pub(crate) fn bump_plain(&mut self, raw: bool) -> &'a [u8]
        ensures whole { self.old ≡ result.now ++ self.new }
        ensures plain { list_all (stands raw) result.now ≡ true }
    {
        let len = plain_len(self.rest.as_bytes(), raw);
        let plain = &self.rest.as_bytes()[..len];
        self.rest = &self.rest[len..];
        plain
    }

    /// Whether two characters stand in front that differ, as the bytes in front tell.
    #[inline(always)]
    pub(crate) fn begins_apart(&self) -> bool
        ensures { IsTrue result → begins_three self.now ≡ false }
    {
        match self.rest.as_bytes() {
            [first, second, ..] => are_apart(*first, *second),
            _ => false,
        }
    }

    /// The next character.
    pub(crate) fn first(&self) -> Option<char>
        ensures { result ≡ slice_get self.now 0 }
    {
        let (first, _) = first_character(self.rest);
        first
    }

    /// Takes the next character.
    pub(crate) fn bump(&mut self) -> Option<char>
        ensures first { result ≡ slice_get self.old 0 }
        ensures rest { self.new ≡ drop 1 self.old }
    {
        let (first, rest) = first_character(self.rest);
        self.rest = rest;
        first
    }

    /// Takes the last character away.
    pub(crate) fn bump_back(&mut self)
        ensures { self.new ≡ without_last 1 self.old }
    {
        self.rest = front(self.rest);
    }
}
