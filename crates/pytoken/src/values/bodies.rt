//! The parts of a literal, lent from its source with its carriage returns.
//!
//! Python language reference, 2.4.1 "String and Bytes literals".

ghost use Rattle.std.specs.Prelude.{◌≡◌, ◌||◌, ◌&&◌, ◌==◌, drop};
ghost use Rattle.std.specs.List.{list_any};
ghost use Rattle.std.specs.Str.{chars};
ghost use Rattle.pylex_lexeme.specs.Characters.{line_feed};
ghost use Rattle.pylex_lexeme.specs.Strings.{begins_three};
ghost use Rattle.pytoken.specs.StringValues.{is_quote, prefix_len_of, without_last};
ghost use Rattle.pytoken.specs.StringValues.{after_opening, body_of};

use crate::values::strings::is_quote;

/// What stands after the prefix of a literal.
fn following_prefix(text: &str) -> &str
    ensures { chars result.now ≡ drop (prefix_len_of (chars text.now)) (chars text.now) }
{
    let mut rest = text;
    'prefix: loop {
        let mut left = rest.chars();
        let Some(first) = left.next() else {
            return rest;
        };
        if is_quote(first) {
            return rest;
        }
        rest = left.as_str();
    }
}

/// Whether three characters are equal quotes.
fn are_quotes(first: char, second: char, third: char) -> bool
    ensures { result ≡ (is_quote first && (second == first) && (third == first)) }
{
    is_quote(first) && second == first && third == first
}

/// Whether three equal quotes stand here.
fn has_three(text: &str) -> bool
    ensures { result ≡ begins_three (chars text.now) }
{
    let mut left = text.chars();
    let Some(first) = left.next() else {
        return false;
    };
    let Some(second) = left.next() else {
        return false;
    };
    let Some(third) = left.next() else {
        return false;
    };
    are_quotes(first, second, third)
}

/// A text without its first character.
fn following_first(text: &str) -> &str
    ensures { chars result.now ≡ drop 1 (chars text.now) }
{
    let mut left = text.chars();
    match left.next() {
        Some(_first) => left.as_str(),
        None => text,
    }
}

/// A text without its last character.
fn before_last(text: &str) -> &str
    ensures { chars result.now ≡ without_last 1 (chars text.now) }
{
    let mut left = text.chars();
    match left.next_back() {
        Some(_last) => left.as_str(),
        None => text,
    }
}

/// A text without its first characters.
fn following(text: &str, count: usize) -> &str
    ensures { chars result.now ≡ drop count (chars text.now) }
{
    let mut rest = text;
    'front: for _front in 0..count {
        rest = following_first(rest);
    }
    rest
}

/// A text without its last characters.
fn without_last(text: &str, count: usize) -> &str
    ensures { chars result.now ≡ without_last count (chars text.now) }
{
    let mut rest = text;
    'back: for _back in 0..count {
        rest = before_last(rest);
    }
    rest
}

/// What stands after the prefix and the first quotes of a literal.
///
/// Python language reference, 2.4.1 "String and Bytes literals".
pub fn after_opening(text: &str) -> &str
    ensures { chars result.now ≡ after_opening (chars text.now) }
{
    let opened = following_prefix(text);
    if has_three(opened) {
        return following(opened, 3);
    }
    following(opened, 1)
}

/// What stands between the quotes of a literal.
///
/// Python language reference, 2.4.1 "String and Bytes literals".
pub fn body(text: &str) -> &str
    ensures { chars result.now ≡ body_of (chars text.now) }
{
    if has_three(following_prefix(text)) {
        return without_last(after_opening(text), 3);
    }
    without_last(after_opening(text), 1)
}

/// Whether a character is a quote or a line feed.
fn is_bulk(c: char) -> bool
    ensures { result ≡ (is_quote c || (c == line_feed)) }
{
    is_quote(c) || c == '\n'
}

/// Whether a quote or a line feed stands in the body of a literal.
pub(crate) fn has_bulk(text: &str) -> bool
    ensures { result ≡ list_any (λ c. is_quote c || (c == line_feed)) (body_of (chars text.now)) }
{
    'body: for c in body(text).chars() {
        if is_bulk(c) {
            return true;
        }
    }
    false
}
