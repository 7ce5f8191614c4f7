//! Strings: where one opens, and where the longest one ends (reference 2.4.1).

ghost use Rattle.std.specs.Prelude.{◌≡◌, ◌≢◌, [], ◌||◌, ◌==◌, true, false, ℕ, List, ◌++◌, drop};
ghost use Rattle.std.specs.Prelude.{None, IfSome, IfNone, IsTrue};
ghost use Rattle.std.specs.Str.{chars};
ghost use Rattle.pylex_lexeme.specs.Chars.{begins};
ghost use Rattle.pylex_lexeme.specs.Strings.{begins_quote, quote_char, counts_as_string, opens_string};
ghost use Rattle.pylex_lexeme.specs.Strings.{units};
ghost use Rattle.pylex_lexeme.specs.Lexemes.{lexeme_at, ends_by_join, is_open_string};
ghost use Rattle.pylex_lexeme.specs.Chunks.{EndsLine};
ghost use Rattle.pylex_lexeme.specs.OpenLiterals.{IsOpenBy};
ghost use Rattle.pylex_lexeme.specs.Lengths.{Closed, unit_len, single_len, triple_len, quoted_len};
ghost use Rattle.pylex_lexeme.specs.Lengths.{Opens, longest, begins_pair, begins_join, begins_quotes};

use crate::scanner::{CharSet, Scanner};

/// The quotes (reference 2.4.1).
#[derive(Clone, Copy, Debug, PartialEq, Eq)]
pub enum Quote {
    /// `'`
    Single,
    /// `"`
    Double,
}

impl Quote {
    /// The quote as a character.
    #[inline(always)]
    pub fn as_char(self) -> char
        ensures { result ≡ quote_char self }
    {
        match self {
            Quote::Single => '\'',
            Quote::Double => '"',
        }
    }
}

/// Whether a quote stands here.
#[inline(always)]
fn has_quote(text: &Scanner, quote: Quote) -> bool
    ensures { result ≡ begins (λ c. c == quote_char quote) text.now }
{
    text.has_next(0, CharSet::One(quote.as_char()))
}

/// Whether a quote stands here three times.
#[inline(always)]
fn has_three(text: &Scanner, quote: Quote) -> bool
    ensures { result ≡ begins_quotes (quote_char quote) text.now }
{
    has_quote(text, quote)
        && text.has_next(1, CharSet::One(quote.as_char()))
        && text.has_next(2, CharSet::One(quote.as_char()))
}

/// Takes the unit that stands here: a backslash and the character or the CR LF after it, or one
/// other character.
#[inline(always)]
fn unit(text: &mut Scanner)
    ensures { text.new ≡ drop (unit_len text.old) text.old }
{
    if !text.has_next(0, CharSet::One('\\')) {
        text.bump_count(1);
        return;
    }
    if text.has_line_end(1) {
        text.bump_count(3);
        return;
    }
    text.bump_count(2);
}

/// Takes the units up to the quote that closes a literal; false where a line end or the text's end
/// comes before it.
fn close_single(text: &mut Scanner, quote: Quote) -> bool
    ensures { Closed (single_len (quote_char quote) text.old) result text.old text.new }
{
    loop {
        text.bump_plain();
        if has_quote(text, quote) {
            text.bump_count(1);
            return true;
        }
        if !text.has_next(0, CharSet::CommentPart) {
            return false;
        }
        unit(text);
    }
}

/// Takes the units up to the three quotes that close a literal; false where the text's end comes
/// before them.
fn close_triple(text: &mut Scanner, quote: Quote) -> bool
    ensures { Closed (triple_len (quote_char quote) text.old) result text.old text.new }
{
    loop {
        text.bump_plain();
        if has_three(text, quote) {
            text.bump_count(3);
            return true;
        }
        if !text.has_next(0, CharSet::Any) {
            return false;
        }
        unit(text);
    }
}

/// Takes the literal whose quotes stand here; false where it isn't ended.
fn quoted(text: &mut Scanner, quote: Quote) -> bool
    ensures { Closed (quoted_len (quote_char quote) text.old) result text.old text.new }
{
    if has_three(text, quote) {
        text.bump_count(3);
        return close_triple(text, quote);
    }
    text.bump_count(1);
    close_single(text, quote)
}

/// The quote that stands here.
fn quote_here(text: &Scanner) -> Quote
    requires { begins_quote text.now ≡ true }
    ensures { begins (λ c. c == quote_char result) text.now ≡ true }
{
    if has_quote(text, Quote::Double) {
        return Quote::Double;
    }
    Quote::Single
}

/// Takes the longest string that stands here, after a prefix of `prefix_len` characters; false
/// where it isn't ended.
///
/// Where three equal quotes stand after the prefix, only a literal in three quotes counts.
///
/// By another scanner: so this one need not stand in memory.
#[inline(always)]
pub(crate) fn string(text: &mut Scanner, prefix_len: usize) -> bool
    requires { Opens prefix_len text.old }
    ensures { Closed (longest (counts_as_string text.old) text.old) result text.old text.new }
{
    let mut ahead = text.again();
    let closed = prefix_and_quoted(&mut ahead, prefix_len);
    *text = ahead;
    closed
}

/// Takes the longest string that stands here, after a prefix of `prefix_len` characters; false
/// where it isn't ended.
///
/// Where three equal quotes stand after the prefix, only a literal in three quotes counts.
#[inline(never)]
fn prefix_and_quoted(text: &mut Scanner, prefix_len: usize) -> bool
    requires { Opens prefix_len text.old }
    ensures { Closed (longest (counts_as_string text.old) text.old) result text.old text.new }
{
    text.bump_count(prefix_len);
    let quote = quote_here(text);
    quoted(text, quote)
}

/// Whether the two letters of a prefix stand here.
fn has_pair(text: &Scanner) -> bool
    ensures { result ≡ begins_pair text.now }
{
    text.has_next(0, CharSet::LetterR) && text.has_next(1, CharSet::LetterBorF)
        || text.has_next(0, CharSet::LetterBorF) && text.has_next(1, CharSet::LetterR)
}

/// How many characters the prefix has after which a quote stands, perhaps none, if a string opens
/// here.
pub(crate) fn opening(text: &Scanner) -> Option<usize>
    ensures some { IfSome result (λ n. Opens n text.now) }
    ensures none { IfNone result (opens_string text.now ≡ false) }
{
    if text.has_next(0, CharSet::Quote) {
        return Some(0);
    }
    if text.has_next(1, CharSet::Quote) {
        if text.has_next(0, CharSet::PrefixLetter) {
            return Some(1);
        }
        return None;
    }
    if !text.has_next(2, CharSet::Quote) {
        return None;
    }
    if has_pair(text) {
        return Some(2);
    }
    None
}

/// Whether a backslash and a line end stand here.
fn has_join(text: &Scanner) -> bool
    ensures { result ≡ begins_join text.now }
{
    text.has_next(0, CharSet::One('\\'))
        && (text.has_next(1, CharSet::One('\n')) || text.has_line_end(1))
}

/// Whether a backslash and a line end are the last unit of what is left, with no quote and no other
/// line end before it.
fn ends_by_join(text: &mut Scanner, quote: Quote) -> bool
    ensures { result ≡ ends_by_join (quote_char quote) (units text.old) }
{
    loop {
        if has_quote(text, quote) || !text.has_next(0, CharSet::CommentPart) {
            return false;
        }
        let joins = has_join(text);
        unit(text);
        if !text.has_next(0, CharSet::Any) {
            return joins;
        }
    }
}

/// Whether the literal whose quotes stand here, and which isn't ended, is open up to the text's
/// end.
fn is_open(text: &mut Scanner, quote: Quote) -> bool
    ensures { result
        ≡ (begins_quotes (quote_char quote) text.old || ends_by_join (quote_char quote)
        (units (drop 1 text.old))) }
{
    if !has_three(text, quote) {
        text.bump_count(1);
        return ends_by_join(text, quote);
    }
    true
}

/// Whether a prefix, perhaps empty, and a quote stand at the front of a text.
pub fn opens_string(text: &str) -> bool
    ensures { result ≡ opens_string (chars text.now) }
{
    opening(&Scanner::new(text)).is_some()
}

/// A literal that is open at the end of some lines: its quote, and whether it opens in three of
/// them.
#[derive(Clone, Copy, Debug, PartialEq, Eq)]
pub struct OpenLiteral {
    quote: Quote,
    triple: bool,
}

/// The literal that opens at the front of a text and is open up to its end (see is_open_string), if
/// one does.
///
/// Only asked where no lexeme stands at the text's front.
pub fn open_literal(text: &str) -> Option<OpenLiteral>
    ensures some { IfSome result (λ o. IsOpenBy o (chars text.now)) }
    ensures none { IfNone result (is_open_string (chars text.now) ≡ false) }
{
    let mut left = Scanner::new(text);
    let Some(prefix_len) = opening(&left) else {
        return None;
    };
    left.bump_count(prefix_len);
    let quote = quote_here(&left);
    let triple = has_three(&left, quote);
    if is_open(&mut left, quote) {
        return Some(OpenLiteral { quote, triple });
    }
    None
}

impl OpenLiteral {
    /// Whether it is still open after one more line.
    pub fn goes_on(self, line: &str) -> bool
        ensures longer { IsTrue result → (cs : List ℕ) → EndsLine cs → IsOpenBy self cs
            → lexeme_at cs ≡ None
            → IsOpenBy self (cs ++ chars line.now) × (lexeme_at (cs ++ chars line.now) ≡ None) }
        ensures still { (cs : List ℕ) → EndsLine cs → IsOpenBy self cs → chars line.now ≢ []
            → lexeme_at (cs ++ chars line.now) ≡ None → is_open_string (cs ++ chars line.now) ≡ true
            → IsTrue result }
    {
        let mut left = Scanner::new(line);
        if self.triple {
            return !close_triple(&mut left, self.quote);
        }
        ends_by_join(&mut left, self.quote)
    }
}

/// Whether a literal that opens at the front of a text, and doesn't end in it, is open up to the
/// text's end, so that more text could still end it: one in three quotes always, one in single
/// quotes directly after a backslash and a line end.
pub fn is_open_string(text: &str) -> bool
    ensures { result ≡ is_open_string (chars text.now) }
{
    open_literal(text).is_some()
}
