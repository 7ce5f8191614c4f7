//! A text that is read from its front, one character after another.

ghost use Rattle.std.specs.Char.{is_ascii_alphanumeric};
ghost use Rattle.std.specs.Prelude.{◌≡◌, ◌==◌, ◌&&◌, ◌||◌, ℕ, ◌≤◌, List, length, drop, slice_get};
ghost use Rattle.std.specs.Prelude.{nat_lt, false, Some, IfSome};
ghost use Rattle.std.specs.Str.{chars, encode_utf8_all, IsUtf8};
ghost use Rattle.std.specs.List.{prefix_len};
ghost use Rattle.unicode_ident.specs.Ident.{is_xid_continue};
ghost use Rattle.pylex_lexeme.specs.Chars.{has, begins};
ghost use Rattle.pylex_lexeme.specs.Characters.{carriage_return, line_feed, low_line};
ghost use Rattle.pylex_lexeme.specs.Inner.Plain.{is_plain_char};
ghost use Rattle.pylex_lexeme.specs.Inner.Frequent.{is_quote_or_wide};
ghost use Rattle.pylex_lexeme.specs.Lengths.{joined_len, begins_some};

use std::marker::Model;

/// What is left of a text.
#[derive(Drop)]
pub(crate) struct Scanner<'a> {
    rest: &'a str,
}

impl<'a> Model for Scanner<'a> {
    ghost Value = { List ℕ };

    ghost view = { λ s. chars s.rest.now };

    ghost invariant = { λ s. IsUtf8 s.rest.now };
}

impl<'a> Scanner<'a> {
    /// Begins at the front of a text.
    pub(crate) fn new(text: &'a str) -> Self
        ensures { result ≡ chars text.now }
    {
        Scanner { rest: text }
    }

    /// Another scanner that stands here.
    pub(crate) fn again(&self) -> Scanner<'a>
        ensures { result ≡ self.now }
    {
        Scanner { rest: self.rest }
    }

    /// How many bytes are left.
    pub(crate) fn len(&self) -> usize
        ensures { result ≡ length (encode_utf8_all self.now) }
    {
        self.rest.len()
    }

    /// The next character.
    #[inline(always)]
    pub(crate) fn first(&self) -> Option<char>
        ensures { result ≡ slice_get self.now 0 }
    {
        match self.rest.as_bytes().first() {
            Some(byte) if *byte < 128 => Some(*byte as char),
            _ => self.again().first_wide(),
        }
    }

    /// The next character, which may be past ASCII.
    #[inline(never)]
    fn first_wide(&self) -> Option<char>
        ensures { result ≡ slice_get self.now 0 }
    {
        self.rest.chars().next()
    }

    /// The next character, if it is of ASCII.
    #[inline(always)]
    pub(crate) fn first_ascii(&self) -> Option<char>
        ensures { IfSome result (λ c. slice_get self.now 0 ≡ Some c) }
    {
        match self.rest.as_bytes().first() {
            Some(byte) if *byte < 128 => Some(*byte as char),
            _ => None,
        }
    }

    /// Takes the next character.
    #[inline(always)]
    pub(crate) fn bump(&mut self) -> Option<char>
        ensures first { result ≡ slice_get self.old 0 }
        ensures rest { self.new ≡ drop 1 self.old }
    {
        match self.rest.as_bytes().first() {
            Some(byte) if *byte < 128 => {
                self.rest = &self.rest[1..];
                Some(*byte as char)
            }
            _ => self.bump_by_call(),
        }
    }

    /// Takes the next character by a call, and by another scanner: so this one need not stand in
    /// memory.
    #[inline(always)]
    fn bump_by_call(&mut self) -> Option<char>
        ensures first { result ≡ slice_get self.old 0 }
        ensures rest { self.new ≡ drop 1 self.old }
    {
        let mut ahead = self.again();
        let first = ahead.bump_wide();
        *self = ahead;
        first
    }

    /// Takes the next character, which may be past ASCII.
    #[inline(never)]
    fn bump_wide(&mut self) -> Option<char>
        ensures first { result ≡ slice_get self.old 0 }
        ensures rest { self.new ≡ drop 1 self.old }
    {
        let mut left = self.rest.chars();
        let first = left.next();
        self.rest = left.as_str();
        first
    }

    /// Takes some characters.
    #[inline(always)]
    pub(crate) fn bump_count(&mut self, count: usize)
        ensures { self.new ≡ drop count self.old }
    {
        for _ in 0..count {
            let _ = self.bump();
        }
    }

    /// Takes the characters of a set from here on.
    #[inline(always)]
    pub(crate) fn bump_while(&mut self, set: CharSet)
        ensures { self.new ≡ drop (prefix_len (has set) self.old) self.old }
    {
        let count = ascii_run(self.rest.as_bytes(), set);
        self.rest = &self.rest[count..];
        if begins_wide(self.rest.as_bytes()) {
            self.bump_on(set);
        }
    }

    /// Takes the characters of a set from here on, by another scanner: so this one need not stand
    /// in memory.
    #[inline(always)]
    fn bump_on(&mut self, set: CharSet)
        ensures { self.new ≡ drop (prefix_len (has set) self.old) self.old }
    {
        let mut ahead = self.again();
        ahead.bump_while_wide(set);
        *self = ahead;
    }

    /// Takes the characters of a set from here on, each of which may be past ASCII.
    #[inline(never)]
    fn bump_while_wide(&mut self, set: CharSet)
        ensures { self.new ≡ drop (prefix_len (has set) self.old) self.old }
    {
        let mut ahead = self.again();
        while let Some(first) = ahead.first()
            && set.has(first)
        {
            let _ = ahead.bump();
        }
        *self = ahead;
    }

    /// Takes the characters of ASCII from here on that are in a set.
    #[inline(always)]
    pub(crate) fn bump_ascii(&mut self, set: CharSet)
        ensures { self.new
            ≡ drop (prefix_len (λ c. nat_lt c 128 && has set c) self.old) self.old }
    {
        let count = ascii_run(self.rest.as_bytes(), set);
        self.rest = &self.rest[count..];
    }

    /// Whether a quote or a character past ASCII stands here.
    #[inline(always)]
    pub(crate) fn has_quote_or_wide(&self) -> bool
        ensures { result ≡ false → begins is_quote_or_wide self.now ≡ false }
    {
        begins_quote_or_wide(self.rest.as_bytes())
    }

    /// Takes the characters of ASCII from here on that are neither a quote, a backslash nor of a
    /// line end.
    #[inline(always)]
    pub(crate) fn bump_plain(&mut self)
        ensures { self.new ≡ drop (prefix_len is_plain_char self.old) self.old }
    {
        let count = plain_run(self.rest.as_bytes());
        self.rest = &self.rest[count..];
    }

    /// The character after some others.
    #[inline(always)]
    pub(crate) fn peek(&self, skipped: usize) -> Option<char>
        ensures { result ≡ slice_get (drop skipped self.now) 0 }
    {
        let mut ahead = self.again();
        ahead.bump_count(skipped);
        ahead.first()
    }

    /// Whether the character after some others is in a set.
    #[inline(always)]
    pub(crate) fn has_next(&self, skipped: usize, set: CharSet) -> bool
        ensures { result ≡ begins (has set) (drop skipped self.now) }
    {
        match self.peek(skipped) {
            Some(c) => set.has(c),
            None => false,
        }
    }

    /// Whether a digit of a kind, or an underscore and one, stands after some characters.
    pub(crate) fn has_digits(&self, skipped: usize, digits: CharSet) -> bool
        ensures { result ≡ begins_some (has digits) (drop skipped self.now) }
    {
        let mut ahead = self.again();
        ahead.bump_count(skipped);
        ahead.has_next(0, digits)
            || ahead.has_next(0, CharSet::One('_')) && ahead.has_next(1, digits)
    }

    /// Whether a CR and an LF stand after some characters.
    pub(crate) fn has_line_end(&self, skipped: usize) -> bool
        ensures { result
            ≡ (begins (λ c. c == carriage_return) (drop skipped self.now)
            && begins (λ c. c == line_feed) (drop 1 (drop skipped self.now))) }
    {
        let mut ahead = self.again();
        ahead.bump_count(skipped);
        ahead.has_next(0, CharSet::One('\r')) && ahead.has_next(1, CharSet::One('\n'))
    }

    /// Takes digits of a kind from here on, each with perhaps an underscore before it.
    #[tactic(auto, using(crate::proofs::Fronts::Joined::step_digit, crate::proofs::Fronts::Joined::step_both, crate::proofs::Fronts::Joined::stop_first, crate::proofs::Fronts::Joined::stop_second, crate::proofs::Fronts::Joined::shorter, crate::proofs::Fronts::Joined::shorter_two))]
    pub(crate) fn bump_joined(&mut self, digits: CharSet)
        ensures { self.new ≡ drop (joined_len (has digits) self.old) self.old }
    {
        loop {
            if self.has_next(0, digits) {
                let _ = self.bump();
            } else if self.has_next(0, CharSet::One('_')) && self.has_next(1, digits) {
                self.bump_count(2);
            } else {
                break;
            }
        }
    }
}

/// Whether bytes begin with one past ASCII.
#[inline(always)]
fn begins_wide(bytes: &[u8]) -> bool
    ensures { result ≡ begins (λ b. nat_lt 127 b) bytes.now }
{
    match bytes.first() {
        Some(byte) => *byte > 127,
        None => false,
    }
}

/// Whether a byte is a quote, or past ASCII.
#[inline(always)]
fn is_quote_or_wide(byte: u8) -> bool
    ensures { result ≡ is_quote_or_wide byte }
{
    byte > 127 || (byte == b'\'' || byte == b'"')
}

/// Whether bytes begin with a quote, or with one past ASCII.
#[inline(always)]
fn begins_quote_or_wide(bytes: &[u8]) -> bool
    ensures { result ≡ begins is_quote_or_wide bytes.now }
{
    match bytes.first() {
        Some(byte) => is_quote_or_wide(*byte),
        None => false,
    }
}

/// How many bytes at the front are characters of ASCII that are in a set.
#[inline(always)]
fn ascii_run(bytes: &[u8], set: CharSet) -> usize
    ensures { result ≡ prefix_len (λ b. nat_lt b 128 && has set b) bytes.now }
{
    let mut count = 0;
    while count < bytes.len() && set.has_byte(bytes[count]) {
        count += 1;
    }
    count
}

/// A plus for each byte that is a character of ASCII, and neither a quote, a backslash nor of a
/// line end; a minus for every other.
static PLAIN_BYTES: [u8; 256] = *b"\
    ++++++++++-++-++++++++++++++++++\
    ++-++++-++++++++++++++++++++++++\
    ++++++++++++++++++++++++++++-+++\
    ++++++++++++++++++++++++++++++++\
    --------------------------------\
    --------------------------------\
    --------------------------------\
    --------------------------------";

/// Whether a byte is a character of ASCII, and neither a quote, a backslash nor of a line end.
#[inline(always)]
fn is_plain(byte: u8) -> bool
    ensures { result ≡ is_plain_char byte }
{
    PLAIN_BYTES[byte as usize] == b'+'
}

/// How many bytes at the front are such characters.
fn plain_run(bytes: &[u8]) -> usize
    ensures { result ≡ prefix_len is_plain_char bytes.now }
{
    let mut count = 0;
    while count < bytes.len() && is_plain(bytes[count]) {
        count += 1;
    }
    count
}

/// The characters of ASCII that a name may have, each at its own place, and a comma at every other.
static NAME_BYTES: [u8; 256] = *b"\
    ,,,,,,,,,,,,,,,,,,,,,,,,,,,,,,,,\
    ,,,,,,,,,,,,,,,,0123456789,,,,,,\
    ,ABCDEFGHIJKLMNOPQRSTUVWXYZ,,,,_\
    ,abcdefghijklmnopqrstuvwxyz,,,,,\
    ,,,,,,,,,,,,,,,,,,,,,,,,,,,,,,,,\
    ,,,,,,,,,,,,,,,,,,,,,,,,,,,,,,,,\
    ,,,,,,,,,,,,,,,,,,,,,,,,,,,,,,,,\
    ,,,,,,,,,,,,,,,,,,,,,,,,,,,,,,,,";

/// Whether a byte is a character of ASCII that a name may have.
#[inline(always)]
fn is_name_byte(byte: u8) -> bool
    ensures { result ≡ (is_ascii_alphanumeric byte || (byte == low_line)) }
{
    NAME_BYTES[byte as usize] != b','
}

/// Whether a name may continue with a character. Those of ASCII are recognized without a table.
#[inline(always)]
fn is_name_part(c: char) -> bool
    ensures { result ≡ is_xid_continue c }
{
    if c.is_ascii() {
        return c.is_ascii_alphanumeric() || c == '_';
    }
    unicode_ident::is_xid_continue(c)
}

/// A set of characters.
#[derive(Clone, Copy)]
pub(crate) enum CharSet {
    NamePart,
    Digit,
    CommentPart,
    Blank,
    /// One character alone.
    One(char),
    HexDigit,
    OctalDigit,
    BinaryDigit,
    LetterX,
    LetterO,
    LetterB,
    LetterE,
    LetterJ,
    Sign,
    Quote,
    Any,
    LetterR,
    LetterBorF,
    PrefixLetter,
}

impl CharSet {
    /// Whether a byte is a character of ASCII, and in the set.
    #[inline(always)]
    fn has_byte(self, byte: u8) -> bool
        ensures { result ≡ (nat_lt byte 128 && has self byte) }
    {
        match self {
            CharSet::NamePart => is_name_byte(byte),
            CharSet::CommentPart => byte < 128 && byte != b'\n' && byte != b'\r',
            CharSet::Blank => byte == b' ' || byte == b'\t' || byte == b'\x0c',
            _ => byte < 128 && self.has(byte as char),
        }
    }

    /// Whether a character is in the set.
    #[inline(always)]
    pub(crate) fn has(self, c: char) -> bool
        ensures { result ≡ has self c }
    {
        match self {
            CharSet::NamePart => is_name_part(c),
            CharSet::Digit => c.is_ascii_digit(),
            CharSet::CommentPart => c != '\n' && c != '\r',
            CharSet::Blank => c == ' ' || c == '\t' || c == '\x0c',
            CharSet::One(d) => c == d,
            CharSet::HexDigit => {
                c.is_ascii_digit() || ('a' <= c && c <= 'f') || ('A' <= c && c <= 'F')
            }
            CharSet::OctalDigit => '0' <= c && c <= '7',
            CharSet::BinaryDigit => c == '0' || c == '1',
            CharSet::LetterX => c == 'x' || c == 'X',
            CharSet::LetterO => c == 'o' || c == 'O',
            CharSet::LetterB => c == 'b' || c == 'B',
            CharSet::LetterE => c == 'e' || c == 'E',
            CharSet::LetterJ => c == 'j' || c == 'J',
            CharSet::Sign => c == '+' || c == '-',
            CharSet::Quote => c == '\'' || c == '"',
            CharSet::Any => true,
            CharSet::LetterR => c == 'r' || c == 'R',
            CharSet::LetterBorF => (c == 'b' || c == 'B') || (c == 'f' || c == 'F'),
            CharSet::PrefixLetter => {
                (c == 'r' || c == 'R')
                    || ((c == 'u' || c == 'U')
                        || ((c == 'b' || c == 'B') || (c == 'f' || c == 'F')))
            }
        }
    }
}

/// How many characters a text has.
pub fn char_count(text: &str) -> usize
    ensures count { result ≡ length (chars text.now) }
    ensures bound { result ≤ length text.now }
{
    text.chars().count()
}
