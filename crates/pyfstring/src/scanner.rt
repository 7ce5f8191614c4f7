//! A text that is read from its front, one character after another.

ghost use Rattle.std.specs.Prelude.{◌≡◌, ℕ, List, drop, slice_get};
ghost use Rattle.std.specs.Str.{chars, IsUtf8};
ghost use Rattle.pyfstring.specs.Texts.{begins_with};
ghost use Rattle.pyfstring.specs.Cutting.{EndsWith, before};
ghost use Rattle.pyfstring.specs.Inner.Passing.{eaten, is_nothing};

use std::marker::Model;

/// What is left of a text.
#[derive(Drop)]
pub(crate) struct Scanner<'a> {
    rest: &'a str,
}

impl<'a> Model for Scanner<'a> {
    ghost Value = { List ℕ };

    ghost view = { λ s. chars s.rest.now };

    ghost invariant = { λ s. IsUtf8 s.rest.now };
}

impl<'a> Scanner<'a> {
    /// Begins at the front of a text.
    pub(crate) fn new(text: &'a str) -> Self
        ensures { result ≡ chars text.now }
    {
        Scanner { rest: text }
    }

    /// Another scanner that stands here.
    pub(crate) fn again(&self) -> Scanner<'a>
        ensures { result ≡ self.now }
    {
        Scanner { rest: self.rest }
    }

    /// The next character.
    #[inline(always)]
    pub(crate) fn peek(&self) -> Option<char>
        ensures { result ≡ slice_get self.now 0 }
    {
        match self.rest.as_bytes().first() {
            Some(byte) if *byte < 128 => Some(*byte as char),
            _ => self.again().peek_wide(),
        }
    }

    /// The next character, which may be past ASCII.
    #[inline(never)]
    fn peek_wide(&self) -> Option<char>
        ensures { result ≡ slice_get self.now 0 }
    {
        self.rest.chars().next()
    }

    /// Passes the next character.
    #[inline(always)]
    pub(crate) fn advance(&mut self)
        ensures { self.new ≡ drop 1 self.old }
    {
        match self.rest.as_bytes().first() {
            Some(byte) if *byte < 128 => self.rest = &self.rest[1..],
            _ => {
                let mut ahead = self.again();
                ahead.advance_wide();
                *self = ahead;
            }
        }
    }

    /// Passes the next character, which may be past ASCII.
    #[inline(never)]
    fn advance_wide(&mut self)
        ensures { self.new ≡ drop 1 self.old }
    {
        let mut left = self.rest.chars();
        let _ = left.next();
        self.rest = left.as_str();
    }

    /// Passes some characters.
    #[inline(always)]
    pub(crate) fn advance_by(&mut self, count: usize)
        ensures { self.new ≡ drop count self.old }
    {
        for _ in 0..count {
            self.advance();
        }
    }

    /// Whether this character is the next one.
    #[inline(always)]
    pub(crate) fn is_next(&self, c: char) -> bool
        ensures { result ≡ begins_with c self.now }
    {
        match self.peek() {
            Some(next) => next == c,
            None => false,
        }
    }

    /// Whether this character stands after some others.
    #[inline(always)]
    pub(crate) fn is_following(&self, count: usize, c: char) -> bool
        ensures { result ≡ begins_with c (drop count self.now) }
    {
        let mut ahead = self.again();
        ahead.advance_by(count);
        ahead.is_next(c)
    }

    /// Passes this character, if it is the next one.
    pub(crate) fn eat(&mut self, c: char) -> bool
        ensures found { result ≡ begins_with c self.old }
        ensures rest { self.new ≡ eaten c self.old }
    {
        if !self.is_next(c) {
            return false;
        }
        self.advance();
        true
    }

    /// Whether nothing is left.
    pub(crate) fn is_at_end(&self) -> bool
        ensures { result ≡ is_nothing self.now }
    {
        match self.peek() {
            Some(_) => false,
            None => true,
        }
    }

    /// What stands between here and a later place.
    pub(crate) fn until(&self, end: &Scanner<'a>) -> &'a str
        requires { EndsWith self.now end.now }
        ensures { chars result.now ≡ before self.now end.now }
    {
        &self.rest[..self.rest.len() - end.rest.len()]
    }
}
