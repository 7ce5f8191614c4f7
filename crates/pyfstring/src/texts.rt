//! Texts in a body, or in a format spec (reference 2.4.3).

ghost use Rattle.std.specs.Prelude.{◌≡◌, ◌==◌, ◌&&◌, ◌+◌, not, drop};
ghost use Rattle.std.specs.Str.{chars};
ghost use Rattle.std.specs.List.{prefix_len};
ghost use Rattle.pyfstring.specs.Texts.{begins, is_brace, is_literal_char, is_no_closing};
ghost use Rattle.pyfstring.specs.Texts.{begins_escape, begins_pair, escape_len, unit_len};
ghost use Rattle.pyfstring.specs.Texts.{after_text};
ghost use Rattle.pyfstring.specs.Cutting.{before};

use crate::scanner::Scanner;

/// Whether a character is a brace.
#[inline(always)]
pub(crate) fn is_brace(c: char) -> bool
    ensures { result ≡ is_brace c }
{
    c == '{' || c == '}'
}

impl<'a> Scanner<'a> {
    /// Whether a character other than a brace is next.
    #[inline(always)]
    fn has_plain(&self) -> bool
        ensures { result ≡ begins is_literal_char self.now }
    {
        match self.peek() {
            Some(c) => !is_brace(c),
            None => false,
        }
    }

    /// Whether an escape stands here: a backslash, and after it a character other than a brace. A
    /// raw literal has none.
    #[inline(always)]
    fn has_escape(&self, is_raw: bool) -> bool
        ensures { result ≡ (not is_raw && begins_escape self.now) }
    {
        if is_raw || !self.is_next('\\') {
            return false;
        }
        let mut ahead = self.again();
        ahead.advance();
        ahead.has_plain()
    }

    /// Whether a brace stands here twice, where pairs count.
    #[inline(always)]
    fn has_pair(&self, has_pairs: bool) -> bool
        ensures { result ≡ (has_pairs && begins_pair self.now) }
    {
        if !has_pairs {
            return false;
        }
        match self.peek() {
            Some(c) => is_brace(c) && self.is_following(1, c),
            None => false,
        }
    }

    /// Passes all up to and with the next `}`, or to the end where there is none.
    fn pass_closing(&mut self)
        ensures { self.new ≡ drop (prefix_len is_no_closing self.old + 1) self.old }
    {
        while let Some(c) = self.peek() {
            self.advance();
            if c == '}' {
                return;
            }
        }
    }

    /// Passes the escape that stands here.
    fn pass_escape(&mut self)
        ensures { self.new ≡ drop (escape_len self.old) self.old }
    {
        if !self.is_following(1, 'N') {
            self.advance_by(2);
            return;
        }
        if !self.is_following(2, '{') {
            self.advance_by(3);
            return;
        }
        self.advance_by(3);
        self.pass_closing();
    }

    /// Passes the unit of a text that stands here; false where none does. `has_pairs` says whether
    /// two braces are one unit.
    #[inline(always)]
    pub(crate) fn pass_unit(&mut self, is_raw: bool, has_pairs: bool) -> bool
        ensures found { result ≡ not (unit_len is_raw has_pairs self.old == 0) }
        ensures rest { self.new ≡ drop (unit_len is_raw has_pairs self.old) self.old }
    {
        if self.has_escape(is_raw) {
            self.pass_escape();
            return true;
        }
        if self.has_pair(has_pairs) {
            self.advance_by(2);
            return true;
        }
        if self.has_plain() {
            self.advance();
            return true;
        }
        false
    }

    /// The text that stands here, perhaps an empty one.
    pub(crate) fn text(&mut self, is_raw: bool, has_pairs: bool) -> &'a str
        ensures text { chars result.now ≡ before self.old self.new }
        ensures rest { self.new ≡ after_text is_raw has_pairs self.old }
    {
        let start = self.again();
        while self.pass_unit(is_raw, has_pairs) {}
        start.until(self)
    }
}
