//! A string literal as it stands in a source.

ghost use Rattle.std.specs.Prelude.{◌≡◌, None};
ghost use Rattle.std.specs.Str.{chars};
ghost use Rattle.pytoken.specs.StringValues.{string_fault};

use crate::TokenError;
use crate::values::characters::Characters;
use crate::values::literals::{Literal, string_value};
use crate::values::strings::{is_marked, string_fault};
use std::alloc::{AllocError, Global};

/// The text of one string literal without a fault, lent from its source. Its value takes memory,
/// and is made when it is asked for.
#[derive(Clone, Copy, Debug, PartialEq, Eq)]
pub struct LiteralText<'a> {
    text: &'a str,
    ghost faultless: { string_fault (chars text.now) ≡ None },
}

impl<'a> LiteralText<'a> {
    ghost use Rattle.std.specs.Prelude.{IfOk, IfErr, Some};
    ghost use Rattle.pytoken.specs.StringValues.{string_value, is_bytes, with_line_feeds};
    ghost use Rattle.pytoken.specs.Values.{literal_value};
    ghost use Rattle.pytoken.specs.TerminalOf.{literal_characters};

    /// The literal that a text is.
    ///
    /// # Errors
    ///
    /// The first fault that the text has by itself.
    pub fn new(text: &'a str) -> Result<LiteralText<'a>, TokenError>
        ensures literal { IfOk result (λ made. literal_characters made ≡ chars text.now) }
        ensures sound { IfOk result (λ _. string_fault (chars text.now) ≡ None) }
        ensures refused { IfErr result (λ error. string_fault (chars text.now) ≡ Some error) }
    {
        match string_fault(text) {
            Some(error) => Err(error),
            None => Ok(LiteralText { text }),
        }
    }

    /// Its characters, with its prefix and quotes.
    pub fn as_str(self) -> &'a str
        ensures { chars result.now ≡ literal_characters self.entry }
    {
        self.text
    }

    /// Whether it stands for bytes.
    pub fn is_bytes(self) -> bool
        ensures { result ≡ is_bytes (with_line_feeds (literal_characters self.entry)) }
    {
        is_marked(&Characters::new(self.text), 'b', 'B')
    }

    /// What it stands for.
    pub fn value(self, alloc: Global) -> Result<Literal, AllocError>
        ensures { IfOk result (λ made.
            literal_value made ≡ string_value (literal_characters self.entry)) }
    {
        string_value(alloc, self.text)
    }
}
