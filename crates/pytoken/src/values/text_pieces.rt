//! The texts of f-strings.
//!
//! Python language reference, 2.4.3 "Formatted string literals".

ghost use Rattle.std.specs.Prelude.{◌≡◌, false, IfOk};
ghost use Rattle.std.specs.Str.{chars};
ghost use Rattle.pytoken.specs.Escapes.{escape_fault};
ghost use Rattle.pytoken.specs.StringValues.{with_line_feeds};
ghost use Rattle.pytoken.specs.FormattedStrings.{text_meanings, text_points};
ghost use Rattle.pytoken.specs.TerminalOf.{text_part};
ghost use Rattle.pytoken.specs.Inner.Readings.{body_points};

use crate::TokenError;
use crate::values::characters::Characters;
use crate::values::literals::text_in;
use crate::values::strings::escape_fault;
use pyfstring::single;
use pytree_node::Points;
use std::alloc::{AllocError, Global};

/// The points of a text by its escapes alone.
fn points(alloc: Global, text: &str, is_raw: bool) -> Result<Points, AllocError>
    ensures { IfOk result (λ points.
        points ≡ body_points is_raw false (with_line_feeds (chars text.now))) }
{
    text_in(alloc, Characters::new(text), is_raw)
}

/// A text in an f-string as it stands there, lent from the source. Its value takes memory, and is
/// made when it is asked for.
#[derive(Clone, Copy, Debug, PartialEq, Eq)]
pub struct TextPiece<'a> {
    text: &'a str,
    is_raw: bool,
    has_pairs: bool,
}

impl<'a> TextPiece<'a> {
    /// A text, by whether its escapes stand for themselves, and whether two braces are one.
    pub(crate) fn new(text: &'a str, is_raw: bool, has_pairs: bool) -> TextPiece<'a>
        ensures { text_part result
            ≡ record { is_raw = is_raw; has_pairs = has_pairs; source = chars text.now } }
    {
        TextPiece {
            text,
            is_raw,
            has_pairs,
        }
    }

    /// The first fault of its escapes.
    pub(crate) fn fault(self, alloc: Global) -> Result<Option<TokenError>, AllocError>
        ensures { IfOk result (λ fault. fault ≡ escape_fault (text_meanings (text_part self.entry))) }
    {
        if !self.has_pairs {
            return Ok(escape_fault(Characters::new(self.text), self.is_raw, false));
        }
        let text = single(alloc, self.text, self.is_raw)?;
        Ok(escape_fault(Characters::new(text.as_str()), self.is_raw, false))
    }

    /// The points that it stands for.
    pub fn value(self, alloc: Global) -> Result<Points, AllocError>
        ensures { IfOk result (λ points. points ≡ text_points (text_part self.entry)) }
    {
        if !self.has_pairs {
            return points(alloc, self.text, self.is_raw);
        }
        let text = single(alloc, self.text, self.is_raw)?;
        points(alloc, text.as_str(), self.is_raw)
    }
}
