//! Tests on the terminal at a place within an f-string.

ghost use Rattle.std.specs.Prelude.{◌≡◌, ◌<◌, IfSome, MatchBool, None, is_some, length};
ghost use Rattle.pygrammar.specs.Looks as signs;
ghost use Rattle.pyparse_nodes.specs.Boundaries.{conversion_of, boundary_terminal, boundary_of, points_of};
ghost use Rattle.pyparse_nodes.specs.Views.{Stands, first_is, seen};
ghost use Rattle.pytoken.specs.TerminalOf.{terminal};

use crate::looks::terminal_at;
use pytoken::{Terminal, TextPiece};
use pytree_node::Conversion;

/// A boundary of an f-string, of a format spec or of a field: where one begins or ends.
#[derive(Clone, Copy)]
pub enum Boundary {
    /// The begin of an f-string.
    FormattedBegin,
    /// Its end.
    FormattedEnd,
    /// The begin of a format spec.
    SpecBegin,
    /// The end of a field.
    FieldEnd,
}

/// Whether a terminal is this boundary.
fn boundary_is(t: Terminal, boundary: Boundary) -> bool
    ensures { result ≡ is_some (boundary_of boundary (terminal t.entry)) }
{
    match boundary {
        Boundary::FormattedBegin => matches!(t, Terminal::FormattedBegin),
        Boundary::FormattedEnd => matches!(t, Terminal::FormattedEnd),
        Boundary::SpecBegin => matches!(t, Terminal::SpecBegin),
        Boundary::FieldEnd => matches!(t, Terminal::FieldEnd),
    }
}

/// Whether this boundary stands at the place.
pub fn is_boundary(tokens: &[Terminal], at: usize, boundary: Boundary) -> bool
    ensures { MatchBool result (Stands (boundary_terminal boundary) tokens.now at)
        (None ≡ first_is (boundary_of boundary) (seen tokens.now at)) }
{
    match terminal_at(tokens, at) {
        Some(t) => boundary_is(t, boundary),
        None => false,
    }
}

/// A part of an f-string, or of a format spec, by its first terminal.
#[derive(Clone, Copy)]
pub enum FormattedPart<'a> {
    /// A text.
    Text(TextPiece<'a>),
    /// A field, with its conversion.
    Field(Conversion),
}

/// The part that begins with a terminal.
fn part_of<'a>(t: Terminal<'a>) -> Option<FormattedPart<'a>>
    ensures text { points_of result ≡ signs.text_in (terminal t.entry) }
    ensures field { conversion_of result ≡ signs.conversion_in (terminal t.entry) }
{
    match t {
        Terminal::FormattedText(text) => Some(FormattedPart::Text(text)),
        Terminal::FieldBegin(conversion) => Some(FormattedPart::Field(conversion)),
        _ => None,
    }
}

/// The part that begins at the place.
pub fn part_at<'a>(tokens: &[Terminal<'a>], at: usize) -> Option<FormattedPart<'a>>
    ensures text { points_of result ≡ first_is signs.text_in (seen tokens.now at) }
    ensures field { conversion_of result ≡ first_is signs.conversion_in (seen tokens.now at) }
    ensures within { IfSome result (λ _. at < length tokens.now) }
{
    match terminal_at(tokens, at) {
        Some(t) => part_of(t),
        None => None,
    }
}
