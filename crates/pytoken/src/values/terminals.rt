//! What tokens are to the grammar.

ghost use Rattle.std.specs.Prelude.{◌≡◌, IfOk, IfErr, OnOk, None};
ghost use Rattle.std.specs.Str.{chars};
ghost use Rattle.pytoken.specs.NameValues.{name_fault};
ghost use Rattle.pytoken.specs.NumberValues.{number_fault};
ghost use Rattle.pytoken.specs.StringValues.{string_fault};
ghost use Rattle.pytoken.specs.Terminals.{terminal_of, single_fault};
ghost use Rattle.pytoken.specs.TerminalOf.{terminal, named, numbered, quoted, Tells};

use crate::values::faults::comment_fault;
use crate::values::literal_text::LiteralText;
use crate::values::names::name_fault;
use crate::values::number_text::NumberText;
use crate::values::numbers::short_value;
use crate::values::text_pieces::TextPiece;
use crate::{Keyword, TokenError};
use pyfstring::{Conversion, CutError};
use pylex_lexeme::operators::exact_of;
use pylex_listing::{Exact, Kind};
use pytree_node::Extent;
use std::alloc::{AllocError, Global};
use thiserror::Error;

/// What a token is to the grammar. It lends from the source what it doesn't hold itself.
#[derive(Clone, Copy, Debug, PartialEq, Eq)]
pub enum Terminal<'a> {
    /// An operator or a delimiter.
    Op(Exact),
    /// A keyword.
    Word(Keyword),
    /// A name that is no keyword, as it stands in the source: it stands for its form NFKC.
    Ident(&'a str),
    /// A whole number of decimal digits, below 2^64.
    Whole(u64),
    /// Another number.
    Number(NumberText<'a>),
    /// One string literal.
    Literal(LiteralText<'a>),
    /// The begin of an f-string.
    FormattedBegin,
    /// Its end.
    FormattedEnd,
    /// A text in it, or what `=` keeps of a field.
    FormattedText(TextPiece<'a>),
    /// The begin of a field, whose expression follows in parentheses.
    FieldBegin(Conversion),
    /// The begin of its format spec.
    SpecBegin,
    /// The end of a field.
    FieldEnd,
    /// A line end, or the begin or end of a block.
    Layout,
}

/// Why a token is no terminal.
#[derive(Clone, Copy, Debug, PartialEq, Eq, Error)]
pub enum TerminalFault {
    /// Something is wrong with the token by itself.
    #[error("faulty token")]
    Token(TokenError),
    /// Memory ran out.
    #[error("out of memory")]
    Memory,
}

impl From<AllocError> for TerminalFault {
    ghost use Rattle.pytoken.specs.declared.values.terminals.TerminalFault.TheVariants.{Memory};

    ghost from_gives = { λ error r. r ≡ Memory };

    fn from(_error: AllocError) -> TerminalFault {
        TerminalFault::Memory
    }
}

impl From<CutError> for TerminalFault {
    ghost use Rattle.pytoken.specs.Inner.Cuts.{fault_by_cut};

    ghost from_gives = { λ error r. r ≡ fault_by_cut error };

    fn from(error: CutError) -> TerminalFault {
        match error {
            CutError::Malformed => TerminalFault::Token(TokenError::FString),
            CutError::Memory => TerminalFault::Memory,
        }
    }
}

/// The terminal of a NAME.
fn name_terminal<'a>(alloc: Global, text: &'a str) -> Result<Terminal<'a>, TerminalFault>
    ensures terminal { IfOk result (λ made. terminal made ≡ named (chars text.now)) }
    ensures sound { OnOk result (name_fault (chars text.now) ≡ None) }
    ensures refused { IfErr result (Tells (name_fault (chars text.now))) }
{
    if let Some(error) = name_fault(alloc, text)? {
        return Err(TerminalFault::Token(error));
    }
    match Keyword::of(text) {
        Some(word) => Ok(Terminal::Word(word)),
        None => Ok(Terminal::Ident(text)),
    }
}

/// The terminal of a NUMBER.
fn number_terminal<'a>(
    alloc: Global,
    extent: Extent,
    text: &'a str,
) -> Result<Terminal<'a>, TerminalFault>
    ensures terminal { IfOk result (λ made. terminal made ≡ numbered text.now) }
    ensures sound { OnOk result (number_fault extent text.now ≡ None) }
    ensures refused { IfErr result (Tells (number_fault extent text.now)) }
{
    if let Some(value) = short_value(text) {
        return Ok(Terminal::Whole(value));
    }
    Ok(Terminal::Number(NumberText::new(alloc, extent, text)?))
}

/// The terminal of a STRING.
fn string_terminal<'a>(text: &'a str) -> Result<Terminal<'a>, TerminalFault>
    ensures terminal { IfOk result (λ made. terminal made ≡ quoted (chars text.now)) }
    ensures sound { OnOk result (string_fault (chars text.now) ≡ None) }
    ensures refused { IfErr result (Tells (string_fault (chars text.now))) }
{
    match LiteralText::new(text) {
        Ok(literal) => Ok(Terminal::Literal(literal)),
        Err(error) => Err(TerminalFault::Token(error)),
    }
}

/// The terminal of an OP.
#[inline(always)]
fn operator_terminal<'a>(text: &'a str) -> Terminal<'a>
    ensures { terminal result ≡ terminal_of Kind.Op (chars text.now) }
{
    match exact_of(text) {
        Some(exact) => Terminal::Op(exact),
        None => Terminal::Layout,
    }
}

/// The terminal that a token of this type and text is in an extent of the language, if it is a
/// single one: an f-string is told as a fault.
///
/// # Errors
///
/// [`TerminalFault::Token`] by the fault that the token is by itself in this extent.
#[inline(always)]
pub fn terminal_of<'a>(
    alloc: Global,
    extent: Extent,
    kind: Kind,
    text: &'a str,
) -> Result<Terminal<'a>, TerminalFault>
    ensures terminal { IfOk result (λ made. terminal made ≡ terminal_of kind (chars text.now)) }
    ensures sound { OnOk result (single_fault extent kind (chars text.now) ≡ None) }
    ensures refused { IfErr result (Tells (single_fault extent kind (chars text.now))) }
{
    match kind {
        Kind::Name => name_terminal(alloc, text),
        Kind::Number => number_terminal(alloc, extent, text),
        Kind::String => string_terminal(text),
        Kind::Op => Ok(operator_terminal(text)),
        Kind::Comment => match comment_fault(text) {
            Some(error) => Err(TerminalFault::Token(error)),
            None => Ok(Terminal::Layout),
        },
        _ => Ok(Terminal::Layout),
    }
}
