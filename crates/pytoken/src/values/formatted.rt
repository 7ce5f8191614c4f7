//! The parts of f-strings that are read the same in a field and in none.
//!
//! Python language reference, 2.4.3 "Formatted string literals".

ghost use Rattle.std.specs.Prelude.{◌≡◌, ◌∷◌, [], true, map, IfOk, IfErr, OnOk, None, is_some};
ghost use Rattle.std.specs.List.{flat_map};
ghost use Rattle.std.specs.Option.{option_or};
ghost use Rattle.std.specs.Str.{chars};
ghost use Rattle.pylex_listing.specs.EntryKinds.{kind_of};
ghost use Rattle.pytree_node.specs.declared.profiles.Extent.TheVariants.{Whole};
ghost use Rattle.pytoken.specs.declared.values.terminals.TerminalFault.TheVariants as faults;
ghost use Rattle.pytoken.specs.Escapes.{escape_fault};
ghost use Rattle.pytoken.specs.StringValues.{nul_fault};
ghost use Rattle.pytoken.specs.FormattedStrings.{is_fstring, is_bulky, element_meanings};
ghost use Rattle.pytoken.specs.Terminals.{terminal_of, single_fault};
ghost use Rattle.pytoken.specs.TerminalOf.{terminal};
ghost use Rattle.pytoken.specs.Inner.Pushing.{element_of, Grows, TellsMalformed};
ghost use Rattle.pytoken.specs.Inner.Pushing.{is_named_fault, first_escape_fault, fault_around};

use crate::TokenError;
use crate::values::bodies::has_bulk;
use crate::values::characters::Characters;
use crate::values::elements::Element;
use crate::values::faults::has_nul;
use crate::values::strings::is_marked;
use crate::values::terminals::{Terminal, TerminalFault, terminal_of};
use pyfstring_tokens::Class;
use pylex_listing::Kind;
use pytree_node::Extent;
use std::alloc::{AllocError, Global};

/// Whether a token is an f-string.
///
/// Python language reference, 2.4.3 "Formatted string literals".
#[inline(always)]
pub fn is_fstring(kind: Kind, text: &str) -> bool
    ensures { result ≡ is_fstring kind (chars text.now) }
{
    match kind {
        Kind::String => is_marked(&Characters::new(text), 'f', 'F'),
        _ => false,
    }
}

/// Whether a token is a string with a quote or a line feed in its body.
pub(crate) fn is_bulky(kind: Kind, text: &str) -> bool
    ensures { result ≡ is_bulky kind (chars text.now) }
{
    match kind {
        Kind::String => has_bulk(text),
        _ => false,
    }
}

/// The type of a token in a field.
pub(crate) fn kind_of(class: Class) -> Kind
    ensures { result ≡ kind_of class true }
{
    match class {
        Class::Name => Kind::Name,
        Class::Number => Kind::Number,
        Class::String => Kind::String,
        Class::Operator(_) => Kind::Op,
        Class::Comment => Kind::Comment,
        Class::Blanks | Class::LineEnd | Class::Join => Kind::Nl,
    }
}

/// Whether a fault is `\N`.
fn is_named(fault: Option<TokenError>) -> bool
    ensures { result ≡ is_named_fault fault }
{
    matches!(fault, Some(TokenError::NamedEscape))
}

/// The first fault of the escapes in two texts, by those of each.
fn first_fault(fault: Option<TokenError>, other: Option<TokenError>) -> Option<TokenError>
    ensures { result ≡ first_escape_fault fault other }
{
    if is_named(fault) {
        return fault;
    }
    other.or(fault)
}

/// The first fault of the escapes in an element.
#[tactic(auto, unfolding(crate::specs::Escapes::escape_fault))]
fn element_fault(alloc: Global, element: &Element) -> Result<Option<TokenError>, AllocError>
    ensures { IfOk result (λ fault.
        fault ≡ escape_fault (element_meanings (element_of element.now))) }
{
    match element {
        Element::Text(piece) => piece.fault(alloc),
        Element::Field(_, _) | Element::Spec | Element::End => Ok(None),
    }
}

/// The first fault of the escapes in the texts of an f-string.
fn texts_fault(alloc: Global, elements: &[Element]) -> Result<Option<TokenError>, AllocError>
    ensures { IfOk result (λ fault.
        fault ≡ escape_fault (flat_map element_meanings (map element_of elements.now))) }
{
    let mut fault = None;
    'elements: for element in elements {
        fault = first_fault(fault, element_fault(alloc, element)?);
    }
    Ok(fault)
}

/// The fault of an f-string whose fields have none.
pub(crate) fn own_fault(
    alloc: Global,
    text: &str,
    elements: &[Element],
) -> Result<Option<TokenError>, AllocError>
    ensures { IfOk result (λ fault. fault ≡ option_or
        (escape_fault (flat_map element_meanings (map element_of elements.now)))
        (nul_fault (chars text.now))) }
{
    if let Some(error) = texts_fault(alloc, elements)? {
        return Ok(Some(error));
    }
    if has_nul(text) {
        return Ok(Some(TokenError::Nul));
    }
    Ok(None)
}

/// What is told of a token with a fault in a field: the f-string around it is malformed.
pub(crate) fn as_malformed(fault: TerminalFault) -> TerminalFault
    ensures { result ≡ fault_around fault }
{
    match fault {
        TerminalFault::Token(_) => TerminalFault::Token(TokenError::FString),
        TerminalFault::Memory => TerminalFault::Memory,
    }
}

/// Appends one terminal.
#[inline(always)]
pub(crate) fn push<'a>(out: &mut Vec<Terminal<'a>>, made: Terminal<'a>) -> Result<(), TerminalFault>
    ensures terminals { OnOk result
        (Grows terminal out.old.items out.new.items (terminal made.entry ∷ [])) }
    ensures refused { IfErr result (λ e. e ≡ faults.Memory) }
{
    match out.push(made) {
        Ok(()) => Ok(()),
        Err(_) => Err(TerminalFault::Memory),
    }
}

/// Appends a token of an expression that is no f-string.
pub(crate) fn push_single<'a>(
    alloc: Global,
    kind: Kind,
    text: &'a str,
    out: &mut Vec<Terminal<'a>>,
) -> Result<(), TerminalFault>
    ensures terminals { OnOk result (Grows terminal out.old.items out.new.items
        (terminal_of kind (chars text.now) ∷ [])) }
    ensures sound { OnOk result (single_fault Whole kind (chars text.now) ≡ None) }
    ensures refused { IfErr result
        (TellsMalformed (is_some (single_fault Whole kind (chars text.now)))) }
{
    match terminal_of(alloc, Extent::Whole, kind, text) {
        Ok(made) => push(out, made),
        Err(fault) => Err(as_malformed(fault)),
    }
}
