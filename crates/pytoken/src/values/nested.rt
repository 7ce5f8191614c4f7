//! The terminals of f-strings that stand in a field themselves.
//!
//! Python language reference, 2.4.3 "Formatted string literals".

ghost use Rattle.std.specs.Prelude.{◌≡◌, true, false, map, IfErr, OnOk, None};
ghost use Rattle.std.specs.List.{flat_map, list_any};
ghost use Rattle.std.specs.Str.{chars};
ghost use Rattle.pytoken.specs.FormattedStrings.{is_field_of, elements_of, elements_fault};
ghost use Rattle.pytoken.specs.Terminals.{element_terminals, elements_terminals};
ghost use Rattle.pytoken.specs.Terminals.{nested_expression, is_nested_faulty};
ghost use Rattle.pytoken.specs.TerminalOf.{terminal, Tells};
ghost use Rattle.pytoken.specs.Inner.Pushing.{element_of, Grows, TellsMalformed};

use crate::TokenError;
use crate::values::elements::{Element, elements};
use crate::values::formatted::{kind_of, own_fault, push, push_single};
use crate::values::terminals::{Terminal, TerminalFault};
use pyfstring_tokens::FieldTokens;
use pylex_listing::Exact;
use std::alloc::Global;

/// Appends what the expression of a field is, in an f-string that stands in a field itself.
fn push_nested_expression<'a>(
    alloc: Global,
    text: &'a str,
    out: &mut Vec<Terminal<'a>>,
) -> Result<(), TerminalFault>
    ensures terminals { OnOk result
        (Grows terminal out.old.items out.new.items (nested_expression (chars text.now))) }
    ensures sound { OnOk result (is_nested_faulty (chars text.now) ≡ false) }
    ensures refused { IfErr result (TellsMalformed (is_nested_faulty (chars text.now))) }
{
    push(out, Terminal::Op(Exact::LPar))?;
    let mut tokens = FieldTokens::new(text);
    'tokens: loop {
        match tokens.next() {
            Ok(Some((class, token))) => push_single(alloc, kind_of(class), token, out)?,
            Ok(None) => return push(out, Terminal::Op(Exact::RPar)),
            Err(_) => return Err(TerminalFault::Token(TokenError::FString)),
        }
    }
}

/// Appends what an element is, of an f-string that stands in a field itself.
fn push_nested_element<'a>(
    alloc: Global,
    element: Element<'a>,
    out: &mut Vec<Terminal<'a>>,
) -> Result<(), TerminalFault>
    ensures terminals { OnOk result (Grows terminal out.old.items out.new.items
        (element_terminals nested_expression (element_of element.entry))) }
    ensures sound { OnOk result (is_field_of is_nested_faulty (element_of element.entry) ≡ false) }
    ensures refused { IfErr result
        (TellsMalformed (is_field_of is_nested_faulty (element_of element.entry))) }
{
    match element {
        Element::Text(piece) => push(out, Terminal::FormattedText(piece)),
        Element::Field(conversion, text) => {
            push(out, Terminal::FieldBegin(conversion))?;
            push_nested_expression(alloc, text, out)
        }
        Element::Spec => push(out, Terminal::SpecBegin),
        Element::End => push(out, Terminal::FieldEnd),
    }
}

/// Appends what elements are, of an f-string that stands in a field itself.
fn push_nested_elements<'a>(
    alloc: Global,
    elements: &[Element<'a>],
    out: &mut Vec<Terminal<'a>>,
) -> Result<(), TerminalFault>
    ensures terminals { OnOk result (Grows terminal out.old.items out.new.items
        (flat_map (element_terminals nested_expression) (map element_of elements.now))) }
    ensures sound { OnOk result
        (list_any (is_field_of is_nested_faulty) (map element_of elements.now) ≡ false) }
    ensures refused { IfErr result (TellsMalformed
        (list_any (is_field_of is_nested_faulty) (map element_of elements.now))) }
{
    'elements: for element in elements {
        push_nested_element(alloc, *element, out)?;
    }
    Ok(())
}

/// Appends what an f-string is that stands in a field itself.
pub(crate) fn push_nested<'a>(
    alloc: Global,
    text: &'a str,
    out: &mut Vec<Terminal<'a>>,
) -> Result<(), TerminalFault>
    ensures terminals { OnOk result (Grows terminal out.old.items out.new.items
        (elements_terminals nested_expression (elements_of true (chars text.now)))) }
    ensures sound { OnOk result (elements_fault is_nested_faulty (chars text.now)
        (elements_of true (chars text.now)) ≡ None) }
    ensures refused { IfErr result (Tells (elements_fault is_nested_faulty (chars text.now)
        (elements_of true (chars text.now)))) }
{
    let elements = elements(alloc, text, true)?;
    push(out, Terminal::FormattedBegin)?;
    push_nested_elements(alloc, &elements, out)?;
    push(out, Terminal::FormattedEnd)?;
    match own_fault(alloc, text, &elements)? {
        Some(error) => Err(TerminalFault::Token(error)),
        None => Ok(()),
    }
}
