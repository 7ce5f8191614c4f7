//! The terminals that a token of any type is, and what may be wrong with it by itself.

ghost use Rattle.std.specs.Prelude.{◌≡◌, ◌++◌, false, map, IfOk, IfErr, OnOk, None};
ghost use Rattle.std.specs.Str.{chars};
ghost use Rattle.pytoken.specs.FormattedStrings.{elements_of, elements_fault};
ghost use Rattle.pytoken.specs.Terminals.{is_faulty, terminals_of, fault_of};
ghost use Rattle.pytoken.specs.TerminalOf.{terminal, Tells};

use crate::TokenError;
use crate::values::faults::single_fault;
use crate::values::formatted::{is_fstring, push};
use crate::values::outer::push_formatted;
use crate::values::terminals::{Terminal, TerminalFault, terminal_of};
use pylex_listing::Kind;
use pytree_node::Extent;
use std::alloc::{AllocError, Global};

/// Appends the terminals that a token of this type and text is in an extent of the language: one, but
/// for an f-string.
///
/// # Errors
///
/// [`TerminalFault::Token`] by the fault that the token is by itself in this extent. What was
/// appended then, or where memory ran out, is not said.
pub fn push_terminals<'a>(
    alloc: Global,
    extent: Extent,
    kind: Kind,
    text: &'a str,
    out: &mut Vec<Terminal<'a>>,
) -> Result<(), TerminalFault>
    ensures terminals { OnOk result (map terminal out.new.items
        ≡ map terminal out.old.items ++ terminals_of kind (chars text.now)) }
    ensures sound { OnOk result (fault_of extent kind (chars text.now) ≡ None) }
    ensures refused { IfErr result (Tells (fault_of extent kind (chars text.now))) }
{
    if !is_fstring(kind, text) {
        return push(out, terminal_of(alloc, extent, kind, text)?);
    }
    match extent {
        Extent::Plain => Err(TerminalFault::Token(TokenError::FString)),
        Extent::Whole => push_formatted(alloc, text, out),
    }
}

/// The fault that an f-string is by itself in the whole language.
pub(crate) fn formatted_fault(alloc: Global, text: &str) -> Result<Option<TokenError>, AllocError>
    ensures { IfOk result (λ fault. fault ≡ elements_fault is_faulty (chars text.now)
        (elements_of false (chars text.now))) }
{
    let mut out = Vec::new(alloc);
    match push_formatted(alloc, text, &mut out) {
        Ok(()) => Ok(None),
        Err(TerminalFault::Token(error)) => Ok(Some(error)),
        Err(TerminalFault::Memory) => Err(AllocError),
    }
}

/// The fault that an entry of this type and text is by itself in an extent of the language: a token
/// or a comment.
#[inline(always)]
pub fn token_fault(
    alloc: Global,
    extent: Extent,
    kind: Kind,
    text: &str,
) -> Result<Option<TokenError>, AllocError>
    ensures { IfOk result (λ fault. fault ≡ fault_of extent kind (chars text.now)) }
{
    if !is_fstring(kind, text) {
        return single_fault(alloc, extent, kind, text);
    }
    match extent {
        Extent::Plain => Ok(Some(TokenError::FString)),
        Extent::Whole => formatted_fault(alloc, text),
    }
}
