//! The values of names, and what may be wrong with them.
//!
//! Python language reference, 2.3 "Identifiers and keywords".

ghost use Rattle.std.specs.Prelude.{◌≡◌, IsTrue, IfOk, string_bytes};
ghost use Rattle.std.specs.Str.{chars, encode_utf8_all};
ghost use Rattle.unicode_normalization.specs.Forms.{nfkc};
ghost use Rattle.pytoken.specs.NameValues.{name_fault, form_fault};
ghost use Rattle.pytoken.specs.Inner.Readings.{AreLow};

use crate::values::clear_bytes::are_clear;
use crate::{Keyword, TokenError, is_identifier};
use pytree_node::Identifier;
use std::alloc::{AllocError, Global};
use unicode_normalization::{is_nfkc, to_nfkc};

/// The form in which a name stands in the tree, NFKC.
pub fn name_value(alloc: Global, text: &str) -> Result<String, AllocError>
    ensures { IfOk result (λ name. string_bytes name ≡ encode_utf8_all (nfkc (chars text.now))) }
{
    to_nfkc(alloc, text)
}

/// The fault of a name, by a form that differs from it.
fn form_fault(alloc: Global, form: &str) -> Result<Option<TokenError>, AllocError>
    ensures { IfOk result (λ fault. fault ≡ form_fault (chars form.now)) }
{
    if Keyword::of(form).is_some() {
        return Ok(Some(TokenError::NameForm));
    }
    if !is_identifier(form) {
        return Ok(Some(TokenError::NameForm));
    }
    let own = is_nfkc(alloc, form)?;
    if own {
        return Ok(None);
    }
    Ok(Some(TokenError::NameForm))
}

/// Whether a text is ASCII alone, and so its own form.
#[inline(always)]
fn is_ascii(text: &str) -> bool
    ensures { IsTrue result → AreLow text.now }
{
    // No byte of ASCII is left out: 0xFF is none.
    are_clear(text.as_bytes(), 0xFF, 0xFF)
}

/// The name of a tree that a text stands for, by its form.
#[cold]
#[inline(never)]
fn identifier_by_form(alloc: Global, text: &str) -> Result<Identifier, AllocError>
    ensures { IfOk result (λ name. name ≡ nfkc (chars text.now)) }
{
    let form = name_value(alloc, text)?;
    Identifier::new(alloc, form.as_str())
}

/// The name of a tree that a text stands for: its form NFKC, which of ASCII is the text itself.
#[inline(always)]
pub fn identifier_value(alloc: Global, text: &str) -> Result<Identifier, AllocError>
    ensures { IfOk result (λ name. name ≡ nfkc (chars text.now)) }
{
    if is_ascii(text) {
        return Identifier::new(alloc, text);
    }
    identifier_by_form(alloc, text)
}

/// The fault of a name, by its form.
#[cold]
#[inline(never)]
fn fault_by_form(alloc: Global, text: &str) -> Result<Option<TokenError>, AllocError>
    ensures { IfOk result (λ fault. fault ≡ name_fault (chars text.now)) }
{
    let own = is_nfkc(alloc, text)?;
    if own {
        return Ok(None);
    }
    let form = to_nfkc(alloc, text)?;
    form_fault(alloc, form.as_str())
}

/// The fault that a name has by itself, if it has one.
#[inline(always)]
pub fn name_fault(alloc: Global, text: &str) -> Result<Option<TokenError>, AllocError>
    ensures { IfOk result (λ fault. fault ≡ name_fault (chars text.now)) }
{
    if is_ascii(text) {
        return Ok(None);
    }
    fault_by_form(alloc, text)
}
