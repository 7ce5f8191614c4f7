//! What may be wrong with a token by itself, by its type.

ghost use Rattle.std.specs.Prelude.{◌≡◌, ◌==◌, IfOk};
ghost use Rattle.std.specs.List.{list_any};
ghost use Rattle.std.specs.Str.{chars};
ghost use Rattle.pytoken.specs.StringValues.{nul_fault};
ghost use Rattle.pytoken.specs.Terminals.{single_fault};

use crate::TokenError;
use crate::values::names::name_fault;
use crate::values::numbers::number_fault;
use crate::values::strings::{are_plain, string_fault};
use pylex_listing::Kind;
use pytree_node::Extent;
use std::alloc::{AllocError, Global};

/// Whether U+0000 stands in a text.
pub(crate) fn has_nul(text: &str) -> bool
    ensures { result ≡ list_any (λ c. c == 0) (chars text.now) }
{
    for c in text.chars() {
        if c == '\0' {
            return true;
        }
    }
    false
}

/// The fault of a comment.
pub(crate) fn comment_fault(text: &str) -> Option<TokenError>
    ensures { result ≡ nul_fault (chars text.now) }
{
    if are_plain(text) {
        return None;
    }
    if has_nul(text) {
        Some(TokenError::Nul)
    } else {
        None
    }
}

/// The fault of an entry that is no f-string.
#[inline(always)]
pub(crate) fn single_fault(
    alloc: Global,
    extent: Extent,
    kind: Kind,
    text: &str,
) -> Result<Option<TokenError>, AllocError>
    ensures { IfOk result (λ fault. fault ≡ single_fault extent kind (chars text.now)) }
{
    match kind {
        Kind::Name => name_fault(alloc, text),
        Kind::Number => number_fault(alloc, extent, text),
        Kind::String => Ok(string_fault(text)),
        Kind::Comment => Ok(comment_fault(text)),
        _ => Ok(None),
    }
}
