//! Keywords, and the names of a well-formed tree (language reference, 2.3).

ghost use Rattle.std.specs.Prelude.{◌≡◌, IfOk};
ghost use Rattle.std.specs.List.{list_all};
ghost use Rattle.std.specs.Str.{chars};
ghost use Rattle.pytree_fits.specs.Names.{is_keyword, is_name};

use pytoken::{Keyword, is_identifier};
use pytree_node::Identifier;
use std::alloc::{AllocError, Global};
use unicode_normalization::is_nfkc;

/// Whether a text is one of the 35 keywords of Python 3.11.
pub fn is_keyword(text: &str) -> bool
    ensures { result ≡ is_keyword (chars text.now) }
{
    Keyword::of(text).is_some()
}

/// Whether a text is a name that a well-formed tree may hold: an identifier that is no keyword and
/// is its own form NFKC, as the names of a tree that Python makes are.
pub fn is_name(alloc: Global, text: &str) -> Result<bool, AllocError>
    ensures { IfOk result (λ told. told ≡ is_name (chars text.now)) }
{
    if !is_identifier(text) {
        return Ok(false);
    }
    if is_keyword(text) {
        return Ok(false);
    }
    is_nfkc(alloc, text)
}

/// Whether each of some names is a name that a well-formed tree may hold.
pub(crate) fn are_names(alloc: Global, names: &[Identifier]) -> Result<bool, AllocError>
    ensures { IfOk result (λ told. told ≡ list_all is_name names.now) }
{
    for name in names {
        if !is_name(alloc, name.as_str())? {
            return Ok(false);
        }
    }
    Ok(true)
}
