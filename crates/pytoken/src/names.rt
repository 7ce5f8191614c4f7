//! The texts that are names.
//!
//! Python language reference, 2.3 "Identifiers and keywords".

ghost use Rattle.std.specs.Prelude.{◌≡◌, ◌&&◌};
ghost use Rattle.std.specs.Str.{chars};
ghost use Rattle.std.specs.List.{list_all};
ghost use Rattle.unicode_ident.specs.Ident.{is_xid_continue};
ghost use Rattle.pylex_lexeme.specs.Chars.{starts_name};
ghost use Rattle.pylex_lexeme.specs.Lexemes.{is_name};

use unicode_ident::{is_xid_continue, is_xid_start};

/// Whether an identifier may begin with a character.
fn starts_name(c: char) -> bool
    ensures { result ≡ starts_name c }
{
    is_xid_start(c) || c == '_'
}

/// Whether a text is an identifier, be it a keyword or not (2.3).
pub fn is_identifier(text: &str) -> bool
    ensures { result ≡ is_name (chars text.now) }
{
    let mut left = text.chars();
    let Some(first) = left.next() else {
        return false;
    };
    is_spelled(first, left.as_str())
}

/// Whether a character and the text after it are an identifier.
fn is_spelled(first: char, following: &str) -> bool
    ensures { result ≡ (starts_name first && list_all is_xid_continue (chars following.now)) }
{
    starts_name(first) && goes_on(following)
}

/// Whether an identifier may continue with each character of a text.
fn goes_on(text: &str) -> bool
    ensures { result ≡ list_all is_xid_continue (chars text.now) }
{
    for c in text.chars() {
        if !is_xid_continue(c) {
            return false;
        }
    }
    true
}
