//! Where a statement `type` begins.
//!
//! Python language reference, 2.3.2 "Soft Keywords" and 7.14 "The `type` statement".

ghost use Rattle.std.specs.Prelude.{◌≡◌, ◌<◌, MatchOption, is_some, length};
ghost use Rattle.std.specs.Str.{bytes_eq, chars};
ghost use Rattle.unicode_normalization.specs.Forms.{nfkc};
ghost use Rattle.pygrammar.specs.Forms.{type_name};
ghost use Rattle.pygrammar.specs.LineReader as reader;
ghost use Rattle.pyparse_nodes.specs.Views.{first_is, seen};
ghost use Rattle.pytree_node.specs.Profiles.{plain_312};
ghost use Rattle.pytoken.specs.TerminalOf.{terminal};
ghost use Rattle.pyparse_statement.specs.Inner.Types.{HasNoTypeName, HasTypeName};

use pyparse_nodes::{name_at, terminal_at};
use pytoken::Terminal;
use pytree_node::{Profile, Version};

/// Whether a text is `type`.
fn spells_type(text: &str) -> bool
    ensures { result ≡ bytes_eq (chars text.now) type_name }
{
    text == "type"
}

/// Whether a terminal is a NAME that is spelled `type`.
fn type_is(t: Terminal) -> bool
    ensures { result ≡ is_some (reader.is_type (terminal t.entry)) }
{
    match t {
        Terminal::Ident(text) => spells_type(text),
        _ => false,
    }
}

/// Whether a NAME that is spelled `type` stands at the place.
fn is_type(tokens: &[Terminal], at: usize) -> bool
    ensures { result ≡ is_some (first_is reader.is_type (seen tokens.now at)) }
{
    match terminal_at(tokens, at) {
        Some(t) => type_is(t),
        None => false,
    }
}

/// The name that a statement `type` at the place gives a type, in a version that has types.
#[tactic(auto, using(crate::proofs::statements::TypeNameSteps::type_found, crate::proofs::statements::TypeNameSteps::type_other, crate::proofs::statements::TypeNameSteps::type_alone))]
fn named_type<'a>(tokens: &[Terminal<'a>], at: usize) -> Option<&'a str>
    ensures { MatchOption result (HasNoTypeName plain_312 tokens.now at)
        (λ name. HasTypeName plain_312 (nfkc (chars name.now)) tokens.now at) }
{
    if !is_type(tokens, at) {
        return None;
    }
    match name_at(tokens, at + 1) {
        Some(name) => Some(name),
        None => None,
    }
}

/// The name that a statement `type` at the place gives a type.
#[tactic(auto, using(crate::proofs::statements::TypeNameSteps::no_types, crate::proofs::statements::TypeNameSteps::newer_name, crate::proofs::statements::TypeNameSteps::newer_none))]
pub(crate) fn type_name_at<'a>(
    tokens: &[Terminal<'a>],
    at: usize,
    profile: Profile,
) -> Option<&'a str>
    ensures { MatchOption result (HasNoTypeName profile tokens.now at)
        (λ name. HasTypeName profile (nfkc (chars name.now)) tokens.now at) }
{
    match profile.version {
        Version::Py311 => None,
        Version::Py312 => named_type(tokens, at),
    }
}
