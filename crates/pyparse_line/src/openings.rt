//! What begins a line.

ghost use Rattle.std.specs.Prelude.{◌≡◌, Some};
ghost use Rattle.std.specs.Str.{chars};
ghost use Rattle.pytoken.specs.TerminalOf.{terminal};
ghost use Rattle.pyparse_nodes.specs.Views.{first_of, seen};
ghost use Rattle.pyparse_line.specs.Inner.Openings.{name_of, opening_at, terminal_opening};
ghost use Rattle.pyparse_line.specs.Inner.Openings.{word_opening};

use crate::cases::is_case_line;
use crate::matches::is_match_line;
use pylex_listing::Exact;
use pytoken::{Keyword, Terminal};
use pytree_node::{Extent, Profile};

/// What begins a line.
#[derive(Clone, Copy)]
pub(crate) enum Opening {
    /// The line is a decorator.
    Decorates,
    /// A header that begins with a keyword.
    Heads,
    /// The line is the header of a `match`.
    Matches,
    /// The header of a case.
    Cases,
    /// It is simple statements.
    States,
}

/// What a word says.
fn opening_of_word(word: Keyword) -> Opening
    ensures { result ≡ word_opening word }
{
    match word {
        Keyword::If => Opening::Heads,
        Keyword::Elif => Opening::Heads,
        Keyword::Else => Opening::Heads,
        Keyword::While => Opening::Heads,
        Keyword::For => Opening::Heads,
        Keyword::With => Opening::Heads,
        Keyword::Try => Opening::Heads,
        Keyword::Finally => Opening::Heads,
        Keyword::Except => Opening::Heads,
        Keyword::Def => Opening::Heads,
        Keyword::Class => Opening::Heads,
        Keyword::Async => Opening::Heads,
        _ => Opening::States,
    }
}

/// What a terminal says, of a line that is no header of a `match` or a case.
fn opening_of_terminal(t: Terminal) -> Opening
    ensures { result ≡ terminal_opening (terminal t.entry) }
{
    match t {
        Terminal::Op(Exact::At) => Opening::Decorates,
        Terminal::Word(word) => opening_of_word(word),
        _ => Opening::States,
    }
}

/// What a NAME says of the line that it begins.
#[tactic(auto, using(crate::proofs::OpeningSteps::plain_opens, crate::proofs::OpeningSteps::case_opens, crate::proofs::OpeningSteps::match_opens, crate::proofs::OpeningSteps::other_opens))]
fn opening_of_name(tokens: &[Terminal], name: &str, profile: Profile, inside: bool) -> Opening
    requires { first_of (seen tokens.now 0) ≡ Some (name_of (chars name.now)) }
    ensures { result ≡ opening_at profile inside (seen tokens.now 0) }
{
    match profile.extent {
        Extent::Plain => Opening::States,
        Extent::Whole => if is_case_line(name, inside) {
            Opening::Cases
        } else if is_match_line(tokens, name) {
            Opening::Matches
        } else {
            Opening::States
        },
    }
}

/// What the first terminal of a line at its place says.
pub(crate) fn opening_of(
    tokens: &[Terminal],
    first: Terminal,
    profile: Profile,
    inside: bool,
) -> Opening
    requires { first_of (seen tokens.now 0) ≡ Some (terminal first) }
    ensures { result ≡ opening_at profile inside (seen tokens.now 0) }
{
    match first {
        Terminal::Ident(name) => opening_of_name(tokens, name, profile, inside),
        _ => opening_of_terminal(first),
    }
}
