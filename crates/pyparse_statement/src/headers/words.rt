//! The word at a place.

ghost use Rattle.std.specs.Prelude.{◌≡◌, ◌<◌, MatchOption, None, length};
ghost use Rattle.pytoken.specs.Terminals as plain;
ghost use Rattle.pytoken.specs.TerminalOf.{terminal};
ghost use Rattle.pyparse_nodes.specs.Views.{Stands, first_is, seen};
ghost use Rattle.pyparse_statement.specs.Inner.Words.{word_in};

use pyparse_nodes::terminal_at;
use pytoken::{Keyword, Terminal};

/// The word that a terminal is.
fn word_of(t: Terminal) -> Option<Keyword>
    ensures { result ≡ word_in (terminal t.entry) }
{
    match t {
        Terminal::Word(word) => Some(word),
        _ => None,
    }
}

/// The word at the place.
pub(crate) fn word_at(tokens: &[Terminal], at: usize) -> Option<Keyword>
    ensures { MatchOption result (None ≡ first_is word_in (seen tokens.now at))
        (λ word. Stands (plain.Word word) tokens.now at) }
{
    match terminal_at(tokens, at) {
        Some(t) => word_of(t),
        None => None,
    }
}
