//! What the tokens of a list are to the grammar, and where the list begins.

ghost use Rattle.std.specs.Prelude.{◌≡◌, ◌++◌, map, IfOk, IfErr, OnOk, None};
ghost use Rattle.pytoken.specs.TerminalOf.{terminal};
ghost use Rattle.pyparse_tokens.specs.Answers.{Tells};
ghost use Rattle.pyparse.specs.TokenLists.{first_place, first_refusal, terminals};
ghost use Rattle.pyparse.specs.TokenLists.{token_terminals, token_refusal};

use pyparse_tokens::{ParseFault, Token};
use pysource::Place;
use pytoken::{Refusal, Terminal, TerminalFault, push_terminals};
use pytree_node::Extent;
use std::alloc::Global;

/// Appends what a token is to the grammar in the whole language.
fn push_token<'a>(
    alloc: Global,
    token: Token<'a>,
    made: &mut Vec<Terminal<'a>>,
) -> Result<(), ParseFault>
    ensures terminals { OnOk result
        (map terminal made.new.items ≡ map terminal made.old.items ++ token_terminals token.entry) }
    ensures sound { OnOk result (token_refusal token.entry ≡ None) }
    ensures refused { IfErr result (Tells (token_refusal token.entry)) }
{
    match push_terminals(alloc, Extent::Whole, token.kind, token.text, made) {
        Ok(()) => Ok(()),
        Err(TerminalFault::Token(error)) => {
            Err(ParseFault::Refused(Refusal::Token(error, token.start)))
        }
        Err(TerminalFault::Memory) => Err(ParseFault::Memory),
    }
}

/// What tokens are to the grammar in the whole language.
pub(crate) fn terminals_of<'a>(
    alloc: Global,
    tokens: &[Token<'a>],
) -> Result<Vec<Terminal<'a>>, ParseFault>
    ensures terminals { IfOk result (λ made. map terminal made.items ≡ terminals tokens.now) }
    ensures sound { OnOk result (first_refusal tokens.now ≡ None) }
    ensures refused { IfErr result (Tells (first_refusal tokens.now)) }
{
    let mut made = Vec::with_capacity(alloc, tokens.len())?;
    for token in tokens {
        push_token(alloc, *token, &mut made)?;
    }
    Ok(made)
}

/// Where the first of some tokens starts; where there is none, where a source does.
pub(crate) fn first_place(tokens: &[Token<'_>]) -> Place
    ensures { result ≡ first_place tokens.now }
{
    match tokens.first() {
        Some(token) => token.start,
        None => Place { row: 1, column: 0 },
    }
}
