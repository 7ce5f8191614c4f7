//! An expression of a list of tokens.
//!
//! Python language reference, 6 "Expressions".

ghost use Rattle.std.specs.Prelude.{◌≡◌, IfOk, IfErr, None};
ghost use Rattle.pyparse_expr.specs.Expressions.{IsExpression};
ghost use Rattle.pygrammar.specs.Laws.{GrammarIsLawful};
ghost use Rattle.pytree_node.specs.TreeOf.{tree_of};
ghost use Rattle.pyparse.specs.TokenLists.{first_refusal, terminals};
ghost use Rattle.pyparse.specs.Expressions.{Refuses};

use crate::token_lists::{first_place, terminals_of};
use pygrammar::Level;
use pyparse_expr::read_whole;
use pyparse_nodes::Stop;
use pyparse_tokens::{GrammarError, ParseFault, Token};
use pyplaces::Ignored;
use pytree_node::Expr;
use std::alloc::Global;

/// The expression of a level that all of some tokens are, as the grammar derives it. At most 500
/// nodes are nested.
///
/// # Errors
///
/// [`ParseFault::Refused`] by the first token that is faulty by itself in the whole language; those
/// of [`tokens_of`](crate::tokens_of) never are, in either extent. [`ParseFault::Grammar`] where
/// they are no expression of the level, or only a higher one; of more than 500 tokens that are none
/// at all either may be reported, an f-string being counted as two and the tokens of its fields. It
/// stands at the first token, and at 1,0 where there is none.
#[tactic(auto, using(pygrammar::proofs::Callers::Law::grammar_is_lawful))]
pub fn parse_expression(
    alloc: Global,
    tokens: &[Token<'_>],
    level: Level,
) -> Result<Expr, ParseFault>
    ensures expression { IfOk result
        (λ e. (first_refusal tokens.now ≡ None)
        × IsExpression level (terminals tokens.now) (tree_of e)) }
    ensures refused { IfErr result (Refuses level tokens.now) }
    ensures lawful { GrammarIsLawful }
{
    let made = terminals_of(alloc, tokens)?;
    match read_whole(alloc, made.as_slice(), level, &mut Ignored) {
        Ok(expr) => Ok(Box::into_inner(expr)),
        Err(Stop::NoForm) => Err(ParseFault::Grammar(GrammarError::Syntax, first_place(tokens))),
        Err(Stop::TooDeep) => Err(ParseFault::Grammar(GrammarError::TooDeep, first_place(tokens))),
        Err(Stop::Memory) => Err(ParseFault::Memory),
    }
}
