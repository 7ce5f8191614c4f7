//! A pattern of a list of tokens.
//!
//! Python language reference, 8.6.4 "Patterns".

ghost use Rattle.std.specs.Prelude.{◌≡◌, IfOk, IfErr, None};
ghost use Rattle.pyparse_pattern.specs.Patterns.{IsPattern};
ghost use Rattle.pygrammar.specs.PatternLaws.{PatternsAreLawful};
ghost use Rattle.pytree_node.specs.TreeOf.{pattern_of};
ghost use Rattle.pyparse.specs.TokenLists.{first_refusal, terminals};
ghost use Rattle.pyparse.specs.Patterns.{RefusesPattern};

use crate::token_lists::{first_place, terminals_of};
use pygrammar::PatternLevel;
use pyparse_expr::Expressions;
use pyparse_nodes::Stop;
use pyparse_pattern::read_whole_pattern;
use pyparse_tokens::{GrammarError, ParseFault, Token};
use pyplaces::Ignored;
use pytree_node::Pattern;
use std::alloc::Global;

/// The pattern of a level that all of some tokens are, as the grammar derives it. At most 500 nodes
/// are nested.
///
/// # Errors
///
/// [`ParseFault::Refused`] by the first token that is faulty by itself in the whole language; those
/// of [`tokens_of`](crate::tokens_of) never are, in either extent. [`ParseFault::Grammar`] where
/// they are no pattern of the level, or only a higher one; of 500 tokens or more that are none at
/// all either may be reported, an f-string being counted as two and the tokens of its fields. It
/// stands at the first token, and at 1,0 where there is none.
#[tactic(auto, using(pygrammar::proofs::Callers::PatternLaw::patterns_are_lawful))]
pub fn parse_pattern(
    alloc: Global,
    tokens: &[Token<'_>],
    level: PatternLevel,
) -> Result<Pattern, ParseFault>
    ensures pattern { IfOk result
        (λ p. (first_refusal tokens.now ≡ None)
        × IsPattern level (terminals tokens.now) (pattern_of p)) }
    ensures refused { IfErr result (RefusesPattern level tokens.now) }
    ensures lawful { PatternsAreLawful }
{
    let made = terminals_of(alloc, tokens)?;
    match read_whole_pattern::<Expressions, Ignored>(alloc, made.as_slice(), level, &mut Ignored) {
        Ok(pattern) => Ok(Box::into_inner(pattern)),
        Err(Stop::NoForm) => Err(ParseFault::Grammar(GrammarError::Syntax, first_place(tokens))),
        Err(Stop::TooDeep) => Err(ParseFault::Grammar(GrammarError::TooDeep, first_place(tokens))),
        Err(Stop::Memory) => Err(ParseFault::Memory),
    }
}
