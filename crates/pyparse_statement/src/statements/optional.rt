//! Expressions that may be left out.

ghost use Rattle.std.specs.Prelude.{◌≡◌, ◌+◌, ◌<◌, ◌≤◌, None, Some, length, true};
ghost use Rattle.pytree_node.specs.TreeOf.{boxed_of, option_of, tree_of};
ghost use Rattle.pytoken.specs.Terminals as tokens_of;
ghost use Rattle.pygrammar.specs.Entries as entries;
ghost use Rattle.pygrammar.specs.LineReader as line;
ghost use Rattle.pygrammar.specs.Precedence as precedence;
ghost use Rattle.pyparse_nodes.specs.Answers.{PartAnswered};
ghost use Rattle.pyparse_reads.specs.Readings.{reads};
ghost use Rattle.pyparse_nodes.specs.Views.{seen};
ghost use Rattle.std.specs.Prelude.{IfOk};
ghost use Rattle.pyparse_statement.specs.PlacedParts.{AfterPlaced, OptionalPlaced};

use pygrammar::Level;
use pylex_listing::Exact;
use pyparse_nodes::{Optional, Read, Stop, is_op, is_word, lead_at};
use pyparse_reads::{Depth, ReadsExpressions};
use pyplaces::Recorder;
use pytoken::{Keyword, Terminal};
use pytree_node::Expr;
use std::alloc::Global;

/// No expression, at a place.
fn none_at(next: usize) -> Optional
    ensures expr { boxed_of result.expr ≡ None }
    ensures next { result.next ≡ next }
{
    Optional {
        expr: None,
        height: 0,
        next,
    }
}

/// An expression that was read.
fn one(e: Read) -> Optional
    ensures expr { boxed_of result.expr ≡ Some (tree_of e.expr.value) }
    ensures next { result.next ≡ e.next }
{
    Optional {
        expr: Some(e.expr),
        height: e.height,
        next: e.next,
    }
}

/// The same expression, with no box.
pub(crate) fn unboxed(e: Option<Box<Expr>>) -> Option<Expr>
    ensures { option_of result ≡ boxed_of e }
{
    match e {
        Some(e) => Some(Box::into_inner(e)),
        None => None,
    }
}

/// Whether an expression begins at the place.
#[tactic(auto, using(crate::proofs::statements::OptionalSteps::expression_high, crate::proofs::statements::OptionalSteps::expression_low))]
pub fn starts_expression(tokens: &[Terminal], at: usize) -> bool
    ensures is { result ≡ precedence.starts (entries.Of Level.Expression) (seen tokens.now at) }
    ensures within { result ≡ true → at < length tokens.now }
{
    lead_at(tokens, at) >= Level::Expression.rank()
}

/// Whether expressions and starred ones begin at the place.
#[tactic(auto, using(crate::proofs::statements::OptionalSteps::stars_high, crate::proofs::statements::OptionalSteps::stars_low))]
fn starts_stars(tokens: &[Terminal], at: usize) -> bool
    ensures is { result ≡ precedence.starts (entries.Of Level.Stars) (seen tokens.now at) }
    ensures within { result ≡ true → at < length tokens.now }
{
    lead_at(tokens, at) >= Level::Elem.rank()
}

/// Expressions and starred ones, if any begin at the place.
pub(crate) fn stars_or_none<E: ReadsExpressions, R: Recorder>(
    alloc: Global,
    tokens: &[Terminal],
    at: usize,
    depth: Depth,
    recorder: &mut R,
) -> Result<Optional, Stop>
    requires { at ≤ length tokens.now }
    ensures answered { PartAnswered tokens.now at
        (line.if_any (reads depth) Level.Stars (seen tokens.now at)) (λ r. boxed_of r.expr)
        (λ r. r.next) result }
    ensures placed { IfOk result (OptionalPlaced R.after Level.Stars tokens.now at recorder.old
        recorder.new) }
{
    if !starts_stars(tokens, at) {
        return Ok(none_at(at));
    }
    let e = E::read_at(alloc, tokens, Level::Stars, at, depth, recorder)?;
    Ok(one(e))
}

/// An expression of a level after a sign, if the sign stands at the place.
pub fn after_sign<E: ReadsExpressions, R: Recorder>(
    alloc: Global,
    tokens: &[Terminal],
    sign: Exact,
    level: Level,
    at: usize,
    depth: Depth,
    recorder: &mut R,
) -> Result<Optional, Stop>
    requires { at ≤ length tokens.now }
    ensures answered { PartAnswered tokens.now at
        (line.after (reads depth) (tokens_of.Op sign) level (seen tokens.now at))
        (λ r. boxed_of r.expr) (λ r. r.next) result }
    ensures placed { IfOk result (AfterPlaced R.after (tokens_of.Op sign) level tokens.now at
        recorder.old recorder.new) }
{
    if !is_op(tokens, at, sign) {
        return Ok(none_at(at));
    }
    let e = E::read_at(alloc, tokens, level, at + 1, depth, recorder)?;
    Ok(one(e))
}

/// An expression of a level after a word, if the word stands at the place.
pub fn after_word<E: ReadsExpressions, R: Recorder>(
    alloc: Global,
    tokens: &[Terminal],
    word: Keyword,
    level: Level,
    at: usize,
    depth: Depth,
    recorder: &mut R,
) -> Result<Optional, Stop>
    requires { at ≤ length tokens.now }
    ensures answered { PartAnswered tokens.now at
        (line.after (reads depth) (tokens_of.Word word) level (seen tokens.now at))
        (λ r. boxed_of r.expr) (λ r. r.next) result }
    ensures placed { IfOk result (AfterPlaced R.after (tokens_of.Word word) level tokens.now at
        recorder.old recorder.new) }
{
    if !is_word(tokens, at, word) {
        return Ok(none_at(at));
    }
    let e = E::read_at(alloc, tokens, level, at + 1, depth, recorder)?;
    Ok(one(e))
}
