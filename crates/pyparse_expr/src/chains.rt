//! Chains of `and` and `or`, and of comparisons.

ghost use Rattle.std.specs.Prelude.{◌≡◌, ℕ, ◌+◌, ◌++◌, ◌<◌, ◌≤◌, ◌∷◌, IfOk, List, MatchOption};
ghost use Rattle.std.specs.Prelude.{MatchResult, Some, [], length, map, true};
ghost use Rattle.pytree_node.specs.TreeOf.{tree_of};
ghost use Rattle.pytoken.specs.Terminals as terminals;
ghost use Rattle.pygrammar.specs.Capped.{cap};
ghost use Rattle.pygrammar.specs.Operators as operators;
ghost use Rattle.pygrammar.specs.Precedence as precedence;
ghost use Rattle.pygrammar.specs.Reader as reader;
ghost use Rattle.pyparse_nodes.specs.Answers.{Answered, Failed};
ghost use Rattle.pyparse_expr.specs.Inner.Chains.{ComparedAt, LinkedAt, MisComparedAt, NotComparedAt};
ghost use Rattle.pyparse_expr.specs.Inner.Chains.{links_of};
ghost use Rattle.pyparse_expr.specs.Inner.PlacedOperations.{LinksPlaced, Unsigned};
ghost use Rattle.pyparse_expr.specs.Inner.Readings.{inner_reads};
ghost use Rattle.pyparse_reads.specs.Readings.{IsOpen};
ghost use Rattle.pyparse_nodes.specs.Operators.{climbing, infix_value};
ghost use Rattle.pyparse_nodes.specs.Views.{Stands, first_is, seen};
ghost use Rattle.pyplaces.specs.Placed.{PlacedSign};
ghost use Rattle.pyplaces.specs.Recording.{Records};
ghost use Rattle.pyplaces.specs.Standing.{Standing};
ghost use Rattle.pyplaces.specs.Stretches.{Stretch};

use crate::climbing::climb;
use crate::listings::first_items;
use pygrammar::Level;
use pyparse_nodes::{Infix, Items, Read, Stop, comparison_at, is_word, make_chain, make_compare};
use pyparse_reads::{Depth, push};
use pyplaces::Recorder;
use pytoken::{Keyword, Terminal};
use pytree_node::{BoolOperator, Comparison};
use std::alloc::Global;

/// A comparison, and the place after it.
#[derive(Clone, Copy)]
pub(crate) struct Compared {
    pub op: Comparison,
    pub next: usize,
}

/// The word between the sides.
fn chain_word(o: BoolOperator) -> Keyword
    ensures { result ≡ operators.chain_word o }
{
    match o {
        BoolOperator::Or => Keyword::Or,
        BoolOperator::And => Keyword::And,
    }
}

/// The level of the sides.
fn side_level(o: BoolOperator) -> Level
    ensures is { result ≡ operators.below (operators.chain_level o) }
    ensures climbs { climbing result ≡ true }
{
    match o {
        BoolOperator::Or => Level::And,
        BoolOperator::And => Level::Not,
    }
}

/// Expressions with `and` or `or` between them, after the first one.
#[cycle(reading)]
pub(crate) fn chain<R: Recorder>(
    alloc: Global,
    tokens: &[Terminal],
    left: Read,
    o: BoolOperator,
    at: usize,
    depth: Depth,
    recorder: &mut R,
) -> Result<Read, Stop>
    requires within { left.next < length tokens.now }
    requires sign { Some (precedence.Joins o) ≡ first_is precedence.following
        (seen tokens.now left.next) }
    requires open { IsOpen depth }
    ensures answered { Answered tokens.now depth.room (left.next + 1)
        (cap depth.room
        (reader.operation (inner_reads depth) (tree_of left.expr.value)
        (infix_value (Infix.Joins o))
        (seen tokens.now left.next) (seen tokens.now (left.next + 1)))) result }
    ensures placed { (k : ℕ) (ps : List Stretch) → k ≤ operators.rank (operators.chain_level o)
        → Standing k (seen tokens.now at) at (tree_of left.expr.value)
        (seen tokens.now left.next) left.next ps → IfOk result (λ r. (qs : List Stretch) ×
        Standing k (seen tokens.now at) at (tree_of r.expr.value)
        (seen tokens.now r.next) r.next (ps ++ qs) ×
        Records R.after recorder.old qs recorder.new) }
{
    let first = first_items(alloc, left)?;
    let items = links(alloc, tokens, first, o, depth, recorder)?;
    recorder.node(at, items.next)?;
    make_chain(alloc, o, items.exprs, items.height, items.next, depth.room)
}

/// The sides after some that were read.
#[cycle(reading)]
fn links<R: Recorder>(
    alloc: Global,
    tokens: &[Terminal],
    first: Items,
    o: BoolOperator,
    depth: Depth,
    recorder: &mut R,
) -> Result<Items, Stop>
    requires word { Stands (terminals.Word (operators.chain_word o)) tokens.now first.next }
    requires open { IsOpen depth }
    ensures answered { MatchResult result
        (λ r. LinkedAt tokens.now (first.next + 1)
        (links_of depth o (map tree_of first.exprs.items) (seen tokens.now first.next)) r)
        (λ s. Failed s
        (links_of depth o (map tree_of first.exprs.items) (seen tokens.now first.next))) }
    ensures placed { IfOk result (λ r. LinksPlaced R.after tokens.now o first r
        recorder.old recorder.new) }
{
    let mut items = first;
    'sides: while is_word(tokens, items.next, chain_word(o)) {
        let e = climb(
            alloc,
            tokens,
            side_level(o),
            items.next + 1,
            depth.inner(),
            recorder,
        )?;
        items = push(items, e)?;
    }
    Ok(items)
}

/// The comparison at a place, if one stands there.
#[tactic(auto, using(crate::proofs::Places::Signs::one_sign, crate::proofs::Places::Signs::not_in, crate::proofs::Places::Signs::not_alone, crate::proofs::Places::Signs::is_not, crate::proofs::Places::Signs::is_alone, crate::proofs::Places::Signs::no_sign))]
fn compared_at(tokens: &[Terminal], at: usize) -> Result<Option<Compared>, Stop>
    ensures answered { MatchResult result
        (λ o. MatchOption o (NotComparedAt tokens.now at) (λ c. ComparedAt tokens.now at c))
        (λ s. MisComparedAt tokens.now at s) }
    ensures placed { IfOk result (λ o. MatchOption o (Unsigned (seen tokens.now at))
        (λ c. PlacedSign (seen tokens.now at) at c.op (seen tokens.now c.next) c.next)) }
{
    if let Some(op) = comparison_at(tokens, at) {
        return Ok(Some(Compared { op, next: at + 1 }));
    }
    if is_word(tokens, at, Keyword::Not) {
        if !is_word(tokens, at + 1, Keyword::In) {
            return Err(Stop::NoForm);
        }
        return Ok(Some(Compared {
            op: Comparison::NotIn,
            next: at + 2,
        }));
    }
    if !is_word(tokens, at, Keyword::Is) {
        return Ok(None);
    }
    if is_word(tokens, at + 1, Keyword::Not) {
        Ok(Some(Compared {
            op: Comparison::IsNot,
            next: at + 2,
        }))
    } else {
        Ok(Some(Compared {
            op: Comparison::Is,
            next: at + 1,
        }))
    }
}

/// An empty list.
fn no_items(alloc: Global, next: usize) -> Items
    ensures items { map tree_of result.exprs.items ≡ [] }
    ensures next { result.next ≡ next }
{
    Items {
        exprs: Vec::new(alloc),
        height: 0,
        next,
    }
}

/// Comparisons after an expression.
#[cycle(reading)]
pub(crate) fn compare<R: Recorder>(
    alloc: Global,
    tokens: &[Terminal],
    left: Read,
    at: usize,
    depth: Depth,
    recorder: &mut R,
) -> Result<Read, Stop>
    requires within { left.next < length tokens.now }
    requires sign { Some precedence.Compares ≡ first_is precedence.following
        (seen tokens.now left.next) }
    requires open { IsOpen depth }
    ensures answered { Answered tokens.now depth.room (left.next + 1)
        (cap depth.room
        (reader.operation (inner_reads depth) (tree_of left.expr.value) (infix_value Infix.Compares)
        (seen tokens.now left.next) (seen tokens.now (left.next + 1)))) result }
    ensures placed { (k : ℕ) (ps : List Stretch) → k ≤ 13
        → Standing k (seen tokens.now at) at (tree_of left.expr.value)
        (seen tokens.now left.next) left.next ps → IfOk result (λ r. (qs : List Stretch) ×
        Standing k (seen tokens.now at) at (tree_of r.expr.value)
        (seen tokens.now r.next) r.next (ps ++ qs) ×
        Records R.after recorder.old qs recorder.new) }
{
    let Read { expr, height, next } = left;
    let mut ops = Vec::new(alloc);
    let mut items = no_items(alloc, next);
    'sides: while let Some(sign) = compared_at(tokens, items.next)? {
        let e = climb(
            alloc,
            tokens,
            Level::BitOr,
            sign.next,
            depth.inner(),
            recorder,
        )?;
        ops.push(sign.op)?;
        items = push(items, e)?;
    }
    recorder.node(at, items.next)?;
    let under = height.max(items.height);
    make_compare(alloc, expr, ops, items.exprs, under, items.next, depth.room)
}
