//! The levels of operators, by one table.

ghost use Rattle.std.specs.Prelude.{◌≡◌, ℕ, ◌+◌, ◌++◌, ◌<◌, ◌≤◌, ◌∷◌, IfOk, List, Some, length, true};
ghost use Rattle.pytree_node.specs.TreeOf.{tree_of};
ghost use Rattle.pytree_node.specs.Trees as plain;
ghost use Rattle.pytoken.specs.Terminals as terminals;
ghost use Rattle.pygrammar.specs.Capped.{cap};
ghost use Rattle.pygrammar.specs.Operators as operators;
ghost use Rattle.pygrammar.specs.Precedence as precedence;
ghost use Rattle.pygrammar.specs.Reader as reader;
ghost use Rattle.pyparse_nodes.specs.Answers.{Answered};
ghost use Rattle.pyparse_reads.specs.Readings.{IsOpen, reads};
ghost use Rattle.pyparse_nodes.specs.Operators.{IsInfix, IsPrefix, climbing};
ghost use Rattle.pyparse_expr.specs.Inner.Readings.{fronts, inner_reads};
ghost use Rattle.pyparse_expr.specs.Inner.PlacedOperations.{BinaryPlaced};
ghost use Rattle.pyparse_nodes.specs.Views.{first_is, seen};
ghost use Rattle.pyparse_nodes.specs.Operators.{infix_value, prefix_value};
ghost use Rattle.pyplaces.specs.Placed.{Placed};
ghost use Rattle.pyplaces.specs.Recording.{Records};
ghost use Rattle.pyplaces.specs.Standing.{Ended, Standing};
ghost use Rattle.pyplaces.specs.Stretches.{Stretch};

use crate::chains::{chain, compare};
use crate::primaries::read_primary;
use pygrammar::Level;
use pyparse_nodes::{
    Infix, Prefix, Read, Stop, infix_at, make_await, make_binary, make_unary, prefix_at,
};
use pyparse_reads::Depth;
use pyplaces::Recorder;
use pytoken::Terminal;
use pytree_node::{Operator, UnaryOperator};
use std::alloc::Global;

/// An expression of a level of operators.
#[cycle(reading)]
pub(crate) fn climb<R: Recorder>(
    alloc: Global,
    tokens: &[Terminal],
    level: Level,
    at: usize,
    depth: Depth,
    recorder: &mut R,
) -> Result<Read, Stop>
    requires within { at ≤ length tokens.now }
    requires level { climbing level ≡ true }
    ensures answered { Answered tokens.now depth.room (at + 1)
        (reads depth level (seen tokens.now at)) result }
    ensures placed { IfOk result (λ r. (ps : List Stretch) ×
        Placed level (seen tokens.now at) at (tree_of r.expr.value)
        (seen tokens.now r.next) r.next ps × Records R.after recorder.old ps recorder.new) }
    ensures ended { IfOk result (λ r. Ended (operators.rank level) (seen tokens.now r.next)) }
{
    depth.enter()?;
    let least = level.rank();
    let first = climb_first(alloc, tokens, least, at, depth, recorder)?;
    let mut left = first;
    while let Some(o) = infix_at(tokens, left.next, least) {
        left = operation(alloc, tokens, left, o, at, depth, recorder)?;
    }
    Ok(left)
}

/// What stands in front of the operators of a rank of at least `least`.
#[cycle(reading)]
fn climb_first<R: Recorder>(
    alloc: Global,
    tokens: &[Terminal],
    least: u8,
    at: usize,
    depth: Depth,
    recorder: &mut R,
) -> Result<Read, Stop>
    requires within { at ≤ length tokens.now }
    requires open { IsOpen depth }
    ensures answered { Answered tokens.now depth.room (at + 1)
        (fronts depth least (seen tokens.now at)) result }
    ensures placed { least ≤ 22 → IfOk result (λ r. (ps : List Stretch) ×
        Standing least (seen tokens.now at) at (tree_of r.expr.value)
        (seen tokens.now r.next) r.next ps × Records R.after recorder.old ps recorder.new) }
{
    match prefix_at(tokens, at, least) {
        None => read_primary(alloc, tokens, at, depth, recorder),
        Some(o) => prefixed(alloc, tokens, o, at, at + 1, depth, recorder),
    }
}

/// An expression after its prefix operator.
#[cycle(reading)]
#[inline(never)]
fn prefixed<R: Recorder>(
    alloc: Global,
    tokens: &[Terminal],
    o: Prefix,
    from: usize,
    at: usize,
    depth: Depth,
    recorder: &mut R,
) -> Result<Read, Stop>
    requires within { at ≤ length tokens.now }
    requires open { IsOpen depth }
    requires prefix { IsPrefix (prefix_value o) }
    ensures answered { Answered tokens.now depth.room (at + 1)
        (reader.prefixed (inner_reads depth) (prefix_value o) (seen tokens.now at)) result }
    ensures placed { (t : terminals.Terminal) (k : ℕ) → at ≡ from + 1
        → precedence.before t ≡ Some (prefix_value o)
        → k ≤ precedence.prefix_rank (prefix_value o)
        → IfOk result (λ r. (ps : List Stretch) ×
        Standing k (t ∷ seen tokens.now at) from (tree_of r.expr.value)
        (seen tokens.now r.next) r.next ps × Records R.after recorder.old ps recorder.new) }
{
    match o {
        Prefix::Signed(level, o) => signed(alloc, tokens, level, o, from, at, depth, recorder),
        Prefix::Awaits => {
            let e = read_primary(alloc, tokens, at, depth.inner(), recorder)?;
            recorder.node(from, e.next)?;
            make_await(alloc, e, depth.room)
        }
    }
}

/// An expression after a sign or `not`.
#[cycle(reading)]
fn signed<R: Recorder>(
    alloc: Global,
    tokens: &[Terminal],
    level: Level,
    o: UnaryOperator,
    from: usize,
    at: usize,
    depth: Depth,
    recorder: &mut R,
) -> Result<Read, Stop>
    requires within { at ≤ length tokens.now }
    requires open { IsOpen depth }
    requires level { climbing level ≡ true }
    ensures answered { Answered tokens.now depth.room (at + 1)
        (reader.prefixed (inner_reads depth) (prefix_value (Prefix.Signed level o))
        (seen tokens.now at)) result }
    ensures placed { (t : terminals.Terminal) (k : ℕ) → at ≡ from + 1
        → precedence.before t ≡ Some (precedence.Signed level o) → k ≤ operators.rank level
        → IfOk result (λ r. (ps : List Stretch) ×
        Standing k (t ∷ seen tokens.now at) from (tree_of r.expr.value)
        (seen tokens.now r.next) r.next ps × Records R.after recorder.old ps recorder.new) }
{
    let e = climb(alloc, tokens, level, at, depth.inner(), recorder)?;
    recorder.node(from, e.next)?;
    make_unary(alloc, o, e, depth.room)
}

/// An expression with the operator after it.
#[cycle(reading)]
#[inline(never)]
fn operation<R: Recorder>(
    alloc: Global,
    tokens: &[Terminal],
    left: Read,
    o: Infix,
    at: usize,
    depth: Depth,
    recorder: &mut R,
) -> Result<Read, Stop>
    requires within { left.next < length tokens.now }
    requires open { IsOpen depth }
    requires infix { IsInfix (infix_value o) }
    requires stands { Some (infix_value o) ≡ first_is precedence.following
        (seen tokens.now left.next) }
    ensures answered { Answered tokens.now depth.room (left.next + 1)
        (cap depth.room
        (reader.operation (inner_reads depth) (tree_of left.expr.value) (infix_value o)
        (seen tokens.now left.next) (seen tokens.now (left.next + 1)))) result }
    ensures placed { (k : ℕ) (ps : List Stretch) → k ≤ precedence.infix_rank (infix_value o)
        → Standing k (seen tokens.now at) at (tree_of left.expr.value)
        (seen tokens.now left.next) left.next ps → IfOk result (λ r. (qs : List Stretch) ×
        Standing k (seen tokens.now at) at (tree_of r.expr.value)
        (seen tokens.now r.next) r.next (ps ++ qs) ×
        Records R.after recorder.old qs recorder.new) }
{
    match o {
        Infix::Left(level, o) => binary(alloc, tokens, left, level.below(), o, at, depth, recorder),
        Infix::Raise => binary(
            alloc,
            tokens,
            left,
            Level::Factor,
            Operator::Pow,
            at,
            depth,
            recorder,
        ),
        Infix::Joins(o) => chain(alloc, tokens, left, o, at, depth, recorder),
        Infix::Compares => compare(alloc, tokens, left, at, depth, recorder),
    }
}

/// An expression, a binary operator and its right side.
#[cycle(reading)]
fn binary<R: Recorder>(
    alloc: Global,
    tokens: &[Terminal],
    left: Read,
    level: Level,
    o: Operator,
    at: usize,
    depth: Depth,
    recorder: &mut R,
) -> Result<Read, Stop>
    requires within { left.next < length tokens.now }
    requires open { IsOpen depth }
    requires level { climbing level ≡ true }
    ensures answered { Answered tokens.now depth.room (left.next + 1)
        (cap depth.room (reader.and_then (inner_reads depth level (seen tokens.now (left.next + 1)))
        (λ b rest. reader.Found (plain.BinOp (tree_of left.expr.value) o b) rest))) result }
    ensures placed { IfOk result (λ r. BinaryPlaced R.after tokens.now level left o at r
        recorder.old recorder.new) }
{
    let right = climb(alloc, tokens, level, left.next + 1, depth.inner(), recorder)?;
    recorder.node(at, right.next)?;
    make_binary(alloc, left, o, right, depth.room)
}
