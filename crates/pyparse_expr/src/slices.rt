//! What a subscript holds.

ghost use Rattle.std.specs.Prelude.{◌≡◌, ◌+◌, ◌++◌, ◌-◌, ◌<◌, ◌≤◌, ◌∷◌, [], ℕ, List, IfOk};
ghost use Rattle.std.specs.Prelude.{MatchResult, length, true};
ghost use Rattle.pytree_node.specs.TreeOf.{tree_of};
ghost use Rattle.pytree_node.specs.Trees as plain;
ghost use Rattle.pygrammar.specs.Capped.{cap, capped_round};
ghost use Rattle.pygrammar.specs.Entries as entries;
ghost use Rattle.pygrammar.specs.Looks as signs;
ghost use Rattle.pygrammar.specs.Precedence as precedence;
ghost use Rattle.pygrammar.specs.Reader as reader;
ghost use Rattle.pyparse_nodes.specs.Answers.{Answered, Failed};
ghost use Rattle.pyparse_reads.specs.Readings.{IsOpen, reads};
ghost use Rattle.pyparse_expr.specs.Inner.Readings.{inner_reads, level_at, same_reads};
ghost use Rattle.pyparse_nodes.specs.Views.{Stands, seen};
ghost use Rattle.pytoken.specs.Terminals as terminals;
ghost use Rattle.pyparse_expr.specs.Inner.Found.{OptionalAt};
ghost use Rattle.pytree_node.specs.TreeOf.{boxed_of};
ghost use Rattle.pytree_height.specs.Heights as Heights;
ghost use Rattle.pyplaces.specs.Placed.{Placed, PlacedPerhaps};
ghost use Rattle.pyplaces.specs.Recording.{Records};
ghost use Rattle.pyplaces.specs.Rests.{PlacedPart};
ghost use Rattle.pyplaces.specs.Stretches.{Stretch};

use crate::levels::{read_expression, read_named};
use crate::listings::{Item, first_items, tupled};
use pygrammar::Level;
use pylex_listing::Exact;
use pyparse_nodes::{
    Optional, Read, Stop, is_op, lead_at, make_slice, make_starred, make_tuple, name_with,
};
use pyparse_reads::Depth;
use pyplaces::Recorder;
use pytoken::Terminal;
use pytree_node::Expr;
use std::alloc::Global;

/// Reads what stands between the brackets of a subscript.
#[cycle(reading)]
pub(crate) fn read_slices<R: Recorder>(
    alloc: Global,
    tokens: &[Terminal],
    at: usize,
    depth: Depth,
    recorder: &mut R,
) -> Result<Read, Stop>
    requires { at ≤ length tokens.now }
    ensures answered { Answered tokens.now depth.room (at + 1)
        (reads depth Level.Slices (seen tokens.now at)) result }
    ensures placed { IfOk result (λ r. (ps : List Stretch) ×
        Placed Level.Slices (seen tokens.now at) at (tree_of r.expr.value)
        (seen tokens.now r.next) r.next ps × Records R.after recorder.old ps recorder.new) }
{
    depth.enter()?;
    let first = read_part(alloc, tokens, at, depth, recorder)?;
    if is_op(tokens, first.next, Exact::Comma) {
        return tupled(alloc, tokens, Item::Part, first, at, depth, recorder);
    }
    if is_op(tokens, at, Exact::Star) {
        let items = first_items(alloc, first)?;
        recorder.node(at, items.next)?;
        return make_tuple(alloc, items.exprs, items.height, items.next, depth.room);
    }
    Ok(first)
}

/// Reads one of several parts of a subscript.
#[cycle(reading)]
pub(crate) fn read_part<R: Recorder>(
    alloc: Global,
    tokens: &[Terminal],
    at: usize,
    depth: Depth,
    recorder: &mut R,
) -> Result<Read, Stop>
    requires { at ≤ length tokens.now }
    ensures answered { Answered tokens.now depth.room (at + 1)
        (reads depth Level.Part (seen tokens.now at)) result }
    ensures placed { IfOk result (λ r. (ps : List Stretch) ×
        PlacedPart (seen tokens.now at) at (tree_of r.expr.value) (seen tokens.now r.next) r.next ps
        × Records R.after recorder.old ps recorder.new) }
{
    depth.enter()?;
    if is_op(tokens, at, Exact::Star) {
        let e = read_expression(alloc, tokens, at + 1, depth.inner(), recorder)?;
        recorder.node(at, e.next)?;
        make_starred(alloc, e, depth.room)
    } else {
        read_slice(alloc, tokens, at, depth, recorder)
    }
}

/// Reads a slice, or an expression in its place.
#[cycle(reading)]
pub(crate) fn read_slice<R: Recorder>(
    alloc: Global,
    tokens: &[Terminal],
    at: usize,
    depth: Depth,
    recorder: &mut R,
) -> Result<Read, Stop>
    requires { at ≤ length tokens.now }
    ensures answered { Answered tokens.now depth.room (at + 1)
        (reads depth Level.Slice (seen tokens.now at)) result }
    ensures placed { IfOk result (λ r. (ps : List Stretch) ×
        Placed Level.Slice (seen tokens.now at) at (tree_of r.expr.value)
        (seen tokens.now r.next) r.next ps × Records R.after recorder.old ps recorder.new) }
{
    depth.enter()?;
    if is_op(tokens, at, Exact::Colon) {
        return slice_rest(alloc, tokens, None, 0, at, at + 1, depth, recorder);
    }
    let lower = read_named(alloc, tokens, at, depth, recorder)?;
    if is_op(tokens, lower.next, Exact::Colon) {
        match name_with(tokens, at, Exact::ColonEqual) {
            Some(_) => return Err(Stop::NoForm),
            None => {}
        }
        return slice_rest(
            alloc,
            tokens,
            Some(lower.expr),
            lower.height,
            at,
            lower.next + 1,
            depth,
            recorder,
        );
    }
    Ok(lower)
}

/// A slice that begins at `from`, after its first colon.
#[cycle(reading)]
pub(crate) fn slice_rest<R: Recorder>(
    alloc: Global,
    tokens: &[Terminal],
    lower: Option<Box<Expr>>,
    height: usize,
    from: usize,
    at: usize,
    depth: Depth,
    recorder: &mut R,
) -> Result<Read, Stop>
    requires within { at ≤ length tokens.now }
    requires open { IsOpen depth }
    requires is_height { height ≡ Heights.optional_height (plain.optional (boxed_of lower)) }
    requires low { height ≤ depth.room }
    ensures answered { Answered tokens.now depth.room (at)
        (cap depth.room
        (reader.slice_rest (inner_reads depth) (plain.optional (boxed_of lower))
        (seen tokens.now at))) result }
    ensures placed { (n : ℕ) (ps : List Stretch) → Stands (terminals.Op Exact.Colon) tokens.now n
        → at ≡ n + 1
        → PlacedPerhaps Level.Expression (seen tokens.now from) from
        (plain.optional (boxed_of lower)) (seen tokens.now n) n ps
        → IfOk result (λ r. (qs : List Stretch) ×
        Placed Level.Slice (seen tokens.now from) from (tree_of r.expr.value)
        (seen tokens.now r.next) r.next (ps ++ qs) ×
        Records R.after recorder.old qs recorder.new) }
{
    let upper = perhaps(alloc, tokens, at, depth, recorder)?;
    let height = height.max(upper.height);
    if is_op(tokens, upper.next, Exact::Colon) {
        let step = perhaps(alloc, tokens, upper.next + 1, depth, recorder)?;
        recorder.node(from, step.next)?;
        make_slice(
            alloc,
            lower,
            upper.expr,
            step.expr,
            height.max(step.height),
            step.next,
            depth.room,
        )
    } else {
        recorder.node(from, upper.next)?;
        make_slice(
            alloc, lower, upper.expr, None, height, upper.next, depth.room,
        )
    }
}

/// An Expression, if one begins here.
#[cycle(reading)]
pub(crate) fn perhaps<R: Recorder>(
    alloc: Global,
    tokens: &[Terminal],
    at: usize,
    depth: Depth,
    recorder: &mut R,
) -> Result<Optional, Stop>
    requires within { at ≤ length tokens.now }
    requires open { IsOpen depth }
    ensures answered { MatchResult result
        (λ r. OptionalAt tokens.now (depth.room - 1) at
        (reader.perhaps (inner_reads depth) Level.Expression (seen tokens.now at)) r)
        (λ s. Failed s (reader.perhaps (inner_reads depth) Level.Expression (seen tokens.now at))) }
    ensures placed { IfOk result (λ r. (ps : List Stretch) ×
        PlacedPerhaps Level.Expression (seen tokens.now at) at (plain.optional (boxed_of r.expr))
        (seen tokens.now r.next) r.next ps × Records R.after recorder.old ps recorder.new) }
{
    if lead_at(tokens, at) >= Level::Expression.rank() {
        let e = read_expression(alloc, tokens, at, depth.inner(), recorder)?;
        Ok(Optional {
            expr: Some(e.expr),
            height: e.height,
            next: e.next,
        })
    } else {
        Ok(Optional {
            expr: None,
            height: 0,
            next: at,
        })
    }
}
