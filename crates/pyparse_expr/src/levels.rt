//! The levels above the operators.

ghost use Rattle.std.specs.Prelude.{◌≡◌, ◌+◌, ◌++◌, ◌<◌, ◌≤◌, ◌∷◌, [], IfOk, List, length, true};
ghost use Rattle.pytree_node.specs.TreeOf.{tree_of};
ghost use Rattle.pytree_node.specs.Trees as plain;
ghost use Rattle.pytoken.specs.Terminals as terminals;
ghost use Rattle.pygrammar.specs.Capped.{cap};
ghost use Rattle.pygrammar.specs.Reader as reader;
ghost use Rattle.pygrammar.specs.Looks as signs;
ghost use Rattle.pyparse_nodes.specs.Answers.{Answered};
ghost use Rattle.pyparse_reads.specs.Readings.{IsOpen, reads};
ghost use Rattle.pyparse_expr.specs.Inner.Readings.{inner_reads, level_at};
ghost use Rattle.pyparse_nodes.specs.Views.{Stands, seen};
ghost use Rattle.pyplaces.specs.Placed.{Placed, PlacedYields};
ghost use Rattle.pyplaces.specs.Recording.{Records};
ghost use Rattle.pyplaces.specs.Stretches.{Stretch, stretch};

use crate::atoms::read_atom;
use crate::climbing::climb;
use crate::listings::{Item, tupled};
use crate::signatures::lambda_step;
use pygrammar::Level;
use pylex_listing::Exact;
use pyparse_nodes::{
    Read, Stop, is_op, is_word, lead_at, make_if, make_name, make_named, make_starred, make_yield,
    make_yield_from, name_with, stands_alone,
};
use pyparse_reads::Depth;
use pyplaces::Recorder;
use pytoken::{Keyword, Terminal};
use pytree_node::Context;
use std::alloc::Global;

/// A right side of an assignment or a statement of its own.
pub(crate) fn read_value<R: Recorder>(
    alloc: Global,
    tokens: &[Terminal],
    at: usize,
    depth: Depth,
    recorder: &mut R,
) -> Result<Read, Stop>
    requires { at ≤ length tokens.now }
    ensures answered { Answered tokens.now depth.room (at + 1)
        (reads depth Level.Value (seen tokens.now at)) result }
    ensures placed { IfOk result (λ r. (ps : List Stretch) ×
        Placed Level.Value (seen tokens.now at) at (tree_of r.expr.value)
        (seen tokens.now r.next) r.next ps × Records R.after recorder.old ps recorder.new) }
{
    depth.enter()?;
    if is_word(tokens, at, Keyword::Yield) {
        yield_step(alloc, tokens, at, at + 1, depth, recorder)
    } else {
        read_stars(alloc, tokens, at, depth, recorder)
    }
}

/// The subject of a `match`.
pub(crate) fn read_subject<R: Recorder>(
    alloc: Global,
    tokens: &[Terminal],
    at: usize,
    depth: Depth,
    recorder: &mut R,
) -> Result<Read, Stop>
    requires { at ≤ length tokens.now }
    ensures answered { Answered tokens.now depth.room (at + 1)
        (reads depth Level.Subject (seen tokens.now at)) result }
    ensures placed { IfOk result (λ r. (ps : List Stretch) ×
        Placed Level.Subject (seen tokens.now at) at (tree_of r.expr.value)
        (seen tokens.now r.next) r.next ps × Records R.after recorder.old ps recorder.new) }
{
    depth.enter()?;
    let first = read_elem(alloc, tokens, at, depth, recorder)?;
    if is_op(tokens, first.next, Exact::Comma) {
        return tupled(alloc, tokens, Item::Elem, first, at, depth, recorder);
    }
    if is_op(tokens, at, Exact::Star) {
        return Err(Stop::NoForm);
    }
    Ok(first)
}

/// After a `yield`.
#[cycle(reading)]
pub(crate) fn yield_step<R: Recorder>(
    alloc: Global,
    tokens: &[Terminal],
    from: usize,
    at: usize,
    depth: Depth,
    recorder: &mut R,
) -> Result<Read, Stop>
    requires within { at ≤ length tokens.now }
    requires open { IsOpen depth }
    ensures answered { Answered tokens.now depth.room at
        (reader.yield_step (inner_reads depth) (seen tokens.now at)) result }
    ensures placed { IfOk result (λ r. (ps : List Stretch) ×
        PlacedYields (seen tokens.now at) at (tree_of r.expr.value)
        (seen tokens.now r.next) r.next ps ×
        Records R.after recorder.old (ps ++ (stretch from r.next ∷ [])) recorder.new) }
{
    if is_word(tokens, at, Keyword::From) {
        let e = read_expression(alloc, tokens, at + 1, depth.inner(), recorder)?;
        recorder.node(from, e.next)?;
        make_yield_from(alloc, e, depth.room)
    } else if lead_at(tokens, at) >= Level::Elem.rank() {
        let e = read_stars(alloc, tokens, at, depth.inner(), recorder)?;
        recorder.node(from, e.next)?;
        make_yield(alloc, Some(e.expr), e.height, e.next, depth.room)
    } else {
        recorder.node(from, at)?;
        make_yield(alloc, None, 0, at, depth.room)
    }
}

/// Expressions and starred ones, with commas between them.
#[cycle(reading)]
pub(crate) fn read_stars<R: Recorder>(
    alloc: Global,
    tokens: &[Terminal],
    at: usize,
    depth: Depth,
    recorder: &mut R,
) -> Result<Read, Stop>
    requires { at ≤ length tokens.now }
    ensures answered { Answered tokens.now depth.room (at + 1)
        (reads depth Level.Stars (seen tokens.now at)) result }
    ensures placed { IfOk result (λ r. (ps : List Stretch) ×
        Placed Level.Stars (seen tokens.now at) at (tree_of r.expr.value)
        (seen tokens.now r.next) r.next ps × Records R.after recorder.old ps recorder.new) }
{
    depth.enter()?;
    let first = read_star_item(alloc, tokens, at, depth, recorder)?;
    if is_op(tokens, first.next, Exact::Comma) {
        tupled(alloc, tokens, Item::StarItem, first, at, depth, recorder)
    } else {
        Ok(first)
    }
}

/// An expression or a starred one.
#[cycle(reading)]
#[inline(always)]
pub(crate) fn read_star_item<R: Recorder>(
    alloc: Global,
    tokens: &[Terminal],
    at: usize,
    depth: Depth,
    recorder: &mut R,
) -> Result<Read, Stop>
    requires { at ≤ length tokens.now }
    ensures answered { Answered tokens.now depth.room (at + 1)
        (reads depth Level.StarItem (seen tokens.now at)) result }
    ensures placed { IfOk result (λ r. (ps : List Stretch) ×
        Placed Level.StarItem (seen tokens.now at) at (tree_of r.expr.value)
        (seen tokens.now r.next) r.next ps × Records R.after recorder.old ps recorder.new) }
{
    depth.enter()?;
    if is_op(tokens, at, Exact::Star) {
        let e = climb(alloc, tokens, Level::BitOr, at + 1, depth.inner(), recorder)?;
        recorder.node(at, e.next)?;
        make_starred(alloc, e, depth.room)
    } else {
        read_expression(alloc, tokens, at, depth, recorder)
    }
}

/// A named expression or a starred one.
#[cycle(reading)]
pub(crate) fn read_elem<R: Recorder>(
    alloc: Global,
    tokens: &[Terminal],
    at: usize,
    depth: Depth,
    recorder: &mut R,
) -> Result<Read, Stop>
    requires { at ≤ length tokens.now }
    ensures answered { Answered tokens.now depth.room (at + 1)
        (reads depth Level.Elem (seen tokens.now at)) result }
    ensures placed { IfOk result (λ r. (ps : List Stretch) ×
        Placed Level.Elem (seen tokens.now at) at (tree_of r.expr.value)
        (seen tokens.now r.next) r.next ps × Records R.after recorder.old ps recorder.new) }
{
    depth.enter()?;
    if is_op(tokens, at, Exact::Star) {
        let e = climb(alloc, tokens, Level::BitOr, at + 1, depth.inner(), recorder)?;
        recorder.node(at, e.next)?;
        make_starred(alloc, e, depth.room)
    } else {
        read_named(alloc, tokens, at, depth, recorder)
    }
}

/// An expression, or an assignment in one.
#[cycle(reading)]
pub(crate) fn read_named<R: Recorder>(
    alloc: Global,
    tokens: &[Terminal],
    at: usize,
    depth: Depth,
    recorder: &mut R,
) -> Result<Read, Stop>
    requires { at ≤ length tokens.now }
    ensures answered { Answered tokens.now depth.room (at + 1)
        (reads depth Level.Named (seen tokens.now at)) result }
    ensures placed { IfOk result (λ r. (ps : List Stretch) ×
        Placed Level.Named (seen tokens.now at) at (tree_of r.expr.value)
        (seen tokens.now r.next) r.next ps × Records R.after recorder.old ps recorder.new) }
{
    depth.enter()?;
    match name_with(tokens, at, Exact::ColonEqual) {
        Some(name) => {
            recorder.node(at, at + 1)?;
            let value = read_expression(alloc, tokens, at + 2, depth.inner(), recorder)?;
            recorder.node(at, value.next)?;
            let target = make_name(alloc, name, Context::Store, at + 1)?;
            make_named(alloc, target, value, depth.room)
        }
        None => read_expression(alloc, tokens, at, depth, recorder),
    }
}

/// A lambda, a conditional, or what stands below them.
#[cycle(reading)]
pub(crate) fn read_expression<R: Recorder>(
    alloc: Global,
    tokens: &[Terminal],
    at: usize,
    depth: Depth,
    recorder: &mut R,
) -> Result<Read, Stop>
    requires { at ≤ length tokens.now }
    ensures answered { Answered tokens.now depth.room (at + 1)
        (reads depth Level.Expression (seen tokens.now at)) result }
    ensures placed { IfOk result (λ r. (ps : List Stretch) ×
        Placed Level.Expression (seen tokens.now at) at (tree_of r.expr.value)
        (seen tokens.now r.next) r.next ps × Records R.after recorder.old ps recorder.new) }
{
    depth.enter()?;
    // No level above an atom has anything to read there.
    if stands_alone(tokens, at) {
        return read_atom(alloc, tokens, at, depth, recorder);
    }
    if is_word(tokens, at, Keyword::Lambda) {
        return lambda_step(alloc, tokens, at, at + 1, depth, recorder);
    }
    let before = recorder.recorded();
    let body = climb(alloc, tokens, Level::Or, at, depth, recorder)?;
    if is_word(tokens, body.next, Keyword::If) {
        if_else_step(alloc, tokens, body, before, at, depth, recorder)
    } else {
        Ok(body)
    }
}

/// The rest of a conditional, from its `if` on. The nodes of the body are those recorded after the
/// first `before`; they belong after the test's.
#[cycle(reading)]
#[inline(never)]
fn if_else_step<R: Recorder>(
    alloc: Global,
    tokens: &[Terminal],
    body: Read,
    before: usize,
    at: usize,
    depth: Depth,
    recorder: &mut R,
) -> Result<Read, Stop>
    requires within { body.next < length tokens.now }
    requires open { IsOpen depth }
    ensures answered { Answered tokens.now depth.room (body.next + 1)
        (cap depth.room
        (reader.and_then (inner_reads depth Level.Or (seen tokens.now (body.next + 1)))
        (λ a r2. reader.on_first (signs.is_word Keyword.Else) r2
        (λ _ r3. reader.and_then (inner_reads depth Level.Expression r3)
        (λ c r4. reader.Found
        (plain.IfExp a (tree_of body.expr.value) c) r4)) reader.NoForm))) result }
    ensures placed { Stands (terminals.Word Keyword.If) tokens.now body.next
        → (w : R) (ps : List Stretch) → Records R.after w ps recorder.old
        → before ≡ R.recorded_count w
        → Placed Level.Or (seen tokens.now at) at (tree_of body.expr.value)
        (seen tokens.now body.next) body.next ps → IfOk result (λ r. (qs : List Stretch) ×
        Placed Level.Expression (seen tokens.now at) at (tree_of r.expr.value)
        (seen tokens.now r.next) r.next qs × Records R.after w qs recorder.new) }
{
    let kept = recorder.aside();
    recorder.set_aside(before)?;
    let test = climb(
        alloc,
        tokens,
        Level::Or,
        body.next + 1,
        depth.inner(),
        recorder,
    )?;
    recorder.take_back(kept)?;
    if !is_word(tokens, test.next, Keyword::Else) {
        return Err(Stop::NoForm);
    }
    let orelse = read_expression(alloc, tokens, test.next + 1, depth.inner(), recorder)?;
    recorder.node(at, orelse.next)?;
    make_if(alloc, test, body, orelse, depth.room)
}
