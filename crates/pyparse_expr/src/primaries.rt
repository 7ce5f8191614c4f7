//! Attributes, calls and subscripts.

ghost use Rattle.std.specs.Prelude.{◌≡◌, ◌+◌, ◌++◌, ◌<◌, ◌≤◌, IfOk, List, length, true};
ghost use Rattle.pytree_node.specs.TreeOf.{tree_of};
ghost use Rattle.pytree_node.specs.Trees as plain;
ghost use Rattle.pytoken.specs.Terminals as terminals;
ghost use Rattle.pygrammar.specs.Capped.{cap};
ghost use Rattle.pygrammar.specs.Looks as signs;
ghost use Rattle.pygrammar.specs.Reader as reader;
ghost use Rattle.pyparse_nodes.specs.Answers.{Answered};
ghost use Rattle.pyparse_reads.specs.Readings.{IsOpen, reads};
ghost use Rattle.pyparse_expr.specs.Inner.Readings.{inner_reads, level_at};
ghost use Rattle.pyparse_nodes.specs.Views.{Stands, seen};
ghost use Rattle.pyplaces.specs.Placed.{Placed};
ghost use Rattle.pyplaces.specs.Recording.{Records};
ghost use Rattle.pyplaces.specs.Stretches.{Stretch};

use crate::arguments::call_step;
use crate::atoms::read_atom;
use crate::slices::read_slices;
use pygrammar::Level;
use pylex_listing::Exact;
use pyparse_nodes::{Read, Stop, is_op, make_attribute, make_subscript, name_at};
use pyparse_reads::Depth;
use pyplaces::Recorder;
use pytoken::Terminal;
use pytree_node::Context;
use std::alloc::Global;

/// An atom with attributes, calls and subscripts after it.
#[cycle(reading)]
pub(crate) fn read_primary<R: Recorder>(
    alloc: Global,
    tokens: &[Terminal],
    at: usize,
    depth: Depth,
    recorder: &mut R,
) -> Result<Read, Stop>
    requires { at ≤ length tokens.now }
    ensures answered { Answered tokens.now depth.room (at + 1)
        (reads depth Level.Primary (seen tokens.now at)) result }
    ensures placed { IfOk result (λ r. (ps : List Stretch) ×
        Placed Level.Primary (seen tokens.now at) at (tree_of r.expr.value)
        (seen tokens.now r.next) r.next ps × Records R.after recorder.old ps recorder.new) }
{
    depth.enter()?;
    let mut e = read_atom(alloc, tokens, at, depth, recorder)?;
    'tails: loop {
        if is_op(tokens, e.next, Exact::Dot) {
            e = attribute_step(alloc, tokens, e, at, depth, recorder)?;
        } else if is_op(tokens, e.next, Exact::LPar) {
            e = call_step(alloc, tokens, e, at, depth, recorder)?;
        } else if is_op(tokens, e.next, Exact::LSqb) {
            e = index_step(alloc, tokens, e, at, depth, recorder)?;
        } else {
            return Ok(e);
        }
    }
}

/// An attribute, from its dot on.
#[inline(never)]
fn attribute_step<R: Recorder>(
    alloc: Global,
    tokens: &[Terminal],
    e: Read,
    at: usize,
    depth: Depth,
    recorder: &mut R,
) -> Result<Read, Stop>
    requires within { e.next < length tokens.now }
    ensures answered { Answered tokens.now depth.room (e.next + 1)
        (cap depth.room (reader.on_first signs.name_in (seen tokens.now (e.next + 1))
        (λ x r. reader.Found
        (plain.Attribute (tree_of e.expr.value) x Context.Load) r) reader.NoForm)) result }
    ensures placed { Stands (terminals.Op Exact.Dot) tokens.now e.next → (ps : List Stretch)
        → Placed Level.Primary (seen tokens.now at) at (tree_of e.expr.value)
        (seen tokens.now e.next) e.next ps → IfOk result (λ r. (qs : List Stretch) ×
        Placed Level.Primary (seen tokens.now at) at (tree_of r.expr.value)
        (seen tokens.now r.next) r.next (ps ++ qs) ×
        Records R.after recorder.old qs recorder.new) }
{
    let next = e.next + 1;
    match name_at(tokens, next) {
        Some(name) => {
            recorder.node(at, next + 1)?;
            make_attribute(alloc, e, name, next + 1, depth.room)
        }
        None => Err(Stop::NoForm),
    }
}

/// A subscript, from its bracket on.
#[cycle(reading)]
#[inline(never)]
fn index_step<R: Recorder>(
    alloc: Global,
    tokens: &[Terminal],
    e: Read,
    at: usize,
    depth: Depth,
    recorder: &mut R,
) -> Result<Read, Stop>
    requires within { e.next < length tokens.now }
    requires open { IsOpen depth }
    ensures answered { Answered tokens.now depth.room (e.next + 1)
        (cap depth.room
        (reader.and_then (inner_reads depth Level.Slices (seen tokens.now (e.next + 1)))
        (λ s r. reader.on_first (signs.is_op Exact.RSqb) r
        (λ _ r2. reader.Found
        (plain.Subscript (tree_of e.expr.value) s Context.Load) r2) reader.NoForm))) result }
    ensures placed { Stands (terminals.Op Exact.LSqb) tokens.now e.next → (ps : List Stretch)
        → Placed Level.Primary (seen tokens.now at) at (tree_of e.expr.value)
        (seen tokens.now e.next) e.next ps → IfOk result (λ r. (qs : List Stretch) ×
        Placed Level.Primary (seen tokens.now at) at (tree_of r.expr.value)
        (seen tokens.now r.next) r.next (ps ++ qs) ×
        Records R.after recorder.old qs recorder.new) }
{
    let slice = read_slices(alloc, tokens, e.next + 1, depth.inner(), recorder)?;
    if is_op(tokens, slice.next, Exact::RSqb) {
        let next = slice.next + 1;
        recorder.node(at, next)?;
        make_subscript(alloc, e, slice, next, depth.room)
    } else {
        Err(Stop::NoForm)
    }
}
