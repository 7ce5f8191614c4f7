//! Names, constants, and what stands in brackets.

ghost use Rattle.std.specs.Prelude.{◌≡◌, ◌+◌, ◌++◌, ◌<◌, ◌≤◌, ◌∷◌, [], IfOk, List, MatchResult};
ghost use Rattle.std.specs.Prelude.{length, true};
ghost use Rattle.pytree_node.specs.TreeOf.{tree_of};
ghost use Rattle.pytree_node.specs.Trees as plain;
ghost use Rattle.pygrammar.specs.Capped.{cap, capped_atom, capped_round};
ghost use Rattle.pygrammar.specs.Entries as entries;
ghost use Rattle.pygrammar.specs.Looks as signs;
ghost use Rattle.pygrammar.specs.Precedence as precedence;
ghost use Rattle.pygrammar.specs.Reader as reader;
ghost use Rattle.pyparse_nodes.specs.Answers.{Answered, Failed};
ghost use Rattle.pyparse_reads.specs.Readings.{IsOpen, reads};
ghost use Rattle.pyparse_expr.specs.Inner.PlacedAtoms.{ClosedBy};
ghost use Rattle.pyparse_expr.specs.Inner.Readings.{inner_reads, level_at, same_reads};
ghost use Rattle.pyparse_nodes.specs.Views.{Stands, seen};
ghost use Rattle.pyplaces.specs.Placed.{Placed};
ghost use Rattle.pyplaces.specs.Recording.{Records};
ghost use Rattle.pyplaces.specs.Stretches.{Stretch};
ghost use Rattle.pytoken.specs.TerminalOf.{terminal};
ghost use Rattle.pytoken.specs.Terminals as terminals;

use crate::braces::curly;
use crate::comprehensions::comps;
use crate::levels::{read_elem, yield_step};
use crate::listings::{Item, others};
use crate::strings::{formatted_atom, string_atom};
use pygrammar::Level;
use pylex_listing::Exact;
use pyparse_nodes::{
    Read, Stop, is_op, is_word, lead_at, make_constant, make_generator, make_list, make_list_comp,
    make_name, make_number, make_tuple, make_whole, starts_comp, terminal_at,
};
use pyparse_reads::Depth;
use pyplaces::Recorder;
use pytoken::{Keyword, Terminal};
use pytree_node::{Constant, Context};
use std::alloc::Global;

/// Reads an atom.
#[cycle(reading)]
#[inline(always)]
pub(crate) fn read_atom<R: Recorder>(
    alloc: Global,
    tokens: &[Terminal],
    at: usize,
    depth: Depth,
    recorder: &mut R,
) -> Result<Read, Stop>
    requires { at ≤ length tokens.now }
    ensures answered { Answered tokens.now depth.room (at + 1)
        (reads depth Level.Atom (seen tokens.now at)) result }
    ensures placed { IfOk result (λ r. (ps : List Stretch) ×
        Placed Level.Atom (seen tokens.now at) at (tree_of r.expr.value)
        (seen tokens.now r.next) r.next ps × Records R.after recorder.old ps recorder.new) }
{
    depth.enter()?;
    match terminal_at(tokens, at) {
        Some(t) => atom_of(alloc, tokens, t, at, at + 1, depth, recorder),
        None => Err(Stop::NoForm),
    }
}

/// The atom that begins with a terminal, from after it.
#[cycle(reading)]
#[inline(always)]
fn atom_of<R: Recorder>(
    alloc: Global,
    tokens: &[Terminal],
    t: Terminal,
    from: usize,
    next: usize,
    depth: Depth,
    recorder: &mut R,
) -> Result<Read, Stop>
    requires within { next ≤ length tokens.now }
    requires open { IsOpen depth }
    ensures answered { Answered tokens.now depth.room next
        (cap depth.room
        (capped_atom (same_reads depth) (inner_reads depth)
        (terminal t.entry ∷ seen tokens.now next))) result }
    ensures placed { next ≡ from + 1 → IfOk result (λ r. (ps : List Stretch) ×
        Placed Level.Atom (terminal t.entry ∷ seen tokens.now next) from (tree_of r.expr.value)
        (seen tokens.now r.next) r.next ps × Records R.after recorder.old ps recorder.new) }
{
    match t {
        Terminal::Ident(name) => {
            recorder.node(from, next)?;
            make_name(alloc, name, Context::Load, next)
        }
        Terminal::Op(Exact::LPar) => round(alloc, tokens, from, next, depth, recorder),
        _ => other_atom(alloc, tokens, t, from, next, depth, recorder),
    }
}

/// The same, kept apart from names, of which there are many, and from `(`, which nests deepest:
/// their frames on the stack are small.
#[cycle(reading)]
#[inline(never)]
fn other_atom<R: Recorder>(
    alloc: Global,
    tokens: &[Terminal],
    t: Terminal,
    from: usize,
    next: usize,
    depth: Depth,
    recorder: &mut R,
) -> Result<Read, Stop>
    requires within { next ≤ length tokens.now }
    requires open { IsOpen depth }
    ensures answered { Answered tokens.now depth.room next
        (cap depth.room
        (capped_atom (same_reads depth) (inner_reads depth)
        (terminal t.entry ∷ seen tokens.now next))) result }
    ensures placed { next ≡ from + 1 → IfOk result (λ r. (ps : List Stretch) ×
        Placed Level.Atom (terminal t.entry ∷ seen tokens.now next) from (tree_of r.expr.value)
        (seen tokens.now r.next) r.next ps × Records R.after recorder.old ps recorder.new) }
{
    match t {
        Terminal::Ident(name) => {
            recorder.node(from, next)?;
            make_name(alloc, name, Context::Load, next)
        }
        Terminal::Whole(value) => {
            recorder.node(from, next)?;
            make_whole(alloc, value, next)
        }
        Terminal::Number(number) => {
            recorder.node(from, next)?;
            make_number(alloc, number, next)
        }
        Terminal::Literal(first) => string_atom(alloc, tokens, first, from, next, depth, recorder),
        Terminal::FormattedBegin => formatted_atom(alloc, tokens, from, next, depth, recorder),
        Terminal::Op(sign) => match sign {
            Exact::LPar => round(alloc, tokens, from, next, depth, recorder),
            Exact::LSqb => square(alloc, tokens, from, next, depth, recorder),
            Exact::LBrace => curly(alloc, tokens, from, next, depth, recorder),
            Exact::Ellipsis => {
                recorder.node(from, next)?;
                make_constant(alloc, Constant::Ellipsis, next)
            }
            _ => Err(Stop::NoForm),
        },
        Terminal::Word(word) => match word {
            Keyword::None => {
                recorder.node(from, next)?;
                make_constant(alloc, Constant::None, next)
            }
            Keyword::True => {
                recorder.node(from, next)?;
                make_constant(alloc, Constant::Bool(true), next)
            }
            Keyword::False => {
                recorder.node(from, next)?;
                make_constant(alloc, Constant::Bool(false), next)
            }
            _ => Err(Stop::NoForm),
        },
        Terminal::FormattedEnd => Err(Stop::NoForm),
        Terminal::FormattedText(_) => Err(Stop::NoForm),
        Terminal::FieldBegin(_) => Err(Stop::NoForm),
        Terminal::SpecBegin => Err(Stop::NoForm),
        Terminal::FieldEnd => Err(Stop::NoForm),
        Terminal::Layout => Err(Stop::NoForm),
    }
}

/// The sign that has to stand after an expression.
#[inline(never)]
pub(crate) fn closed(tokens: &[Terminal], sign: Exact, e: Read) -> Result<Read, Stop>
    requires { e.next ≤ length tokens.now }
    ensures answered { Answered tokens.now e.height (e.next + 1)
        (reader.closed sign (seen tokens.now e.next) (tree_of e.expr.value)) result }
    ensures placed { IfOk result (λ r. ClosedBy sign tokens.now e r) }
{
    if is_op(tokens, e.next, sign) {
        let next = e.next + 1;
        Ok(Read {
            expr: e.expr,
            height: e.height,
            next,
        })
    } else {
        Err(Stop::NoForm)
    }
}

/// After a `(`.
#[cycle(reading)]
pub(crate) fn round<R: Recorder>(
    alloc: Global,
    tokens: &[Terminal],
    from: usize,
    at: usize,
    depth: Depth,
    recorder: &mut R,
) -> Result<Read, Stop>
    requires within { at ≤ length tokens.now }
    requires open { IsOpen depth }
    ensures answered { Answered tokens.now depth.room (at + 1)
        (cap depth.room
        (capped_round (same_reads depth) (inner_reads depth) (seen tokens.now at))) result }
    ensures placed { at ≡ from + 1 → IfOk result (λ r. (ps : List Stretch) ×
        Placed Level.Atom (terminals.Op Exact.LPar ∷ seen tokens.now at) from
        (tree_of r.expr.value) (seen tokens.now r.next) r.next ps ×
        Records R.after recorder.old ps recorder.new) }
{
    if is_op(tokens, at, Exact::RPar) {
        recorder.node(from, at + 1)?;
        return make_tuple(alloc, Vec::new(alloc), 0, at + 1, depth.room);
    }
    if is_word(tokens, at, Keyword::Yield) {
        let e = yield_step(alloc, tokens, at, at + 1, depth, recorder)?;
        return closed(tokens, Exact::RPar, e);
    }
    let first = read_elem(alloc, tokens, at, depth.same(), recorder)?;
    if is_op(tokens, first.next, Exact::Comma) {
        return group_tuple(alloc, tokens, first, from, depth, recorder);
    }
    if is_op(tokens, at, Exact::Star) {
        return Err(Stop::NoForm);
    }
    if starts_comp(tokens, first.next) {
        return generator_group(alloc, tokens, first, from, depth, recorder);
    }
    closed(tokens, Exact::RPar, first)
}

/// A tuple in round brackets, from the comma after its first element on.
#[cycle(reading)]
#[inline(never)]
fn group_tuple<R: Recorder>(
    alloc: Global,
    tokens: &[Terminal],
    first: Read,
    from: usize,
    depth: Depth,
    recorder: &mut R,
) -> Result<Read, Stop>
    requires open { IsOpen depth }
    requires low { first.height ≤ depth.room }
    requires comma { Stands (terminals.Op Exact.Comma) tokens.now first.next }
    ensures answered { Answered tokens.now depth.room (first.next)
        (cap depth.room
        (reader.and_then
        (reader.listing_of (inner_reads depth) (entries.Of Level.Elem) []
        (seen tokens.now (first.next + 1)))
        (λ es r. reader.closed Exact.RPar r
        (plain.Tuple (plain.an_expr (tree_of first.expr.value)
        (entries.singles es)) Context.Load)))) result }
    ensures placed { (i : List terminals.Terminal) (ps : List Stretch)
        → Placed Level.Elem i (from + 1) (tree_of first.expr.value)
        (seen tokens.now first.next) first.next ps → IfOk result (λ r. (qs : List Stretch) ×
        Placed Level.Atom (terminals.Op Exact.LPar ∷ i) from (tree_of r.expr.value)
        (seen tokens.now r.next) r.next (ps ++ qs) ×
        Records R.after recorder.old qs recorder.new) }
{
    let items = others(alloc, tokens, Item::Elem, first, depth, recorder)?;
    if !is_op(tokens, items.next, Exact::RPar) {
        return Err(Stop::NoForm);
    }
    recorder.node(from, items.next + 1)?;
    make_tuple(alloc, items.exprs, items.height, items.next + 1, depth.room)
}

/// A generator expression in round brackets, after its element.
#[cycle(reading)]
#[inline(never)]
fn generator_group<R: Recorder>(
    alloc: Global,
    tokens: &[Terminal],
    first: Read,
    from: usize,
    depth: Depth,
    recorder: &mut R,
) -> Result<Read, Stop>
    requires within { first.next ≤ length tokens.now }
    requires open { IsOpen depth }
    ensures answered { Answered tokens.now depth.room (first.next)
        (cap depth.room
        (reader.comps_closed (inner_reads depth) Exact.RPar (seen tokens.now first.next)
        (λ gs. plain.GeneratorExp (tree_of first.expr.value) (plain.comprehensions gs)))) result }
    ensures placed { (i : List terminals.Terminal) (ps : List Stretch)
        → true ≡ precedence.starts_comp (seen tokens.now first.next)
        → Placed Level.Named i (from + 1) (tree_of first.expr.value)
        (seen tokens.now first.next) first.next ps → IfOk result (λ r. (qs : List Stretch) ×
        Placed Level.Atom (terminals.Op Exact.LPar ∷ i) from (tree_of r.expr.value)
        (seen tokens.now r.next) r.next (ps ++ qs) ×
        Records R.after recorder.old qs recorder.new) }
{
    let comps = comps(alloc, tokens, first.next, depth, recorder)?;
    if !is_op(tokens, comps.next, Exact::RPar) {
        return Err(Stop::NoForm);
    }
    let next = comps.next + 1;
    recorder.node(from, next)?;
    make_generator(
        alloc,
        first.expr,
        comps.generators,
        first.height.max(comps.height),
        next,
        depth.room,
    )
}

/// After a `[`.
#[cycle(reading)]
fn square<R: Recorder>(
    alloc: Global,
    tokens: &[Terminal],
    from: usize,
    at: usize,
    depth: Depth,
    recorder: &mut R,
) -> Result<Read, Stop>
    requires within { at ≤ length tokens.now }
    requires open { IsOpen depth }
    ensures answered { Answered tokens.now depth.room (at + 1)
        (cap depth.room (reader.square (inner_reads depth) (seen tokens.now at))) result }
    ensures placed { at ≡ from + 1 → IfOk result (λ r. (ps : List Stretch) ×
        Placed Level.Atom (terminals.Op Exact.LSqb ∷ seen tokens.now at) from
        (tree_of r.expr.value) (seen tokens.now r.next) r.next ps ×
        Records R.after recorder.old ps recorder.new) }
{
    if lead_at(tokens, at) < Level::Elem.rank() {
        return if is_op(tokens, at, Exact::RSqb) {
            recorder.node(from, at + 1)?;
            make_list(alloc, Vec::new(alloc), 0, at + 1, depth.room)
        } else {
            Err(Stop::NoForm)
        };
    }
    let first = read_elem(alloc, tokens, at, depth.inner(), recorder)?;
    if starts_comp(tokens, first.next) {
        return if is_op(tokens, at, Exact::Star) {
            Err(Stop::NoForm)
        } else {
            list_comp(alloc, tokens, first, from, depth, recorder)
        };
    }
    let items = others(alloc, tokens, Item::Elem, first, depth, recorder)?;
    if !is_op(tokens, items.next, Exact::RSqb) {
        return Err(Stop::NoForm);
    }
    recorder.node(from, items.next + 1)?;
    make_list(alloc, items.exprs, items.height, items.next + 1, depth.room)
}

/// A list comprehension, after its element.
#[cycle(reading)]
#[inline(never)]
fn list_comp<R: Recorder>(
    alloc: Global,
    tokens: &[Terminal],
    first: Read,
    from: usize,
    depth: Depth,
    recorder: &mut R,
) -> Result<Read, Stop>
    requires within { first.next ≤ length tokens.now }
    requires open { IsOpen depth }
    ensures answered { Answered tokens.now depth.room (first.next)
        (cap depth.room
        (reader.comps_closed (inner_reads depth) Exact.RSqb (seen tokens.now first.next)
        (λ gs. plain.ListComp (tree_of first.expr.value) (plain.comprehensions gs)))) result }
    ensures placed { (i : List terminals.Terminal) (ps : List Stretch)
        → true ≡ precedence.starts_comp (seen tokens.now first.next)
        → Placed Level.Named i (from + 1) (tree_of first.expr.value)
        (seen tokens.now first.next) first.next ps → IfOk result (λ r. (qs : List Stretch) ×
        Placed Level.Atom (terminals.Op Exact.LSqb ∷ i) from (tree_of r.expr.value)
        (seen tokens.now r.next) r.next (ps ++ qs) ×
        Records R.after recorder.old qs recorder.new) }
{
    let comps = comps(alloc, tokens, first.next, depth, recorder)?;
    if !is_op(tokens, comps.next, Exact::RSqb) {
        return Err(Stop::NoForm);
    }
    let next = comps.next + 1;
    recorder.node(from, next)?;
    make_list_comp(
        alloc,
        first.expr,
        comps.generators,
        first.height.max(comps.height),
        next,
        depth.room,
    )
}
