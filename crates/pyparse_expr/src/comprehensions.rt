//! The clauses of comprehensions.

ghost use Rattle.std.specs.Prelude.{◌≡◌, ◌+◌, ◌++◌, ◌≤◌, ◌∷◌, [], List, IfOk, IfSome};
ghost use Rattle.std.specs.Prelude.{MatchOption, MatchResult, length, map, option_map};
ghost use Rattle.pytree_node.specs.TreeOf.{comprehension_of, tree_of};
ghost use Rattle.pytree_node.specs.Trees as plain;
ghost use Rattle.pytoken.specs.Terminals as terminals;
ghost use Rattle.pygrammar.specs.Entries as entries;
ghost use Rattle.pygrammar.specs.Reader as reader;
ghost use Rattle.pygrammar.specs.Targets.{stored};
ghost use Rattle.pyparse_nodes.specs.Answers.{Answered, Failed};
ghost use Rattle.pyparse_expr.specs.Inner.Clauses.{IsCutStart, MadeClause, NoClause, NoStart, StartsAt};
ghost use Rattle.pyparse_expr.specs.Inner.Found.{ClauseAt, ClausesAt, TestsAt};
ghost use Rattle.pyparse_expr.specs.Inner.Lists.{item_of, items_of};
ghost use Rattle.pyparse_expr.specs.Inner.PlacedLists.{TuplePlaced};
ghost use Rattle.pyparse_expr.specs.Inner.Readings.{inner_reads};
ghost use Rattle.pyparse_reads.specs.Readings.{IsOpen};
ghost use Rattle.pyparse_nodes.specs.Views.{Stands, seen};
ghost use Rattle.pyplaces.specs.Placed.{Placed, PlacedForIn, PlacedIfs};
ghost use Rattle.pyplaces.specs.Recording.{Records};
ghost use Rattle.pyplaces.specs.Rests.{Clauses};
ghost use Rattle.pyplaces.specs.Stretches.{Stretch};

use crate::climbing::climb;
use crate::listings::{Item, others};
use crate::primaries::read_primary;
use pygrammar::Level;
use pylex_listing::Exact;
use pyparse_nodes::{
    ForClause, ForClauses, Items, Read, Stop, append, is_op, is_word, make_starred, make_tuple,
    store,
};
use pyparse_reads::{Depth, no_items, push};
use pyplaces::Recorder;
use pytoken::{Keyword, Terminal};
use pytree_node::{Comprehension, Context};
use std::alloc::Global;

/// A target item in front of `in`.
#[cycle(reading)]
pub(crate) fn target_item<R: Recorder>(
    alloc: Global,
    tokens: &[Terminal],
    at: usize,
    depth: Depth,
    recorder: &mut R,
) -> Result<Read, Stop>
    requires within { at ≤ length tokens.now }
    requires open { IsOpen depth }
    ensures answered { Answered tokens.now depth.room (at + 1)
        (reader.target_item (inner_reads depth) (seen tokens.now at)) result }
    ensures placed { IfOk result (λ r. (ps : List Stretch) ×
        Placed Level.StarItem (seen tokens.now at) at (tree_of r.expr.value)
        (seen tokens.now r.next) r.next ps × Records R.after recorder.old ps recorder.new) }
{
    if is_op(tokens, at, Exact::Star) {
        let e = read_primary(alloc, tokens, at + 1, depth.inner(), recorder)?;
        recorder.node(at, e.next)?;
        make_starred(alloc, e, depth.room)
    } else {
        read_primary(alloc, tokens, at, depth.inner(), recorder)
    }
}

/// A target in front of `in`. A tuple may be higher by one than there is room for: what it stands
/// in is refused.
#[cycle(reading)]
pub(crate) fn read_target<R: Recorder>(
    alloc: Global,
    tokens: &[Terminal],
    at: usize,
    depth: Depth,
    recorder: &mut R,
) -> Result<Read, Stop>
    requires within { at ≤ length tokens.now }
    requires open { IsOpen depth }
    ensures answered { Answered tokens.now (depth.room + 1) (at + 1)
        (reader.read_target (inner_reads depth) (seen tokens.now at)) result }
    ensures placed { IfOk result (λ r. (ps : List Stretch) ×
        Placed Level.Stars (seen tokens.now at) at (tree_of r.expr.value)
        (seen tokens.now r.next) r.next ps × Records R.after recorder.old ps recorder.new) }
{
    let first = target_item(alloc, tokens, at, depth, recorder)?;
    if is_op(tokens, first.next, Exact::Comma) {
        target_tuple(alloc, tokens, first, at, depth, recorder)
    } else {
        Ok(first)
    }
}

/// The tuple of target items, the first of which begins at a place, from the comma after it on.
#[cycle(reading)]
fn target_tuple<R: Recorder>(
    alloc: Global,
    tokens: &[Terminal],
    first: Read,
    at: usize,
    depth: Depth,
    recorder: &mut R,
) -> Result<Read, Stop>
    requires comma { Stands (terminals.Op Exact.Comma) tokens.now first.next }
    requires open { IsOpen depth }
    requires low { first.height ≤ depth.room }
    ensures answered { Answered tokens.now (depth.room + 1) first.next
        (reader.and_then (items_of depth Item.Target [] (seen tokens.now (first.next + 1)))
        (λ es r. reader.Found
        (plain.Tuple (plain.an_expr (tree_of first.expr.value)
        (entries.singles es)) Context.Load) r)) result }
    ensures placed { IfOk result (λ r. TuplePlaced R.after tokens.now (item_of Item.Target) first at
        r recorder.old recorder.new) }
{
    let items = others(alloc, tokens, Item::Target, first, depth, recorder)?;
    match depth.room.checked_add(1) {
        Some(room) => {
            recorder.node(at, items.next)?;
            make_tuple(alloc, items.exprs, items.height, items.next, room)
        }
        // No memory holds a tree of such a height.
        None => Err(Stop::Memory),
    }
}

/// The conditions of a clause.
#[cycle(reading)]
fn ifs<R: Recorder>(
    alloc: Global,
    tokens: &[Terminal],
    at: usize,
    depth: Depth,
    recorder: &mut R,
) -> Result<Items, Stop>
    requires within { at ≤ length tokens.now }
    requires open { IsOpen depth }
    ensures answered { MatchResult result
        (λ r. TestsAt tokens.now at
        (reader.ifs_loop (inner_reads depth) (length (seen tokens.now at)) []
        (seen tokens.now at)) r)
        (λ s. Failed s
        (reader.ifs_loop (inner_reads depth) (length (seen tokens.now at)) []
        (seen tokens.now at))) }
    ensures placed { IfOk result (λ r. (ps : List Stretch) ×
        PlacedIfs (seen tokens.now at) at (map tree_of r.exprs.items) (seen tokens.now r.next)
        r.next ps × Records R.after recorder.old ps recorder.new) }
{
    let mut items = no_items(alloc, at);
    'tests: loop {
        if !is_word(tokens, items.next, Keyword::If) {
            return Ok(items);
        }
        let e = climb(
            alloc,
            tokens,
            Level::Or,
            items.next + 1,
            depth.inner(),
            recorder,
        )?;
        items = push(items, e)?;
    }
}

/// A clause, after its `for`.
#[cycle(reading)]
fn for_in<R: Recorder>(
    alloc: Global,
    tokens: &[Terminal],
    is_async: bool,
    at: usize,
    depth: Depth,
    recorder: &mut R,
) -> Result<ForClause, Stop>
    requires within { at ≤ length tokens.now }
    requires open { IsOpen depth }
    ensures answered { MatchResult result
        (λ r. ClauseAt tokens.now (at + 1)
        (reader.for_in_step (inner_reads depth) is_async (seen tokens.now at)) r)
        (λ s. Failed s (reader.for_in_step (inner_reads depth) is_async (seen tokens.now at))) }
    ensures placed { IfOk result (λ r. (ps : List Stretch) ×
        PlacedForIn is_async (seen tokens.now at) at (comprehension_of r.generator)
        (seen tokens.now r.next) r.next ps × Records R.after recorder.old ps recorder.new) }
{
    let target = read_target(alloc, tokens, at, depth, recorder)?;
    if !is_word(tokens, target.next, Keyword::In) {
        return Err(Stop::NoForm);
    }
    let iter = climb(
        alloc,
        tokens,
        Level::Or,
        target.next + 1,
        depth.inner(),
        recorder,
    )?;
    let tests = ifs(alloc, tokens, iter.next, depth, recorder)?;
    clause_made(target, iter, tests, is_async)
}

/// A clause of these parts.
#[inline(never)]
fn clause_made(target: Read, iter: Read, ifs: Items, is_async: bool) -> Result<ForClause, Stop>
    ensures { MatchResult result
        (λ c. MadeClause target iter ifs is_async c)
        (λ s. NoClause target iter ifs is_async s) }
{
    match clause_of(target, iter, ifs, is_async) {
        Some(clause) => Ok(clause),
        None => Err(Stop::NoForm),
    }
}

/// A clause of these parts, if the first has target shape.
#[inline(never)]
fn clause_of(target: Read, iter: Read, ifs: Items, is_async: bool) -> Option<ForClause>
    ensures next { IfSome result (λ c. c.next ≡ ifs.next) }
    ensures is { option_map (λ c. comprehension_of c.generator) result
        ≡ reader.generator_of (stored (tree_of target.expr.value)) (tree_of iter.expr.value)
        (map tree_of ifs.exprs.items) is_async }
{
    let height = target.height.max(iter.height.max(ifs.height));
    let mut target = Box::into_inner(target.expr);
    if !store(&mut target) {
        return None;
    }
    Some(ForClause {
        generator: Comprehension {
            target,
            iter: Box::into_inner(iter.expr),
            ifs: ifs.exprs,
            is_async,
        },
        height,
        next: ifs.next,
    })
}

/// No clauses.
fn no_clauses(alloc: Global, at: usize) -> ForClauses
    ensures generators { map comprehension_of result.generators.items ≡ [] }
    ensures next { result.next ≡ at }
{
    ForClauses {
        generators: Vec::new(alloc),
        height: 0,
        next: at,
    }
}

/// Clauses with one more.
#[tactic(auto, using(crate::proofs::ForClauses::ClausePushes::clause_pushed, crate::proofs::ForClauses::ClausePushes::clause_pushed_height))]
#[inline(never)]
fn push_clause(clauses: ForClauses, clause: ForClause) -> Result<ForClauses, Stop>
    ensures generators { MatchResult result
        (λ r. map comprehension_of r.generators.items
        ≡ map comprehension_of clauses.generators.items ++ (comprehension_of clause.generator ∷ []))
        (λ s. s ≡ Stop.Memory) }
    ensures next { MatchResult result (λ r. r.next ≡ clause.next) (λ s. s ≡ Stop.Memory) }
{
    let ForClauses {
        generators,
        height,
        next: _,
    } = clauses;
    let mut generators = generators;
    append(&mut generators, clause.generator)?;
    Ok(ForClauses {
        generators,
        height: height.max(clause.height),
        next: clause.next,
    })
}

/// Where a clause's target begins, and whether an `async` stands in front of its `for`.
#[derive(Clone, Copy)]
pub(crate) struct ClauseStart {
    pub is_async: bool,
    pub at: usize,
}

/// The start of a clause at the place, if one begins there.
fn clause_start(tokens: &[Terminal], at: usize) -> Result<Option<ClauseStart>, Stop>
    ensures { MatchResult result
        (λ o. MatchOption o (NoStart tokens.now at) (λ s. StartsAt tokens.now at s))
        (λ s. IsCutStart tokens.now at s) }
{
    if is_word(tokens, at, Keyword::For) {
        return Ok(Some(ClauseStart {
            is_async: false,
            at: at + 1,
        }));
    }
    if !is_word(tokens, at, Keyword::Async) {
        return Ok(None);
    }
    if !is_word(tokens, at + 1, Keyword::For) {
        return Err(Stop::NoForm);
    }
    Ok(Some(ClauseStart {
        is_async: true,
        at: at + 2,
    }))
}

/// The clauses of a comprehension, one after another.
#[cycle(reading)]
pub(crate) fn comps<R: Recorder>(
    alloc: Global,
    tokens: &[Terminal],
    at: usize,
    depth: Depth,
    recorder: &mut R,
) -> Result<ForClauses, Stop>
    requires within { at ≤ length tokens.now }
    requires open { IsOpen depth }
    ensures answered { MatchResult result
        (λ r. ClausesAt tokens.now at
        (reader.comps_loop (inner_reads depth) (length (seen tokens.now at)) []
        (seen tokens.now at)) r)
        (λ s. Failed s
        (reader.comps_loop (inner_reads depth) (length (seen tokens.now at)) []
        (seen tokens.now at))) }
    ensures placed { IfOk result (λ r. (ps : List Stretch) ×
        Clauses (seen tokens.now at) at (map comprehension_of r.generators.items)
        (seen tokens.now r.next) r.next ps × Records R.after recorder.old ps recorder.new) }
{
    let mut clauses = no_clauses(alloc, at);
    'more: loop {
        match clause_start(tokens, clauses.next)? {
            Some(start) => {
                let clause = for_in(alloc, tokens, start.is_async, start.at, depth, recorder)?;
                clauses = push_clause(clauses, clause)?;
            }
            None => return Ok(clauses),
        }
    }
}
