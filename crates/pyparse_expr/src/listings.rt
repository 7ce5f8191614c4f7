//! Lists of expressions with commas between them.

ghost use Rattle.std.specs.Prelude.{◌≡◌, ◌+◌, ◌++◌, ◌<◌, ◌≤◌, ◌∷◌, [], List, IfOk, MatchResult};
ghost use Rattle.std.specs.Prelude.{length, map, max};
ghost use Rattle.pytree_node.specs.TreeOf.{tree_of};
ghost use Rattle.pytree_node.specs.Trees as plain;
ghost use Rattle.pytoken.specs.Terminals as terminals;
ghost use Rattle.pygrammar.specs.Capped.{cap};
ghost use Rattle.pygrammar.specs.Entries as entries;
ghost use Rattle.pygrammar.specs.Precedence as precedence;
ghost use Rattle.pygrammar.specs.Reader as reader;
ghost use Rattle.pyparse_nodes.specs.Answers.{Answered, Failed};
ghost use Rattle.pyparse_expr.specs.Inner.Found.{ListedAt, entries_of};
ghost use Rattle.pyparse_expr.specs.Inner.Lists.{item_of, item_reads, items_of, least_of, more_at};
ghost use Rattle.pyparse_expr.specs.Inner.PlacedLists.{MorePlaced, OthersPlaced, TuplePlaced};
ghost use Rattle.pyparse_expr.specs.Inner.Readings.{inner_reads};
ghost use Rattle.pyparse_reads.specs.Readings.{IsOpen};
ghost use Rattle.pyparse_nodes.specs.Views.{Stands, seen};
ghost use Rattle.pyplaces.specs.EntryPlaces as places;
ghost use Rattle.pyplaces.specs.Placed.{PlacedPiece};
ghost use Rattle.pyplaces.specs.Recording.{Records};
ghost use Rattle.pyplaces.specs.Stretches.{Stretch};

use crate::comprehensions::target_item;
use crate::levels::{read_elem, read_star_item};
use crate::slices::read_part;
use pygrammar::Level;
use pylex_listing::Exact;
use pyparse_nodes::{Items, Read, Stop, is_op, lead_at, make_tuple, put};
use pyparse_reads::{Depth, push};
use pyplaces::Recorder;
use pytoken::Terminal;
use pytree_node::Context;
use std::alloc::Global;

/// What stands between the commas of a list of expressions.
#[derive(Clone, Copy)]
pub(crate) enum Item {
    StarItem,
    Elem,
    Part,
    /// A `*` and a Primary, or a Primary.
    Target,
}

/// A list of one item.
pub(crate) fn first_items(alloc: Global, e: Read) -> Result<Items, Stop>
    ensures items { MatchResult result (λ r. map tree_of r.exprs.items ≡ tree_of e.expr.value ∷ [])
        (λ s. s ≡ Stop.Memory) }
    ensures next { MatchResult result (λ r. r.next ≡ e.next) (λ s. s ≡ Stop.Memory) }
    ensures height { MatchResult result (λ r. r.height ≡ e.height) (λ s. s ≡ Stop.Memory) }
{
    let mut exprs = Vec::new(alloc);
    put(&mut exprs, e.expr)?;
    Ok(Items {
        exprs,
        height: e.height,
        next: e.next,
    })
}

/// The least lead of a terminal that begins an item.
fn least_lead(item: Item) -> u8
    ensures { result ≡ least_of item }
{
    match item {
        Item::Part => Level::Slice.rank(),
        Item::StarItem => Level::Elem.rank(),
        Item::Elem => Level::Elem.rank(),
        Item::Target => Level::Elem.rank(),
    }
}

/// The Tuple of a first item, which begins at a place, and after which a comma stands.
#[cycle(reading)]
#[inline(never)]
pub(crate) fn tupled<R: Recorder>(
    alloc: Global,
    tokens: &[Terminal],
    item: Item,
    first: Read,
    at: usize,
    depth: Depth,
    recorder: &mut R,
) -> Result<Read, Stop>
    requires comma { Stands (terminals.Op Exact.Comma) tokens.now first.next }
    requires open { IsOpen depth }
    requires low { first.height ≤ depth.room }
    ensures answered { Answered tokens.now depth.room first.next
        (cap depth.room (reader.and_then (items_of depth item [] (seen tokens.now (first.next + 1)))
        (λ es r. reader.Found
        (plain.Tuple (plain.an_expr (tree_of first.expr.value)
        (entries.singles es)) Context.Load) r))) result }
    ensures placed { IfOk result (λ r. TuplePlaced R.after tokens.now (item_of item) first at r
        recorder.old recorder.new) }
{
    let items = others(alloc, tokens, item, first, depth, recorder)?;
    recorder.node(at, items.next)?;
    make_tuple(alloc, items.exprs, items.height, items.next, depth.room)
}

/// The items after a first one.
#[cycle(reading)]
pub(crate) fn others<R: Recorder>(
    alloc: Global,
    tokens: &[Terminal],
    item: Item,
    first: Read,
    depth: Depth,
    recorder: &mut R,
) -> Result<Items, Stop>
    requires within { first.next ≤ length tokens.now }
    requires open { IsOpen depth }
    requires low { first.height ≤ depth.room }
    ensures answered { MatchResult result
        (λ r. ListedAt tokens.now depth.room first.next
        (more_at depth item (entries.Single (tree_of first.expr.value) ∷ [])
        (seen tokens.now first.next)) r)
        (λ s. Failed s
        (more_at depth item (entries.Single (tree_of first.expr.value) ∷ [])
        (seen tokens.now first.next))) }
    ensures placed { IfOk result (λ r. OthersPlaced R.after tokens.now (item_of item) first r
        recorder.old recorder.new) }
{
    let items = first_items(alloc, first)?;
    listing(alloc, tokens, item, items, depth, recorder)
}

/// A list with the items after a comma, if one stands there.
#[cycle(reading)]
pub(crate) fn listing<R: Recorder>(
    alloc: Global,
    tokens: &[Terminal],
    item: Item,
    items: Items,
    depth: Depth,
    recorder: &mut R,
) -> Result<Items, Stop>
    requires within { items.next ≤ length tokens.now }
    requires open { IsOpen depth }
    requires low { items.height ≤ depth.room }
    ensures answered { MatchResult result
        (λ r. ListedAt tokens.now depth.room items.next
        (more_at depth item (entries_of items) (seen tokens.now items.next)) r)
        (λ s. Failed s (more_at depth item (entries_of items) (seen tokens.now items.next))) }
    ensures placed { IfOk result (λ r. MorePlaced R.after tokens.now (item_of item) items r
        recorder.old recorder.new) }
{
    let mut items = items;
    'more: loop {
        if !is_op(tokens, items.next, Exact::Comma) {
            return Ok(items);
        }
        let at = items.next + 1;
        if lead_at(tokens, at) < least_lead(item) {
            return Ok(Items {
                exprs: items.exprs,
                height: items.height,
                next: at,
            });
        }
        let e = read_item(alloc, tokens, item, at, depth, recorder)?;
        items = push(items, e)?;
    }
}

/// An item of a list.
#[cycle(reading)]
fn read_item<R: Recorder>(
    alloc: Global,
    tokens: &[Terminal],
    item: Item,
    at: usize,
    depth: Depth,
    recorder: &mut R,
) -> Result<Read, Stop>
    requires within { at ≤ length tokens.now }
    requires open { IsOpen depth }
    ensures answered { Answered tokens.now depth.room (at + 1)
        (item_reads depth item (seen tokens.now at)) result }
    ensures placed { IfOk result (λ r. (ps : List Stretch) ×
        PlacedPiece (item_of item) (seen tokens.now at) at (entries.Single (tree_of r.expr.value))
        (seen tokens.now r.next) r.next (places.Single ps) ×
        Records R.after recorder.old ps recorder.new) }
{
    match item {
        Item::StarItem => read_star_item(alloc, tokens, at, depth.inner(), recorder),
        Item::Elem => read_elem(alloc, tokens, at, depth.inner(), recorder),
        Item::Part => read_part(alloc, tokens, at, depth.inner(), recorder),
        Item::Target => target_item(alloc, tokens, at, depth, recorder),
    }
}
