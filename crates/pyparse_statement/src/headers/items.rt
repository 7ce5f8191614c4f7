//! The items of a `with`.
//!
//! Python language reference, 8.5 "The `with` statement".

ghost use Rattle.std.specs.Prelude.{◌≡◌, ◌+◌, ◌++◌, ◌∷◌, ◌≤◌, MatchResult, [], length, map, max};
ghost use Rattle.pytree_node.specs.TreeOf.{item_of, tree_of};
ghost use Rattle.pytree_node.specs.Trees as plain;
ghost use Rattle.pygrammar.specs.Forms.{item};
ghost use Rattle.pygrammar.specs.LineReader as line_reader;
ghost use Rattle.pyparse_nodes.specs.Views.{seen};
ghost use Rattle.pyparse_nodes.specs.Answers.{PartAnswered};
ghost use Rattle.pyparse_reads.specs.Readings.{reads};
ghost use Rattle.pyparse_statement.specs.Inner.Items.{ItemsAnswered, more_items};
ghost use Rattle.std.specs.Prelude.{IfOk};
ghost use Rattle.pyparse_statement.specs.PlacedParts.{ItemListPlaced, ItemPlaced, ItemsPlaced};

use crate::headers::found::{ReadItem, ReadItems};
use crate::headers::item_targets::item_target;
use crate::statements::starts_expression;
use pygrammar::Level;
use pylex_listing::Exact;
use pyparse_nodes::{Read, Stop, append, is_op, is_word};
use pyparse_reads::{Depth, ReadsExpressions};
use pyplaces::Recorder;
use pytoken::{Keyword, Terminal};
use pytree_node::Item;
use std::alloc::Global;

/// An item with no target.
fn bare_item(e: Read) -> ReadItem
    ensures item { item_of result.item ≡ item (tree_of e.expr.value) None }
    ensures next { result.next ≡ e.next }
{
    ReadItem {
        height: e.height,
        next: e.next,
        item: Item {
            context_expr: Box::into_inner(e.expr),
            optional_vars: None,
        },
    }
}

/// An item with its target.
fn item_as(e: Read, target: Read) -> ReadItem
    ensures item { item_of result.item
        ≡ item (tree_of e.expr.value) (Some (tree_of target.expr.value)) }
    ensures next { result.next ≡ target.next }
{
    ReadItem {
        height: e.height.max(target.height),
        next: target.next,
        item: Item {
            context_expr: Box::into_inner(e.expr),
            optional_vars: Some(Box::into_inner(target.expr)),
        },
    }
}

/// An item at a place.
fn read_item<E: ReadsExpressions, R: Recorder>(
    alloc: Global,
    tokens: &[Terminal],
    at: usize,
    depth: Depth,
    recorder: &mut R,
) -> Result<ReadItem, Stop>
    requires { at ≤ length tokens.now }
    ensures answered { PartAnswered tokens.now (at + 1)
        (line_reader.read_item (reads depth) (seen tokens.now at)) (λ r. item_of r.item)
        (λ r. r.next) result }
    ensures placed { IfOk result (ItemPlaced R.after tokens.now at recorder.old recorder.new) }
{
    let e = E::read_at(alloc, tokens, Level::Expression, at, depth, recorder)?;
    if !is_word(tokens, e.next, Keyword::As) {
        return Ok(bare_item(e));
    }
    let target = item_target::<E, R>(alloc, tokens, e.next + 1, depth, recorder)?;
    Ok(item_as(e, target))
}

/// No items, at a place.
fn no_items(alloc: Global, at: usize) -> ReadItems
    ensures items { map item_of result.items.items ≡ [] }
    ensures next { result.next ≡ at }
{
    ReadItems {
        items: Vec::new(alloc),
        height: 0,
        next: at,
    }
}

/// One more item.
#[tactic(auto, using(crate::proofs::headers::ItemPushes::item_pushed, crate::proofs::headers::ItemPushes::item_pushed_height))]
fn push(items: ReadItems, item: ReadItem) -> Result<ReadItems, Stop>
    ensures items { MatchResult result
        (λ r. map item_of r.items.items ≡ map item_of items.items.items ++ (item_of item.item ∷ []))
        (λ s. s ≡ Stop.Memory) }
    ensures next { MatchResult result (λ r. r.next ≡ item.next) (λ s. s ≡ Stop.Memory) }
{
    let ReadItems {
        items,
        height,
        next: _,
    } = items;
    let mut items = items;
    append(&mut items, item.item)?;
    Ok(ReadItems {
        items,
        height: height.max(item.height),
        next: item.next,
    })
}

/// The same items, with another place after them.
fn placed(items: ReadItems, next: usize) -> ReadItems
    ensures items { map item_of result.items.items ≡ map item_of items.items.items }
    ensures next { result.next ≡ next }
{
    ReadItems {
        items: items.items,
        height: items.height,
        next,
    }
}

/// Whether another item has to follow a comma: in brackets one may end the list.
fn goes_on(tokens: &[Terminal], at: usize, in_brackets: bool) -> bool
    ensures { result ≡ more_items in_brackets (seen tokens.now at) }
{
    !in_brackets || starts_expression(tokens, at)
}

/// Items with commas between them.
fn items_at<E: ReadsExpressions, R: Recorder>(
    alloc: Global,
    tokens: &[Terminal],
    in_brackets: bool,
    at: usize,
    depth: Depth,
    recorder: &mut R,
) -> Result<ReadItems, Stop>
    requires { at ≤ length tokens.now }
    ensures answered { ItemsAnswered tokens.now (at + 1)
        (line_reader.commas_of (line_reader.read_item (reads depth)) (more_items in_brackets)
        (seen tokens.now at)) result }
    ensures placed { IfOk result (ItemListPlaced R.after in_brackets tokens.now at recorder.old
        recorder.new) }
{
    let mut items = no_items(alloc, at);
    'more: loop {
        let item = read_item::<E, R>(alloc, tokens, items.next, depth, recorder)?;
        let grown = push(items, item)?;
        if !is_op(tokens, grown.next, Exact::Comma) {
            return Ok(grown);
        }
        let next = grown.next + 1;
        items = placed(grown, next);
        if !goes_on(tokens, next, in_brackets) {
            return Ok(items);
        }
    }
}

/// Items in brackets, directly in front of a colon.
fn bracketed<E: ReadsExpressions, R: Recorder>(
    alloc: Global,
    tokens: &[Terminal],
    at: usize,
    depth: Depth,
    recorder: &mut R,
) -> Result<ReadItems, Stop>
    requires { at ≤ length tokens.now }
    ensures answered { ItemsAnswered tokens.now (at + 1)
        (line_reader.bracketed (reads depth) (seen tokens.now at)) result }
    ensures placed { IfOk result (ItemsPlaced R.after tokens.now at recorder.old recorder.new) }
{
    if !is_op(tokens, at, Exact::LPar) {
        return Err(Stop::NoForm);
    }
    let items = items_at::<E, R>(alloc, tokens, true, at + 1, depth, recorder)?;
    if !is_op(tokens, items.next, Exact::RPar) {
        return Err(Stop::NoForm);
    }
    let next = items.next + 1;
    if !is_op(tokens, next, Exact::Colon) {
        return Err(Stop::NoForm);
    }
    Ok(placed(items, next))
}

/// The items of a `with`: where they can be read as items in brackets, they are that.
pub(crate) fn read_items<E: ReadsExpressions, R: Recorder + Drop>(
    alloc: Global,
    tokens: &[Terminal],
    at: usize,
    depth: Depth,
    recorder: &mut R,
) -> Result<ReadItems, Stop>
    requires { at ≤ length tokens.now }
    ensures answered { ItemsAnswered tokens.now (at + 1)
        (line_reader.read_items (reads depth) (seen tokens.now at)) result }
    ensures placed { IfOk result (ItemsPlaced R.after tokens.now at recorder.old
        recorder.new) }
{
    let mut inside = recorder.fresh()?;
    match bracketed::<E, R>(alloc, tokens, at, depth, &mut inside) {
        Ok(items) => {
            recorder.add(inside)?;
            Ok(items)
        }
        Err(Stop::NoForm) => items_at::<E, R>(alloc, tokens, false, at, depth, recorder),
        Err(stop) => Err(stop),
    }
}
