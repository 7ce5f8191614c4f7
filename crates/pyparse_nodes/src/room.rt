//! Lists with room for what they hold.

ghost use Rattle.std.specs.Prelude.{◌≡◌, ◌++◌, ◌∷◌, [], MatchResult, OnErr, map, option_map};
ghost use Rattle.std.specs.Str.{chars};
ghost use Rattle.unicode_normalization.specs.Forms.{nfkc};
ghost use Rattle.pytree_node.specs.TreeOf.{boxed_of, keyword_of, option_of, tree_of};

use crate::Stop;
use crate::makers::identifier_of;
use pytree_node::{Expr, Keyword};
use std::alloc::Global;

/// Appends an item. Room is made for one item, and then for twice as many: most lists of a tree hold
/// one or two, and `Vec::push` makes room for four.
///
/// Answers `Stop::Memory` where there was no memory.
#[inline(always)]
pub fn append<T: Drop>(items: &mut Vec<T>, item: T) -> Result<(), Stop>
    ensures put { MatchResult result (λ _. items.new.items ≡ items.old.items ++ (item ∷ []))
        (λ s. s ≡ Stop.Memory) }
    ensures kept { OnErr result (items.new.items ≡ items.old.items) }
{
    if items.len() == items.capacity() {
        items.reserve_exact(items.len().max(1))?;
    }
    items.push(item)?;
    Ok(())
}

/// Appends an expression.
pub fn put(items: &mut Vec<Expr>, item: Box<Expr>) -> Result<(), Stop>
    ensures { MatchResult result (λ _. items.new.items ≡ items.old.items ++ (item.value ∷ []))
        (λ s. s ≡ Stop.Memory) }
{
    append(items, Box::into_inner(item))
}

/// Appends an expression, or that there is none.
pub fn put_option(items: &mut Vec<Option<Expr>>, item: Option<Box<Expr>>) -> Result<(), Stop>
    ensures { MatchResult result
        (λ _. map option_of items.new.items ≡ map option_of items.old.items ++ (boxed_of item ∷ []))
        (λ s. s ≡ Stop.Memory) }
{
    let item = match item {
        Some(item) => Some(Box::into_inner(item)),
        None => None,
    };
    append(items, item)
}

/// Appends an argument by name, or one of `**`.
#[tactic(auto, using(crate::proofs::Callers::Pushes::pushed_keyword, pytree_node::proofs::Callers::ExprShapes::keyword_tree))]
pub fn put_keyword(
    alloc: Global,
    keywords: &mut Vec<Keyword>,
    name: Option<&str>,
    value: Box<Expr>,
) -> Result<(), Stop>
    ensures { MatchResult result
        (λ _. map keyword_of keywords.new.items ≡ map keyword_of keywords.old.items
        ++ (record {
          arg = option_map (λ x. nfkc (chars x.now)) name.entry;
          value = tree_of value.value;
        } ∷ []))
        (λ s. s ≡ Stop.Memory) }
{
    let arg = match name {
        Some(name) => Some(identifier_of(alloc, name)?),
        None => None,
    };
    let value = Box::into_inner(value);
    append(keywords, Keyword { arg, value })
}
