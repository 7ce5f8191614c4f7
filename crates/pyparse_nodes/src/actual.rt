//! The arguments of a call that were read.

ghost use Rattle.std.specs.Prelude.{◌≡◌, map, max};
ghost use Rattle.pytree_node.specs.TreeOf.{keyword_of, tree_of};
ghost use Rattle.pytree_node.specs.Trees as plain;
ghost use Rattle.pytree_height.specs.Heights as Heights;

use pytree_node::{Expr, Keyword};

/// How an argument begins.
#[derive(Clone, Copy)]
pub enum ArgumentForm<'a> {
    /// With its expression.
    Single,
    /// With a `*`.
    Spread,
    /// With a `**`.
    Doubled,
    /// With this name and a `=`.
    Keyed(&'a str),
}

/// The arguments of a call so far, the height of the highest, and the place after the last.
#[derive(Drop)]
pub struct Actual {
    pub args: Vec<Expr>,
    pub keywords: Vec<Keyword>,
    /// Whether one by name or of `**` was read.
    pub keyed: bool,
    /// Whether one of `**` was read.
    pub doubled: bool,
    /// Whether one was read that may not stand there.
    pub wrong: bool,
    pub height: usize,
    pub next: usize,
    pub ghost is_height: { height
        ≡ max (Heights.list_height (map tree_of args.items))
        (Heights.keyword_heights (plain.keywords (map keyword_of keywords.items))) },
}
