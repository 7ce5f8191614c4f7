//! Parameters and arguments that were read.

ghost use Rattle.std.specs.Prelude.{◌≡◌, map, max};
ghost use Rattle.pytree_node.specs.TreeOf.{arguments_of, keyword_of, tree_of};
ghost use Rattle.pytree_node.specs.Trees as plain;
ghost use Rattle.pytree_height.specs.Heights as Heights;

use pytree_node::{Arguments, Expr, Keyword};

/// The parameters of a function, the height of the highest expression in them, and the place
/// after them.
#[derive(Drop)]
pub struct ReadParameters {
    pub arguments: Arguments,
    pub height: usize,
    pub next: usize,
    pub ghost is_height: { height ≡ Heights.arguments_height (arguments_of arguments) },
}

/// Arguments, the height of the highest, and the place after them.
#[derive(Drop)]
pub struct ReadArguments {
    pub args: Vec<Expr>,
    pub keywords: Vec<Keyword>,
    pub height: usize,
    pub next: usize,
    pub ghost is_height: { height
        ≡ max (Heights.list_height (map tree_of args.items))
        (Heights.keyword_heights (plain.keywords (map keyword_of keywords.items))) },
}
