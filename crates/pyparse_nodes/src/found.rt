//! What was read.

ghost use Rattle.std.specs.Prelude.{◌≡◌, ◌++◌, ◌∷◌, MatchResult, [], length, map, max};
ghost use Rattle.pytree_node.specs.TreeOf.{boxed_of, comprehension_of, option_of, tree_of};
ghost use Rattle.pytree_node.specs.Trees.{comprehensions, optional, optionals};
ghost use Rattle.pytree_height.specs.Heights as Heights;

use crate::Stop;
use pytree_node::{Comprehension, Expr, Points};
use std::alloc::Global;

/// An expression, its height, and the place after it.
#[derive(Drop)]
pub struct Read {
    pub expr: Box<Expr>,
    pub height: usize,
    pub next: usize,
    pub ghost is_height: { height ≡ Heights.height (tree_of expr.value) },
}

/// The expressions of a list, the height of the highest, and the place after the last.
#[derive(Drop)]
pub struct Items {
    pub exprs: Vec<Expr>,
    pub height: usize,
    pub next: usize,
    pub ghost is_height: { height ≡ Heights.list_height (map tree_of exprs.items) },
}

/// A key, or none after a `**`, and a value, the height of the higher one, and the place after.
#[derive(Drop)]
pub struct Pair {
    pub key: Option<Box<Expr>>,
    pub value: Box<Expr>,
    pub height: usize,
    pub next: usize,
    pub ghost is_height: { height
        ≡ max (Heights.optional_height (optional (boxed_of key)))
        (Heights.height (tree_of value.value)) },
}

/// The keys and values of a dictionary.
#[derive(Drop)]
pub struct Pairs {
    pub keys: Vec<Option<Expr>>,
    pub values: Vec<Expr>,
    pub height: usize,
    pub next: usize,
    pub ghost is_height: { height
        ≡ max (Heights.optional_heights (optionals (map option_of keys.items)))
        (Heights.list_height (map tree_of values.items)) },
    pub ghost same: { length keys.items ≡ length values.items },
}

/// A clause of a comprehension.
#[derive(Drop)]
pub struct ForClause {
    pub generator: Comprehension,
    pub height: usize,
    pub next: usize,
    pub ghost is_height: { height
        ≡ Heights.comprehension_heights (comprehensions (comprehension_of generator ∷ [])) },
}

/// The clauses of a comprehension.
#[derive(Drop)]
pub struct ForClauses {
    pub generators: Vec<Comprehension>,
    pub height: usize,
    pub next: usize,
    pub ghost is_height: { height
        ≡ Heights.comprehension_heights (comprehensions (map comprehension_of generators.items)) },
}

/// An expression that may be left out.
#[derive(Drop)]
pub struct Optional {
    pub expr: Option<Box<Expr>>,
    pub height: usize,
    pub next: usize,
    pub ghost is_height: { height ≡ Heights.optional_height (optional (boxed_of expr)) },
}

/// The values of a JoinedStr so far: those up to its last field, and the text after it, which may
/// be empty. The height of the highest, and the place after all.
#[derive(Drop)]
pub struct JoinedValues {
    pub values: Vec<Expr>,
    pub text: Points,
    pub height: usize,
    pub next: usize,
    pub ghost is_height: { height ≡ Heights.list_height (map tree_of values.items) },
}
