//! What was read.

ghost use Rattle.std.specs.Prelude.{◌≡◌, map};
ghost use Rattle.pytree_node.specs.TreeOf.{pattern_of};
ghost use Rattle.pytree_node.specs.Trees as plain;
ghost use Rattle.pytree_height.specs.Heights as Heights;

use pytree_node::Pattern;

/// A pattern, its height, and the place after it.
#[derive(Drop)]
pub struct ReadPattern {
    pub pattern: Box<Pattern>,
    pub height: usize,
    pub next: usize,
    pub ghost is_height: { height ≡ Heights.pattern_height (pattern_of pattern.value) },
}

/// Patterns of a list, the height of the highest, and the place after the last.
#[derive(Drop)]
pub(crate) struct Patterns {
    pub items: Vec<Pattern>,
    pub height: usize,
    pub next: usize,
    pub ghost is_height: { height
        ≡ Heights.pattern_heights (plain.patterns (map pattern_of items.items)) },
}
