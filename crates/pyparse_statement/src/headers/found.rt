//! What was read.

ghost use Rattle.std.specs.Prelude.{◌≡◌, ◌∷◌, [], map};
ghost use Rattle.pytree_node.specs.TreeOf.{item_of};
ghost use Rattle.pytree_height.specs.Heights as Heights;
ghost use Rattle.pygrammar.specs.FormHeights.{header_height};
ghost use Rattle.pygrammar.specs.FormOf.{header_of};

use pygrammar::Header;
use pytree_node::Item;

/// A header, the height of the highest expression in it, and the place after it; and how many nodes
/// are recorded up to the last one before the body.
#[derive(Drop)]
pub struct ReadHeader {
    pub header: Header,
    pub height: usize,
    pub next: usize,
    pub before: usize,
    pub ghost is_height: { height ≡ header_height (header_of header) },
}

/// An item of a `with`, the height of the higher expression in it, and the place after it.
#[derive(Drop)]
pub(crate) struct ReadItem {
    pub item: Item,
    pub height: usize,
    pub next: usize,
    pub ghost is_height: { height ≡ Heights.item_heights (item_of item ∷ []) },
}

/// Items of a `with`, the height of the highest expression in them, and the place after the last.
#[derive(Drop)]
pub(crate) struct ReadItems {
    pub items: Vec<Item>,
    pub height: usize,
    pub next: usize,
    pub ghost is_height: { height ≡ Heights.item_heights (map item_of items.items) },
}
