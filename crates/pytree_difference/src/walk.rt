//! The walk over two trees that finds their first difference.

ghost use Rattle.std.specs.Prelude.{◌≡◌, ◌≤◌, Some, ℕ};
ghost use Rattle.pytree_node.specs.TreeOf.{module_of};
ghost use Rattle.pytree_fields.specs.Classes.{field_count};
ghost use Rattle.pytree_fields.specs.LentThings.{child_thing, node_thing, held_thing, row_things};
ghost use Rattle.pytree_fields.specs.Things.{NotRow, Row as RowThing, module_thing};
ghost use Rattle.pytree_difference.specs.Trails.{Walked};
ghost use Rattle.pytree_difference.specs.Inner.{Lent};

use crate::leaves::same_leaf;
use crate::trails::Trail;
use pytree_fields::{Child, Held, Node, Row, module_node};
use pytree_node::{Module, Version};

/// Whether what two fields hold is equal.
#[cycle(walk)]
fn same_field<T: Trail>(version: Version, a: Held<'_>, b: Held<'_>, trail: &mut T) -> bool
    ensures { Walked (held_thing version a.entry) (held_thing version b.entry)
        (T.steps trail.old) (T.steps trail.new) result }
{
    match a.row() {
        Some(x) => match b.row() {
            Some(y) => same_rows(version, x, y, trail),
            None => false,
        },
        None => match b.row() {
            Some(_) => false,
            None => same_held(version, a, b, trail),
        },
    }
}

/// Whether two fields that hold no list hold the same.
#[cycle(walk)]
fn same_held<T: Trail>(version: Version, a: Held<'_>, b: Held<'_>, trail: &mut T) -> bool
    requires a { NotRow (held_thing version a) }
    requires b { NotRow (held_thing version b) }
    ensures { Walked (held_thing version a.entry) (held_thing version b.entry)
        (T.steps trail.old) (T.steps trail.new) result }
{
    match a.child() {
        Some(x) => match b.child() {
            Some(y) => same_child(version, x, y, trail),
            None => false,
        },
        None => match b.child() {
            Some(_) => false,
            None => true,
        },
    }
}

/// Whether two leaves or nodes are equal.
#[cycle(walk)]
fn same_child<T: Trail>(version: Version, a: Child<'_>, b: Child<'_>, trail: &mut T) -> bool
    ensures { Walked (Some (child_thing version a.entry)) (Some (child_thing version b.entry))
        (T.steps trail.old) (T.steps trail.new) result }
{
    match a.leaf() {
        Some(x) => match b.leaf() {
            Some(y) => same_leaf(x, y),
            None => false,
        },
        None => match b.leaf() {
            Some(_) => false,
            None => same_node(version, &a.node(version), &b.node(version), trail),
        },
    }
}

/// Whether two nodes are equal.
#[cycle(walk)]
fn same_node<T: Trail>(version: Version, a: &Node<'_>, b: &Node<'_>, trail: &mut T) -> bool
    requires a { Lent a.now }
    requires b { Lent b.now }
    ensures { Walked (Some (node_thing version a.now)) (Some (node_thing version b.now))
        (T.steps trail.old) (T.steps trail.new) result }
{
    if a.class != b.class {
        return false;
    }
    // As slices, whose elements the prover can read one by one, unlike an array's.
    let held = &a.held[..];
    let other_held = &b.held[..];
    for i in 0..a.len {
        if !same_field(version, held[i], other_held[i], trail) {
            trail.push(i);
            return false;
        }
    }
    true
}

/// Whether two lists are equal.
#[cycle(walk)]
fn same_rows<T: Trail>(version: Version, a: Row<'_>, b: Row<'_>, trail: &mut T) -> bool
    ensures { Walked (Some (RowThing (row_things version a.entry))) (Some (RowThing (row_things version b.entry)))
        (T.steps trail.old) (T.steps trail.new) result }
{
    let len = a.len().min(b.len());
    for i in 0..len {
        if !same_child(version, a.get(i), b.get(i), trail) {
            trail.push(i);
            return false;
        }
    }
    if a.len() == b.len() {
        return true;
    }
    trail.push(len);
    false
}

/// Whether two modules are equal, as a version of Python shows them; where they aren't, the way to
/// their first difference is put before the steps of the trail.
pub(crate) fn walk_modules<T: Trail>(
    version: Version,
    a: &Module,
    b: &Module,
    trail: &mut T,
) -> bool
    ensures { Walked (Some (module_thing version (module_of a.now))) (Some (module_thing version (module_of b.now)))
        (T.steps trail.old) (T.steps trail.new) result }
{
    same_node(version, &module_node(a), &module_node(b), trail)
}
