//! Whether two leaves are equal.

ghost use Rattle.std.specs.Prelude.{◌≡◌, ◌↔◌, IsTrue};
ghost use Rattle.pytree_node.specs.TreeOf.{constant_of};
ghost use Rattle.pytree_fields.specs.LentThings.{leaf_of};
ghost use Rattle.pytree_fields.specs.Things.{without_kind};

use pynumber::Double;
use pytree_fields::Leaf;
use pytree_node::{Constant, Identifier, Points};

/// Whether two names are equal.
fn same_name(a: &Identifier, b: &Identifier) -> bool
    ensures { IsTrue result ↔ (a.now ≡ b.now) }
{
    a == b
}

/// Whether the doubles are equal.
#[tactic(auto, using(pynumber::specs::SameFloats::same_floats))]
fn same_double(a: &Double, b: &Double) -> bool
    ensures { IsTrue result ↔ (a.now ≡ b.now) }
{
    a == b
}

/// Whether the bytes are equal.
fn same_bytes(a: &[u8], b: &[u8]) -> bool
    ensures { IsTrue result ↔ (a.now ≡ b.now) }
{
    a == b
}

/// Whether the texts are equal.
fn same_points(a: &Points, b: &Points) -> bool
    ensures { IsTrue result ↔ (a.now ≡ b.now) }
{
    a == b
}

/// Whether the values of constants are equal, with their kinds.
fn same_constant(a: &Constant, b: &Constant) -> bool
    ensures { IsTrue result ↔ (constant_of a.now ≡ constant_of b.now) }
{
    match (a, b) {
        (Constant::None, Constant::None) => true,
        (Constant::Ellipsis, Constant::Ellipsis) => true,
        (Constant::Bool(a), Constant::Bool(b)) => a == b,
        (Constant::Int(a), Constant::Int(b)) => a == b,
        (Constant::Float(a), Constant::Float(b)) => same_double(a, b),
        (Constant::Imaginary(a), Constant::Imaginary(b)) => same_double(a, b),
        (Constant::Str(a), Constant::Str(b)) => same_points(a, b),
        (Constant::UnicodeStr(a), Constant::UnicodeStr(b)) => same_points(a, b),
        (Constant::Bytes(a), Constant::Bytes(b)) => same_bytes(a, b),
        _ => false,
    }
}

/// Whether the values of constants are equal, their kinds aside.
fn same_value(a: &Constant, b: &Constant) -> bool
    ensures { IsTrue result ↔ (without_kind (constant_of a.now) ≡ without_kind (constant_of b.now)) }
{
    match (a, b) {
        (Constant::Str(a), Constant::UnicodeStr(b)) => same_points(a, b),
        (Constant::UnicodeStr(a), Constant::Str(b)) => same_points(a, b),
        _ => same_constant(a, b),
    }
}

/// Whether two leaves are equal.
pub(crate) fn same_leaf(a: Leaf<'_>, b: Leaf<'_>) -> bool
    ensures { IsTrue result ↔ (leaf_of a.entry ≡ leaf_of b.entry) }
{
    match (a, b) {
        (Leaf::Operator(a), Leaf::Operator(b)) => a == b,
        (Leaf::Unary(a), Leaf::Unary(b)) => a == b,
        (Leaf::Bool(a), Leaf::Bool(b)) => a == b,
        (Leaf::Comparison(a), Leaf::Comparison(b)) => a == b,
        (Leaf::Context(a), Leaf::Context(b)) => a == b,
        (Leaf::Conversion(a), Leaf::Conversion(b)) => a == b,
        (Leaf::Name(a), Leaf::Name(b)) => same_name(a, b),
        (Leaf::Value(a), Leaf::Value(b)) => same_value(a, b),
        (Leaf::Singleton(a), Leaf::Singleton(b)) => same_constant(a, b),
        (Leaf::Number(a), Leaf::Number(b)) => a == b,
        (Leaf::Flag(a), Leaf::Flag(b)) => a == b,
        (Leaf::Kind, Leaf::Kind) => true,
        (Leaf::None, Leaf::None) => true,
        _ => false,
    }
}
