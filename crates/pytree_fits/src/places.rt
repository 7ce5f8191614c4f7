//! The places of expressions: levels, contexts, and which classes stand there.

ghost use Rattle.std.specs.Prelude.{◌≡◌};
ghost use Rattle.pytree_node.specs.TreeOf.{tree_of};
ghost use Rattle.pytree_fits.specs.Slots.{is_a_name, is_context, is_single, is_starred, member_level};
ghost use Rattle.pytree_fits.specs.Slots.{takes_slice, takes_star};

use pygrammar::Level;
use pytree_node::{Context, Expr};

/// Whether a Starred may stand at a level by itself.
pub(crate) fn takes_star(level: Level) -> bool
    ensures { result ≡ takes_star level }
{
    match level {
        Level::Value | Level::Stars | Level::StarItem | Level::Elem | Level::Part => true,
        _ => false,
    }
}

/// Whether a Slice may stand at a level by itself.
pub(crate) fn takes_slice(level: Level) -> bool
    ensures { result ≡ takes_slice level }
{
    match level {
        Level::Slices | Level::Part | Level::Slice => true,
        _ => false,
    }
}

/// The level of the members of a Tuple.
pub(crate) fn member_level(level: Level) -> Level
    ensures { result ≡ member_level level }
{
    match level {
        Level::Slices => Level::Part,
        _ => Level::Elem,
    }
}

/// Whether a context is that of its place.
pub(crate) fn is_context(place: Context, ctx: Context) -> bool
    ensures { result ≡ is_context place ctx }
{
    match (place, ctx) {
        (Context::Load, Context::Load) => true,
        (Context::Store, Context::Store) => true,
        (Context::Del, Context::Del) => true,
        _ => false,
    }
}

/// Whether an expression is a Name.
#[tactic(auto, using(pytree_node::proofs::Callers::ExprShapes::expr_shapes))]
pub(crate) fn is_a_name(expr: &Expr) -> bool
    ensures { result ≡ is_a_name (tree_of expr.now) }
{
    match expr {
        Expr::Name { .. } => true,
        _ => false,
    }
}

/// Whether an expression is a Starred.
#[tactic(auto, using(pytree_node::proofs::Callers::ExprShapes::expr_shapes))]
pub(crate) fn is_starred(expr: &Expr) -> bool
    ensures { result ≡ is_starred (tree_of expr.now) }
{
    match expr {
        Expr::Starred { .. } => true,
        _ => false,
    }
}

/// Whether an expression is a Name, an Attribute or a Subscript.
#[tactic(auto, using(pytree_node::proofs::Callers::ExprShapes::expr_shapes))]
pub(crate) fn is_single(expr: &Expr) -> bool
    ensures { result ≡ is_single (tree_of expr.now) }
{
    match expr {
        Expr::Name { .. } => true,
        Expr::Attribute { .. } => true,
        Expr::Subscript { .. } => true,
        _ => false,
    }
}
