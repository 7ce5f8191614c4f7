//! Whether targets fit their places.

ghost use Rattle.std.specs.Prelude.{◌≡◌, IfOk, map};
ghost use Rattle.pytree_node.specs.TreeOf.{tree_of};
ghost use Rattle.pytree_node.specs.Trees.{exprs};
ghost use Rattle.pytree_fits.specs.Slots.{each_target_fits, fits_target};
ghost use Rattle.pytree_fits.specs.Tests.{tests_at};

use crate::asking::Asked;
use crate::expressions::expr_fits;
use crate::names::is_name;
use crate::places::{is_context, is_starred};
use pygrammar::Level;
use pytree_node::{Context, Expr};
use std::alloc::AllocError;

/// Whether an expression is a target, with the contexts of its place.
#[cycle(fits)]
#[tactic(auto, using(pytree_node::proofs::Callers::ExprShapes::expr_shapes))]
pub(crate) fn target_fits(asked: Asked, expr: &Expr, place: Context) -> Result<bool, AllocError>
    ensures { IfOk result
        (λ told. told ≡ fits_target (tests_at asked.extent asked.fields) place (tree_of expr.now)) }
{
    match expr {
        Expr::Name { id, ctx } => Ok(is_context(place, *ctx) && is_name(asked.alloc, id.as_str())?),
        Expr::Attribute { value, attr, ctx } => Ok(
            is_context(place, *ctx)
                && is_name(asked.alloc, attr.as_str())?
                && expr_fits(asked, value, Level::Expression)?,
        ),
        Expr::Subscript { value, slice, ctx } => Ok(
            is_context(place, *ctx)
                && expr_fits(asked, value, Level::Expression)?
                && expr_fits(asked, slice, Level::Slices)?,
        ),
        Expr::Tuple { elts, ctx } => Ok(
            is_context(place, *ctx) && targets_fit(asked, elts, place)?,
        ),
        Expr::List { elts, ctx } => Ok(is_context(place, *ctx) && targets_fit(asked, elts, place)?),
        Expr::Starred { value, ctx } => Ok(
            is_context(Context::Store, place)
                && is_context(place, *ctx)
                && !is_starred(value)
                && target_fits(asked, value, place)?,
        ),
        _ => Ok(false),
    }
}

/// Whether each of some expressions is a target.
#[cycle(fits)]
#[tactic(auto, using(pytree_node::proofs::Callers::ExprShapes::expr_shapes))]
pub(crate) fn targets_fit(asked: Asked, es: &[Expr], place: Context) -> Result<bool, AllocError>
    ensures { IfOk result
        (λ told. told
        ≡ each_target_fits (tests_at asked.extent asked.fields) place (exprs (map tree_of es.now))) }
{
    for e in es {
        if !target_fits(asked, e, place)? {
            return Ok(false);
        }
    }
    Ok(true)
}
