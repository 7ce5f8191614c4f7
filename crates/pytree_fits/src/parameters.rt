//! Whether parameters fit, with annotations or without.

ghost use Rattle.std.specs.Prelude.{◌≡◌, IfOk, map};
ghost use Rattle.pygrammar.specs.declared.levels.Level.TheVariants as levels;
ghost use Rattle.pytree_node.specs.TreeOf.{arg_of, arg_option_of, arguments_of};
ghost use Rattle.pytree_node.specs.Trees.{args, optional_arg};
ghost use Rattle.pytree_fits.specs.Slots.{arg_fits, each_arg_fits, fits_arguments, perhaps_arg_fits};
ghost use Rattle.pytree_fits.specs.Tests.{tests_at};

use crate::asking::Asked;
use crate::expressions::{boxed_fits, exprs_fit, options_fit};
use crate::leaves::{are_defaults, are_keyword_defaults};
use crate::names::is_name;
use pygrammar::Level;
use pytree_node::{Arg, Arguments};
use std::alloc::AllocError;

/// Whether the parameters of a function fit.
#[cycle(fits)]
#[tactic(auto, using(pytree_node::proofs::Callers::ExprShapes::expr_shapes))]
pub(crate) fn parameters_fit(
    asked: Asked,
    a: &Arguments,
    annotated: bool,
) -> Result<bool, AllocError>
    ensures { IfOk result
        (λ told. told ≡ fits_arguments (tests_at asked.extent asked.fields) annotated (arguments_of a.now)) }
{
    if !are_keyword_defaults(&a.kw_defaults, &a.kwonlyargs) {
        return Ok(false);
    }
    if !are_defaults(&a.defaults, &a.posonlyargs, &a.args) {
        return Ok(false);
    }
    if !each_parameter_fits(asked, &a.posonlyargs, annotated)? {
        return Ok(false);
    }
    if !each_parameter_fits(asked, &a.args, annotated)? {
        return Ok(false);
    }
    if !optional_parameter_fits(asked, &a.vararg, annotated, Level::StarItem)? {
        return Ok(false);
    }
    if !each_parameter_fits(asked, &a.kwonlyargs, annotated)? {
        return Ok(false);
    }
    if !options_fit(asked, &a.kw_defaults)? {
        return Ok(false);
    }
    if !optional_parameter_fits(asked, &a.kwarg, annotated, Level::Expression)? {
        return Ok(false);
    }
    exprs_fit(asked, &a.defaults, Level::Expression)
}

/// Whether a parameter fits, whose annotation is of this level.
#[cycle(fits)]
#[tactic(auto, using(pytree_node::proofs::Callers::ExprShapes::expr_shapes))]
fn parameter_fits(asked: Asked, a: &Arg, annotated: bool, level: Level) -> Result<bool, AllocError>
    ensures { IfOk result
        (λ told. told ≡ arg_fits (tests_at asked.extent asked.fields) annotated level (arg_of a.now)) }
{
    Ok(
        is_name(asked.alloc, a.arg.as_str())?
            && (a.annotation.is_none() || annotated)
            && boxed_fits(asked, &a.annotation, level)?,
    )
}

/// Whether all of some parameters fit.
#[cycle(fits)]
#[tactic(auto, using(pytree_node::proofs::Callers::ExprShapes::expr_shapes))]
fn each_parameter_fits(asked: Asked, all: &[Arg], annotated: bool) -> Result<bool, AllocError>
    ensures { IfOk result
        (λ told. told
        ≡ each_arg_fits (tests_at asked.extent asked.fields) annotated (args (map arg_of all.now))) }
{
    for a in all {
        if !parameter_fits(asked, a, annotated, Level::Expression)? {
            return Ok(false);
        }
    }
    Ok(true)
}

/// Whether a parameter fits, if there is one.
#[cycle(fits)]
#[tactic(auto, using(pytree_node::proofs::Callers::ExprShapes::expr_shapes))]
fn optional_parameter_fits(
    asked: Asked,
    a: &Option<Arg>,
    annotated: bool,
    level: Level,
) -> Result<bool, AllocError>
    ensures { IfOk result
        (λ told. told
        ≡ perhaps_arg_fits (tests_at asked.extent asked.fields) annotated level
        (optional_arg (arg_option_of a.now))) }
{
    match a {
        None => Ok(true),
        Some(a) => parameter_fits(asked, a, annotated, level),
    }
}
