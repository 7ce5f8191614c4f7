//! Whether simple statements fit, by their fields.

ghost use Rattle.std.specs.Prelude.{◌≡◌, ◌&&◌, ◌||◌, IfOk, map, not};
ghost use Rattle.std.specs.List.{list_all};
ghost use Rattle.pytree_node.specs.Profiles.{has_types};
ghost use Rattle.pygrammar.specs.declared.levels.Level.TheVariants as levels;
ghost use Rattle.pytree_node.specs.declared.operators.Context.TheVariants as contexts;
ghost use Rattle.pytree_node.specs.TreeOf.{boxed_of, option_of, tree_of, type_param_of};
ghost use Rattle.pytree_node.specs.Trees.{exprs, optional};
ghost use Rattle.pytree_fits.specs.Names.{is_name};
ghost use Rattle.pytree_fits.specs.Slots.{each_target_fits, fits_at, fits_target, is_a_name, is_single};
ghost use Rattle.pytree_fits.specs.Slots.{perhaps_fits};
ghost use Rattle.pytree_fits.specs.Statements.{has_one, perhaps_target_fits, raised_fits};
ghost use Rattle.pytree_fits.specs.Statements.{type_param_fits, types_fit};
ghost use Rattle.pytree_fits.specs.Tests.{tests_at};

use crate::asking::Asked;
use crate::expressions::{boxed_fits, expr_fits};
use crate::names::{are_names, is_name};
use crate::places::{is_a_name, is_single};
use crate::targets::{target_fits, targets_fit};
use pygrammar::Level;
use pytree_node::{Context, Expr, Identifier, Profile, TypeParam, Version};
use std::alloc::{AllocError, Global};

/// Whether an expression that may be absent fits a level.
pub(crate) fn option_fits(
    asked: Asked,
    expr: &Option<Expr>,
    level: Level,
) -> Result<bool, AllocError>
    ensures { IfOk result
        (λ told. told
        ≡ perhaps_fits (tests_at asked.extent asked.fields) level (optional (option_of expr.now))) }
{
    match expr {
        None => Ok(true),
        Some(expr) => expr_fits(asked, expr, level),
    }
}

/// Whether each of some names is a name.
pub(crate) fn names_fit(alloc: Global, names: &[Identifier]) -> Result<bool, AllocError>
    ensures { IfOk result (λ told. told ≡ (has_one names.now && list_all is_name names.now)) }
{
    if names.is_empty() {
        return Ok(false);
    }
    are_names(alloc, names)
}

/// Whether there are targets, each of which fits.
pub(crate) fn some_targets_fit(
    asked: Asked,
    targets: &[Expr],
    place: Context,
) -> Result<bool, AllocError>
    ensures { IfOk result
        (λ told. told
        ≡ (has_one (map tree_of targets.now) && each_target_fits (tests_at asked.extent asked.fields) place
        (exprs (map tree_of targets.now)))) }
{
    if targets.is_empty() {
        return Ok(false);
    }
    targets_fit(asked, targets, place)
}

/// Whether an assignment fits.
pub(crate) fn assign_fits(asked: Asked, targets: &[Expr], value: &Expr) -> Result<bool, AllocError>
    ensures { IfOk result
        (λ told. told
        ≡ (has_one (map tree_of targets.now) && each_target_fits (tests_at asked.extent asked.fields)
        contexts.Store (exprs (map tree_of targets.now)) && fits_at (tests_at asked.extent asked.fields)
        levels.Value (tree_of value.now))) }
{
    Ok(some_targets_fit(asked, targets, Context::Store)? && expr_fits(asked, value, Level::Value)?)
}

/// Whether an assignment with an operator fits.
pub(crate) fn aug_assign_fits(asked: Asked, target: &Expr, value: &Expr) -> Result<bool, AllocError>
    ensures { IfOk result
        (λ told. told
        ≡ (is_single (tree_of target.now) && fits_target (tests_at asked.extent asked.fields) contexts.Store
        (tree_of target.now) && fits_at (tests_at asked.extent asked.fields) levels.Value (tree_of value.now))) }
{
    if !is_single(target) {
        return Ok(false);
    }
    if !target_fits(asked, target, Context::Store)? {
        return Ok(false);
    }
    expr_fits(asked, value, Level::Value)
}

/// Whether an assignment with an annotation fits.
pub(crate) fn ann_assign_fits(
    asked: Asked,
    target: &Expr,
    annotation: &Expr,
    value: &Option<Box<Expr>>,
    simple: bool,
) -> Result<bool, AllocError>
    ensures { IfOk result
        (λ told. told
        ≡ (is_single (tree_of target.now) &&
        (not simple || is_a_name (tree_of target.now)) && fits_target (tests_at asked.extent asked.fields)
        contexts.Store (tree_of target.now) && fits_at (tests_at asked.extent asked.fields) levels.Expression
        (tree_of annotation.now) && perhaps_fits (tests_at asked.extent asked.fields) levels.Value
        (optional (boxed_of value.now)))) }
{
    if !is_single(target) {
        return Ok(false);
    }
    if simple && !is_a_name(target) {
        return Ok(false);
    }
    if !target_fits(asked, target, Context::Store)? {
        return Ok(false);
    }
    if !expr_fits(asked, annotation, Level::Expression)? {
        return Ok(false);
    }
    boxed_fits(asked, value, Level::Value)
}

/// Whether what `raise` raises fits, and from what.
pub(crate) fn raise_fits(
    asked: Asked,
    exc: &Option<Box<Expr>>,
    cause: &Option<Box<Expr>>,
) -> Result<bool, AllocError>
    ensures { IfOk result
        (λ told. told
        ≡ raised_fits (tests_at asked.extent asked.fields) (boxed_of exc.now) (boxed_of cause.now)) }
{
    match (exc, cause) {
        (None, None) => Ok(true),
        (Some(exc), None) => expr_fits(asked, exc, Level::Expression),
        (None, Some(_)) => Ok(false),
        (Some(exc), Some(cause)) => Ok(
            expr_fits(asked, exc, Level::Expression)?
                && expr_fits(asked, cause, Level::Expression)?,
        ),
    }
}

/// Whether an `assert` fits.
pub(crate) fn assert_fits(
    asked: Asked,
    test: &Expr,
    msg: &Option<Box<Expr>>,
) -> Result<bool, AllocError>
    ensures { IfOk result
        (λ told. told
        ≡ (fits_at (tests_at asked.extent asked.fields) levels.Expression (tree_of test.now) &&
        perhaps_fits (tests_at asked.extent asked.fields) levels.Expression (optional (boxed_of msg.now)))) }
{
    Ok(expr_fits(asked, test, Level::Expression)? && boxed_fits(asked, msg, Level::Expression)?)
}

/// Whether a version has type parameters, and the statement `type`.
pub(crate) fn has_types(profile: Profile) -> bool
    ensures { result ≡ has_types profile }
{
    match profile.version {
        Version::Py311 => false,
        Version::Py312 => true,
    }
}

/// Whether a type parameter fits.
fn type_param_fits(asked: Asked, parameter: &TypeParam) -> Result<bool, AllocError>
    ensures { IfOk result
        (λ told. told ≡ type_param_fits (tests_at asked.extent asked.fields) (type_param_of parameter.now)) }
{
    match parameter {
        TypeParam::TypeVar { name, bound } => Ok(
            is_name(asked.alloc, name.as_str())? && option_fits(asked, bound, Level::Expression)?,
        ),
        TypeParam::ParamSpec { name } => is_name(asked.alloc, name.as_str()),
        TypeParam::TypeVarTuple { name } => is_name(asked.alloc, name.as_str()),
    }
}

/// Whether all parameters of a type fit.
fn each_type_param_fits(asked: Asked, parameters: &[TypeParam]) -> Result<bool, AllocError>
    ensures { IfOk result
        (λ told. told
        ≡ list_all (type_param_fits (tests_at asked.extent asked.fields)) (map type_param_of parameters.now)) }
{
    for parameter in parameters {
        if !type_param_fits(asked, parameter)? {
            return Ok(false);
        }
    }
    Ok(true)
}

/// Whether type parameters fit, in a version that has these.
pub(crate) fn type_params_fit(
    asked: Asked,
    profile: Profile,
    parameters: &[TypeParam],
) -> Result<bool, AllocError>
    ensures { IfOk result
        (λ told. told
        ≡ types_fit profile (tests_at asked.extent asked.fields) (map type_param_of parameters.now)) }
{
    if parameters.is_empty() {
        return Ok(true);
    }
    Ok(has_types(profile) && each_type_param_fits(asked, parameters)?)
}

/// Whether the statement `type` fits.
pub(crate) fn type_alias_fits(
    asked: Asked,
    profile: Profile,
    name: &Expr,
    parameters: &[TypeParam],
    value: &Expr,
) -> Result<bool, AllocError>
    ensures { IfOk result
        (λ told. told
        ≡ (has_types profile && is_a_name (tree_of name.now) && fits_target (tests_at asked.extent asked.fields)
        contexts.Store (tree_of name.now) && list_all (type_param_fits (tests_at asked.extent asked.fields))
        (map type_param_of parameters.now) && fits_at (tests_at asked.extent asked.fields) levels.Expression
        (tree_of value.now))) }
{
    if !has_types(profile) {
        return Ok(false);
    }
    if !is_a_name(name) {
        return Ok(false);
    }
    if !target_fits(asked, name, Context::Store)? {
        return Ok(false);
    }
    if !each_type_param_fits(asked, parameters)? {
        return Ok(false);
    }
    expr_fits(asked, value, Level::Expression)
}
