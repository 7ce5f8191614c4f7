//! Whether the headers of compound statements fit, by their fields.

ghost use Rattle.std.specs.Prelude.{◌≡◌, ◌&&◌, IfOk, map, true};
ghost use Rattle.std.specs.List.{list_all};
ghost use Rattle.pygrammar.specs.declared.levels.Level.TheVariants as levels;
ghost use Rattle.pygrammar.specs.declared.pattern_levels.PatternLevel.TheVariants as pattern_levels;
ghost use Rattle.pygrammar.specs.Forms.{is_whole};
ghost use Rattle.pytree_node.specs.declared.operators.Context.TheVariants as contexts;
ghost use Rattle.pytree_node.specs.TreeOf.{arguments_of, boxed_of, case_of, handler_of, item_of};
ghost use Rattle.pytree_node.specs.TreeOf.{keyword_of, option_of, pattern_of, stmt_of, tree_of};
ghost use Rattle.pytree_node.specs.TreeOf.{type_param_of};
ghost use Rattle.pytree_node.specs.Trees.{cases, exprs, handlers, keywords, optional, stmts};
ghost use Rattle.pytree_fits.specs.Names.{is_name};
ghost use Rattle.pytree_fits.specs.Slots.{each_fits, each_keyword_fits, fits_arguments, fits_at};
ghost use Rattle.pytree_fits.specs.Slots.{fits_target, perhaps_fits};
ghost use Rattle.pytree_fits.specs.PatternSlots.{pattern_fits_at};
ghost use Rattle.pytree_fits.specs.Statements.{caught_fits, clauses_fit, has_case, has_one, item_fits};
ghost use Rattle.pytree_fits.specs.Statements.{perhaps_target_fits, types_fit};
ghost use Rattle.pytree_fits.specs.Tests.{tests_at};

use crate::asking::Asked;
use crate::expressions::{boxed_fits, expr_fits, exprs_fit, keywords_fit};
use crate::leaves::optional_name_fits;
use crate::names::is_name;
use crate::parameters::parameters_fit;
use crate::patterns::pattern_fits;
use crate::simple::{option_fits, type_params_fit};
use crate::targets::target_fits;
use pygrammar::{Level, PatternLevel};
use pytree_node::{
    Arguments, Case, Context, Expr, Extent, Handler, Identifier, Item, Keyword, Pattern, Profile,
    Stmt, TypeParam,
};
use std::alloc::AllocError;

/// Whether a `def` fits, but for its body.
pub(crate) fn function_head_fits(
    asked: Asked,
    profile: Profile,
    name: &Identifier,
    args: &Arguments,
    decorators: &[Expr],
    returns: &Option<Box<Expr>>,
    parameters: &[TypeParam],
) -> Result<bool, AllocError>
    ensures { IfOk result
        (λ told. told
        ≡ (is_name name.now && fits_arguments (tests_at asked.extent asked.fields) true
        (arguments_of args.now) && each_fits (tests_at asked.extent asked.fields) levels.Expression
        (exprs (map tree_of decorators.now)) && perhaps_fits (tests_at asked.extent asked.fields)
        levels.Expression (optional (boxed_of returns.now)) && types_fit profile
        (tests_at asked.extent asked.fields) (map type_param_of parameters.now))) }
{
    if !is_name(asked.alloc, name.as_str())? {
        return Ok(false);
    }
    if !parameters_fit(asked, args, true)? {
        return Ok(false);
    }
    if !exprs_fit(asked, decorators, Level::Expression)? {
        return Ok(false);
    }
    if !boxed_fits(asked, returns, Level::Expression)? {
        return Ok(false);
    }
    type_params_fit(asked, profile, parameters)
}

/// Whether a `class` fits, but for its body.
pub(crate) fn class_head_fits(
    asked: Asked,
    profile: Profile,
    name: &Identifier,
    bases: &[Expr],
    words: &[Keyword],
    decorators: &[Expr],
    parameters: &[TypeParam],
) -> Result<bool, AllocError>
    ensures { IfOk result
        (λ told. told
        ≡ (is_name name.now && each_fits (tests_at asked.extent asked.fields) levels.Elem
        (exprs (map tree_of bases.now)) && each_keyword_fits (tests_at asked.extent asked.fields)
        (keywords (map keyword_of words.now)) && each_fits (tests_at asked.extent asked.fields) levels.Expression
        (exprs (map tree_of decorators.now)) && types_fit profile (tests_at asked.extent asked.fields)
        (map type_param_of parameters.now))) }
{
    if !is_name(asked.alloc, name.as_str())? {
        return Ok(false);
    }
    if !exprs_fit(asked, bases, Level::Elem)? {
        return Ok(false);
    }
    if !keywords_fit(asked, words)? {
        return Ok(false);
    }
    if !exprs_fit(asked, decorators, Level::Expression)? {
        return Ok(false);
    }
    type_params_fit(asked, profile, parameters)
}

/// Whether the header of a `for` fits.
pub(crate) fn for_head_fits(asked: Asked, target: &Expr, iter: &Expr) -> Result<bool, AllocError>
    ensures { IfOk result
        (λ told. told
        ≡ (fits_target (tests_at asked.extent asked.fields) contexts.Store
        (tree_of target.now) && fits_at (tests_at asked.extent asked.fields) levels.Stars (tree_of iter.now))) }
{
    if !target_fits(asked, target, Context::Store)? {
        return Ok(false);
    }
    expr_fits(asked, iter, Level::Stars)
}

/// Whether the target of an item fits, if it has one.
fn optional_target_fits(asked: Asked, expr: &Option<Expr>) -> Result<bool, AllocError>
    ensures { IfOk result
        (λ told. told ≡ perhaps_target_fits (tests_at asked.extent asked.fields) (option_of expr.now)) }
{
    match expr {
        None => Ok(true),
        Some(expr) => target_fits(asked, expr, Context::Store),
    }
}

/// Whether an item of a `with` fits.
fn item_fits(asked: Asked, item: &Item) -> Result<bool, AllocError>
    ensures { IfOk result (λ told. told ≡ item_fits (tests_at asked.extent asked.fields) (item_of item.now)) }
{
    Ok(
        expr_fits(asked, &item.context_expr, Level::Expression)?
            && optional_target_fits(asked, &item.optional_vars)?,
    )
}

/// Whether there are items of a `with`, each of which fits.
pub(crate) fn items_fit(asked: Asked, items: &[Item]) -> Result<bool, AllocError>
    ensures { IfOk result
        (λ told. told
        ≡ (has_one (map item_of items.now) && list_all (item_fits (tests_at asked.extent asked.fields))
        (map item_of items.now))) }
{
    if items.is_empty() {
        return Ok(false);
    }
    for item in items {
        if !item_fits(asked, item)? {
            return Ok(false);
        }
    }
    Ok(true)
}

/// Whether an extent of the language is the whole one, which has `match` statements and f-strings.
pub(crate) fn is_whole(extent: Extent) -> bool
    ensures { result ≡ is_whole extent }
{
    match extent {
        Extent::Whole => true,
        Extent::Plain => false,
    }
}

/// Whether a `match` fits, but for its cases, of which there are some.
pub(crate) fn match_head_fits(
    asked: Asked,
    subject: &Expr,
    clauses: &[Case],
) -> Result<bool, AllocError>
    ensures { IfOk result
        (λ told. told
        ≡ (is_whole asked.extent && has_case (cases (map case_of clauses.now)) && fits_at
        (tests_at asked.extent asked.fields) levels.Expression (tree_of subject.now))) }
{
    if !is_whole(asked.extent) {
        return Ok(false);
    }
    if clauses.is_empty() {
        return Ok(false);
    }
    expr_fits(asked, subject, Level::Expression)
}

/// Whether a case fits, but for its body.
pub(crate) fn case_head_fits(
    asked: Asked,
    pattern: &Pattern,
    guard: &Option<Expr>,
) -> Result<bool, AllocError>
    ensures { IfOk result
        (λ told. told
        ≡ (pattern_fits_at (tests_at asked.extent asked.fields) pattern_levels.AsPattern
        (pattern_of pattern.now) && perhaps_fits (tests_at asked.extent asked.fields) levels.Expression
        (optional (option_of guard.now)))) }
{
    Ok(
        pattern_fits(asked, pattern, PatternLevel::AsPattern)?
            && option_fits(asked, guard, Level::Expression)?,
    )
}

/// Whether what an `except` catches fits, and its name.
pub(crate) fn except_fits(
    asked: Asked,
    star: bool,
    class: &Option<Expr>,
    name: &Option<Identifier>,
) -> Result<bool, AllocError>
    ensures { IfOk result
        (λ told. told ≡ caught_fits (tests_at asked.extent asked.fields) star (option_of class.now) name.now) }
{
    match class {
        None => Ok(!star && name.is_none()),
        Some(class) => Ok(
            expr_fits(asked, class, Level::Expression)? && optional_name_fits(asked.alloc, name)?,
        ),
    }
}

/// Whether a `try` has the clauses that it needs.
pub(crate) fn clauses_fit(
    star: bool,
    caught: &[Handler],
    orelse: &[Stmt],
    finalbody: &[Stmt],
) -> bool
    ensures { result
        ≡ clauses_fit star (handlers (map handler_of caught.now)) (stmts (map stmt_of orelse.now))
        (stmts (map stmt_of finalbody.now)) }
{
    if !caught.is_empty() {
        return true;
    }
    if star {
        return false;
    }
    if !orelse.is_empty() {
        return false;
    }
    !finalbody.is_empty()
}
