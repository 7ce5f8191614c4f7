//! Whether expressions fit their places.

ghost use Rattle.std.specs.Prelude.{◌≡◌, ◌&&◌, IfOk, map};
ghost use Rattle.pytree_node.specs.declared.operators.Context.TheVariants as contexts;
ghost use Rattle.pygrammar.specs.declared.levels.Level.TheVariants as levels;
ghost use Rattle.pytree_node.specs.TreeOf.{boxed_of, call_of, compare_of, comprehension_of};
ghost use Rattle.pytree_node.specs.TreeOf.{dict_comp_of, dict_of, keyword_of, option_of, slice_of};
ghost use Rattle.pytree_node.specs.TreeOf.{tree_of};
ghost use Rattle.pytree_node.specs.Trees.{comprehensions, exprs, keywords, optional, optionals};
ghost use Rattle.pytree_fits.specs.Names.{is_name};
ghost use Rattle.pytree_fits.specs.Slots.{each_clause_fits, each_fits, each_keyword_fits};
ghost use Rattle.pytree_fits.specs.Slots.{each_perhaps_fits, fits_at, fits_target, perhaps_fits};
ghost use Rattle.pytree_fits.specs.Slots.{perhaps_name};
ghost use Rattle.pytree_fits.specs.Tests.{tests_at};

use crate::asking::Asked;
use crate::leaves::{
    are_at_least, are_comparisons, are_pairs, constant_fits, has_clause, optional_name_fits,
};
use crate::names::is_name;
use crate::parameters::parameters_fit;
use crate::places::{is_a_name, is_context, member_level, takes_slice, takes_star};
use crate::strings::joined_fits;
use crate::targets::target_fits;
use pygrammar::Level;
use pytree_node::{Call, Compare, Comprehension, Context, Dict, DictComp, Expr, Keyword, Slice};
use std::alloc::AllocError;

/// Whether an expression fits a level of the grammar: whether each of its fields has what may stand
/// there. `Err` means out of memory alone, which the test of names may meet.
#[cycle(fits)]
#[tactic(auto, using(pytree_node::proofs::Callers::ExprShapes::expr_shapes))]
pub fn expr_fits(asked: Asked, expr: &Expr, level: Level) -> Result<bool, AllocError>
    ensures { IfOk result
        (λ told. told ≡ fits_at (tests_at asked.extent asked.fields) level (tree_of expr.now)) }
{
    match expr {
        Expr::BoolOp { values, .. } => Ok(
            are_at_least(values, 2) && exprs_fit(asked, values, Level::Expression)?,
        ),
        Expr::NamedExpr { target, value } => Ok(
            is_a_name(target)
                && target_fits(asked, target, Context::Store)?
                && expr_fits(asked, value, Level::Expression)?,
        ),
        Expr::BinOp { left, right, .. } => Ok(
            expr_fits(asked, left, Level::Expression)?
                && expr_fits(asked, right, Level::Expression)?,
        ),
        Expr::UnaryOp { operand, .. } => expr_fits(asked, operand, Level::Expression),
        Expr::Lambda { args, body } => Ok(
            parameters_fit(asked, args, false)? && expr_fits(asked, body, Level::Expression)?,
        ),
        Expr::IfExp { test, body, orelse } => Ok(
            expr_fits(asked, test, Level::Expression)?
                && expr_fits(asked, body, Level::Expression)?
                && expr_fits(asked, orelse, Level::Expression)?,
        ),
        Expr::Dict(dict) => dict_fits(asked, dict),
        Expr::Set { elts } => Ok(are_at_least(elts, 1) && exprs_fit(asked, elts, Level::Elem)?),
        Expr::ListComp { elt, generators } => Ok(
            has_clause(generators)
                && expr_fits(asked, elt, Level::Expression)?
                && clauses_fit(asked, generators)?,
        ),
        Expr::SetComp { elt, generators } => Ok(
            has_clause(generators)
                && expr_fits(asked, elt, Level::Expression)?
                && clauses_fit(asked, generators)?,
        ),
        Expr::DictComp(comp) => dict_comp_fits(asked, comp),
        Expr::GeneratorExp { elt, generators } => Ok(
            has_clause(generators)
                && expr_fits(asked, elt, Level::Expression)?
                && clauses_fit(asked, generators)?,
        ),
        Expr::Await { value } => expr_fits(asked, value, Level::Expression),
        Expr::Yield { value } => boxed_fits(asked, value, Level::Stars),
        Expr::YieldFrom { value } => expr_fits(asked, value, Level::Expression),
        Expr::Compare(compare) => compare_fits(asked, compare),
        Expr::Call(call) => call_fits(asked, call),
        Expr::FormattedValue { .. } => Ok(false),
        Expr::JoinedStr { values } => joined_fits(asked, values),
        Expr::Constant { value } => Ok(constant_fits(asked, value)),
        Expr::Attribute { value, attr, ctx } => Ok(
            is_context(Context::Load, *ctx)
                && is_name(asked.alloc, attr.as_str())?
                && expr_fits(asked, value, Level::Expression)?,
        ),
        Expr::Subscript { value, slice, ctx } => Ok(
            is_context(Context::Load, *ctx)
                && expr_fits(asked, value, Level::Expression)?
                && expr_fits(asked, slice, Level::Slices)?,
        ),
        Expr::Starred { value, ctx } => Ok(
            takes_star(level)
                && is_context(Context::Load, *ctx)
                && expr_fits(asked, value, Level::Expression)?,
        ),
        Expr::Name { id, ctx } => Ok(
            is_context(Context::Load, *ctx) && is_name(asked.alloc, id.as_str())?,
        ),
        Expr::List { elts, ctx } => Ok(
            is_context(Context::Load, *ctx) && exprs_fit(asked, elts, Level::Elem)?,
        ),
        Expr::Tuple { elts, ctx } => Ok(
            is_context(Context::Load, *ctx) && exprs_fit(asked, elts, member_level(level))?,
        ),
        Expr::Slice(slice) => Ok(takes_slice(level) && slice_fits(asked, slice)?),
    }
}

/// Whether a dictionary fits.
#[cycle(fits)]
#[tactic(auto, using(pytree_node::proofs::Callers::ExprShapes::expr_shapes))]
fn dict_fits(asked: Asked, dict: &Dict) -> Result<bool, AllocError>
    ensures { IfOk result
        (λ told. told ≡ fits_at (tests_at asked.extent asked.fields) levels.Expression (dict_of dict.now)) }
{
    Ok(
        are_pairs(&dict.keys, &dict.values)
            && options_fit(asked, &dict.keys)?
            && exprs_fit(asked, &dict.values, Level::Expression)?,
    )
}

/// Whether a dictionary's comprehension fits.
#[cycle(fits)]
#[tactic(auto, using(pytree_node::proofs::Callers::ExprShapes::expr_shapes))]
fn dict_comp_fits(asked: Asked, comp: &DictComp) -> Result<bool, AllocError>
    ensures { IfOk result
        (λ told. told ≡ fits_at (tests_at asked.extent asked.fields) levels.Expression (dict_comp_of comp.now)) }
{
    if !has_clause(&comp.generators) {
        return Ok(false);
    }
    if !expr_fits(asked, &comp.key, Level::Expression)? {
        return Ok(false);
    }
    if !expr_fits(asked, &comp.value, Level::Expression)? {
        return Ok(false);
    }
    clauses_fit(asked, &comp.generators)
}

/// Whether a comparison fits.
#[cycle(fits)]
#[tactic(auto, using(pytree_node::proofs::Callers::ExprShapes::expr_shapes))]
fn compare_fits(asked: Asked, compare: &Compare) -> Result<bool, AllocError>
    ensures { IfOk result
        (λ told. told ≡ fits_at (tests_at asked.extent asked.fields) levels.Expression (compare_of compare.now)) }
{
    if !are_comparisons(&compare.ops, &compare.comparators) {
        return Ok(false);
    }
    if !expr_fits(asked, &compare.left, Level::Expression)? {
        return Ok(false);
    }
    exprs_fit(asked, &compare.comparators, Level::Expression)
}

/// Whether a call fits.
#[cycle(fits)]
#[tactic(auto, using(pytree_node::proofs::Callers::ExprShapes::expr_shapes))]
fn call_fits(asked: Asked, call: &Call) -> Result<bool, AllocError>
    ensures { IfOk result
        (λ told. told ≡ fits_at (tests_at asked.extent asked.fields) levels.Expression (call_of call.now)) }
{
    if !expr_fits(asked, &call.func, Level::Expression)? {
        return Ok(false);
    }
    if !exprs_fit(asked, &call.args, Level::Elem)? {
        return Ok(false);
    }
    keywords_fit(asked, &call.keywords)
}

/// Whether a slice fits, where one may stand.
#[cycle(fits)]
#[tactic(auto, using(pytree_node::proofs::Callers::ExprShapes::expr_shapes))]
fn slice_fits(asked: Asked, slice: &Slice) -> Result<bool, AllocError>
    ensures { IfOk result
        (λ told. told ≡ fits_at (tests_at asked.extent asked.fields) levels.Slices (slice_of slice.now)) }
{
    if !boxed_fits(asked, &slice.lower, Level::Expression)? {
        return Ok(false);
    }
    if !boxed_fits(asked, &slice.upper, Level::Expression)? {
        return Ok(false);
    }
    boxed_fits(asked, &slice.step, Level::Expression)
}

/// Whether an expression that may be absent fits a level.
#[cycle(fits)]
#[tactic(auto, using(pytree_node::proofs::Callers::ExprShapes::expr_shapes))]
pub(crate) fn boxed_fits(
    asked: Asked,
    expr: &Option<Box<Expr>>,
    level: Level,
) -> Result<bool, AllocError>
    ensures { IfOk result
        (λ told. told ≡ perhaps_fits (tests_at asked.extent asked.fields) level (optional (boxed_of expr.now))) }
{
    match expr {
        None => Ok(true),
        Some(expr) => expr_fits(asked, expr, level),
    }
}

/// Whether each of some expressions fits a level.
#[cycle(fits)]
#[tactic(auto, using(pytree_node::proofs::Callers::ExprShapes::expr_shapes))]
pub(crate) fn exprs_fit(asked: Asked, es: &[Expr], level: Level) -> Result<bool, AllocError>
    ensures { IfOk result
        (λ told. told ≡ each_fits (tests_at asked.extent asked.fields) level (exprs (map tree_of es.now))) }
{
    for e in es {
        if !expr_fits(asked, e, level)? {
            return Ok(false);
        }
    }
    Ok(true)
}

/// Whether each of some expressions fits, of those that are there.
#[cycle(fits)]
#[tactic(auto, using(pytree_node::proofs::Callers::ExprShapes::expr_shapes))]
pub(crate) fn options_fit(asked: Asked, es: &[Option<Expr>]) -> Result<bool, AllocError>
    ensures { IfOk result
        (λ told. told
        ≡ each_perhaps_fits (tests_at asked.extent asked.fields) (optionals (map option_of es.now))) }
{
    for e in es {
        let fits = match e {
            None => true,
            Some(e) => expr_fits(asked, e, Level::Expression)?,
        };
        if !fits {
            return Ok(false);
        }
    }
    Ok(true)
}

/// Whether an argument by name fits.
#[cycle(fits)]
#[tactic(auto, using(pytree_node::proofs::Callers::ExprShapes::expr_shapes))]
fn keyword_fits(asked: Asked, k: &Keyword) -> Result<bool, AllocError>
    ensures { IfOk result
        (λ told. told
        ≡ (perhaps_name is_name (keyword_of k.now).arg && fits_at (tests_at asked.extent asked.fields)
        levels.Expression (keyword_of k.now).value)) }
{
    Ok(optional_name_fits(asked.alloc, &k.arg)? && expr_fits(asked, &k.value, Level::Expression)?)
}

/// Whether each of some keyword arguments fits.
#[cycle(fits)]
#[tactic(auto, using(pytree_node::proofs::Callers::ExprShapes::expr_shapes))]
pub(crate) fn keywords_fit(asked: Asked, ks: &[Keyword]) -> Result<bool, AllocError>
    ensures { IfOk result
        (λ told. told
        ≡ each_keyword_fits (tests_at asked.extent asked.fields) (keywords (map keyword_of ks.now))) }
{
    for k in ks {
        if !keyword_fits(asked, k)? {
            return Ok(false);
        }
    }
    Ok(true)
}

/// Whether a `for` clause fits.
#[cycle(fits)]
#[tactic(auto, using(pytree_node::proofs::Callers::ExprShapes::expr_shapes))]
fn clause_fits(asked: Asked, c: &Comprehension) -> Result<bool, AllocError>
    ensures { IfOk result
        (λ told. told
        ≡ (fits_target (tests_at asked.extent asked.fields) contexts.Store
        (comprehension_of c.now).target && fits_at (tests_at asked.extent asked.fields) levels.Expression
        (comprehension_of c.now).iter && each_fits (tests_at asked.extent asked.fields) levels.Expression
        (exprs (comprehension_of c.now).ifs))) }
{
    Ok(
        target_fits(asked, &c.target, Context::Store)?
            && expr_fits(asked, &c.iter, Level::Expression)?
            && exprs_fit(asked, &c.ifs, Level::Expression)?,
    )
}

/// Whether each of some `for` clauses fits.
#[cycle(fits)]
#[tactic(auto, using(pytree_node::proofs::Callers::ExprShapes::expr_shapes))]
fn clauses_fit(asked: Asked, cs: &[Comprehension]) -> Result<bool, AllocError>
    ensures { IfOk result
        (λ told. told
        ≡ each_clause_fits (tests_at asked.extent asked.fields) (comprehensions (map comprehension_of cs.now))) }
{
    for c in cs {
        if !clause_fits(asked, c)? {
            return Ok(false);
        }
    }
    Ok(true)
}
