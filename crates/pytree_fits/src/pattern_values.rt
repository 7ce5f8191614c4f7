//! Whether what patterns hold beside patterns fits: values, keys, classes and names.

ghost use Rattle.std.specs.Prelude.{◌≡◌, IfOk, map};
ghost use Rattle.std.specs.List.{list_all};
ghost use Rattle.pytree_node.specs.TreeOf.{constant_of, tree_of};
ghost use Rattle.pygrammar.specs.PatternOperators.{is_imaginary, is_wildcard};
ghost use Rattle.pytree_fits.specs.Given.{is_literal, is_number};
ghost use Rattle.pytree_fits.specs.PatternSlots.{begins_with_wildcard, class_fits, dotted_fits};
ghost use Rattle.pytree_fits.specs.PatternSlots.{imaginary_fits, is_attribute, is_minus};
ghost use Rattle.pytree_fits.specs.PatternSlots.{is_singleton, is_sum, key_fits, literal_fits};
ghost use Rattle.pytree_fits.specs.PatternSlots.{number_fits, perhaps_target_fits, real_fits};
ghost use Rattle.pytree_fits.specs.PatternSlots.{singleton_fits, starts_wild, target_fits};
ghost use Rattle.pytree_fits.specs.PatternSlots.{value_fits};
ghost use Rattle.pytree_fits.specs.Tests.{tests_at};

use crate::asking::Asked;
use crate::leaves::constant_fits;
use crate::names::is_name;
use crate::places::is_context;
use crate::strings::joined_fits;
use pytree_node::{Constant, Context, Expr, Identifier, Operator, UnaryOperator};
use std::alloc::AllocError;

/// Whether a name is that of the wildcard.
fn is_wildcard(name: &Identifier) -> bool
    ensures { result ≡ is_wildcard name.now }
{
    name.as_str() == "_"
}

/// Whether some names begin with that of the wildcard.
pub(crate) fn begins_with_wildcard(names: &[Identifier]) -> bool
    ensures { result ≡ begins_with_wildcard names.now }
{
    match names {
        [first, ..] => is_wildcard(first),
        [] => false,
    }
}

/// Whether a name that a pattern captures fits.
pub(crate) fn capture_fits(asked: Asked, name: &Identifier) -> Result<bool, AllocError>
    ensures { IfOk result (λ told. told ≡ target_fits (tests_at asked.extent asked.fields) name.now) }
{
    Ok(is_name(asked.alloc, name.as_str())? && !is_wildcard(name))
}

/// Whether a name that a pattern captures fits, if it captures one. Without one it has the name of
/// the wildcard, which is a name.
pub(crate) fn optional_capture_fits(
    asked: Asked,
    name: &Option<Identifier>,
) -> Result<bool, AllocError>
    ensures { IfOk result (λ told. told ≡ perhaps_target_fits (tests_at asked.extent asked.fields) name.now) }
{
    match name {
        None => Ok(true),
        Some(name) => capture_fits(asked, name),
    }
}

/// Whether a constant is a number.
fn is_number(value: &Constant) -> bool
    ensures { result ≡ is_number (constant_of value.now) }
{
    match value {
        Constant::Int(_) => true,
        Constant::Float(_) => true,
        Constant::Imaginary(_) => true,
        _ => false,
    }
}

/// Whether a constant is a text or bytes.
fn is_literal(value: &Constant) -> bool
    ensures { result ≡ is_literal (constant_of value.now) }
{
    match value {
        Constant::Str(_) => true,
        Constant::UnicodeStr(_) => true,
        Constant::Bytes(_) => true,
        _ => false,
    }
}

/// Whether a constant is an imaginary number.
fn is_imaginary(value: &Constant) -> bool
    ensures { result ≡ is_imaginary (constant_of value.now) }
{
    match value {
        Constant::Imaginary(_) => true,
        _ => false,
    }
}

/// Whether a constant is None, True or False.
pub(crate) fn is_singleton(value: &Constant) -> bool
    ensures { result ≡ is_singleton (constant_of value.now) }
{
    match value {
        Constant::None => true,
        Constant::Bool(_) => true,
        _ => false,
    }
}

/// Whether an operator is Add or Sub.
fn is_sum(op: Operator) -> bool
    ensures { result ≡ is_sum op }
{
    match op {
        Operator::Add | Operator::Sub => true,
        _ => false,
    }
}

/// Whether an operator is USub.
fn is_minus(op: UnaryOperator) -> bool
    ensures { result ≡ is_minus op }
{
    match op {
        UnaryOperator::USub => true,
        _ => false,
    }
}

/// Whether an expression is what a NUMBER gives.
#[tactic(auto, using(pytree_node::proofs::Callers::ExprShapes::expr_shapes))]
fn number_fits(asked: Asked, expr: &Expr) -> bool
    ensures { result ≡ number_fits (tests_at asked.extent asked.fields) (tree_of expr.now) }
{
    match expr {
        Expr::Constant { value } => is_number(value) && constant_fits(asked, value),
        _ => false,
    }
}

/// Whether an expression is what an imaginary NUMBER gives.
#[tactic(auto, using(pytree_node::proofs::Callers::ExprShapes::expr_shapes))]
fn imaginary_fits(asked: Asked, expr: &Expr) -> bool
    ensures { result ≡ imaginary_fits (tests_at asked.extent asked.fields) (tree_of expr.now) }
{
    match expr {
        Expr::Constant { value } => is_imaginary(value) && constant_fits(asked, value),
        _ => false,
    }
}

/// Whether an expression is a number that isn't imaginary, with or without a minus before it.
#[tactic(auto, using(pytree_node::proofs::Callers::ExprShapes::expr_shapes))]
fn real_fits(asked: Asked, expr: &Expr) -> bool
    ensures { result ≡ real_fits (tests_at asked.extent asked.fields) (tree_of expr.now) }
{
    match expr {
        Expr::Constant { value } => {
            is_number(value) && !is_imaginary(value) && constant_fits(asked, value)
        }
        Expr::UnaryOp { op, operand } => match &**operand {
            Expr::Constant { value } => {
                is_minus(*op)
                    && is_number(value)
                    && !is_imaginary(value)
                    && constant_fits(asked, value)
            }
            _ => false,
        },
        _ => false,
    }
}

/// Whether an expression is what a literal of a pattern gives.
#[tactic(auto, using(pytree_node::proofs::Callers::ExprShapes::expr_shapes))]
fn literal_fits(asked: Asked, expr: &Expr) -> Result<bool, AllocError>
    ensures { IfOk result
        (λ told. told ≡ literal_fits (tests_at asked.extent asked.fields) (tree_of expr.now)) }
{
    match expr {
        Expr::Constant { value } => Ok(
            (is_number(value) || is_literal(value)) && constant_fits(asked, value),
        ),
        Expr::UnaryOp { op, operand } => Ok(is_minus(*op) && number_fits(asked, operand)),
        Expr::BinOp { left, op, right } => Ok(
            is_sum(*op) && real_fits(asked, left) && imaginary_fits(asked, right),
        ),
        Expr::JoinedStr { values } => joined_fits(asked, values),
        _ => Ok(false),
    }
}

/// Whether an expression is None, True or False.
#[tactic(auto, using(pytree_node::proofs::Callers::ExprShapes::expr_shapes))]
fn singleton_fits(expr: &Expr) -> bool
    ensures { result ≡ singleton_fits (tree_of expr.now) }
{
    match expr {
        Expr::Constant { value } => is_singleton(value),
        _ => false,
    }
}

/// Whether an expression is an Attribute.
#[tactic(auto, using(pytree_node::proofs::Callers::ExprShapes::expr_shapes))]
fn is_attribute(expr: &Expr) -> bool
    ensures { result ≡ is_attribute (tree_of expr.now) }
{
    match expr {
        Expr::Attribute { .. } => true,
        _ => false,
    }
}

/// Whether an expression is names with points between them.
#[cycle(dotted)]
#[tactic(auto, using(pytree_node::proofs::Callers::ExprShapes::expr_shapes))]
fn dotted_fits(asked: Asked, expr: &Expr) -> Result<bool, AllocError>
    ensures { IfOk result (λ told. told ≡ dotted_fits (tests_at asked.extent asked.fields) (tree_of expr.now)) }
{
    match expr {
        Expr::Name { id, ctx } => Ok(
            is_context(Context::Load, *ctx) && is_name(asked.alloc, id.as_str())?,
        ),
        Expr::Attribute { value, attr, ctx } => Ok(
            is_context(Context::Load, *ctx)
                && is_name(asked.alloc, attr.as_str())?
                && dotted_fits(asked, value)?,
        ),
        _ => Ok(false),
    }
}

/// Whether the first of the names with points between them is the wildcard's.
#[cycle(wild)]
#[tactic(auto, using(pytree_node::proofs::Callers::ExprShapes::expr_shapes))]
fn starts_wild(expr: &Expr) -> bool
    ensures { result ≡ starts_wild (tree_of expr.now) }
{
    match expr {
        Expr::Name { id, .. } => is_wildcard(id),
        Expr::Attribute { value, .. } => starts_wild(value),
        _ => false,
    }
}

/// Whether the class of a pattern fits.
pub(crate) fn class_fits(asked: Asked, expr: &Expr) -> Result<bool, AllocError>
    ensures { IfOk result (λ told. told ≡ class_fits (tests_at asked.extent asked.fields) (tree_of expr.now)) }
{
    Ok(dotted_fits(asked, expr)? && !starts_wild(expr))
}

/// Whether the value of a pattern fits.
pub(crate) fn value_fits(asked: Asked, expr: &Expr) -> Result<bool, AllocError>
    ensures { IfOk result (λ told. told ≡ value_fits (tests_at asked.extent asked.fields) (tree_of expr.now)) }
{
    Ok(literal_fits(asked, expr)? || (is_attribute(expr) && class_fits(asked, expr)?))
}

/// Whether a key of a pattern fits.
fn key_fits(asked: Asked, expr: &Expr) -> Result<bool, AllocError>
    ensures { IfOk result (λ told. told ≡ key_fits (tests_at asked.extent asked.fields) (tree_of expr.now)) }
{
    Ok(
        literal_fits(asked, expr)?
            || singleton_fits(expr)
            || (is_attribute(expr) && dotted_fits(asked, expr)?),
    )
}

/// Whether each of some keys fits.
pub(crate) fn keys_fit(asked: Asked, keys: &[Expr]) -> Result<bool, AllocError>
    ensures { IfOk result
        (λ told. told ≡ list_all (key_fits (tests_at asked.extent asked.fields)) (map tree_of keys.now)) }
{
    for key in keys {
        if !key_fits(asked, key)? {
            return Ok(false);
        }
    }
    Ok(true)
}
