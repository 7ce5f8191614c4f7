//! Copies of the parts of statements that hold no statement.

ghost use Rattle.std.specs.Prelude.{◌≡◌, IfOk, map};
ghost use Rattle.pytree_node.specs.TreeOf.{alias_of, item_of, option_of, type_param_of};

use crate::expressions::copy_expr;
use crate::leaves::{both, copy_optional_name};
use pytree_node::{Alias, Expr, Item, TypeParam};
use std::alloc::{AllocError, Global};

/// A copy of an expression that may be absent.
pub(crate) fn copy_optional_expr(
    alloc: Global,
    e: &Option<Expr>,
) -> Result<Option<Expr>, AllocError>
    ensures { IfOk result (λ made. option_of made ≡ option_of e.now) }
{
    match e {
        None => Ok(None),
        Some(e) => Ok(Some(copy_expr(alloc, e)?)),
    }
}

/// A copy of an item of a `with`.
fn copy_item(alloc: Global, item: &Item) -> Result<Item, AllocError>
    ensures { IfOk result (λ made. item_of made ≡ item_of item.now) }
{
    let (context_expr, optional_vars) = both(
        copy_expr(alloc, &item.context_expr)?,
        copy_optional_expr(alloc, &item.optional_vars),
    )?;
    Ok(Item {
        context_expr,
        optional_vars,
    })
}

/// A copy of the items of a `with`.
pub(crate) fn copy_items(alloc: Global, items: &[Item]) -> Result<Vec<Item>, AllocError>
    ensures { IfOk result (λ made. map item_of made.items ≡ map item_of items.now) }
{
    let mut made = Vec::new(alloc);
    for item in items {
        made.push(copy_item(alloc, item)?)?;
    }
    Ok(made)
}

/// A copy of a name of an import.
fn copy_alias(alias: &Alias) -> Result<Alias, AllocError>
    ensures { IfOk result (λ made. alias_of made ≡ alias_of alias.now) }
{
    Ok(Alias {
        name: alias.name.clone()?,
        asname: copy_optional_name(&alias.asname)?,
    })
}

/// A copy of the names of an import.
pub(crate) fn copy_aliases(alloc: Global, names: &[Alias]) -> Result<Vec<Alias>, AllocError>
    ensures { IfOk result (λ made. map alias_of made.items ≡ map alias_of names.now) }
{
    let mut made = Vec::new(alloc);
    for alias in names {
        made.push(copy_alias(alias)?)?;
    }
    Ok(made)
}

/// A copy of a type parameter.
fn copy_type_param(alloc: Global, parameter: &TypeParam) -> Result<TypeParam, AllocError>
    ensures { IfOk result (λ made. type_param_of made ≡ type_param_of parameter.now) }
{
    match parameter {
        TypeParam::TypeVar { name, bound } => Ok(TypeParam::TypeVar {
            name: name.clone()?,
            bound: copy_optional_expr(alloc, bound)?,
        }),
        TypeParam::ParamSpec { name } => Ok(TypeParam::ParamSpec {
            name: name.clone()?,
        }),
        TypeParam::TypeVarTuple { name } => Ok(TypeParam::TypeVarTuple {
            name: name.clone()?,
        }),
    }
}

/// A copy of some type parameters.
pub(crate) fn copy_type_params(
    alloc: Global,
    parameters: &[TypeParam],
) -> Result<Vec<TypeParam>, AllocError>
    ensures { IfOk result
        (λ made. map type_param_of made.items ≡ map type_param_of parameters.now) }
{
    let mut made = Vec::new(alloc);
    for parameter in parameters {
        made.push(copy_type_param(alloc, parameter)?)?;
    }
    Ok(made)
}
