//! The type parameters, of Python 3.12.

#![tactic(auto, using(crate::proofs::Sequences::FoldLemmas::puts_append))]

ghost use Rattle.std.specs.Prelude.{◌≡◌, OnOk, map};
ghost use Rattle.pylex_lexeme.specs.declared.kinds.Exact.TheVariants.{Colon};
ghost use Rattle.pygrammar.specs.declared.levels.Level.TheVariants as Level;
ghost use Rattle.pytree_node.specs.TreeOf.{option_of, type_param_of};
ghost use Rattle.pyunparse_text.specs.Folds.{puts};
ghost use Rattle.pyunparse_text.specs.Pieces.{piece};
ghost use Rattle.pyunparse_text.specs.Statements as written;
ghost use Rattle.pyunparse_text.specs.Written.{listed, trailing};

use crate::expressions::write_expr;
use pygrammar::Level;
use pylex_listing::Exact;
use pytree_node::{Expr, TypeParam};
use pyunparse_text::marks::{Between, Role};
use pyunparse_text::tokens::{put_between, put_name, put_sign};
use pyunparse_text::writers::Writer;
use std::alloc::AllocError;

/// Writes a type parameter.
fn write_type_param<W: Writer>(out: &mut W, param: &TypeParam) -> Result<(), AllocError>
    ensures { OnOk result
        (out.new ≡ puts W.after out.old (written.type_param piece (type_param_of param.now))) }
{
    match param {
        TypeParam::TypeVar { name, bound } => {
            put_name(out, name)?;
            write_bound(out, bound)
        }
        TypeParam::TypeVarTuple { name } => {
            put_sign(out, Exact::Star, Role::Leading)?;
            put_name(out, name)
        }
        TypeParam::ParamSpec { name } => {
            put_sign(out, Exact::DoubleStar, Role::Leading)?;
            put_name(out, name)
        }
    }
}

/// Writes the bound of a type parameter, if it has one.
fn write_bound<W: Writer>(out: &mut W, bound: &Option<Expr>) -> Result<(), AllocError>
    ensures { OnOk result
        (out.new ≡ puts W.after out.old
        (written.following piece (trailing piece Colon) Level.Expression (option_of bound.now))) }
{
    match bound {
        None => Ok(()),
        Some(bound) => {
            put_sign(out, Exact::Colon, Role::Trailing)?;
            write_expr(out, Level::Expression, bound)
        }
    }
}

/// Writes parameters of a type, without their brackets.
fn write_listed_params<W: Writer>(out: &mut W, params: &[TypeParam]) -> Result<(), AllocError>
    ensures { OnOk result
        (out.new ≡ puts W.after out.old
        (listed piece (map (written.type_param piece) (map type_param_of params.now)))) }
{
    let mut first = true;
    for param in params {
        put_between(out, first, Between::Comma)?;
        write_type_param(out, param)?;
        first = false;
    }
    Ok(())
}

/// Writes parameters of a type in their brackets, if there are any.
pub(crate) fn write_type_params<W: Writer>(
    out: &mut W,
    params: &[TypeParam],
) -> Result<(), AllocError>
    ensures { OnOk result
        (out.new ≡ puts W.after out.old
        (written.type_params piece (map type_param_of params.now))) }
{
    if params.is_empty() {
        return Ok(());
    }
    put_sign(out, Exact::LSqb, Role::Tight)?;
    write_listed_params(out, params)?;
    put_sign(out, Exact::RSqb, Role::Trailing)
}
