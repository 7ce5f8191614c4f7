//! What holds no expression, and how many expressions there are.

ghost use Rattle.std.specs.Prelude.{◌≡◌, ◌&&◌, ◌+◌, IfOk, eqb, leb, length, map};
ghost use Rattle.pytree_node.specs.TreeOf.{arg_of, comprehension_of, constant_of, option_of, tree_of};
ghost use Rattle.pytree_node.specs.Trees.{args, comprehensions, exprs, optionals};
ghost use Rattle.pytree_fits.specs.Literals.{has_float, has_integer, is_value};
ghost use Rattle.pytree_fits.specs.Names.{is_name};
ghost use Rattle.pytree_fits.specs.Slots.{count, count_args, count_optional, has_some, perhaps_name};
ghost use Rattle.pytree_fits.specs.Tests.{tests_at};

use crate::asking::Asked;
use crate::names::is_name;
use crate::texts::{bytes_fit, points_fit};
use pynumber::Double;
use pytree_node::{Arg, Comparison, Comprehension, Constant, Expr, Extent, Identifier, Integer};
use std::alloc::{AllocError, Global};

/// Whether a name that may be absent is a name.
pub(crate) fn optional_name_fits(
    alloc: Global,
    name: &Option<Identifier>,
) -> Result<bool, AllocError>
    ensures { IfOk result (λ told. told ≡ perhaps_name is_name name.now) }
{
    match name {
        None => Ok(true),
        Some(name) => is_name(alloc, name.as_str()),
    }
}

/// Whether a constant is one that literals stand for in an extent of the language, in the fields
/// that it stands in.
pub(crate) fn constant_fits(asked: Asked, value: &Constant) -> bool
    ensures { result ≡ is_value (tests_at asked.extent asked.fields) (constant_of value.now) }
{
    match value {
        Constant::None => true,
        Constant::Ellipsis => true,
        Constant::Bool(_) => true,
        Constant::Int(number) => integer_fits(asked.extent, number),
        Constant::Float(double) => double_fits(asked.extent, double),
        Constant::Imaginary(double) => double_fits(asked.extent, double),
        Constant::Str(points) => points_fit(points.as_slice(), asked.fields),
        Constant::UnicodeStr(points) => points_fit(points.as_slice(), asked.fields),
        Constant::Bytes(bytes) => bytes_fit(bytes, asked.fields),
    }
}

/// Whether a whole number is one of an extent.
fn integer_fits(extent: Extent, number: &Integer) -> bool
    ensures { result ≡ has_integer extent number.now }
{
    match extent {
        Extent::Plain => number.to_u128().is_some(),
        Extent::Whole => number.is_below_limit(),
    }
}

/// Whether a double is one of an extent, as each is of the whole language.
fn double_fits(extent: Extent, double: &Double) -> bool
    ensures { result ≡ has_float extent double.now }
{
    match extent {
        Extent::Plain => false,
        Extent::Whole => double.is_of_literal(),
    }
}

/// Whether there are at least so many expressions.
#[tactic(auto, using(crate::proofs::Counts::counts))]
pub(crate) fn are_at_least(es: &[Expr], least: usize) -> bool
    ensures { result ≡ leb least (count (exprs (map tree_of es.now))) }
{
    es.len() >= least
}

/// Whether there is a `for` clause.
#[tactic(auto, using(crate::proofs::Counts::counts))]
pub(crate) fn has_clause(generators: &[Comprehension]) -> bool
    ensures { result ≡ has_some (comprehensions (map comprehension_of generators.now)) }
{
    !generators.is_empty()
}

/// Whether there are as many keys as values.
#[tactic(auto, using(crate::proofs::Counts::counts))]
pub(crate) fn are_pairs(keys: &[Option<Expr>], values: &[Expr]) -> bool
    ensures { result
        ≡ eqb (count_optional (optionals (map option_of keys.now)))
        (count (exprs (map tree_of values.now))) }
{
    keys.len() == values.len()
}

/// Whether there is an operator, and as many operators as comparators.
#[tactic(auto, using(crate::proofs::Counts::counts))]
pub(crate) fn are_comparisons(ops: &[Comparison], comparators: &[Expr]) -> bool
    ensures { result
        ≡ (leb 1 (length ops.now) && eqb (length ops.now)
        (count (exprs (map tree_of comparators.now)))) }
{
    ops.len() >= 1 && ops.len() == comparators.len()
}

/// Whether there are as many defaults, or missing ones, as keyword-only parameters.
#[tactic(auto, using(crate::proofs::Counts::counts))]
pub(crate) fn are_keyword_defaults(defaults: &[Option<Expr>], kwonlyargs: &[Arg]) -> bool
    ensures { result
        ≡ eqb (count_optional (optionals (map option_of defaults.now)))
        (count_args (args (map arg_of kwonlyargs.now))) }
{
    defaults.len() == kwonlyargs.len()
}

/// Whether there are no more defaults than plain parameters.
pub(crate) fn are_defaults(defaults: &[Expr], posonlyargs: &[Arg], plain: &[Arg]) -> bool
    ensures { result
        ≡ leb (count (exprs (map tree_of defaults.now)))
        (count_args (args (map arg_of posonlyargs.now)) + count_args
        (args (map arg_of plain.now))) }
{
    defaults.len() <= posonlyargs.len() || defaults.len() - posonlyargs.len() <= plain.len()
}
