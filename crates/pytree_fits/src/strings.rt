//! Whether f-strings fit their places.

ghost use Rattle.std.specs.Prelude.{◌≡◌, ◌≤◌, IfOk, false, map};
ghost use Rattle.pytree_node.specs.TreeOf.{boxed_of, constant_of, tree_of};
ghost use Rattle.pytree_node.specs.Trees.{exprs, optional};
ghost use Rattle.pytree_node.specs.Trees as trees;
ghost use Rattle.pytree_fits.specs.Slots.{are_apart, each_value_fits, has_kind, have_kind};
ghost use Rattle.pytree_fits.specs.Slots.{is_text, joined_fits, may_be_joined, spec_fits};
ghost use Rattle.pytree_fits.specs.Slots.{spec_has_kind, text_fits, value_fits};
ghost use Rattle.pytree_fits.specs.Tests.{tests_at};

use crate::asking::Asked;
use crate::expressions::expr_fits;
use crate::headers::is_whole;
use crate::texts::formatted_fits;
use pygrammar::Level;
use pytree_node::{Constant, Expr, Points};
use std::alloc::AllocError;

/// Whether the values of a JoinedStr fit.
#[cycle(fits)]
pub(crate) fn joined_fits(asked: Asked, values: &[Expr]) -> Result<bool, AllocError>
    ensures { IfOk result
        (λ told. told
        ≡ joined_fits (tests_at asked.extent asked.fields) (exprs (map tree_of values.now))) }
{
    Ok(may_be_joined(asked, values) && are_apart(values) && each_value_fits(asked, values, 0)?)
}

/// Whether an f-string may have such values there: the language has f-strings, they stand in one
/// field at most, and their texts have the same kind.
fn may_be_joined(asked: Asked, values: &[Expr]) -> bool
    ensures { result
        ≡ may_be_joined (tests_at asked.extent asked.fields) (exprs (map tree_of values.now)) }
{
    is_whole(asked.extent)
        && asked.fields <= 1
        && (have_kind(values, false, false) || have_kind(values, true, false))
}

/// Whether each of the values of an f-string or of a format spec fits by itself, which stand in so
/// many format specs.
#[cycle(fits)]
fn each_value_fits(asked: Asked, values: &[Expr], depth: usize) -> Result<bool, AllocError>
    requires fields { asked.fields ≤ 1 }
    requires specs { depth ≤ 2 }
    ensures { IfOk result
        (λ told. told
        ≡ each_value_fits (tests_at asked.extent asked.fields) depth
        (exprs (map tree_of values.now))) }
{
    for value in values {
        if !value_fits(asked, value, depth)? {
            return Ok(false);
        }
    }
    Ok(true)
}

/// Whether a value fits by itself.
#[cycle(fits)]
#[tactic(auto, using(pytree_node::proofs::Callers::ExprShapes::expr_shapes))]
fn value_fits(asked: Asked, value: &Expr, depth: usize) -> Result<bool, AllocError>
    requires fields { asked.fields ≤ 1 }
    requires specs { depth ≤ 2 }
    ensures { IfOk result
        (λ told. told ≡ value_fits (tests_at asked.extent asked.fields) depth (tree_of value.now)) }
{
    match value {
        Expr::Constant { value } => Ok(text_fits(asked, value, depth)),
        Expr::FormattedValue {
            value,
            format_spec,
            ..
        } => Ok(
            depth <= 1
                && expr_fits(asked.in_field(), value, Level::Expression)?
                && spec_fits(asked, format_spec, depth + 1)?,
        ),
        _ => Ok(false),
    }
}

/// Whether a format spec fits, if there is one.
#[cycle(fits)]
#[tactic(auto, using(pytree_node::proofs::Callers::ExprShapes::expr_shapes))]
fn spec_fits(asked: Asked, spec: &Option<Box<Expr>>, depth: usize) -> Result<bool, AllocError>
    requires fields { asked.fields ≤ 1 }
    requires specs { depth ≤ 2 }
    ensures { IfOk result
        (λ told. told
        ≡ spec_fits (tests_at asked.extent asked.fields) depth (optional (boxed_of spec.now))) }
{
    match spec {
        None => Ok(true),
        Some(spec) => match &**spec {
            Expr::JoinedStr { values } => Ok(
                are_apart(values) && each_value_fits(asked, values, depth)?,
            ),
            _ => Ok(false),
        },
    }
}

/// Whether a constant is a text of an f-string, which isn't empty.
fn text_fits(asked: Asked, value: &Constant, depth: usize) -> bool
    ensures { result
        ≡ value_fits (tests_at asked.extent asked.fields) depth
        (trees.Constant (constant_of value.now)) }
{
    match value {
        Constant::Str(points) => points_fit(asked, points, depth),
        Constant::UnicodeStr(points) => points_fit(asked, points, depth),
        _ => false,
    }
}

/// Whether a text may stand in an f-string: whether it isn't empty, and can be written there.
fn points_fit(asked: Asked, points: &Points, depth: usize) -> bool
    ensures { result ≡ text_fits (tests_at asked.extent asked.fields) depth points.now }
{
    let points = points.as_slice();
    !points.is_empty() && formatted_fits(points, asked.fields, depth)
}

/// Whether a value is a text.
#[tactic(auto, using(pytree_node::proofs::Callers::ExprShapes::expr_shapes))]
fn is_text(value: &Expr) -> bool
    ensures { result ≡ is_text (tree_of value.now) }
{
    match value {
        Expr::Constant { .. } => true,
        _ => false,
    }
}

/// Whether no two texts stand side by side.
fn are_apart(values: &[Expr]) -> bool
    ensures { result ≡ are_apart false (exprs (map tree_of values.now)) }
{
    let mut after_text = false;
    for value in values {
        let is_text = is_text(value);
        if after_text && is_text {
            return false;
        }
        after_text = is_text;
    }
    true
}

/// Whether the texts of an f-string or of a format spec have this kind.
#[cycle(kinds)]
fn have_kind(values: &[Expr], unicode: bool, in_spec: bool) -> bool
    ensures { result ≡ have_kind unicode in_spec (exprs (map tree_of values.now)) }
{
    for i in 0..values.len() {
        let ends_spec = in_spec && i + 1 == values.len();
        if !has_kind(&values[i], unicode, ends_spec) {
            return false;
        }
    }
    true
}

/// Whether a value has this kind, or none at the end of a format spec; of a field, whether the
/// texts of its format spec have.
#[cycle(kinds)]
#[tactic(auto, using(pytree_node::proofs::Callers::ExprShapes::expr_shapes))]
fn has_kind(value: &Expr, unicode: bool, ends_spec: bool) -> bool
    ensures { result ≡ has_kind unicode ends_spec (tree_of value.now) }
{
    match value {
        Expr::Constant { value } => is_of_kind(value, unicode && !ends_spec),
        Expr::FormattedValue { format_spec, .. } => spec_has_kind(format_spec, unicode),
        _ => true,
    }
}

/// Whether the texts of a format spec have this kind, if there is one.
#[cycle(kinds)]
#[tactic(auto, using(pytree_node::proofs::Callers::ExprShapes::expr_shapes))]
fn spec_has_kind(spec: &Option<Box<Expr>>, unicode: bool) -> bool
    ensures { result ≡ spec_has_kind unicode (optional (boxed_of spec.now)) }
{
    match spec {
        None => true,
        Some(spec) => match &**spec {
            Expr::JoinedStr { values } => have_kind(values, unicode, true),
            _ => true,
        },
    }
}

/// Whether a constant is no text, or a text of this kind.
fn is_of_kind(value: &Constant, unicode: bool) -> bool
    ensures { result ≡ has_kind unicode false (trees.Constant (constant_of value.now)) }
{
    match value {
        Constant::Str(_) => !unicode,
        Constant::UnicodeStr(_) => unicode,
        _ => true,
    }
}
