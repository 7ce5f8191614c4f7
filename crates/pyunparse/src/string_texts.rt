//! The texts of f-strings.

ghost use Rattle.std.specs.Prelude.{◌≡◌, map};
ghost use Rattle.pytree_node.specs.TreeOf.{boxed_of, constant_of, tree_of};
ghost use Rattle.pytree_node.specs.Trees.{an_expr, exprs, no_exprs, optional, present};
ghost use Rattle.pytree_node.specs.Trees as plain;
ghost use Rattle.pyunparse_text.specs.Written as written;

use pytree_node::{Constant, Expr};

/// The text that a constant is, or an empty one.
fn constant_text(value: &Constant) -> &[u32]
    ensures { result.now
        ≡ written.first_text (an_expr (plain.Constant (constant_of value.now)) no_exprs) }
{
    match value {
        Constant::Str(points) => points.as_slice(),
        Constant::UnicodeStr(points) => points.as_slice(),
        _ => &[],
    }
}

/// The text that a value is, or an empty one.
fn text_of(value: &Expr) -> &[u32]
    ensures { result.now ≡ written.first_text (an_expr (tree_of value.now) no_exprs) }
{
    match value {
        Expr::Constant { value } => constant_text(value),
        _ => &[],
    }
}

/// The text that values begin with, perhaps an empty one.
pub(crate) fn first_text(values: &[Expr]) -> &[u32]
    ensures { result.now ≡ written.first_text (exprs (map tree_of values.now)) }
{
    if values.is_empty() {
        return &[];
    }
    text_of(&values[0])
}

/// Whether a constant is a text of the kind `u`.
fn is_unicode_text(value: &Constant) -> bool
    ensures { result
        ≡ written.is_unicode (an_expr (plain.Constant (constant_of value.now)) no_exprs) }
{
    matches!(value, Constant::UnicodeStr(_))
}

/// Whether a text of the kind `u` is among values, or in the format spec of a field.
#[cycle(kinds)]
pub(crate) fn is_unicode(values: &[Expr]) -> bool
    ensures { result ≡ written.is_unicode (exprs (map tree_of values.now)) }
{
    for value in values {
        if is_unicode_value(value) {
            return true;
        }
    }
    false
}

/// Whether a value is a text of the kind `u`, or a field whose format spec has one.
#[cycle(kinds)]
fn is_unicode_value(value: &Expr) -> bool
    ensures { result ≡ written.is_unicode (an_expr (tree_of value.now) no_exprs) }
{
    match value {
        Expr::Constant { value } => is_unicode_text(value),
        Expr::FormattedValue { format_spec, .. } => is_unicode_spec(format_spec),
        _ => false,
    }
}

/// Whether a format spec has a text of the kind `u`.
#[cycle(kinds)]
fn is_unicode_spec(spec: &Option<Box<Expr>>) -> bool
    ensures { result ≡ written.is_unicode_spec (optional (boxed_of spec.now)) }
{
    match spec {
        None => false,
        Some(spec) => is_unicode_string(spec),
    }
}

/// Whether an expression is an f-string that has a text of the kind `u`.
#[cycle(kinds)]
fn is_unicode_string(e: &Expr) -> bool
    ensures { result ≡ written.is_unicode_spec (present (tree_of e.now)) }
{
    match e {
        Expr::JoinedStr { values } => is_unicode(values),
        _ => false,
    }
}
