//! F-strings: a text before each field and at the end, perhaps an empty one, and the fields.

ghost use Rattle.std.specs.Prelude.{◌≡◌, ◌∷◌, [], false, OnOk, map};
ghost use Rattle.pytree_node.specs.TreeOf.{boxed_of, tree_of};
ghost use Rattle.pytree_node.specs.Trees as plain;
ghost use Rattle.pytree_node.specs.Trees.{exprs, optional, present};
ghost use Rattle.pygrammar.specs.declared.levels.Level.TheVariants as Level;
ghost use Rattle.pyunparse.specs.Inner.Values.{value_elements};
ghost use Rattle.pyunparse_text.specs.Folds.{puts, puts_elements};
ghost use Rattle.pyunparse_text.specs.Pieces.{piece, pieces, sited_string};
ghost use Rattle.pyunparse_text.specs.Written.{Text, elements_after, field, joined};
ghost use Rattle.pyunparse_text.specs.Written.{spec_elements};
ghost use Rattle.pyunparse_text.specs.Written as written;

use crate::expressions::write_expr;
use crate::string_texts::{first_text, is_unicode};
use pyfstring::Conversion;
use pygrammar::Level;
use pytree_node::Expr;
use pyunparse_text::writers::Writer;
use std::alloc::AllocError;

/// Writes an f-string. Where a text in it has the kind `u`, a literal of that kind stands in front
/// of it, with the text that it begins with.
#[cycle(writing)]
pub(crate) fn write_joined<W: Writer>(out: &mut W, values: &[Expr]) -> Result<(), AllocError>
    ensures { OnOk result
        (out.new ≡ puts W.after out.old
        (joined piece (written.is_unicode (exprs (map tree_of values.now)))
        (written.first_text (exprs (map tree_of values.now)))
        (elements_after piece false (exprs (map tree_of values.now))))) }
{
    let text = first_text(values);
    if is_unicode(values) {
        out.put_str(text, true)?;
        return write_string(out, &[], values);
    }
    write_string(out, text, values)
}

/// Writes a text, and what follows the first text of these values, as one f-string.
#[cycle(writing)]
fn write_string<W: Writer>(out: &mut W, text: &[u32], values: &[Expr]) -> Result<(), AllocError>
    ensures { OnOk result
        (out.new ≡ puts W.after out.old
        (sited_string
        (Text false text.now ∷ elements_after piece false (exprs (map tree_of values.now)))
        ∷ [])) }
{
    let in_field = out.begin_string()?;
    out.put_text(in_field, false, text)?;
    write_values(out, in_field, false, values)?;
    out.end_string(in_field)
}

/// Writes a field that stands in no f-string, as one.
#[cycle(writing)]
pub(crate) fn write_formatted<W: Writer>(
    out: &mut W,
    value: &Expr,
    conversion: Conversion,
    spec: &Option<Box<Expr>>,
) -> Result<(), AllocError>
    ensures { OnOk result
        (out.new ≡ puts W.after out.old
        (sited_string
        (field piece conversion (pieces Level.Or (tree_of value.now))
        (spec_elements piece (optional (boxed_of spec.now)))) ∷ [])) }
{
    let in_field = out.begin_string()?;
    write_field(out, in_field, value, conversion, spec)?;
    out.end_string(in_field)
}

/// Writes what follows the first text of values, of an f-string or of a format spec.
#[cycle(writing)]
fn write_values<W: Writer>(
    out: &mut W,
    in_field: bool,
    in_spec: bool,
    values: &[Expr],
) -> Result<(), AllocError>
    ensures { OnOk result
        (out.new ≡ puts_elements W.after W.step in_field out.old
        (elements_after piece in_spec (exprs (map tree_of values.now)))) }
{
    for i in 0..values.len() {
        let text = first_text(&values[i + 1..]);
        write_value(out, in_field, in_spec, &values[i], text)?;
    }
    Ok(())
}

/// Writes a field and the text that follows it, and a value that is no field not at all.
#[cycle(writing)]
fn write_value<W: Writer>(
    out: &mut W,
    in_field: bool,
    in_spec: bool,
    value: &Expr,
    text: &[u32],
) -> Result<(), AllocError>
    ensures { OnOk result
        (out.new ≡ puts_elements W.after W.step in_field out.old
        (value_elements in_spec (tree_of value.now) text.now)) }
{
    match value {
        Expr::FormattedValue {
            value,
            conversion,
            format_spec,
        } => {
            write_field(out, in_field, value, *conversion, format_spec)?;
            out.put_text(in_field, in_spec, text)
        }
        _ => Ok(()),
    }
}

/// Writes a field of an f-string.
#[cycle(writing)]
fn write_field<W: Writer>(
    out: &mut W,
    in_field: bool,
    value: &Expr,
    conversion: Conversion,
    spec: &Option<Box<Expr>>,
) -> Result<(), AllocError>
    ensures { OnOk result
        (out.new ≡ puts_elements W.after W.step in_field out.old
        (field piece conversion (pieces Level.Or (tree_of value.now))
        (spec_elements piece (optional (boxed_of spec.now))))) }
{
    out.begin_field()?;
    write_expr(out, Level::Or, value)?;
    out.end_expression(in_field, conversion)?;
    write_spec(out, in_field, spec)?;
    out.end_field()
}

/// Writes the format spec of a field, if it has one.
#[cycle(writing)]
fn write_spec<W: Writer>(
    out: &mut W,
    in_field: bool,
    spec: &Option<Box<Expr>>,
) -> Result<(), AllocError>
    ensures { OnOk result
        (out.new ≡ puts_elements W.after W.step in_field out.old
        (spec_elements piece (optional (boxed_of spec.now)))) }
{
    match spec {
        None => Ok(()),
        Some(spec) => write_spec_string(out, in_field, spec),
    }
}

/// Writes an f-string as a format spec, and any other expression not at all.
#[cycle(writing)]
fn write_spec_string<W: Writer>(out: &mut W, in_field: bool, spec: &Expr) -> Result<(), AllocError>
    ensures { OnOk result
        (out.new ≡ puts_elements W.after W.step in_field out.old
        (spec_elements piece (present (tree_of spec.now)))) }
{
    match spec {
        Expr::JoinedStr { values } => write_spec_values(out, in_field, values),
        _ => Ok(()),
    }
}

/// Writes the values of an f-string as a format spec.
#[cycle(writing)]
fn write_spec_values<W: Writer>(
    out: &mut W,
    in_field: bool,
    values: &[Expr],
) -> Result<(), AllocError>
    ensures { OnOk result
        (out.new ≡ puts_elements W.after W.step in_field out.old
        (spec_elements piece (present (plain.JoinedStr (exprs (map tree_of values.now)))))) }
{
    out.begin_spec()?;
    out.put_text(in_field, true, first_text(values))?;
    write_values(out, in_field, true, values)
}
