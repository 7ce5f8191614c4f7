//! Names and constants, which have no node below them.

ghost use Rattle.std.specs.Prelude.{◌≡◌, false, List, IfOk, OnOk};
ghost use Rattle.std.specs.String.{string_bytes};
ghost use Rattle.pytree_dump_text.specs.Shows.{kind_field, shown};
ghost use Rattle.pytree_node.specs.TreeOf.{constant_of};
ghost use Rattle.pytree_node.specs.Trees.{Constant as ConstantTree, Name};
ghost use Rattle.pytree_marked.specs.Appends.{Appends, AppendsField};
ghost use Rattle.pytree_marked.specs.MarkedNodes.{Attributes};
ghost use Rattle.pytree_marked.specs.Taking.{is_none_left};

use pysource::push_repr;
use pytree_dump_text::{
    Field, Style, Told, after_left_out, context_word, is_flat, open, push_lead, push_value,
    show_constant, show_name,
};
use pytree_marked::{PlaceSource, end_node};
use pytree_node::{Constant, Context, Identifier};
use std::alloc::AllocError;

/// Appends a name that has a place.
#[tactic(auto, using(crate::proofs::TextLemmas::left, crate::proofs::TextLemmas::may_close))]
fn show_placed_name<P: PlaceSource>(
    out: &mut String,
    indentation: &mut String,
    style: Style,
    id: &Identifier,
    ctx: Context,
    places: &mut P,
) -> Result<(), AllocError>
    requires { is_none_left (P.left places.old) ≡ false }
    ensures text { OnOk result (Appends style (string_bytes indentation.old)
        (string_bytes out.old) (string_bytes out.new) (P.left places.old) (P.left places.new)
        (shown (Name id.now ctx))) }
    ensures indentation { OnOk result (string_bytes indentation.new ≡ string_bytes indentation.old) }
{
    let told = Told {
        one_line: is_flat(style),
        named: style.names,
        first: true,
    };
    let outer = open(out, indentation, style, "Name(")?;
    push_lead(out, indentation.as_str(), told, Field::Id)?;
    push_repr(out, id.as_str())?;
    let told = Told {
        one_line: told.one_line,
        named: told.named,
        first: false,
    };
    push_lead(out, indentation.as_str(), told, Field::Ctx)?;
    out.push_str(context_word(ctx))?;
    end_node(out, indentation, style, told, outer, places)
}

/// Appends a name.
#[inline(always)]
pub(crate) fn show_any_name<P: PlaceSource>(
    out: &mut String,
    indentation: &mut String,
    style: Style,
    id: &Identifier,
    ctx: Context,
    places: &mut P,
) -> Result<(), AllocError>
    ensures text { OnOk result (Appends style (string_bytes indentation.old)
        (string_bytes out.old) (string_bytes out.new) (P.left places.old) (P.left places.new)
        (shown (Name id.now ctx))) }
    ensures indentation { OnOk result (string_bytes indentation.new ≡ string_bytes indentation.old) }
{
    if places.is_done() {
        show_name(out, style, id, ctx)
    } else {
        show_placed_name(out, indentation, style, id, ctx, places)
    }
}

/// Appends the kind of a constant as a field, which most constants don't show, and tells how the fields
/// after it are told.
fn show_kind(
    out: &mut String,
    indentation: &str,
    told: Told,
    value: &Constant,
) -> Result<Told, AllocError>
    ensures { IfOk result (λ next. (style : Style) (ps : List Attributes)
        → AppendsField style indentation.now (string_bytes out.old) (string_bytes out.new) ps ps
        told next (λ rest. kind_field (constant_of value.now) rest)) }
{
    match value {
        Constant::UnicodeStr(_) => {
            push_lead(out, indentation, told, Field::Kind)?;
            out.push_str("'u'")?;
            Ok(Told {
                one_line: told.one_line,
                named: told.named,
                first: false,
            })
        }
        _ => Ok(after_left_out(told)),
    }
}

/// Appends a constant that has a place.
#[tactic(auto, using(crate::proofs::TextLemmas::left, crate::proofs::TextLemmas::may_close))]
fn show_placed_constant<P: PlaceSource>(
    out: &mut String,
    indentation: &mut String,
    style: Style,
    value: &Constant,
    places: &mut P,
) -> Result<(), AllocError>
    requires { is_none_left (P.left places.old) ≡ false }
    ensures text { OnOk result (Appends style (string_bytes indentation.old)
        (string_bytes out.old) (string_bytes out.new) (P.left places.old) (P.left places.new)
        (shown (ConstantTree (constant_of value.now)))) }
    ensures indentation { OnOk result (string_bytes indentation.new ≡ string_bytes indentation.old) }
{
    let told = Told {
        one_line: is_flat(style),
        named: style.names,
        first: true,
    };
    let outer = open(out, indentation, style, "Constant(")?;
    push_lead(out, indentation.as_str(), told, Field::Value)?;
    push_value(out, value)?;
    let told = Told {
        one_line: told.one_line,
        named: told.named,
        first: false,
    };
    let told = show_kind(out, indentation.as_str(), told, value)?;
    end_node(out, indentation, style, told, outer, places)
}

/// Appends a constant.
#[inline(always)]
pub(crate) fn show_any_constant<P: PlaceSource>(
    out: &mut String,
    indentation: &mut String,
    style: Style,
    value: &Constant,
    places: &mut P,
) -> Result<(), AllocError>
    ensures text { OnOk result (Appends style (string_bytes indentation.old)
        (string_bytes out.old) (string_bytes out.new) (P.left places.old) (P.left places.new)
        (shown (ConstantTree (constant_of value.now)))) }
    ensures indentation { OnOk result (string_bytes indentation.new ≡ string_bytes indentation.old) }
{
    if places.is_done() {
        show_constant(out, style, value)
    } else {
        show_placed_constant(out, indentation, style, value, places)
    }
}
