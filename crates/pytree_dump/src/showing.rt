//! The walk over a tree that writes its dump.

ghost use Rattle.std.specs.Prelude.{◌≡◌, IfOk, OnOk, map};
ghost use Rattle.std.specs.String.{string_bytes};
ghost use Rattle.pytree_dump_text.specs.Shows.{Row, shown, showns};
ghost use Rattle.pytree_dump_text.specs.Slots.{slot_shown, with_slot};
ghost use Rattle.pytree_node.specs.TreeOf.{tree_of};
ghost use Rattle.pytree_marked.specs.Appends.{Appends, AppendsField, AppendsNode};
ghost use Rattle.pytree_dump.specs.Inner.Nodes.{Laid, any_slot, element_shown, node_fields, elements_shown};

use crate::contents::Content;
use crate::elements::{Element, Elements};
use crate::expressions::expr_node;
use crate::joined::{is_joined, show_joined_attribute, show_joined_call};
use crate::leaves::{show_any_constant, show_any_name};
use crate::lists::{show_comparisons, show_names};
use crate::nodes::{AnyPart, Node};
use crate::parameters::{show_arg, show_args, show_arguments};
use pysource::push_repr;
use pytree_dump_text::{
    Style, Told, after_left_out, close, is_flat, open, push_before, push_lead, push_number,
    push_value,
};
use pytree_marked::{PlaceSource, end_node, is_told_on_line};
use pytree_node::Expr;
use std::alloc::AllocError;

/// Appends what an expression shows.
#[cycle(showing)]
pub(crate) fn show_expr<P: PlaceSource>(
    out: &mut String,
    indentation: &mut String,
    style: Style,
    e: &Expr,
    places: &mut P,
) -> Result<(), AllocError>
    ensures text { OnOk result (Appends style (string_bytes indentation.old)
        (string_bytes out.old) (string_bytes out.new) (P.left places.old) (P.left places.new)
        (shown (tree_of e.now))) }
    ensures indentation { OnOk result (string_bytes indentation.new ≡ string_bytes indentation.old) }
{
    match e {
        Expr::Name { id, ctx } => show_any_name(out, indentation, style, id, *ctx, places),
        Expr::Constant { value } => show_any_constant(out, indentation, style, value, places),
        Expr::Attribute { value, attr, ctx } if is_joined(style, places) => {
            show_joined_attribute(out, indentation, style, value, attr, *ctx, places)
        }
        Expr::Call(call) if is_joined(style, places) => {
            show_joined_call(out, indentation, style, call, places)
        }
        _ => show_node(out, indentation, style, &expr_node(style, e), places),
    }
}

/// Appends what a part of a tree shows.
#[cycle(showing)]
pub(crate) fn show_element<P: PlaceSource>(
    out: &mut String,
    indentation: &mut String,
    style: Style,
    element: Element<'_>,
    places: &mut P,
) -> Result<(), AllocError>
    ensures text { OnOk result (Appends style (string_bytes indentation.old)
        (string_bytes out.old) (string_bytes out.new) (P.left places.old) (P.left places.new)
        (element_shown element.entry)) }
    ensures indentation { OnOk result (string_bytes indentation.new ≡ string_bytes indentation.old) }
{
    match element {
        Element::Expr(e) => show_expr(out, indentation, style, e, places),
        _ => show_node(out, indentation, style, &element.node(style), places),
    }
}

/// Appends a node.
#[cycle(showing)]
#[tactic(auto, using(crate::proofs::TextLemmas::left, crate::proofs::TextLemmas::may_close))]
pub(crate) fn show_node<P: PlaceSource>(
    out: &mut String,
    indentation: &mut String,
    style: Style,
    node: &Node<'_>,
    places: &mut P,
) -> Result<(), AllocError>
    requires { Laid style node.now }
    ensures text { OnOk result (AppendsNode node.now.is_marked style (string_bytes indentation.old)
        (string_bytes out.old) (string_bytes out.new) (P.left places.old) (P.left places.new)
        node.now.class.now (node_fields node.now)) }
    ensures indentation { OnOk result (string_bytes indentation.new ≡ string_bytes indentation.old) }
{
    let mut told = Told {
        one_line: is_told_on_line(style, node.is_short, places),
        named: style.names,
        first: true,
    };
    let outer = open(out, indentation, style, node.class)?;
    for part in &node.parts[..node.len] {
        told = show_any_field(out, indentation, style, told, *part, places)?;
    }
    if node.is_marked {
        end_node(out, indentation, style, told, outer, places)
    } else {
        close(out, indentation, style, outer, ")")
    }
}

/// Appends a field, and tells how the fields after it are told.
#[cycle(showing)]
#[inline(always)]
pub(crate) fn show_any_field<P: PlaceSource>(
    out: &mut String,
    indentation: &mut String,
    style: Style,
    told: Told,
    part: AnyPart<'_>,
    places: &mut P,
) -> Result<Told, AllocError>
    ensures text { IfOk result (λ next. AppendsField style (string_bytes indentation.old)
        (string_bytes out.old) (string_bytes out.new) (P.left places.old) (P.left places.new)
        told next (λ rest. with_slot (any_slot part.entry) rest)) }
    ensures indentation { OnOk result (string_bytes indentation.new ≡ string_bytes indentation.old) }
{
    if part.is_absent() {
        return Ok(after_left_out(told));
    }
    push_lead(out, indentation.as_str(), told, part.field())?;
    show_content(out, indentation, style, part, places)?;
    Ok(Told {
        one_line: told.one_line,
        named: told.named,
        first: false,
    })
}

/// Appends what a field shows.
#[cycle(showing)]
#[inline(always)]
fn show_content<P: PlaceSource>(
    out: &mut String,
    indentation: &mut String,
    style: Style,
    part: AnyPart<'_>,
    places: &mut P,
) -> Result<(), AllocError>
    ensures text { OnOk result (Appends style (string_bytes indentation.old)
        (string_bytes out.old) (string_bytes out.new) (P.left places.old) (P.left places.new)
        (slot_shown (any_slot part.entry))) }
    ensures indentation { OnOk result (string_bytes indentation.new ≡ string_bytes indentation.old) }
{
    match part.content() {
        Content::Expr(e) => show_expr(out, indentation, style, e, places),
        Content::Element(element) => show_element(out, indentation, style, element, places),
        Content::Exprs(es) => show_exprs(out, indentation, style, es, places),
        Content::Arg(a) => show_arg(out, indentation, style, a, places),
        Content::Args(all) => show_args(out, indentation, style, all, places),
        Content::Arguments(a) => show_arguments(out, indentation, style, a, places),
        Content::Elements(elements) => { show_elements(out, indentation, style, elements, places) },
        Content::Comparisons(cs) => show_comparisons(out, indentation, style, cs),
        Content::Names(names) => show_names(out, indentation, style, names),
        Content::Word(word) => out.push_str(word),
        Content::Name(id) => push_repr(out, id.as_str()),
        Content::Constant(value) => push_value(out, value),
        Content::Number(number) => push_number(out, number),
    }
}

/// Appends a list of expressions.
#[cycle(showing)]
#[tactic(auto, using(crate::proofs::TextLemmas::left, crate::proofs::TextLemmas::may_close))]
pub(crate) fn show_exprs<P: PlaceSource>(
    out: &mut String,
    indentation: &mut String,
    style: Style,
    es: &[Expr],
    places: &mut P,
) -> Result<(), AllocError>
    ensures text { OnOk result (Appends style (string_bytes indentation.old)
        (string_bytes out.old) (string_bytes out.new) (P.left places.old) (P.left places.new)
        (Row (showns (map (λ e. shown (tree_of e)) es.now)))) }
    ensures indentation { OnOk result (string_bytes indentation.new ≡ string_bytes indentation.old) }
{
    // At once, as many lists are.
    if es.is_empty() {
        return out.push_str("[]");
    }
    let outer = open(out, indentation, style, "[")?;
    let mut first = true;
    for e in es {
        push_before(out, indentation.as_str(), is_flat(style), first)?;
        show_expr(out, indentation, style, e, places)?;
        first = false;
    }
    close(out, indentation, style, outer, "]")?;
    Ok(())
}

/// Appends a list whose elements are no expressions, or may be absent.
#[cycle(showing)]
#[tactic(auto, using(crate::proofs::TextLemmas::left, crate::proofs::TextLemmas::may_close))]
pub(crate) fn show_elements<P: PlaceSource>(
    out: &mut String,
    indentation: &mut String,
    style: Style,
    elements: Elements<'_>,
    places: &mut P,
) -> Result<(), AllocError>
    ensures text { OnOk result (Appends style (string_bytes indentation.old)
        (string_bytes out.old) (string_bytes out.new) (P.left places.old) (P.left places.new)
        (Row (elements_shown elements.entry))) }
    ensures indentation { OnOk result (string_bytes indentation.new ≡ string_bytes indentation.old) }
{
    // At once, as many lists are.
    if elements.is_empty() {
        return out.push_str("[]");
    }
    let outer = open(out, indentation, style, "[")?;
    let mut rest = elements;
    let mut first = true;
    while let Some((element, others)) = rest.split_first() {
        push_before(out, indentation.as_str(), is_flat(style), first)?;
        match element {
            None => out.push_str("None")?,
            Some(element) => show_element(out, indentation, style, element, places)?,
        }
        first = false;
        rest = others;
    }
    close(out, indentation, style, outer, "]")
}
