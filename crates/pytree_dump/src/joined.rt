//! The nodes that a tree has most of, where all is on one line with the names of fields: what
//! stands between their fields is appended at once.

ghost use Rattle.std.specs.Prelude.{◌≡◌, ◌++◌, ◌&&◌, List, OnOk, codes, map, true, [], ℕ};
ghost use Rattle.std.specs.String.{string_bytes};
ghost use Rattle.pytree_dump_text.specs.Layout.{is_flat, text};
ghost use Rattle.pytree_dump_text.specs.Shows.{Row, a_field, context_name, left_out, no_field, shown};
ghost use Rattle.pytree_dump_text.specs.Shows.{shown_keyword, shown_name, showns, word};
ghost use Rattle.pytree_node.specs.TreeOf.{call_of, keyword_of, tree_of};
ghost use Rattle.pytree_marked.specs.Appends.{Appends, AppendsNode};
ghost use Rattle.pytree_marked.specs.Taking.{is_none_left};

use crate::elements::Elements;
use crate::showing::{show_elements, show_expr, show_exprs};
use pytree_dump_text::{Style, is_flat, push_name_and_context};
use pytree_marked::PlaceSource;
use pytree_node::{Call, Context, Expr, Identifier, Keyword};
use std::alloc::AllocError;

/// Whether a dump is one line with the names of fields, and no places are left.
#[inline(always)]
pub(crate) fn is_joined<P: PlaceSource>(style: Style, places: &P) -> bool
    ensures { result
        ≡ (is_none_left (P.left places.now) && (is_flat style.indent && style.names)) }
{
    places.is_done() && (is_flat(style) && style.names)
}

/// Appends an attribute.
#[cycle(showing)]
pub(crate) fn show_joined_attribute<P: PlaceSource>(
    out: &mut String,
    indentation: &mut String,
    style: Style,
    value: &Expr,
    attr: &Identifier,
    ctx: Context,
    places: &mut P,
) -> Result<(), AllocError>
    requires { (is_none_left (P.left places.old) && (is_flat style.indent && style.names)) ≡ true }
    ensures text { OnOk result (AppendsNode true style (string_bytes indentation.old)
        (string_bytes out.old) (string_bytes out.new) (P.left places.old) (P.left places.new) (codes "Attribute(")
        (a_field (codes "value") (shown (tree_of value.now))
        (a_field (codes "attr") (shown_name attr.now)
        (a_field (codes "ctx") (word (context_name ctx)) no_field)))) }
    ensures indentation { OnOk result (string_bytes indentation.new ≡ string_bytes indentation.old) }
{
    out.push_str("Attribute(value=")?;
    show_expr(out, indentation, style, value, places)?;
    push_name_and_context(out, attr.as_str(), ctx)
}

/// Appends the keywords of a call, and what ends it.
#[cycle(showing)]
#[inline(always)]
fn show_joined_keywords<P: PlaceSource>(
    out: &mut String,
    indentation: &mut String,
    style: Style,
    keywords: &[Keyword],
    places: &mut P,
) -> Result<(), AllocError>
    requires { is_none_left (P.left places.old) ≡ true }
    ensures text { OnOk result
        (string_bytes out.new ≡ string_bytes out.old
        ++ (codes ", keywords=" ++ text style (string_bytes indentation.old)
        (Row (showns (map (λ k. shown_keyword (keyword_of k)) keywords.now))) ++ codes ")")) }
    ensures left { OnOk result (P.left places.new ≡ []) }
    ensures indentation { OnOk result (string_bytes indentation.new ≡ string_bytes indentation.old) }
{
    if keywords.is_empty() {
        return out.push_str(", keywords=[])");
    }
    out.push_str(", keywords=")?;
    show_elements(
        out,
        indentation,
        style,
        Elements::Keywords(keywords),
        places,
    )?;
    out.push_str(")")
}

/// Appends a call.
#[cycle(showing)]
pub(crate) fn show_joined_call<P: PlaceSource>(
    out: &mut String,
    indentation: &mut String,
    style: Style,
    call: &Call,
    places: &mut P,
) -> Result<(), AllocError>
    requires { (is_none_left (P.left places.old) && (is_flat style.indent && style.names)) ≡ true }
    ensures text { OnOk result (Appends style (string_bytes indentation.old)
        (string_bytes out.old) (string_bytes out.new) (P.left places.old) (P.left places.new)
        (shown (call_of call.now))) }
    ensures indentation { OnOk result (string_bytes indentation.new ≡ string_bytes indentation.old) }
{
    out.push_str("Call(func=")?;
    show_expr(out, indentation, style, &call.func, places)?;
    out.push_str(", args=")?;
    show_exprs(out, indentation, style, &call.args, places)?;
    show_joined_keywords(out, indentation, style, &call.keywords, places)
}

/// Appends a statement of one field, an expression, given by what begins it, its class and the name
/// of the field.
pub(crate) fn show_joined_value<P: PlaceSource>(
    out: &mut String,
    indentation: &mut String,
    style: Style,
    start: &'static str,
    e: &Expr,
    places: &mut P,
) -> Result<(), AllocError>
    requires { (is_none_left (P.left places.old) && (is_flat style.indent && style.names)) ≡ true }
    ensures text { (class : List ℕ) → start.now ≡ class ++ codes "value=" → OnOk result
        (AppendsNode true style (string_bytes indentation.old)
        (string_bytes out.old) (string_bytes out.new) (P.left places.old) (P.left places.new) class
        (a_field (codes "value") (shown (tree_of e.now)) no_field)) }
    ensures indentation { OnOk result (string_bytes indentation.new ≡ string_bytes indentation.old) }
{
    out.push_str(start)?;
    show_expr(out, indentation, style, e, places)?;
    out.push_str(")")
}

/// Appends an assignment.
pub(crate) fn show_joined_assignment<P: PlaceSource>(
    out: &mut String,
    indentation: &mut String,
    style: Style,
    targets: &[Expr],
    value: &Expr,
    places: &mut P,
) -> Result<(), AllocError>
    requires { (is_none_left (P.left places.old) && (is_flat style.indent && style.names)) ≡ true }
    ensures text { OnOk result (AppendsNode true style (string_bytes indentation.old)
        (string_bytes out.old) (string_bytes out.new) (P.left places.old) (P.left places.new) (codes "Assign(")
        (a_field (codes "targets") (Row (showns (map (λ e. shown (tree_of e)) targets.now)))
        (a_field (codes "value") (shown (tree_of value.now)) (left_out no_field)))) }
    ensures indentation { OnOk result (string_bytes indentation.new ≡ string_bytes indentation.old) }
{
    out.push_str("Assign(targets=")?;
    show_exprs(out, indentation, style, targets, places)?;
    out.push_str(", value=")?;
    show_expr(out, indentation, style, value, places)?;
    out.push_str(")")
}
