//! The nodes of expressions.

ghost use Rattle.std.specs.Prelude.{◌≡◌, IfOk};
ghost use Rattle.std.specs.String.{string_bytes};
ghost use Rattle.pytree_dump_text.specs.Layout.{dump_text};
ghost use Rattle.pytree_dump_text.specs.Slots.{slot_of, with_slot};
ghost use Rattle.pytree_node.specs.TreeOf.{call_of, compare_of, constant_of, dict_of, dict_comp_of, slice_of, tree_of};
ghost use Rattle.pytree_dump_text.specs.Shows.{Fields, kind_field, shown};
ghost use Rattle.pytree_dump.specs.Inner.Nodes.{DescribesShown};

use crate::nodes::Node;
use crate::showing::show_expr;
use pytree_dump_text::{Field, Part, Style, boxed_part};
use pytree_marked::NoPlaces;
use pytree_node::{Call, Compare, Constant, Dict, DictComp, Expr, Slice};
use std::alloc::{AllocError, Global};

/// The node of an expression.
pub(crate) fn expr_node<'a>(style: Style, e: &'a Expr) -> Node<'a>
    ensures { DescribesShown style result (shown (tree_of e.now)) }
{
    match e {
        Expr::BoolOp { op, values } => Node::two(
            style,
            "BoolOp(",
            Part::Bool(*op),
            Part::Exprs(Field::Values, values),
        ),
        Expr::NamedExpr { target, value } => Node::two(
            style,
            "NamedExpr(",
            Part::Expr(Field::Target, target),
            Part::Expr(Field::Value, value),
        ),
        Expr::BinOp { left, op, right } => Node::three(
            style,
            "BinOp(",
            Part::Expr(Field::Left, left),
            Part::Operator(*op),
            Part::Expr(Field::Right, right),
        ),
        Expr::UnaryOp { op, operand } => Node::two(
            style,
            "UnaryOp(",
            Part::Unary(*op),
            Part::Expr(Field::Operand, operand),
        ),
        Expr::Lambda { args, body } => Node::two(
            style,
            "Lambda(",
            Part::Arguments(Field::Args, args),
            Part::Expr(Field::Body, body),
        ),
        Expr::IfExp { test, body, orelse } => Node::three(
            style,
            "IfExp(",
            Part::Expr(Field::Test, test),
            Part::Expr(Field::Body, body),
            Part::Expr(Field::Orelse, orelse),
        ),
        Expr::Dict(dict) => dict_node(style, dict),
        Expr::Set { elts } => Node::one(style, "Set(", Part::Exprs(Field::Elts, elts)),
        Expr::ListComp { elt, generators } => Node::two(
            style,
            "ListComp(",
            Part::Expr(Field::Elt, elt),
            Part::Comprehensions(Field::Generators, generators),
        ),
        Expr::SetComp { elt, generators } => Node::two(
            style,
            "SetComp(",
            Part::Expr(Field::Elt, elt),
            Part::Comprehensions(Field::Generators, generators),
        ),
        Expr::DictComp(comp) => dict_comp_node(style, comp),
        Expr::GeneratorExp { elt, generators } => Node::two(
            style,
            "GeneratorExp(",
            Part::Expr(Field::Elt, elt),
            Part::Comprehensions(Field::Generators, generators),
        ),
        Expr::Await { value } => Node::one(style, "Await(", Part::Expr(Field::Value, value)),
        Expr::Yield { value } => Node::one(style, "Yield(", boxed_part(Field::Value, value)),
        Expr::YieldFrom { value } => {
            Node::one(style, "YieldFrom(", Part::Expr(Field::Value, value))
        }
        Expr::Compare(compare) => compare_node(style, compare),
        Expr::Call(call) => call_node(style, call),
        Expr::FormattedValue {
            value,
            conversion,
            format_spec,
        } => Node::three(
            style,
            "FormattedValue(",
            Part::Expr(Field::Value, value),
            Part::Conversion(*conversion),
            boxed_part(Field::FormatSpec, format_spec),
        ),
        Expr::JoinedStr { values } => {
            Node::one(style, "JoinedStr(", Part::Exprs(Field::Values, values))
        }
        Expr::Constant { value } => Node::two(
            style,
            "Constant(",
            Part::Value(Field::Value, value),
            kind_part(value),
        ),
        Expr::Attribute { value, attr, ctx } => Node::three(
            style,
            "Attribute(",
            Part::Expr(Field::Value, value),
            Part::Name(Field::Attr, attr),
            Part::Context(*ctx),
        ),
        Expr::Subscript { value, slice, ctx } => Node::three(
            style,
            "Subscript(",
            Part::Expr(Field::Value, value),
            Part::Expr(Field::Slice, slice),
            Part::Context(*ctx),
        ),
        Expr::Starred { value, ctx } => Node::two(
            style,
            "Starred(",
            Part::Expr(Field::Value, value),
            Part::Context(*ctx),
        ),
        Expr::Name { id, ctx } => Node::two(
            style,
            "Name(",
            Part::Name(Field::Id, id),
            Part::Context(*ctx),
        ),
        Expr::List { elts, ctx } => Node::two(
            style,
            "List(",
            Part::Exprs(Field::Elts, elts),
            Part::Context(*ctx),
        ),
        Expr::Tuple { elts, ctx } => Node::two(
            style,
            "Tuple(",
            Part::Exprs(Field::Elts, elts),
            Part::Context(*ctx),
        ),
        Expr::Slice(slice) => slice_node(style, slice),
    }
}

/// The field of a constant's kind, which most constants don't show.
fn kind_part<'a>(value: &Constant) -> Part<'a>
    ensures { (rest : Fields)
        → with_slot (slot_of result) rest ≡ kind_field (constant_of value.now) rest }
{
    match value {
        Constant::UnicodeStr(_) => Part::Kind,
        _ => Part::LeftOut,
    }
}

/// The node of a dictionary.
fn dict_node<'a>(style: Style, dict: &'a Dict) -> Node<'a>
    ensures { DescribesShown style result (shown (dict_of dict.now)) }
{
    Node::two(
        style,
        "Dict(",
        Part::Options(Field::Keys, &dict.keys),
        Part::Exprs(Field::Values, &dict.values),
    )
}

/// The node of a dictionary's comprehension.
fn dict_comp_node<'a>(style: Style, comp: &'a DictComp) -> Node<'a>
    ensures { DescribesShown style result (shown (dict_comp_of comp.now)) }
{
    Node::three(
        style,
        "DictComp(",
        Part::Expr(Field::Key, &comp.key),
        Part::Expr(Field::Value, &comp.value),
        Part::Comprehensions(Field::Generators, &comp.generators),
    )
}

/// The node of a comparison.
fn compare_node<'a>(style: Style, compare: &'a Compare) -> Node<'a>
    ensures { DescribesShown style result (shown (compare_of compare.now)) }
{
    Node::three(
        style,
        "Compare(",
        Part::Expr(Field::Left, &compare.left),
        Part::Comparisons(Field::Ops, &compare.ops),
        Part::Exprs(Field::Comparators, &compare.comparators),
    )
}

/// The node of a call.
fn call_node<'a>(style: Style, call: &'a Call) -> Node<'a>
    ensures { DescribesShown style result (shown (call_of call.now)) }
{
    Node::three(
        style,
        "Call(",
        Part::Expr(Field::Func, &call.func),
        Part::Exprs(Field::Args, &call.args),
        Part::Keywords(Field::Keywords, &call.keywords),
    )
}

/// The node of a slice.
fn slice_node<'a>(style: Style, slice: &'a Slice) -> Node<'a>
    ensures { DescribesShown style result (shown (slice_of slice.now)) }
{
    Node::three(
        style,
        "Slice(",
        boxed_part(Field::Lower, &slice.lower),
        boxed_part(Field::Upper, &slice.upper),
        boxed_part(Field::Step, &slice.step),
    )
}

/// The dump text of an expression.
pub fn dump_expr(alloc: Global, e: &Expr, style: Style) -> Result<String, AllocError>
    ensures { IfOk result (λ t. string_bytes t ≡ dump_text style (shown (tree_of e.now))) }
{
    let mut out = String::new(alloc);
    let mut indentation = String::from_str(alloc, "\n")?;
    show_expr(&mut out, &mut indentation, style, e, &mut NoPlaces)?;
    Ok(out)
}
