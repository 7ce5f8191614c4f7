//! The nodes of expressions.

ghost use Rattle.std.specs.Prelude.{◌≡◌, ◌≤◌};
ghost use Rattle.pytree_node.specs.declared.profiles.Version.{Version as AnyVersion};
ghost use Rattle.pytree_node.specs.Trees.{optional};
ghost use Rattle.pytree_node.specs.TreeOf.{boxed_of, call_of, compare_of, constant_of, dict_comp_of, dict_of};
ghost use Rattle.pytree_node.specs.TreeOf.{slice_of, tree_of};
ghost use Rattle.pytree_fields.specs.Classes.{field_count};
ghost use Rattle.pytree_fields.specs.LentThings.{node_thing, with_held};
ghost use Rattle.pytree_fields.specs.Things.{Things, expr_thing, kind_field, optional_field};

use crate::classes::Class;
use crate::held::Held;
use crate::leaves::Leaf;
use crate::nodes::Node;
use crate::rows::Row;
use pytree_node::{Call, Compare, Constant, Dict, DictComp, Expr, Slice};

/// The node of an expression.
#[tactic(auto, using(pytree_node::proofs::Callers::ExprShapes::expr_shapes))]
pub(crate) fn expr_node<'a>(e: &'a Expr) -> Node<'a>
    ensures thing { (version : AnyVersion) → node_thing version result ≡ expr_thing (tree_of e.now) }
    ensures len { result.len ≡ field_count result.class }
    ensures room { result.len ≤ 7 }
{
    match e {
        Expr::BoolOp { op, values } => Node::two(
            Class::BoolOp,
            Held::Leaf(Leaf::Bool(*op)),
            Held::Row(Row::Exprs(values)),
        ),
        Expr::NamedExpr { target, value } => Node::two(
            Class::NamedExpr,
            Held::Expr(target),
            Held::Expr(value),
        ),
        Expr::BinOp { left, op, right } => Node::three(
            Class::BinOp,
            Held::Expr(left),
            Held::Leaf(Leaf::Operator(*op)),
            Held::Expr(right),
        ),
        Expr::UnaryOp { op, operand } => Node::two(
            Class::UnaryOp,
            Held::Leaf(Leaf::Unary(*op)),
            Held::Expr(operand),
        ),
        Expr::Lambda { args, body } => Node::two(
            Class::Lambda,
            Held::Arguments(args),
            Held::Expr(body),
        ),
        Expr::IfExp { test, body, orelse } => Node::three(
            Class::IfExp,
            Held::Expr(test),
            Held::Expr(body),
            Held::Expr(orelse),
        ),
        Expr::Dict(dict) => dict_node(dict),
        Expr::Set { elts } => Node::one(Class::Set, Held::Row(Row::Exprs(elts))),
        Expr::ListComp { elt, generators } => Node::two(
            Class::ListComp,
            Held::Expr(elt),
            Held::Row(Row::Comprehensions(generators)),
        ),
        Expr::SetComp { elt, generators } => Node::two(
            Class::SetComp,
            Held::Expr(elt),
            Held::Row(Row::Comprehensions(generators)),
        ),
        Expr::DictComp(comp) => dict_comp_node(comp),
        Expr::GeneratorExp { elt, generators } => Node::two(
            Class::GeneratorExp,
            Held::Expr(elt),
            Held::Row(Row::Comprehensions(generators)),
        ),
        Expr::Await { value } => Node::one(Class::Await, Held::Expr(value)),
        Expr::Yield { value } => Node::one(Class::Yield, boxed_held(value)),
        Expr::YieldFrom { value } => Node::one(Class::YieldFrom, Held::Expr(value)),
        Expr::Compare(compare) => compare_node(compare),
        Expr::Call(call) => call_node(call),
        Expr::FormattedValue {
            value,
            conversion,
            format_spec,
        } => Node::three(
            Class::FormattedValue,
            Held::Expr(value),
            Held::Leaf(Leaf::Conversion(*conversion)),
            boxed_held(format_spec),
        ),
        Expr::JoinedStr { values } => Node::one(Class::JoinedStr, Held::Row(Row::Exprs(values))),
        Expr::Constant { value } => Node::two(
            Class::Constant,
            Held::Leaf(Leaf::Value(value)),
            kind_held(value),
        ),
        Expr::Attribute { value, attr, ctx } => Node::three(
            Class::Attribute,
            Held::Expr(value),
            Held::Leaf(Leaf::Name(attr)),
            Held::Leaf(Leaf::Context(*ctx)),
        ),
        Expr::Subscript { value, slice, ctx } => Node::three(
            Class::Subscript,
            Held::Expr(value),
            Held::Expr(slice),
            Held::Leaf(Leaf::Context(*ctx)),
        ),
        Expr::Starred { value, ctx } => Node::two(
            Class::Starred,
            Held::Expr(value),
            Held::Leaf(Leaf::Context(*ctx)),
        ),
        Expr::Name { id, ctx } => Node::two(
            Class::Name,
            Held::Leaf(Leaf::Name(id)),
            Held::Leaf(Leaf::Context(*ctx)),
        ),
        Expr::List { elts, ctx } => Node::two(
            Class::List,
            Held::Row(Row::Exprs(elts)),
            Held::Leaf(Leaf::Context(*ctx)),
        ),
        Expr::Tuple { elts, ctx } => Node::two(
            Class::Tuple,
            Held::Row(Row::Exprs(elts)),
            Held::Leaf(Leaf::Context(*ctx)),
        ),
        Expr::Slice(slice) => slice_node(slice),
    }
}

/// The field of an expression that may be absent.
pub(crate) fn boxed_held<'a>(e: &'a Option<Box<Expr>>) -> Held<'a>
    ensures { (version : AnyVersion) → (rest : Things)
        → with_held version result rest ≡ optional_field (optional (boxed_of e.now)) rest }
{
    match e {
        None => Held::LeftOut,
        Some(e) => Held::Expr(e),
    }
}

/// The field of a constant's kind, which most constants don't have.
fn kind_held<'a>(value: &Constant) -> Held<'a>
    ensures { (version : AnyVersion) → (rest : Things)
        → with_held version result rest ≡ kind_field (constant_of value.now) rest }
{
    match value {
        Constant::UnicodeStr(_) => Held::Leaf(Leaf::Kind),
        _ => Held::LeftOut,
    }
}

/// The node of a dictionary.
#[tactic(auto, using(pytree_node::proofs::Callers::ExprShapes::expr_shapes))]
fn dict_node<'a>(dict: &'a Dict) -> Node<'a>
    ensures thing { (version : AnyVersion) → node_thing version result ≡ expr_thing (dict_of dict.now) }
    ensures len { result.len ≡ field_count result.class }
    ensures room { result.len ≤ 7 }
{
    Node::two(
        Class::Dict,
        Held::Row(Row::Options(&dict.keys)),
        Held::Row(Row::Exprs(&dict.values)),
    )
}

/// The node of a dictionary's comprehension.
#[tactic(auto, using(pytree_node::proofs::Callers::ExprShapes::expr_shapes))]
fn dict_comp_node<'a>(comp: &'a DictComp) -> Node<'a>
    ensures thing { (version : AnyVersion) → node_thing version result ≡ expr_thing (dict_comp_of comp.now) }
    ensures len { result.len ≡ field_count result.class }
    ensures room { result.len ≤ 7 }
{
    Node::three(
        Class::DictComp,
        Held::Expr(&comp.key),
        Held::Expr(&comp.value),
        Held::Row(Row::Comprehensions(&comp.generators)),
    )
}

/// The node of a comparison.
#[tactic(auto, using(pytree_node::proofs::Callers::ExprShapes::expr_shapes))]
fn compare_node<'a>(compare: &'a Compare) -> Node<'a>
    ensures thing { (version : AnyVersion) → node_thing version result ≡ expr_thing (compare_of compare.now) }
    ensures len { result.len ≡ field_count result.class }
    ensures room { result.len ≤ 7 }
{
    Node::three(
        Class::Compare,
        Held::Expr(&compare.left),
        Held::Row(Row::Comparisons(&compare.ops)),
        Held::Row(Row::Exprs(&compare.comparators)),
    )
}

/// The node of a call.
#[tactic(auto, using(pytree_node::proofs::Callers::ExprShapes::expr_shapes))]
fn call_node<'a>(call: &'a Call) -> Node<'a>
    ensures thing { (version : AnyVersion) → node_thing version result ≡ expr_thing (call_of call.now) }
    ensures len { result.len ≡ field_count result.class }
    ensures room { result.len ≤ 7 }
{
    Node::three(
        Class::Call,
        Held::Expr(&call.func),
        Held::Row(Row::Exprs(&call.args)),
        Held::Row(Row::Keywords(&call.keywords)),
    )
}

/// The node of a slice.
#[tactic(auto, using(pytree_node::proofs::Callers::ExprShapes::expr_shapes))]
fn slice_node<'a>(slice: &'a Slice) -> Node<'a>
    ensures thing { (version : AnyVersion) → node_thing version result ≡ expr_thing (slice_of slice.now) }
    ensures len { result.len ≡ field_count result.class }
    ensures room { result.len ≤ 7 }
{
    Node::three(
        Class::Slice,
        boxed_held(&slice.lower),
        boxed_held(&slice.upper),
        boxed_held(&slice.step),
    )
}
