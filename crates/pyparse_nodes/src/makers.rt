//! A node of parts that were read, where it is not too high.

ghost use Rattle.std.specs.Prelude.{◌≡◌, ◌<◌, MatchResult, max, map};
ghost use Rattle.std.specs.Str.{chars};
ghost use Rattle.unicode_normalization.specs.Forms.{nfkc};
ghost use Rattle.pytree_node.specs.TreeOf.{constant_of};
ghost use Rattle.pytree_node.specs.TreeOf.{tree_of};
ghost use Rattle.pytree_node.specs.Trees as plain;
ghost use Rattle.pytree_node.specs.Trees.{exprs};
ghost use Rattle.pytree_node.specs.Values as values;
ghost use Rattle.pytree_height.specs.Heights as Heights;
ghost use Rattle.pytoken.specs.NumberValues.{number_value};
ghost use Rattle.pytoken.specs.TerminalOf.{number_bytes};
ghost use Rattle.pyparse_nodes.specs.Answers.{Makes, Made};

use crate::found::Read;
use crate::{Stop, above};
use pytoken::{NumberText, identifier_value};
use pytree_node::{
    BoolOperator, Compare, Comparison, Constant, Context, Expr, Identifier, Integer, Operator,
    UnaryOperator,
};
use std::alloc::Global;

/// What was read, of an expression of this height.
#[inline(always)]
pub(crate) fn boxed(alloc: Global, expr: Expr, height: usize, next: usize) -> Result<Read, Stop>
    requires { height ≡ Heights.height (tree_of expr) }
    ensures { MatchResult result (λ r. Made height (tree_of expr) next r) (λ s. s ≡ Stop.Memory) }
{
    let expr = Box::new(alloc, expr)?;
    Ok(Read { expr, height, next })
}

/// The name of a tree that a NAME of this text stands for.
pub fn identifier_of(alloc: Global, text: &str) -> Result<Identifier, Stop>
    ensures { MatchResult result (λ name. name ≡ nfkc (chars text.now)) (λ s. s ≡ Stop.Memory) }
{
    Ok(identifier_value(alloc, text)?)
}

/// A whole number.
pub fn make_whole(alloc: Global, value: u64, next: usize) -> Result<Read, Stop>
    ensures { MatchResult result (λ r. Made 1 (plain.Constant (values.Int value)) next r)
        (λ s. s ≡ Stop.Memory) }
{
    let value = Integer::new(alloc, u128::from(value))?;
    make_constant(alloc, Constant::Int(value), next)
}

/// What a NUMBER stands for.
pub fn make_number(alloc: Global, number: NumberText, next: usize) -> Result<Read, Stop>
    ensures { MatchResult result
        (λ r. Made 1 (plain.Constant (number_value (number_bytes number.entry))) next r)
        (λ s. s ≡ Stop.Memory) }
{
    let value = number.value(alloc)?;
    make_constant(alloc, value, next)
}

/// A name.
#[tactic(auto, using(pytree_node::proofs::Callers::ExprShapes::expr_shapes))]
#[inline(never)]
pub fn make_name(alloc: Global, name: &str, ctx: Context, next: usize) -> Result<Read, Stop>
    ensures { MatchResult result (λ r. Made 1 (plain.Name (nfkc (chars name.now)) ctx) next r)
        (λ s. s ≡ Stop.Memory) }
{
    let id = identifier_of(alloc, name)?;
    boxed(alloc, Expr::Name { id, ctx }, 1, next)
}

/// A constant.
#[tactic(auto, using(pytree_node::proofs::Callers::ExprShapes::expr_shapes))]
pub fn make_constant(alloc: Global, value: Constant, next: usize) -> Result<Read, Stop>
    ensures { MatchResult result (λ r. Made 1 (plain.Constant (constant_of value)) next r)
        (λ s. s ≡ Stop.Memory) }
{
    boxed(alloc, Expr::Constant { value }, 1, next)
}

/// A binary operation.
#[tactic(auto, using(pytree_node::proofs::Callers::ExprShapes::expr_shapes))]
pub fn make_binary(
    alloc: Global,
    left: Read,
    op: Operator,
    right: Read,
    room: usize,
) -> Result<Read, Stop>
    ensures { Makes room
        (plain.BinOp (tree_of left.expr.value) op (tree_of right.expr.value)) right.next result }
{
    let height = above(left.height.max(right.height), room)?;
    boxed(
        alloc,
        Expr::BinOp {
            left: left.expr,
            op,
            right: right.expr,
        },
        height,
        right.next,
    )
}

/// A unary operation.
#[tactic(auto, using(pytree_node::proofs::Callers::ExprShapes::expr_shapes))]
pub fn make_unary(alloc: Global, op: UnaryOperator, e: Read, room: usize) -> Result<Read, Stop>
    ensures { Makes room (plain.UnaryOp op (tree_of e.expr.value)) e.next result }
{
    let height = above(e.height, room)?;
    boxed(
        alloc,
        Expr::UnaryOp {
            op,
            operand: e.expr,
        },
        height,
        e.next,
    )
}

/// An `await`.
#[tactic(auto, using(pytree_node::proofs::Callers::ExprShapes::expr_shapes))]
pub fn make_await(alloc: Global, e: Read, room: usize) -> Result<Read, Stop>
    ensures { Makes room (plain.Await (tree_of e.expr.value)) e.next result }
{
    let height = above(e.height, room)?;
    boxed(alloc, Expr::Await { value: e.expr }, height, e.next)
}

/// A starred expression.
#[tactic(auto, using(pytree_node::proofs::Callers::ExprShapes::expr_shapes))]
#[inline(never)]
pub fn make_starred(alloc: Global, e: Read, room: usize) -> Result<Read, Stop>
    ensures { Makes room (plain.Starred (tree_of e.expr.value) Context.Load) e.next result }
{
    let height = above(e.height, room)?;
    boxed(
        alloc,
        Expr::Starred {
            value: e.expr,
            ctx: Context::Load,
        },
        height,
        e.next,
    )
}

/// A starred expression, of any height.
#[tactic(auto, using(pytree_node::proofs::Callers::ExprShapes::expr_shapes))]
pub fn starred(alloc: Global, e: Read) -> Result<Read, Stop>
    ensures tree { MatchResult result
        (λ r. tree_of r.expr.value ≡ plain.Starred (tree_of e.expr.value) Context.Load)
        (λ s. s ≡ Stop.Memory) }
    ensures next { MatchResult result (λ r. r.next ≡ e.next) (λ s. s ≡ Stop.Memory) }
{
    let next = e.next;
    // No memory holds a tree of a height beyond all numbers.
    let height = e.height.checked_add(1).ok_or(Stop::Memory)?;
    boxed(
        alloc,
        Expr::Starred {
            value: e.expr,
            ctx: Context::Load,
        },
        height,
        next,
    )
}

/// A `yield from`.
#[tactic(auto, using(pytree_node::proofs::Callers::ExprShapes::expr_shapes))]
pub fn make_yield_from(alloc: Global, e: Read, room: usize) -> Result<Read, Stop>
    ensures { Makes room (plain.YieldFrom (tree_of e.expr.value)) e.next result }
{
    let height = above(e.height, room)?;
    boxed(alloc, Expr::YieldFrom { value: e.expr }, height, e.next)
}

/// A conditional.
#[tactic(auto, using(pytree_node::proofs::Callers::ExprShapes::expr_shapes))]
#[inline(never)]
pub fn make_if(
    alloc: Global,
    test: Read,
    body: Read,
    orelse: Read,
    room: usize,
) -> Result<Read, Stop>
    ensures { Makes room
        (plain.IfExp (tree_of test.expr.value) (tree_of body.expr.value)
        (tree_of orelse.expr.value)) orelse.next result }
{
    let height = above(test.height.max(body.height.max(orelse.height)), room)?;
    boxed(
        alloc,
        Expr::IfExp {
            test: test.expr,
            body: body.expr,
            orelse: orelse.expr,
        },
        height,
        orelse.next,
    )
}

/// An assignment expression.
#[tactic(auto, using(pytree_node::proofs::Callers::ExprShapes::expr_shapes))]
#[inline(never)]
pub fn make_named(alloc: Global, target: Read, value: Read, room: usize) -> Result<Read, Stop>
    ensures { Makes room
        (plain.NamedExpr (tree_of target.expr.value) (tree_of value.expr.value)) value.next result }
{
    let height = above(target.height.max(value.height), room)?;
    boxed(
        alloc,
        Expr::NamedExpr {
            target: target.expr,
            value: value.expr,
        },
        height,
        value.next,
    )
}

/// A chain of `and` or of `or`, of values of this height.
#[tactic(auto, using(pytree_node::proofs::Callers::ExprShapes::expr_shapes))]
pub fn make_chain(
    alloc: Global,
    op: BoolOperator,
    values: Vec<Expr>,
    under: usize,
    next: usize,
    room: usize,
) -> Result<Read, Stop>
    requires { under ≡ Heights.list_height (map tree_of values.items) }
    ensures { Makes room (plain.BoolOp op (exprs (map tree_of values.items))) next result }
{
    let height = above(under, room)?;
    boxed(alloc, Expr::BoolOp { op, values }, height, next)
}

/// A comparison, of parts of this height.
#[tactic(auto, using(pytree_node::proofs::Callers::ExprShapes::expr_shapes))]
pub fn make_compare(
    alloc: Global,
    left: Box<Expr>,
    ops: Vec<Comparison>,
    comparators: Vec<Expr>,
    under: usize,
    next: usize,
    room: usize,
) -> Result<Read, Stop>
    requires { under ≡ max (Heights.height (tree_of left.value))
        (Heights.list_height (map tree_of comparators.items)) }
    ensures { Makes room
        (plain.Compare (tree_of left.value) ops.items
        (exprs (map tree_of comparators.items))) next result }
{
    let height = above(under, room)?;
    let compare = Compare {
        left: Box::into_inner(left),
        ops,
        comparators,
    };
    let compare = Box::new(alloc, compare)?;
    boxed(alloc, Expr::Compare(compare), height, next)
}

/// An attribute.
#[tactic(auto, using(pytree_node::proofs::Callers::ExprShapes::expr_shapes))]
pub fn make_attribute(
    alloc: Global,
    e: Read,
    name: &str,
    next: usize,
    room: usize,
) -> Result<Read, Stop>
    ensures { Makes room
        (plain.Attribute (tree_of e.expr.value) (nfkc (chars name.now)) Context.Load) next result }
{
    let height = above(e.height, room)?;
    let attr = identifier_of(alloc, name)?;
    boxed(
        alloc,
        Expr::Attribute {
            value: e.expr,
            attr,
            ctx: Context::Load,
        },
        height,
        next,
    )
}

/// A subscript.
#[tactic(auto, using(pytree_node::proofs::Callers::ExprShapes::expr_shapes))]
pub fn make_subscript(
    alloc: Global,
    e: Read,
    slice: Read,
    next: usize,
    room: usize,
) -> Result<Read, Stop>
    ensures { Makes room
        (plain.Subscript (tree_of e.expr.value)
        (tree_of slice.expr.value) Context.Load) next result }
{
    let height = above(e.height.max(slice.height), room)?;
    boxed(
        alloc,
        Expr::Subscript {
            value: e.expr,
            slice: slice.expr,
            ctx: Context::Load,
        },
        height,
        next,
    )
}
