//! Expressions of operators and of keywords.

ghost use Rattle.std.specs.Prelude.{◌≡◌, OnOk, map};
ghost use Rattle.pytree_node.specs.TreeOf.{arguments_of, boxed_of, compare_of, tree_of};
ghost use Rattle.pytree_node.specs.Trees as plain;
ghost use Rattle.pytree_node.specs.Trees.{exprs, optional};
ghost use Rattle.pygrammar.specs.Operators.{chain_word};
ghost use Rattle.pyunparse_text.specs.Folds.{puts};
ghost use Rattle.pyunparse_text.specs.Marks.{mark};
ghost use Rattle.pyunparse_text.specs.Pieces.{piece, pieces};
ghost use Rattle.pygrammar.specs.declared.levels.Level.TheVariants as Level;
ghost use Rattle.pyunparse_text.specs.Written.{compared, each, word};

use crate::displays::write_members;
use crate::expressions::write_expr;
use crate::optional::write_perhaps;
use crate::parameters::write_parameters;
use pygrammar::Level;
use pylex_listing::Exact;
use pytoken::Keyword;
use pytree_node::{Arguments, BoolOperator, Compare, Comparison, Expr, Operator, UnaryOperator};
use pyunparse_text::levels::{
    chain_level, chain_member_level, left_level, operator_level, reaches, right_level, unary_level,
};
use pyunparse_text::marks::{Between, Role};
use pyunparse_text::signs::operator_sign;
use pyunparse_text::tokens::{close, open, put_comparison, put_sign, put_unary, put_word};
use pyunparse_text::writers::Writer;
use std::alloc::AllocError;

/// What stands between the members of a chain.
fn chain_mark(op: BoolOperator) -> Between
    ensures { mark result ≡ word piece (chain_word op) }
{
    match op {
        BoolOperator::And => Between::And,
        BoolOperator::Or => Between::Or,
    }
}

/// Writes a chain of `or` or of `and`.
#[cycle(writing)]
pub(crate) fn write_chain<W: Writer>(
    out: &mut W,
    level: Level,
    op: BoolOperator,
    values: &[Expr],
) -> Result<(), AllocError>
    ensures { OnOk result
        (out.new ≡ puts W.after out.old
        (pieces level (plain.BoolOp op (exprs (map tree_of values.now))))) }
{
    let bare = reaches(level, chain_level(op));
    open(out, bare)?;
    write_members(out, true, chain_mark(op), chain_member_level(op), values)?;
    close(out, bare)
}

/// Writes `target := value`.
#[cycle(writing)]
pub(crate) fn write_named<W: Writer>(
    out: &mut W,
    level: Level,
    target: &Expr,
    value: &Expr,
) -> Result<(), AllocError>
    ensures { OnOk result
        (out.new ≡ puts W.after out.old
        (pieces level (plain.NamedExpr (tree_of target.now) (tree_of value.now)))) }
{
    let bare = reaches(level, Level::Named);
    open(out, bare)?;
    write_expr(out, Level::Primary, target)?;
    put_sign(out, Exact::ColonEqual, Role::Free)?;
    write_expr(out, Level::Expression, value)?;
    close(out, bare)
}

/// Writes an operator between two operands.
#[cycle(writing)]
pub(crate) fn write_binary<W: Writer>(
    out: &mut W,
    level: Level,
    left: &Expr,
    op: Operator,
    right: &Expr,
) -> Result<(), AllocError>
    ensures { OnOk result
        (out.new ≡ puts W.after out.old
        (pieces level (plain.BinOp (tree_of left.now) op (tree_of right.now)))) }
{
    let bare = reaches(level, operator_level(op));
    open(out, bare)?;
    write_expr(out, left_level(op), left)?;
    put_sign(out, operator_sign(op), Role::Free)?;
    write_expr(out, right_level(op), right)?;
    close(out, bare)
}

/// Writes an operator before its operand.
#[cycle(writing)]
pub(crate) fn write_unary<W: Writer>(
    out: &mut W,
    level: Level,
    op: UnaryOperator,
    operand: &Expr,
) -> Result<(), AllocError>
    ensures { OnOk result
        (out.new ≡ puts W.after out.old (pieces level (plain.UnaryOp op (tree_of operand.now)))) }
{
    let bare = reaches(level, unary_level(op));
    open(out, bare)?;
    put_unary(out, op)?;
    write_expr(out, unary_level(op), operand)?;
    close(out, bare)
}

/// Writes a `lambda`.
#[cycle(writing)]
pub(crate) fn write_lambda<W: Writer>(
    out: &mut W,
    level: Level,
    args: &Arguments,
    body: &Expr,
) -> Result<(), AllocError>
    ensures { OnOk result
        (out.new ≡ puts W.after out.old
        (pieces level (plain.Lambda (arguments_of args.now) (tree_of body.now)))) }
{
    let bare = reaches(level, Level::Expression);
    open(out, bare)?;
    put_word(out, Keyword::Lambda)?;
    write_parameters(out, args)?;
    put_sign(out, Exact::Colon, Role::Trailing)?;
    write_expr(out, Level::Expression, body)?;
    close(out, bare)
}

/// Writes `body if test else orelse`.
#[cycle(writing)]
pub(crate) fn write_conditional<W: Writer>(
    out: &mut W,
    level: Level,
    test: &Expr,
    body: &Expr,
    orelse: &Expr,
) -> Result<(), AllocError>
    ensures { OnOk result
        (out.new ≡ puts W.after out.old
        (pieces level (plain.IfExp (tree_of test.now) (tree_of body.now) (tree_of orelse.now)))) }
{
    let bare = reaches(level, Level::Expression);
    open(out, bare)?;
    write_expr(out, Level::Or, body)?;
    put_word(out, Keyword::If)?;
    write_expr(out, Level::Or, test)?;
    put_word(out, Keyword::Else)?;
    write_expr(out, Level::Expression, orelse)?;
    close(out, bare)
}

/// Writes `await value`.
#[cycle(writing)]
pub(crate) fn write_await<W: Writer>(
    out: &mut W,
    level: Level,
    value: &Expr,
) -> Result<(), AllocError>
    ensures { OnOk result
        (out.new ≡ puts W.after out.old (pieces level (plain.Await (tree_of value.now)))) }
{
    let bare = reaches(level, Level::Await);
    open(out, bare)?;
    put_word(out, Keyword::Await)?;
    write_expr(out, Level::Primary, value)?;
    close(out, bare)
}

/// Writes `yield`, perhaps with a value.
#[cycle(writing)]
pub(crate) fn write_yield<W: Writer>(
    out: &mut W,
    level: Level,
    value: &Option<Box<Expr>>,
) -> Result<(), AllocError>
    ensures { OnOk result
        (out.new ≡ puts W.after out.old
        (pieces level (plain.Yield (optional (boxed_of value.now))))) }
{
    let bare = reaches(level, Level::Value);
    open(out, bare)?;
    put_word(out, Keyword::Yield)?;
    write_perhaps(out, Level::Stars, value)?;
    close(out, bare)
}

/// Writes `yield from value`.
#[cycle(writing)]
pub(crate) fn write_yield_from<W: Writer>(
    out: &mut W,
    level: Level,
    value: &Expr,
) -> Result<(), AllocError>
    ensures { OnOk result
        (out.new ≡ puts W.after out.old (pieces level (plain.YieldFrom (tree_of value.now)))) }
{
    let bare = reaches(level, Level::Value);
    open(out, bare)?;
    put_word(out, Keyword::Yield)?;
    put_word(out, Keyword::From)?;
    write_expr(out, Level::Expression, value)?;
    close(out, bare)
}

/// Writes a chain of comparisons.
#[cycle(writing)]
pub(crate) fn write_compare<W: Writer>(
    out: &mut W,
    level: Level,
    compare: &Compare,
) -> Result<(), AllocError>
    ensures { OnOk result
        (out.new ≡ puts W.after out.old (pieces level (compare_of compare.now))) }
{
    let bare = reaches(level, Level::Compare);
    open(out, bare)?;
    write_expr(out, Level::BitOr, &compare.left)?;
    write_compared(out, &compare.ops, &compare.comparators)?;
    close(out, bare)
}

/// Writes comparisons with what stands after them.
#[cycle(writing)]
fn write_compared<W: Writer>(
    out: &mut W,
    ops: &[Comparison],
    comparators: &[Expr],
) -> Result<(), AllocError>
    ensures { OnOk result
        (out.new ≡ puts W.after out.old
        (compared piece ops.now (each piece Level.BitOr (exprs (map tree_of comparators.now))))) }
{
    for i in 0..ops.len().min(comparators.len()) {
        put_comparison(out, ops[i])?;
        write_expr(out, Level::BitOr, &comparators[i])?;
    }
    Ok(())
}
