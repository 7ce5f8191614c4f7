//! Expressions.

ghost use Rattle.std.specs.Prelude.{◌≡◌, ◌≤◌, IfOk, List, OnOk, map, true};
ghost use Rattle.pytree_node.specs.TreeOf.{tree_of};
ghost use Rattle.pytree_node.specs.declared.profiles.Extent.{Extent};
ghost use Rattle.pyunparse_text.specs.Folds.{puts};
ghost use Rattle.pyunparse_text.specs.Told.{in_bytes, told};
ghost use Rattle.pytoken.specs.Terminals.{Terminal};
ghost use Rattle.pytree_height.specs.Heights.{height};
ghost use Rattle.pygrammar.specs.FormattedStrings.{has_formatted};
ghost use Rattle.pygrammar.specs.Grammar.{Derives};
ghost use Rattle.pyunparse_text.specs.Laws.{AreOfTokens, AreRead, Shortest};
ghost use Rattle.pyunparse_text.specs.Pieces.{outside, pieces};
ghost use Rattle.pyunparse_text.specs.Terminals.{terminals};

use crate::calls::{write_attribute, write_call, write_subscript};
use crate::clauses::{write_comprehension, write_dict_comprehension};
use crate::constants::put_constant;
use crate::displays::{write_dict, write_display};
use crate::operators::{
    write_await, write_binary, write_chain, write_compare, write_conditional, write_lambda,
    write_named, write_unary, write_yield, write_yield_from,
};
use crate::strings::{write_formatted, write_joined};
use crate::tuples::{write_slice, write_tuple};
use pygrammar::Level;
use pylex_listing::Exact;
use pytree_node::Expr;
use pyunparse_text::levels::star_level;
use pyunparse_text::marks::Role;
use pyunparse_text::piece_writer::PieceWriter;
use pyunparse_text::pieces::Piece;
use pyunparse_text::tokens::{put_name, put_sign};
use pyunparse_text::writers::Writer;
use std::alloc::{AllocError, Global};

/// Writes an expression at a level of the grammar.
#[cycle(writing)]
#[tactic(auto, using(pytree_node::proofs::Callers::ExprShapes::expr_shapes))]
pub(crate) fn write_expr<W: Writer>(out: &mut W, level: Level, e: &Expr) -> Result<(), AllocError>
    ensures { OnOk result (out.new ≡ puts W.after out.old (pieces level (tree_of e.now))) }
{
    match e {
        Expr::BoolOp { op, values } => write_chain(out, level, *op, values),
        Expr::NamedExpr { target, value } => write_named(out, level, target, value),
        Expr::BinOp { left, op, right } => write_binary(out, level, left, *op, right),
        Expr::UnaryOp { op, operand } => write_unary(out, level, *op, operand),
        Expr::Lambda { args, body } => write_lambda(out, level, args, body),
        Expr::IfExp { test, body, orelse } => write_conditional(out, level, test, body, orelse),
        Expr::Dict(dict) => write_dict(out, dict),
        Expr::Set { elts } => write_display(out, Exact::LBrace, Exact::RBrace, elts),
        Expr::ListComp { elt, generators } => {
            write_comprehension(out, Exact::LSqb, Exact::RSqb, elt, generators)
        }
        Expr::SetComp { elt, generators } => {
            write_comprehension(out, Exact::LBrace, Exact::RBrace, elt, generators)
        }
        Expr::DictComp(comp) => write_dict_comprehension(out, comp),
        Expr::GeneratorExp { elt, generators } => {
            write_comprehension(out, Exact::LPar, Exact::RPar, elt, generators)
        }
        Expr::Await { value } => write_await(out, level, value),
        Expr::Yield { value } => write_yield(out, level, value),
        Expr::YieldFrom { value } => write_yield_from(out, level, value),
        Expr::Compare(compare) => write_compare(out, level, compare),
        Expr::Call(call) => write_call(out, level, call),
        Expr::FormattedValue {
            value,
            conversion,
            format_spec,
        } => write_formatted(out, value, *conversion, format_spec),
        Expr::JoinedStr { values } => write_joined(out, values),
        Expr::Constant { value } => put_constant(out, value),
        Expr::Attribute { value, attr, .. } => write_attribute(out, level, value, attr),
        Expr::Subscript { value, slice, .. } => write_subscript(out, level, value, slice),
        Expr::Starred { value, .. } => {
            put_sign(out, Exact::Star, Role::Leading)?;
            write_expr(out, star_level(level), value)
        }
        Expr::Name { id, .. } => put_name(out, id),
        Expr::List { elts, .. } => write_display(out, Exact::LSqb, Exact::RSqb, elts),
        Expr::Tuple { elts, .. } => write_tuple(out, level, elts),
        Expr::Slice(slice) => write_slice(out, level, slice),
    }
}

/// The tokens that an expression is written in at a level of the grammar.
///
/// Each has its type and its text. The only error is of memory.
pub fn expression_tokens(alloc: Global, expr: &Expr, level: Level) -> Result<Vec<Piece>, AllocError>
    ensures tokens { IfOk result
        (λ tokens. map told tokens.items
        ≡ map in_bytes (outside (pieces level (tree_of expr.now)))) }
    ensures fewest { (ts : List Terminal) → Derives level ts (tree_of expr.now)
        → Shortest (Derives level) (terminals level (tree_of expr.now)) (tree_of expr.now) }
    ensures read { (extent : Extent) (ts : List Terminal) → AreOfTokens extent ts
        → Derives level ts (tree_of expr.now)
        → (has_formatted (terminals level (tree_of expr.now)) ≡ true
        → height (tree_of expr.now) ≤ 500)
        → AreRead extent (outside (pieces level (tree_of expr.now)))
        (terminals level (tree_of expr.now)) }
{
    let mut out = PieceWriter::new(alloc);
    write_expr(&mut out, level, expr)?;
    Ok(out.into_pieces())
}
