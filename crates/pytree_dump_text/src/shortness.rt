//! Which nodes stand on one line.

ghost use Rattle.std.specs.Prelude.{◌≡◌, ◌||◌, ◌&&◌};
ghost use Rattle.pytree_dump_text.specs.Slots.{is_missing, is_plain, slot_of, with_slot};
ghost use Rattle.pytree_dump_text.specs.Layout.{is_flat, is_short, is_simple};
ghost use Rattle.pytree_dump_text.specs.Shows.{no_field, shown};
ghost use Rattle.pytree_node.specs.TreeOf.{tree_of};

use crate::lines::is_flat;
use crate::parts::{Part, is_absent};
use crate::styles::Style;
use pytree_node::Expr;

/// Whether an expression shows no field.
#[tactic(auto, using(pytree_node::proofs::Callers::ExprShapes::expr_shapes))]
pub(crate) fn is_bare(e: &Expr) -> bool
    ensures { result ≡ is_simple (shown (tree_of e.now)) }
{
    match e {
        Expr::BoolOp { .. } => false,
        Expr::NamedExpr { .. } => false,
        Expr::BinOp { .. } => false,
        Expr::UnaryOp { .. } => false,
        Expr::Lambda { .. } => false,
        Expr::IfExp { .. } => false,
        Expr::Dict(_) => false,
        Expr::Set { .. } => false,
        Expr::ListComp { .. } => false,
        Expr::SetComp { .. } => false,
        Expr::DictComp(_) => false,
        Expr::GeneratorExp { .. } => false,
        Expr::Await { .. } => false,
        Expr::Yield { value } => value.is_none(),
        Expr::YieldFrom { .. } => false,
        Expr::Compare(_) => false,
        Expr::Call(_) => false,
        Expr::FormattedValue { .. } => false,
        Expr::JoinedStr { .. } => false,
        Expr::Constant { .. } => false,
        Expr::Attribute { .. } => false,
        Expr::Subscript { .. } => false,
        Expr::Starred { .. } => false,
        Expr::Name { .. } => false,
        Expr::List { .. } => false,
        Expr::Tuple { .. } => false,
        Expr::Slice(slice) => {
            all(
                slice.lower.is_none(),
                slice.upper.is_none(),
                slice.step.is_none(),
            )
        }
    }
}

/// All of three.
fn all(a: bool, b: bool, c: bool) -> bool
    ensures { result ≡ a && b && c }
{
    a && b && c
}

/// Whether a field is left out or simple.
#[tactic(auto, using(crate::proofs::SlotLemmas::plain_parts))]
fn is_plain(part: Part<'_>) -> bool
    ensures { result ≡ is_plain (slot_of part.entry) }
{
    match part {
        Part::Expr(_, e) => is_bare(e),
        Part::Exprs(_, es) => es.is_empty(),
        Part::Options(_, es) => es.is_empty(),
        Part::Comprehensions(_, cs) => cs.is_empty(),
        Part::Keywords(_, ks) => ks.is_empty(),
        Part::Args(_, all) => all.is_empty(),
        Part::Arg(_, _) => false,
        Part::Arguments(_, _) => false,
        Part::Comparisons(_, cs) => cs.is_empty(),
        Part::Names(_, names) => names.is_empty(),
        Part::Aliases(_, names) => names.is_empty(),
        Part::Items(_, items) => items.is_empty(),
        Part::TypeParams(_, all) => all.is_empty(),
        Part::Operator(_) => true,
        Part::Unary(_) => true,
        Part::Bool(_) => true,
        Part::Conversion(_) => true,
        Part::Context(_) => true,
        Part::Name(_, _) => true,
        Part::Value(_, _) => true,
        Part::Number(_, _) => true,
        Part::Flag(_, _) => true,
        Part::Kind => true,
        Part::LeftOut => true,
    }
}

/// Whether a node of one field stands on one line.
#[tactic(auto, using(crate::proofs::SlotLemmas::one_slot))]
pub fn is_short_one(style: Style, a: Part<'_>) -> bool
    ensures { result ≡ (is_flat style.indent || is_short (with_slot (slot_of a.entry) no_field)) }
{
    is_flat(style) || is_plain(a)
}

/// Whether a node of two fields stands on one line.
#[tactic(auto, using(crate::proofs::SlotLemmas::two_slots))]
pub fn is_short_two(style: Style, a: Part<'_>, b: Part<'_>) -> bool
    ensures { result ≡ (is_flat style.indent
        || is_short (with_slot (slot_of a.entry) (with_slot (slot_of b.entry) no_field))) }
{
    is_flat(style) || is_plain(a) && is_plain(b)
}

/// Whether a node of three fields stands on one line.
#[tactic(auto, using(crate::proofs::SlotLemmas::three_slots))]
pub fn is_short_three(style: Style, a: Part<'_>, b: Part<'_>, c: Part<'_>) -> bool
    ensures { result ≡ (is_flat style.indent
        || is_short (with_slot (slot_of a.entry)
        (with_slot (slot_of b.entry) (with_slot (slot_of c.entry) no_field)))) }
{
    is_flat(style) || is_plain(a) && is_plain(b) && is_plain(c)
}

/// Whether one of four fields is left out, so that three are shown.
fn is_one_absent(a: Part<'_>, b: Part<'_>, c: Part<'_>, d: Part<'_>) -> bool
    ensures { result ≡ (is_missing (slot_of a.entry) || is_missing (slot_of b.entry)
        || is_missing (slot_of c.entry) || is_missing (slot_of d.entry)) }
{
    is_absent(a) || is_absent(b) || is_absent(c) || is_absent(d)
}

/// Whether a node of four fields stands on one line. It doesn't where all are shown.
#[tactic(auto, using(crate::proofs::SlotLemmas::four_slots))]
pub fn is_short_four(style: Style, a: Part<'_>, b: Part<'_>, c: Part<'_>, d: Part<'_>) -> bool
    ensures { result ≡ (is_flat style.indent
        || is_short (with_slot (slot_of a.entry)
        (with_slot (slot_of b.entry)
        (with_slot (slot_of c.entry) (with_slot (slot_of d.entry) no_field))))) }
{
    is_flat(style)
        || is_one_absent(a, b, c, d) && is_plain(a) && is_plain(b) && is_plain(c) && is_plain(d)
}
