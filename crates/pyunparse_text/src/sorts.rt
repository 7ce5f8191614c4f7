//! The expressions that a list is looked through for.

ghost use Rattle.std.specs.Prelude.{◌≡◌};
ghost use Rattle.pytree_node.specs.TreeOf.{tree_of};
ghost use Rattle.pyunparse_text.specs.Sorts.{sort};

use pytree_node::Expr;

/// Whether an expression is starred, a `:=`, or any other.
#[derive(Clone, Copy)]
pub enum Sort {
    Starred,
    Named,
    Other,
}

/// The sort of an expression.
#[tactic(auto, using(pytree_node::proofs::Callers::ExprShapes::expr_shapes))]
pub fn sort_of(e: &Expr) -> Sort
    ensures { result ≡ sort (tree_of e.now) }
{
    match e {
        Expr::BoolOp { .. } => Sort::Other,
        Expr::NamedExpr { .. } => Sort::Named,
        Expr::BinOp { .. } => Sort::Other,
        Expr::UnaryOp { .. } => Sort::Other,
        Expr::Lambda { .. } => Sort::Other,
        Expr::IfExp { .. } => Sort::Other,
        Expr::Dict(_) => Sort::Other,
        Expr::Set { .. } => Sort::Other,
        Expr::ListComp { .. } => Sort::Other,
        Expr::SetComp { .. } => Sort::Other,
        Expr::DictComp(_) => Sort::Other,
        Expr::GeneratorExp { .. } => Sort::Other,
        Expr::Await { .. } => Sort::Other,
        Expr::Yield { .. } => Sort::Other,
        Expr::YieldFrom { .. } => Sort::Other,
        Expr::Compare(_) => Sort::Other,
        Expr::Call(_) => Sort::Other,
        Expr::FormattedValue { .. } => Sort::Other,
        Expr::JoinedStr { .. } => Sort::Other,
        Expr::Constant { .. } => Sort::Other,
        Expr::Attribute { .. } => Sort::Other,
        Expr::Subscript { .. } => Sort::Other,
        Expr::Starred { .. } => Sort::Starred,
        Expr::Name { .. } => Sort::Other,
        Expr::List { .. } => Sort::Other,
        Expr::Tuple { .. } => Sort::Other,
        Expr::Slice(_) => Sort::Other,
    }
}
