//! Expressions that can be deleted.

ghost use Rattle.std.specs.Prelude.{◌≡◌, map};
ghost use Rattle.pytree_node.specs.TreeOf.{tree_of};
ghost use Rattle.pytree_node.specs.Trees.{exprs};
ghost use Rattle.pygrammar.specs.Targets.{all_deleted, deleted};
ghost use Rattle.pyparse_nodes.specs.Answers.{IsChanged};

use pytree_node::{Context, Expr};

/// Gives an expression that can be deleted the context Del, and its members too. Where it is none,
/// the answer is false, and some of it may be changed.
#[cycle(deletions)]
pub(crate) fn delete(e: &mut Expr) -> bool
    ensures { IsChanged result (deleted (tree_of e.old)) (tree_of e.new) }
{
    match e {
        Expr::Name { ctx, .. } => {
            *ctx = Context::Del;
            true
        }
        Expr::Attribute { ctx, .. } => {
            *ctx = Context::Del;
            true
        }
        Expr::Subscript { ctx, .. } => {
            *ctx = Context::Del;
            true
        }
        Expr::Tuple { elts, ctx } => {
            *ctx = Context::Del;
            delete_all(elts)
        }
        Expr::List { elts, ctx } => {
            *ctx = Context::Del;
            delete_all(elts)
        }
        _ => false,
    }
}

/// Gives each of some expressions the context Del, if all can be deleted.
#[cycle(deletions)]
fn delete_all(es: &mut [Expr]) -> bool
    ensures { IsChanged result (all_deleted (exprs (map tree_of es.old)))
        (exprs (map tree_of es.new)) }
{
    for e in es {
        if !delete(e) {
            return false;
        }
    }
    true
}
