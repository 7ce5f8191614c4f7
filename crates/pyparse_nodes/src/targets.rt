//! Expressions that can be assigned to.

ghost use Rattle.std.specs.Prelude.{◌≡◌, map};
ghost use Rattle.pytree_node.specs.TreeOf.{tree_of};
ghost use Rattle.pytree_node.specs.Trees.{exprs};
ghost use Rattle.pygrammar.specs.Targets.{all_stored, stored};
ghost use Rattle.pyparse_nodes.specs.Answers.{IsChanged};
ghost use Rattle.pyparse_nodes.specs.Inner.Targets as shapes;

use pytree_node::{Context, Expr};

/// Whether an expression is a `*` and another one.
fn is_starred(e: &Expr) -> bool
    ensures { result ≡ shapes.is_starred (tree_of e.now) }
{
    matches!(e, Expr::Starred { .. })
}

/// Gives an expression of target shape the context Store, and its members too. Where it has
/// another shape, the answer is false, and some of it may be changed.
#[cycle(targets)]
pub fn store(e: &mut Expr) -> bool
    ensures { IsChanged result (stored (tree_of e.old)) (tree_of e.new) }
{
    match e {
        Expr::Name { ctx, .. } => {
            *ctx = Context::Store;
            true
        }
        Expr::Attribute { ctx, .. } => {
            *ctx = Context::Store;
            true
        }
        Expr::Subscript { ctx, .. } => {
            *ctx = Context::Store;
            true
        }
        Expr::Tuple { elts, ctx } => {
            *ctx = Context::Store;
            store_all(elts)
        }
        Expr::List { elts, ctx } => {
            *ctx = Context::Store;
            store_all(elts)
        }
        Expr::Starred { value, ctx } => {
            *ctx = Context::Store;
            !is_starred(value) && store(value)
        }
        _ => false,
    }
}

/// Gives each of some expressions the context Store, if all have target shape.
#[cycle(targets)]
fn store_all(es: &mut [Expr]) -> bool
    ensures { IsChanged result (all_stored (exprs (map tree_of es.old)))
        (exprs (map tree_of es.new)) }
{
    for e in es {
        if !store(e) {
            return false;
        }
    }
    true
}
