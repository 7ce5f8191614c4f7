//! Expressions that can be assigned to alone.

ghost use Rattle.std.specs.Prelude.{◌≡◌};
ghost use Rattle.pytree_node.specs.TreeOf.{tree_of};
ghost use Rattle.pygrammar.specs.Targets.{single_stored};
ghost use Rattle.pyparse_nodes.specs.Answers.{IsChanged};

use pytree_node::{Context, Expr};

/// Gives a name, an attribute or a subscript the context Store. Where it is none, the answer is
/// false.
pub(crate) fn store_single(e: &mut Expr) -> bool
    ensures { IsChanged result (single_stored (tree_of e.old)) (tree_of e.new) }
{
    match e {
        Expr::Name { ctx, .. } => {
            *ctx = Context::Store;
            true
        }
        Expr::Attribute { ctx, .. } => {
            *ctx = Context::Store;
            true
        }
        Expr::Subscript { ctx, .. } => {
            *ctx = Context::Store;
            true
        }
        _ => false,
    }
}
