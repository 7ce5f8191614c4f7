//! Which parts of a line have brackets of their own.

ghost use Rattle.std.specs.Prelude.{◌≡◌, None, map};
ghost use Rattle.pytree_node.specs.TreeOf.{item_of, tree_of};
ghost use Rattle.pytree_node.specs.Trees.{exprs};
ghost use Rattle.pyunparse_text.specs.Statements as written;

use crate::sorts::{Sort, sort_of};
use pytree_node::{Expr, Item};

/// Whether no starred expression and no `:=` is among some expressions.
fn are_plain(es: &[Expr]) -> bool
    ensures { result ≡ written.are_plain (exprs (map tree_of es.now)) }
{
    for e in es {
        if !matches!(sort_of(e), Sort::Other) {
            return false;
        }
    }
    true
}

/// Whether an expression is a tuple whose brackets would be read as those of the items.
fn is_bare_tuple(e: &Expr) -> bool
    ensures { result ≡ written.reads_as_items (tree_of e.now) None }
{
    match e {
        Expr::Tuple { elts, .. } => !elts.is_empty() & are_plain(elts),
        _ => false,
    }
}

/// Whether some items are one tuple without a target, whose brackets would be read as theirs.
pub fn need_brackets(items: &[Item]) -> bool
    ensures { result ≡ written.need_brackets (map item_of items.now) }
{
    let count = items.len();
    if count != 1 {
        return false;
    }
    let item = &items[0];
    item.optional_vars.is_none() & is_bare_tuple(&item.context_expr)
}

/// Whether the target of an annotation has brackets: it is a name that isn't simple.
pub fn annotated_in_brackets(target: &Expr, simple: bool) -> bool
    ensures { result ≡ written.annotated_in_brackets (tree_of target.now) simple }
{
    match target {
        Expr::Name { .. } => !simple,
        _ => false,
    }
}
