//! Lists of expressions that were read.

ghost use Rattle.std.specs.Prelude.{◌≡◌, ◌++◌, ◌∷◌, [], MatchResult, map, max};
ghost use Rattle.pytree_node.specs.TreeOf.{tree_of};

use pyparse_nodes::{Items, Read, Stop, put};
use std::alloc::Global;

/// A list of no items.
pub fn no_items(alloc: Global, at: usize) -> Items
    ensures items { map tree_of result.exprs.items ≡ [] }
    ensures next { result.next ≡ at }
{
    Items {
        exprs: Vec::new(alloc),
        height: 0,
        next: at,
    }
}

/// A list with one more item.
#[tactic(auto, using(pyparse_nodes::proofs::Callers::Pushes::pushed, pyparse_nodes::proofs::Callers::Pushes::pushed_height))]
pub fn push(items: Items, e: Read) -> Result<Items, Stop>
    ensures items { MatchResult result
        (λ r. map tree_of r.exprs.items ≡ map tree_of items.exprs.items ++
        (tree_of e.expr.value ∷ []))
        (λ s. s ≡ Stop.Memory) }
    ensures next { MatchResult result (λ r. r.next ≡ e.next) (λ s. s ≡ Stop.Memory) }
    ensures height { MatchResult result (λ r. r.height ≡ max items.height e.height)
        (λ s. s ≡ Stop.Memory) }
{
    let Items {
        exprs,
        height,
        next: _,
    } = items;
    let mut exprs = exprs;
    put(&mut exprs, e.expr)?;
    Ok(Items {
        exprs,
        height: height.max(e.height),
        next: e.next,
    })
}
