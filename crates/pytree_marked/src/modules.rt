//! The count of a module.

ghost use Rattle.std.specs.Prelude.{◌≡◌};
ghost use Rattle.pytree_marked.specs.Counts.{capped};
ghost use Rattle.pytree_dump_text.specs.Shows.{shown_module};
ghost use Rattle.pytree_marked.specs.MarkedNodes.{marked};
ghost use Rattle.pytree_node.specs.TreeOf.{module_of};

use crate::statements::block_marked;
use pytree_node::{Module, Profile};

/// How many nodes of a module have a place, as a dump shows it. A count of 2 to the 64 or more is
/// given as the largest `u64`.
#[tactic(auto, using(crate::proofs::CountLemmas::counting))]
pub fn marked(tree: &Module, profile: Profile) -> u64
    ensures { result ≡ capped (marked (shown_module profile (module_of tree.now))) }
{
    block_marked(profile, &tree.body, 0)
}
