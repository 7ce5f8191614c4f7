//! Copies of a module, and whether two are equal.

ghost use Rattle.std.specs.Prelude.{◌≡◌, ◌↔◌, IsTrue, IfOk};
ghost use Rattle.pytree_node.specs.TreeOf.{module_of};

use pytree_copy::copy_stmts;
use pytree_difference::same_modules;
use pytree_node::Module;
use std::alloc::{AllocError, Global};

/// A tree that is equal to this one. Where memory is refused, what was made of it is dropped.
pub fn copy(alloc: Global, tree: &Module) -> Result<Module, AllocError>
    ensures { IfOk result (λ made. module_of made ≡ module_of tree.now) }
{
    Ok(Module {
        body: copy_stmts(alloc, &tree.body)?,
    })
}

/// Whether two trees are equal: whether each node has the class and the fields of its own.
pub fn same(a: &Module, b: &Module) -> bool
    ensures { IsTrue result ↔ (module_of a.now ≡ module_of b.now) }
{
    same_modules(a, b)
}
