//! Whether two modules are equal, and the path to their first difference.

ghost use Rattle.std.specs.Prelude.{◌≡◌, ◌↔◌, IfOk, IsTrue};
ghost use Rattle.pytree_node.specs.TreeOf.{module_of};
ghost use Rattle.pytree_fields.specs.Things.{module_thing};
ghost use Rattle.pytree_difference.specs.Trails.{Finds};

use crate::trails::{NoTrail, Steps};
use crate::walk::walk_modules;
use pytree_node::{Module, Version};
use std::alloc::{AllocError, Global};

/// Whether two modules are equal.
pub fn same_modules(a: &Module, b: &Module) -> bool
    ensures { IsTrue result ↔ (module_of a.now ≡ module_of b.now) }
{
    // The newer version shows all that a tree has.
    walk_modules(Version::Py312, a, b, &mut NoTrail)
}

/// The path to the first difference of two modules, as a version of Python shows them, if they
/// differ.
pub fn first_difference(
    alloc: Global,
    a: &Module,
    b: &Module,
    version: Version,
) -> Result<Option<Vec<usize>>, AllocError>
    ensures { IfOk result (λ found. Finds (module_thing version (module_of a.now))
        (module_thing version (module_of b.now)) found) }
{
    let mut trail = Steps::new(alloc);
    if walk_modules(version, a, b, &mut trail) {
        return Ok(None);
    }
    Ok(Some(trail.into_path()?))
}
