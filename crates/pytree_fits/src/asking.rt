//! What a tree is asked by.

ghost use Rattle.std.specs.Prelude.{◌≡◌, ◌≤◌, ◌+◌};

use pytree_node::Extent;
use std::alloc::Global;

/// The extent of the language in which a tree is to fit, in how many fields of f-strings it stands,
/// and where the test of its names takes its memory.
#[derive(Clone, Copy)]
pub struct Asked {
    /// Where the test of names takes its memory.
    pub alloc: Global,
    /// How much of the language the tree may use.
    pub extent: Extent,
    /// In how many fields of f-strings the tree stands: in none, unless it is part of another.
    pub fields: usize,
}

impl Asked {
    /// What a tree is asked by that stands in one field more.
    pub(crate) fn in_field(self) -> Asked
        requires { self.fields ≤ 1 }
        ensures same_extent { result.extent ≡ self.extent }
        ensures one_field_more { result.fields ≡ self.fields + 1 }
    {
        Asked {
            alloc: self.alloc,
            extent: self.extent,
            fields: self.fields + 1,
        }
    }
}
