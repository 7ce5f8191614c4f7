//! How a tree is dumped.

use pytree_node::Profile;

/// How a tree is dumped.
#[derive(Clone, Copy, Debug, PartialEq, Eq)]
pub struct Style {
    /// The blanks of a level, as the `indent` of `ast.dump`; where there are none given, the text
    /// is one line.
    pub indent: Option<u8>,
    /// Whether the names of all fields are told, as by `annotate_fields`.
    pub names: bool,
    /// The Python whose fields are shown: in 3.12 definitions have `type_params`.
    pub profile: Profile,
}
