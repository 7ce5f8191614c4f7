//! The names that patterns capture.
//!
//! Python language reference, 8.6.4.4 "Capture Patterns" and 8.6.4.5 "Wildcard Patterns".

ghost use Rattle.std.specs.Prelude.{◌≡◌};
ghost use Rattle.pygrammar.specs.PatternOperators as operators;

use pytree_node::Identifier;

/// Whether a name is the wildcard `_`.
pub(crate) fn is_wildcard(name: &Identifier) -> bool
    ensures { result ≡ operators.is_wildcard name.now }
{
    name.as_str() == "_"
}

/// The name that a pattern captures by a name. A wildcard captures none.
pub(crate) fn captured(name: Identifier) -> Option<Identifier>
    ensures { result ≡ operators.captured name }
{
    if is_wildcard(&name) { None } else { Some(name) }
}
