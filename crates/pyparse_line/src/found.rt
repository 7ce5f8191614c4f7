//! What was read.

ghost use Rattle.std.specs.Prelude.{◌≡◌};
ghost use Rattle.pygrammar.specs.FormHeights.{form_height};
ghost use Rattle.pygrammar.specs.FormOf.{form_of, suite_of};
ghost use Rattle.pyparse_line.specs.Inner.Heights.{suite_height};

use pygrammar::Form;
use pytree_node::Stmt;

/// A form, the height of the highest expression in it, and the place after it; and how many nodes
/// are recorded up to the last one before the body, and up to the last one after it.
#[derive(Drop)]
pub(crate) struct ReadForm {
    pub form: Form,
    pub height: usize,
    pub next: usize,
    pub before: usize,
    pub following: usize,
    pub ghost is_height: { height ≡ form_height (form_of form) },
}

/// The statements after a header's colon, if there are any, the height of the highest expression
/// in them, and the place after them.
#[derive(Drop)]
pub(crate) struct ReadSuite {
    pub statements: Option<Vec<Stmt>>,
    pub height: usize,
    pub next: usize,
    pub ghost is_height: { height ≡ suite_height (suite_of statements) },
}
