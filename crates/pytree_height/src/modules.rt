//! The heights of a module.

ghost use Rattle.std.specs.Prelude.{◌≡◌, ◌+◌};
ghost use Rattle.pytree_node.specs.TreeOf.{module_of};
ghost use Rattle.pytree_height.specs.Heights.{capped, expression_height, statement_height};

use crate::highest::highest_in_all;
use crate::statements::statements_height;
use pytree_node::Module;

/// How high the expressions and the statements of a tree are.
///
/// An expression with no expression directly below it has height 1, another 1 more than the
/// highest of these; a pattern counts as an expression. A statement with no statement inside has
/// height 1, another 1 more than the highest inside; an `elif` is an `if` inside the one before.
#[derive(Clone, Copy, Debug, PartialEq, Eq)]
pub struct Heights {
    /// The height of the highest expression or pattern, 0 where there is none.
    pub expression: u64,
    /// The height of the highest statement, 0 where there is none.
    pub statement: u64,
}

/// The heights of a module. A height of 2 to the 64 or more is given as the largest `u64`.
pub fn height(tree: &Module) -> Heights
    ensures expression { result.expression ≡ capped (expression_height (module_of tree.now)) }
    ensures statement { result.statement ≡ capped (statement_height (module_of tree.now)) }
{
    Heights {
        expression: highest_in_all(&tree.body),
        statement: statements_height(&tree.body),
    }
}

/// One more, or the largest number.
#[tactic(auto, unfolding(crate::specs::Heights::capped))]
pub(crate) fn one_more(n: u64) -> u64
    ensures { result ≡ capped (n + 1) }
{
    n.saturating_add(1)
}
