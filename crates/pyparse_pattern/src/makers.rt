//! A pattern of parts that were read, where it is not too high.

ghost use Rattle.std.specs.Prelude.{◌≡◌, ◌+◌, ◌≤◌, MatchResult, Some, None, map};
ghost use Rattle.pytree_node.specs.TreeOf.{constant_of, pattern_of, tree_of};
ghost use Rattle.pytree_node.specs.Trees as plain;
ghost use Rattle.pytree_height.specs.Heights as Heights;
ghost use Rattle.pyparse_pattern.specs.Inner.Made.{MadePattern, MakesPattern};

use crate::found::{Patterns, ReadPattern};
use pyparse_nodes::{Read, Stop};
use pytree_node::{Constant, Identifier, Pattern};
use std::alloc::Global;

/// The height of a pattern over parts of this height, where there is room for it.
pub(crate) fn above(under: usize, room: usize) -> Result<usize, Stop>
    ensures one { MatchResult result (λ h. h ≡ under + 1) (λ s. s ≡ Stop.TooDeep) }
    ensures low { MatchResult result (λ h. h ≤ room) (λ s. room ≤ under) }
{
    if under < room {
        Ok(under + 1)
    } else {
        Err(Stop::TooDeep)
    }
}

/// What was read, of a pattern of this height.
pub(crate) fn boxed(
    alloc: Global,
    pattern: Pattern,
    height: usize,
    next: usize,
) -> Result<ReadPattern, Stop>
    requires { height ≡ Heights.pattern_height (pattern_of pattern) }
    ensures { MatchResult result (λ r. MadePattern height (pattern_of pattern) next r)
        (λ s. s ≡ Stop.Memory) }
{
    let pattern = Box::new(alloc, pattern)?;
    Ok(ReadPattern {
        pattern,
        height,
        next,
    })
}

/// A literal or a value.
#[tactic(auto, using(pytree_node::proofs::Callers::PatternShapes::pattern_shapes))]
pub(crate) fn make_value(alloc: Global, e: Read, room: usize) -> Result<ReadPattern, Stop>
    ensures { MakesPattern room (plain.MatchValue (tree_of e.expr.value)) e.next result }
{
    let height = above(e.height, room)?;
    let value = Box::into_inner(e.expr);
    boxed(alloc, Pattern::MatchValue { value }, height, e.next)
}

/// `None`, `True` or `False`.
#[tactic(auto, using(pytree_node::proofs::Callers::PatternShapes::pattern_shapes))]
pub(crate) fn make_singleton(
    alloc: Global,
    value: Constant,
    next: usize,
) -> Result<ReadPattern, Stop>
    ensures { MatchResult result
        (λ r. MadePattern 1 (plain.MatchSingleton (constant_of value)) next r)
        (λ s. s ≡ Stop.Memory) }
{
    boxed(alloc, Pattern::MatchSingleton { value }, 1, next)
}

/// A name that captures, or `_`.
#[tactic(auto, using(crate::proofs::Shapes::capture_tree))]
pub(crate) fn make_capture(
    alloc: Global,
    name: Option<Identifier>,
    next: usize,
) -> Result<ReadPattern, Stop>
    ensures { MatchResult result
        (λ r. MadePattern 1 (plain.MatchAs plain.absent_pattern name) next r)
        (λ s. s ≡ Stop.Memory) }
{
    boxed(
        alloc,
        Pattern::MatchAs {
            pattern: None,
            name,
        },
        1,
        next,
    )
}

/// A `*` and a name that captures, or `_`.
#[tactic(auto, using(pytree_node::proofs::Callers::PatternShapes::pattern_shapes))]
pub(crate) fn make_star(
    alloc: Global,
    name: Option<Identifier>,
    next: usize,
) -> Result<ReadPattern, Stop>
    ensures { MatchResult result (λ r. MadePattern 1 (plain.MatchStar name) next r)
        (λ s. s ≡ Stop.Memory) }
{
    boxed(alloc, Pattern::MatchStar { name }, 1, next)
}

/// A pattern with a name after its `as`.
#[tactic(auto, using(crate::proofs::Shapes::as_tree))]
pub(crate) fn make_as(
    alloc: Global,
    inner: ReadPattern,
    name: Identifier,
    next: usize,
    room: usize,
) -> Result<ReadPattern, Stop>
    ensures { MakesPattern room
        (plain.MatchAs (plain.present_pattern (pattern_of inner.pattern.value)) (Some name))
        next result }
{
    let height = above(inner.height, room)?;
    boxed(
        alloc,
        Pattern::MatchAs {
            pattern: Some(inner.pattern),
            name: Some(name),
        },
        height,
        next,
    )
}

/// Patterns with `|` between them.
#[tactic(auto, using(pytree_node::proofs::Callers::PatternShapes::pattern_shapes))]
pub(crate) fn make_or(alloc: Global, patterns: Patterns, room: usize) -> Result<ReadPattern, Stop>
    ensures { MakesPattern room
        (plain.MatchOr (plain.patterns (map pattern_of patterns.items.items)))
        patterns.next result }
{
    let height = above(patterns.height, room)?;
    let next = patterns.next;
    boxed(
        alloc,
        Pattern::MatchOr {
            patterns: patterns.items,
        },
        height,
        next,
    )
}

/// A sequence, with the place after its bracket.
#[tactic(auto, using(pytree_node::proofs::Callers::PatternShapes::pattern_shapes))]
pub(crate) fn make_sequence(
    alloc: Global,
    patterns: Patterns,
    next: usize,
    room: usize,
) -> Result<ReadPattern, Stop>
    ensures { MakesPattern room
        (plain.MatchSequence (plain.patterns (map pattern_of patterns.items.items)))
        next result }
{
    let height = above(patterns.height, room)?;
    boxed(
        alloc,
        Pattern::MatchSequence {
            patterns: patterns.items,
        },
        height,
        next,
    )
}
