//! The spans of a logical line.

use crate::Span;

/// Where a logical line and its parts stand, lent. A run that its form has no use for is left out.
#[derive(Clone, Copy, Debug)]
pub struct LineSpans<'a> {
    /// From its first token to its last.
    pub whole: Span,
    /// A decorator's expression, or those parts of a header that stand before the body in the tree.
    pub before: &'a [Span],
    /// Those parts of the header of a definition that stand after the body in the tree.
    pub following: &'a [Span],
    /// The simple statements that stand in it.
    pub suite: &'a [Span],
}
