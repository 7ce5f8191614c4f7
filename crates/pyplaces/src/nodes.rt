//! Statements and handlers that are still open.

ghost use Rattle.std.specs.Prelude.{◌≡◌, ◌++◌, map, OnOk};
ghost use Rattle.pyplaces.specs.Recording.{told};
ghost use Rattle.pyplaces.specs.StateOf.{node_of};
ghost use Rattle.pyplaces.specs.Steps.{closing, ends};

use crate::Span;
use std::alloc::AllocError;

/// A statement or handler whose last line may be still to come.
#[derive(Drop)]
pub(crate) struct OpenNode {
    /// The level of its header.
    pub(crate) level: usize,
    pub(crate) is_handler: bool,
    /// Where it begins.
    pub(crate) from: u32,
    /// Of a definition its decorators, and the parts of its header that stand after the body.
    pub(crate) following: Vec<Span>,
}

impl OpenNode {
    /// Whether it ends before a line of this level: where its header is deeper, or of the same
    /// level, but for the statement that a clause goes on with.
    pub(crate) fn ends(&self, level: usize, is_clause: bool) -> bool
        ensures { result ≡ ends level is_clause (node_of self.now) }
    {
        if is_clause && !self.is_handler {
            level < self.level
        } else {
            level <= self.level
        }
    }

    /// Adds what it has after its body, and its own span, which ends here.
    pub(crate) fn close(self, spans: &mut Vec<Span>, to: u32) -> Result<(), AllocError>
        ensures { OnOk result
            (map told spans.new.items ≡ map told spans.old.items ++ closing to (node_of self)) }
    {
        let OpenNode {
            level: _,
            is_handler: _,
            from,
            following,
        } = self;
        let mut following = following;
        spans.append(&mut following)?;
        spans.push(Span { from, to })?;
        Ok(())
    }
}
