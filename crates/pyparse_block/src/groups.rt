//! Statements that are still open.

ghost use Rattle.std.specs.Prelude.{◌≡◌};

use pygrammar::LoopHead;
use pytree_node::{Case, Expr, Handler, Stmt};

/// An `if` or `elif` with its block.
#[derive(Drop)]
pub(crate) struct Arm {
    pub(crate) test: Box<Expr>,
    pub(crate) body: Vec<Stmt>,
}

/// The statement that a level has open, whose last clause and its block are whole.
#[derive(Drop)]
pub(crate) enum Group {
    /// None that could go on.
    Idle,
    /// Decorators.
    Marked {
        decorators: Vec<Expr>,
    },
    /// An `if` and its `elif`s.
    Choice {
        first: Arm,
        elifs: Vec<Arm>,
    },
    /// A `while` or a `for`.
    Loop {
        head: LoopHead,
        body: Vec<Stmt>,
    },
    /// A `try` alone.
    Trial {
        body: Vec<Stmt>,
    },
    /// A `try` and its `except`s.
    Caught {
        star: bool,
        body: Vec<Stmt>,
        handlers: Vec<Handler>,
    },
    /// These and an `else`.
    Settled {
        star: bool,
        body: Vec<Stmt>,
        handlers: Vec<Handler>,
        orelse: Vec<Stmt>,
    },
    /// In the block of a `match`: its cases.
    Matching {
        cases: Vec<Case>,
    },
}

/// What a level has: statements that are whole, and the one that is open.
#[derive(Drop)]
pub(crate) struct PartialBlock {
    pub(crate) done: Vec<Stmt>,
    pub(crate) group: Group,
}

/// Opens a group of a level in place of the one that it had.
///
/// That one is dropped here, by a call, and not where the new one is made: of an enum with many
/// classes that is long to prove.
pub(crate) fn open_group(part: &mut PartialBlock, group: Group)
    ensures done { part.new.done ≡ part.old.done }
    ensures group { part.new.group ≡ group }
{
    part.group = group;
}
