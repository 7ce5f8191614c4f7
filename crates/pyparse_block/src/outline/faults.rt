//! Why lines are no statements.

ghost use Rattle.std.specs.Prelude.{◌≡◌};

use std::alloc::{AllocError, AllocFailed};
use thiserror::Error;

/// What is wrong with a line among the others.
#[derive(Clone, Copy, Debug, PartialEq, Eq, Error)]
pub enum BlockFault {
    /// The line before it is a header whose block follows, and it is no deeper than that.
    #[error("expected an indented block")]
    ExpectedIndent,
    /// It is deeper than the line before it, which is no header whose block follows.
    #[error("unexpected indent")]
    UnexpectedIndent,
    /// It is a clause whose statement isn't there, or it stands where a statement needs another
    /// line: after a `try` an `except` or `finally`, after a decorator a `def` or `class`, in a
    /// `match` a `case`.
    #[error("misplaced clause")]
    MisplacedClause,
}

/// Why a line, or the end, was not taken.
#[derive(Clone, Copy, Debug, PartialEq, Eq, Error)]
pub enum BlockStop {
    /// It is faulty.
    #[error("{0}")]
    Faulty(BlockFault),
    /// There was no memory.
    #[error("out of memory")]
    Memory,
}

impl From<AllocError> for BlockStop {
    ghost use Rattle.pyparse_block.specs.declared.outline.faults.BlockStop.TheVariants.{Memory};

    ghost from_gives = { λ error r. r ≡ Memory };

    fn from(_error: AllocError) -> BlockStop {
        BlockStop::Memory
    }
}

impl<T: Drop> From<AllocFailed<T>> for BlockStop {
    ghost use Rattle.pyparse_block.specs.declared.outline.faults.BlockStop.TheVariants.{Memory};

    ghost from_gives = { λ error r. r ≡ Memory };

    fn from(_error: AllocFailed<T>) -> BlockStop {
        BlockStop::Memory
    }
}
