//! Why a source was not read.

ghost use Rattle.std.specs.Prelude.{◌≡◌};

use pysource::Place;
use pytoken::Refusal;
use std::alloc::AllocError;
use thiserror::Error;

/// What the grammar says against tokens.
#[derive(Clone, Copy, Debug, PartialEq, Eq)]
pub enum GrammarError {
    /// They have no form.
    Syntax,
    /// They have no form, and look like the header of a `match` statement.
    MatchStatement,
    /// They are no deeper than the header before them, whose block is to follow.
    ExpectedIndent,
    /// They are deeper than the line before them, which is no header whose block is to follow.
    UnexpectedIndent,
    /// They are a clause whose statement isn't there, or stand where a statement needs another
    /// line: after a `try` an `except` or `finally`, after a decorator a `def` or `class`.
    MisplacedClause,
    /// Their form is too high, or a statement that begins in them stands too deep in others.
    TooDeep,
}

/// Why a source was not read.
#[derive(Clone, Copy, Debug, PartialEq, Eq, Error)]
pub enum ParseFault {
    /// Something is wrong with the source's tokens.
    #[error("refused source")]
    Refused(Refusal),
    /// The grammar says this against the tokens that start here.
    #[error("refused by the grammar")]
    Grammar(GrammarError, Place),
    /// There was no memory.
    #[error("out of memory")]
    Memory,
}

impl From<AllocError> for ParseFault {
    ghost use Rattle.pyparse_tokens.specs.declared.faults.ParseFault.TheVariants.{Memory};

    ghost from_gives = { λ error r. r ≡ Memory };

    fn from(_error: AllocError) -> ParseFault {
        ParseFault::Memory
    }
}
