//! The shapes of logical lines: their forms without the trees.
//!
//! Python language reference, 7 "Simple statements" and 8 "Compound statements".

ghost use Rattle.std.specs.Prelude.{◌≡◌};
ghost use Rattle.pygrammar.specs.FormOf.{form_of, header_of};
ghost use Rattle.pyparse_block.specs.Inner.Shapes.{clause_of, shape_of};
ghost use Rattle.pyparse_block.specs.Inner.Counting.{clause_in};
ghost use Rattle.pyparse_block.specs.Inner.Steps.{opens};

use pygrammar::{Form, Header};

/// What a header begins or goes on with: 8.
#[derive(Clone, Copy)]
pub(crate) enum Clause {
    /// `if`: 8.1 "The `if` statement".
    If,
    /// `elif`: 8.1.
    Elif,
    /// `else`: 8.1 to 8.4.
    Else,
    /// `while` or `for`: 8.2 "The `while` statement", 8.3 "The `for` statement".
    Loop,
    /// `with`: 8.5 "The `with` statement".
    With,
    /// `try`: 8.4 "The `try` statement".
    Try,
    /// `except`: 8.4.1 "`except` clause"; with a star: 8.4.2 "`except*` clause".
    Except { star: bool },
    /// `finally`: 8.4.4 "`finally` clause".
    Finally,
    /// `def` or `class`: 8.7 "Function definitions", 8.8 "Class definitions".
    Def,
    /// `match`: 8.6 "The `match` statement".
    Match,
    /// `case`: 8.6.
    Case,
}

/// The shape of a logical line.
#[derive(Clone, Copy)]
pub(crate) enum Shape {
    /// Simple statements.
    Simple,
    /// A decorator.
    Decorator,
    /// A header whose block is the lines that follow.
    Opening { clause: Clause },
    /// A header with its block after its colon.
    Inline { clause: Clause },
}

impl Shape {
    /// What a header begins or goes on with, if the line is one.
    pub(crate) fn clause(self) -> Option<Clause>
        ensures { result ≡ clause_in self }
    {
        match self {
            Shape::Simple | Shape::Decorator => None,
            Shape::Opening { clause } | Shape::Inline { clause } => Some(clause),
        }
    }

    /// Whether its block is the lines that follow.
    pub(crate) fn opens(self) -> bool
        ensures { result ≡ opens self }
    {
        matches!(self, Shape::Opening { clause: _ })
    }
}

/// What a header begins or goes on with.
fn clause_of(header: &Header) -> Clause
    ensures { result ≡ clause_of (header_of header.now) }
{
    match header {
        Header::If { test: _ } => Clause::If,
        Header::Elif { test: _ } => Clause::Elif,
        Header::Else => Clause::Else,
        Header::Loop { head: _ } => Clause::Loop,
        Header::With {
            is_async: _,
            items: _,
        } => Clause::With,
        Header::Try => Clause::Try,
        Header::Except {
            star,
            class: _,
            name: _,
        } => Clause::Except { star: *star },
        Header::Finally => Clause::Finally,
        Header::Def { head: _ } => Clause::Def,
        Header::Match { subject: _ } => Clause::Match,
        Header::Case {
            pattern: _,
            guard: _,
        } => Clause::Case,
    }
}

/// The shape of a line, by its form.
pub(crate) fn shape_of(form: &Form) -> Shape
    ensures { result ≡ shape_of (form_of form.now) }
{
    match form {
        Form::Simple { statements: _ } => Shape::Simple,
        Form::Decorator { value: _ } => Shape::Decorator,
        Form::Headed { header, suite } => {
            let clause = clause_of(header);
            match suite {
                None => Shape::Opening { clause },
                Some(_) => Shape::Inline { clause },
            }
        }
    }
}
