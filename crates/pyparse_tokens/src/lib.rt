//! The tokens and the logical lines of a source.
//!
//! [`tokens_of`] gives the tokens of a source in one pass over its listing, or the first reason why
//! it has none ([`ParseFault`]). [`LogicalLines`] gives its lines one after another, the tokens of
//! each as terminals in one buffer: each token is one, but for an f-string. Both are told the extent
//! of the language in which to read: a number or an f-string that is a fault in the plain one may be
//! none in the whole one. The crate `pyparse` reads trees from these lines and passes all items on.
//! Where the terminals of a line stand is kept by what `next_marked` is given ([`Marks`]).
//!
//! The words of contracts are `pytoken`'s, and here in `specs/` those of `Answers` and
//! `LineReadings`.
#![tactic(auto)]

mod faults;
mod gather;
mod indents;
mod line_gather;
mod logical_lines;
mod marking;
mod open_line;
mod pass;
mod room;
mod tokens;
mod walks;

pub use faults::{GrammarError, ParseFault};
pub use logical_lines::LogicalLines;
pub use pyparse_marks::{Marks, Span};
pub use tokens::{Token, tokens_of};
