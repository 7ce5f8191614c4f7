//! Where the terminals of a logical line stand in its source.
//!
//! A reader of lines is given [`Marks`], which keep the span of each terminal, or nothing. A token
//! is one terminal, but for an f-string.
//!
//! The words of contracts are in `specs/`: `Spans`, `TokenSpans` where the terminals of a token
//! stand, `LineSpans` those of a line, `Laws` that each terminal has a span.
#![tactic(auto)]

mod expressions;
mod formatted;
mod lengths;
mod marks;
mod parts;
mod spans;
mod walkers;

pub use marks::Marks;
pub use spans::Span;
