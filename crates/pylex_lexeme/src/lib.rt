//! The lexemes of a Python 3.11 source (language reference, 2 "Lexical analysis").
//!
//! A lexeme is the longest name, number, string, operator, comment, run of blanks, line end or join
//! of lines that stands at its place. `lexeme::cut` takes one off the front of a text: it gives its
//! class, its text, and what is after it, and nothing where no lexeme stands. So the lexemes of a
//! text are
//!
//! ```
//! let mut left = "x **= 1";
//! while let Some((class, text, after)) = pylex_lexeme::lexeme::cut(left) {
//!     // Name "x", Blanks " ", Operator(DoubleStarEqual) "**=", Blanks " ", Number "1"
//!     left = after;
//! }
//! ```
//!
//! Where `cut` stops before a text's end, `string` tells whether a string opens there that more
//! text could end. Layout (logical lines, indentation, brackets) isn't known here: `Class` only
//! tells what a lexeme is to it.
#![tactic(auto)]

pub mod kinds;
pub mod lexeme;
mod number;
pub mod operators;
pub mod scanner;
pub mod string;
