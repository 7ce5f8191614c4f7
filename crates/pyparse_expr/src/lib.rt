//! The reader of expressions, and what the readers of statements and headers take of it.
#![tactic(auto)]

mod arguments;
mod atoms;
mod braces;
mod chains;
mod climbing;
mod comprehensions;
mod expressions;
mod levels;
mod listings;
mod parts;
mod primaries;
mod signatures;
mod slices;
mod strings;

pub use expressions::read_whole;
pub use parts::Expressions;
