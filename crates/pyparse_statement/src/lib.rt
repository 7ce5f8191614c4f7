//! The readers of what a logical line is made of: simple statements, and the headers of compound
//! statements up to their colons.
//!
//! Python language reference, 7 "Simple statements" and 8 "Compound statements".
#![tactic(auto)]

mod headers;
mod statements;

pub use headers::{ReadHeader, read_header};
pub use statements::{ReadStatements, after_word, read_statements};
