//! Source text for a tree: its tokens, and the text of a module.
//!
//! Python language reference, 6 "Expressions" to 8 "Compound statements". In which tokens a tree is
//! written, with how few brackets, and which blanks stand between them, say the definitions of
//! `pyunparse_text`, whose code writes single tokens. The text is written as the tree is walked, with
//! no list of tokens in between.
#![tactic(auto)]

mod blocks;
mod calls;
mod clauses;
mod constants;
mod displays;
mod expressions;
mod headers;
mod imports;
mod lines;
mod modules;
mod operators;
mod optional;
mod parameters;
mod patterns;
mod statements;
mod string_texts;
mod strings;
mod tuples;
mod types;

pub use expressions::expression_tokens;
pub use modules::unparse;
pub use patterns::pattern_tokens;
pub use pyunparse_text::pieces::Piece;
