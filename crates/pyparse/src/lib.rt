//! The reader of Python source: its tree, an expression or a pattern of tokens, and the tokens
//! themselves.
//!
//! [`parse`] gives the tree of a source in a version of Python and an extent of the language, or
//! the first reason why it has none ([`ParseFault`]). [`parse_expression`] gives the expression
//! that some tokens are, [`parse_pattern`] the pattern. [`parse_placed`] gives the tree with where
//! its nodes stand ([`Places`]).
//!
//! [`tokens_of`] gives the tokens of a source in one pass over its listing. [`LogicalLines`] gives
//! its lines one after another, the tokens of each as terminals in one buffer. These are of
//! `pyparse_tokens`.
//!
//! [`number_value`], [`string_value`] and [`name_value`] give what the text of a number, a string
//! or a name stands for, [`string_fault`] and [`name_fault`] what is wrong with it by itself.
//! [`push_terminals`] gives what a token is to the grammar, [`Terminal`]s, and [`terminal_of`] what
//! one is that is no f-string. These are of `pytoken`.
//!
//! The words of contracts are those of these two crates and of `pygrammar`, and here in `specs/`
//! those of `TokenLists`, `Expressions` and `Patterns`, with `Places` and `Modules` of
//! `pyparse_block`.
#![tactic(auto)]

mod expressions;
mod modules;
mod patterns;
mod placed;
mod progress;
mod token_lists;

pub use expressions::parse_expression;
pub use modules::parse;
pub use patterns::parse_pattern;
pub use placed::{Placed, parse_placed};
pub use pyparse_tokens::{GrammarError, LogicalLines, ParseFault, Token, tokens_of};
pub use pyplaces::{Places, PlacesLeft, Span, has_span, span_text};
pub use pytoken::{
    Literal, LiteralText, NumberText, Terminal, TerminalFault, TextPiece, identifier_value,
    name_fault, name_value, number_value, push_terminals, string_fault, string_value, terminal_of,
    token_fault,
};
