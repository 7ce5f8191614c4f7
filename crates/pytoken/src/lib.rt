//! What the tokens of a Python source are to its grammar, and what they say.
//!
//! [`number_value`], [`string_value`], [`name_value`] and [`identifier_value`] give what the text
//! of a number, a string or a name stands for, [`string_fault`] and [`name_fault`] what is wrong
//! with it by itself, and [`token_fault`] what is wrong with a token or a comment by its type.
//! [`terminal_of`] gives what a token is to the grammar that is a single [`Terminal`], as all are but
//! f-strings, and [`push_terminals`] what any token is. A string is a [`LiteralText`] there, a number
//! that isn't a short whole one a [`NumberText`], a text in an f-string a [`TextPiece`]: the values of
//! these are made when they are asked for. [`is_identifier`] says which texts are names. Where the
//! parts of a literal are say [`after_opening`] and [`body`], which kind it is [`is_raw`] and
//! [`is_fstring`]. The tokens of a whole source are read by `pyparse_tokens`.
//!
//! What reads numbers is told the extent of the language: a number that is a fault in the plain one
//! may be none in the whole one.
//!
//! Python language reference, 2.3 "Identifiers and keywords" and 2.4 "Literals".
//!
//! The words of contracts are in `specs/`: `Tokens` has the tokens of a source and its logical
//! lines, `Terminals` what a token is to the grammar and the fault that it may be by itself,
//! `Refusals` why a source has no tokens, `MatchHeaders` which lines look like the header of a
//! `match` statement. `Keywords`, `NumberValues`, `Escapes`, `StringValues` and `NameValues` say
//! what the texts of tokens stand for, `FormattedStrings` what an f-string is cut into, `Numerals`
//! which texts are written for numbers. `Laws` has what holds of these: each constant of a tree comes
//! back from its text. `Values` and `TerminalOf` have the values of the types of this crate.
#![tactic(auto)]

mod faults;
mod keywords;
mod meanings;
mod names;
mod refusals;
mod values;

pub use faults::TokenError;
pub use keywords::Keyword;
pub use meanings::Meaning;
pub use names::is_identifier;
pub use refusals::Refusal;
pub use values::{
    Literal, LiteralText, NumberText, Terminal, TerminalFault, TextPiece, after_opening, body,
    identifier_value, is_fstring, is_raw, name_fault, name_value, number_value, push_terminals,
    string_fault, string_value, terminal_of, token_fault,
};
