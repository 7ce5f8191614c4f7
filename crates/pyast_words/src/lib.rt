//! The words of the program's command line, and the command that they give.
//!
//! [`Command::read`] reads the words, by `clap`. A command knows the [`file`](Command::file) that
//! it names, and the [`name`](Command::name) of its source in a fault's line.
//!
//! The words of contracts are in `specs/Words`.
#![tactic(auto)]

mod bad_words;
mod command;
mod forms;
mod found;

pub use command::{Check, Command, Dump, Tokens, Unparse, UsageFault};
