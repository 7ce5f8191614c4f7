//! The grammar of Python: definitions and laws alone, with the types that they name: [`Level`] and
//! [`PatternLevel`], with their ranks, and [`Form`], what a logical line says of itself.
//!
//! Python language reference, 6 "Expressions" to 8 "Compound statements", and 10 "Full Grammar
//! specification".
//!
//! The words of contracts are in `specs/`. `Grammar` is the table: which list of terminals is which
//! expression at which level. What it names stands beside it: `Operators`, `Constants`, `Entries`
//! of lists with commas, the order of `Arguments` and `Parameters`, `Targets`, and what the parts of
//! f-strings are as values, `FormattedStrings`. An f-string is several terminals: its ends, texts,
//! and fields with the terminals of an expression in round brackets.
//!
//! `Reader` is the table as a function: what it finds at the front of a list of terminals, with the
//! operators of `Precedence` and the tests of `Looks`. `Capped` is that function within a height,
//! and `Meets` what its answers mean. `Laws` says that they agree, hence that a list is at most one
//! expression. `Lengths` says how many terminals count beside a height, and `OpenStrings` which
//! f-strings are open after a list of terminals, and how many tokens it is.
//!
//! `PatternGrammar` is the table of patterns, over `PatternOperators` and `PatternEntries`;
//! `PatternReader` that table as a function within a height, `PatternMeets` what its answers mean,
//! and `PatternLaws` says that they agree.
//!
//! `Lines` and `Forms` are the forms of a logical line in Python 3.11 and in 3.12, `LineReader` the
//! reader of one, `LimitedLines` that reader within a height. `Blocks` has the tree and the faults
//! of lines, `Reading` the reading line by line. `Refusals` says which sources are accepted and
//! which refused, and `Depths` counts line by line how many statements stand round the next one.
//! `SourceLaws` says that each source has one answer, and that 3.11 accepts what 3.12 does of the
//! sources without the `Types` of 3.12.
#![tactic(auto)]

mod forms;
mod headers;
mod levels;
mod pattern_levels;

pub use forms::Form;
pub use headers::{DefHead, Header, LoopHead};
pub use levels::Level;
pub use pattern_levels::PatternLevel;
