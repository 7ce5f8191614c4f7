//! The reader of patterns, for the readers of `case` headers and of whole lists of terminals.
//!
//! Python language reference, 8.6.4 "Patterns".
#![tactic(auto)]

mod classes;
mod closed;
mod dotted;
mod entries;
mod found;
mod keys;
mod levels;
mod listings;
mod lists;
mod literals;
mod makers;
mod mappings;
mod names;
mod numbers;
mod patterns;
mod sequences;

pub use found::ReadPattern;
pub use levels::read_pattern;
pub use patterns::read_whole_pattern;
