//! The reader of logical lines: which form the terminals of one are.
//!
//! Python language reference, 2.1.1 "Logical lines", 7 "Simple statements" and 8 "Compound
//! statements".
#![tactic(auto)]

mod cases;
mod found;
mod fronts;
mod lines;
mod matches;
mod openings;

pub use lines::{FormRead, read_line};
