//! The outline of a source: what is kept of its logical lines without their trees.
//!
//! Python language reference, 8 "Compound statements" and 2.1.8 "Indentation". An [`Outline`] takes
//! lines one after another. It reports the first line that is faulty among the others
//! ([`BlockFault`]), and of each line whether a statement begins in it that stands too deep. It
//! keeps a few numbers of each open level, however many statements stand there.
//!
//! The words of contracts are `pygrammar`'s, and those of `specs/Faults` and `specs/Outlines`.

mod depths;
mod faults;
mod groups;
mod levels;
mod outlines;
mod shapes;

pub use crate::outline::faults::{BlockFault, BlockStop};
pub use crate::outline::outlines::Outline;
