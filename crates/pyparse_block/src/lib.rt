//! The statements of a source from the forms of its logical lines, line by line; and what is known
//! of a source after some of them: the module that they make, or the first refusal among them.
//!
//! Python language reference, 2.1.8 "Indentation", 8 "Compound statements", and 10 "Full Grammar
//! specification".
//!
//! [`Blocks`] keeps the statements that are whole, and of the others what their lines have said so
//! far, a level on another. There is no recursion: how deep blocks are nested is limited
//! by memory alone. An [`Outline`] keeps the same without trees, and reports the first faulty line
//! ([`BlockFault`]) among lines whose trees nobody wants. [`Known`] steps both, and after the first
//! refusal keeps no tree.
//!
//! The words of contracts are those of the grammar: `Reading` is what a line makes of what is kept,
//! `Blocks` which statements some lines are, and which line is the first faulty one.
#![tactic(auto)]

mod blocks;
mod closing;
mod groups;
mod growing;
mod known;
mod last_lines;
mod meeting;
mod outline;
mod room;
mod stack;
mod statements;

pub use blocks::Blocks;
pub use known::Known;
pub use last_lines::LastLines;
pub use outline::{BlockFault, BlockStop, Outline};
