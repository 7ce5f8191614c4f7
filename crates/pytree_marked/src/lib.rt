//! The nodes of a dump that have a place, what is shown of it, and how many such nodes a tree has.
//!
//! Python library reference, `ast`: `lineno`, `col_offset`, `end_lineno`, `end_col_offset`.
//! `specs/MarkedNodes` says which nodes have a place, in which order the places are taken, and what
//! is shown of them.
#![tactic(auto)]

mod counts;
mod expressions;
mod members;
mod modules;
mod patterns;
mod places;
mod shown;
mod statements;

pub use members::{end_node, is_told_on_line};
pub use modules::marked;
pub use places::{ListedPlaces, NoPlaces, PlaceSource};
pub use shown::Shown;
