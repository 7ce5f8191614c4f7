//! The dump text of a tree: what Python's `ast.dump` gives.
//!
//! Python library reference, `ast`: `ast.dump`. `specs/Shows` says what each class shows,
//! `specs/Layout` how that is laid out. The text is written as the tree is walked, with no form of
//! it in between: whole by [`dump`], statement by statement by [`Pieces`], and with the places of
//! nodes by [`dump_placed`] and [`PlacedPieces`].
#![tactic(auto)]

mod blocks;
mod branches;
mod compounds;
mod contents;
mod elements;
mod expressions;
mod joined;
mod leaves;
mod lists;
mod members;
mod modules;
mod nodes;
mod parameters;
mod patterns;
mod pieces;
mod showing;
mod statements;

pub use expressions::dump_expr;
pub use modules::{dump, dump_placed};
pub use pieces::{Pieces, PlacedPieces};
pub use pytree_dump_text::Style;
pub use pytree_marked::{ListedPlaces, NoPlaces, PlaceSource, Shown};
