//! What the readers of patterns, statements and lines take of the reader of expressions: its
//! contract, how far down it may go, and lists of what it read.
#![tactic(auto)]

mod depth;
mod expressions;
mod items;
mod parts;

pub use depth::{Depth, MOST_HEIGHT};
pub use expressions::ReadsExpressions;
pub use items::{no_items, push};
pub use parts::{ReadArguments, ReadParameters};
