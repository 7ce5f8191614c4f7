//! Where the nodes of a tree stand in its source: definitions, the places of a tree, the text of a
//! span, and what records spans or doesn't; the places of a source's statements from those of its
//! logical lines; the laws of places.
//!
//! [`PlaceStack`] is fed beside the reader of blocks, which says whether the lines are statements.
//! It keeps the spans so far, and of each statement whose last line may be still to come where it
//! begins. There is no recursion: how deep blocks are nested is limited by memory alone.
//!
//! The words of contracts are those of `pygrammar`'s `Blocks` and of `specs/BlockPlaces`. Two laws
//! have a function each, whose contract is the law: `specs/Unique` says that the places of a source
//! belong to its terminals, and not to how these were derived, `specs/Order` that they stand in
//! order, and that a statement's holds those of what is in it.
#![tactic(auto)]

mod kinds;
mod line_spans;
mod nodes;
mod place_stack;
mod places;
mod recorded;
mod recorders;
mod row_ends;
mod runs;
mod source_laws;
mod texts;

pub use line_spans::LineSpans;
pub use place_stack::PlaceStack;
pub use places::{Places, PlacesLeft};
pub use pyparse_marks::Span;
pub use recorded::Recorded;
pub use recorders::{Ignored, Recorder};
pub use source_laws::{places_are_in_order, places_are_unique};
pub use texts::{has_span, span_text};
