//! What a listing is: its entries, their types, what can be wrong with a source, and the definition
//! of the listing of a source.
//!
//! Python library reference, `tokenize`; language reference, 2 "Lexical analysis".
//!
//! `specs/Listing` says which steps a source gives. `pylex` has the listers, which give just these,
//! and passes on what is here.
#![tactic(auto)]

mod entries;
mod kind;
mod leading_char;
mod margins;
mod point;

pub use entries::{Entry, ListingError, ListingFault, Step};
pub use kind::{Exact, Kind};
pub use leading_char::LeadingChar;
pub use margins::Widths;
pub use point::{Point, entry_of, mark};
