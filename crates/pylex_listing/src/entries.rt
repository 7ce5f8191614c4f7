//! The entries of a listing, and what can end it.

use crate::kind::{Exact, Kind};
use pysource::{LineError, Place};

/// One entry of a listing.
///
/// Rows count from 1 and columns from 0, in characters; the entry of the encoding stands at 0,0.
/// `from` and `to` are offsets in the text, in bytes; an entry of empty text has both where it
/// stands.
#[derive(Clone, Copy, Debug, PartialEq, Eq)]
pub struct Entry {
    pub kind: Kind,
    /// The exact type, of an operator alone.
    pub exact: Option<Exact>,
    pub start: Place,
    pub end: Place,
    pub from: usize,
    pub to: usize,
}

/// What can be wrong with a source, so that its listing ends there.
#[derive(Clone, Copy, Debug, PartialEq, Eq)]
pub enum ListingError {
    /// A byte that its line may not have, or a line that could not be read whole.
    Line(LineError),
    /// A character that begins no token.
    BadCharacter,
    /// A string that is not ended.
    UnterminatedString,
    /// The text's end within a string that may go on over lines.
    EofInString,
    /// The text's end within brackets, or directly after a backslash and a line end.
    EofInStatement,
    /// A line that closes blocks, but not to the indentation of one that is open.
    UnindentMismatch,
    /// A closing bracket where none is open.
    UnmatchedCloser,
}

/// A fault of a source, and its place.
#[derive(Clone, Copy, Debug, PartialEq, Eq)]
pub struct ListingFault {
    pub place: Place,
    pub code: ListingError,
}

/// What a lister answers: the next entry, that there is none, or the fault that ends the listing.
#[derive(Clone, Copy, Debug, PartialEq, Eq)]
pub enum Step {
    Entry(Entry),
    End,
    Fault(ListingFault),
}
