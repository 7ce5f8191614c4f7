//! What can be wrong with a physical line of a source.
//!
//! Python language reference, 2.1.2 "Physical lines" and 2.1.4 "Encoding declarations".

use crate::places::Place;

/// What is wrong with a byte of a line.
#[derive(Debug, Clone, Copy, PartialEq, Eq, Drop)]
pub enum LineError {
    /// The byte after the longest front of the line that is UTF-8.
    NotUtf8,
    /// A byte above 7F in a source of ASCII.
    NotAscii,
    /// A carriage return that no line feed follows.
    LoneReturn,
    /// The line could not be read whole: a read failed, or the source has more bytes than
    /// `SOURCE_LIMIT`. It has the column 0. `decode` never gives it.
    FailedRead,
}

/// The first bad byte of a line: what is wrong with it, and its row and column.
#[derive(Debug, Clone, Copy, PartialEq, Eq, Drop)]
pub struct LineFault {
    /// What is wrong.
    pub code: LineError,
    /// The row of the line, and the number of characters before the bad byte in it.
    pub place: Place,
}
