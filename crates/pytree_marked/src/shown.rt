//! What is shown of a place.

/// What is shown of a node's place: of each of its ends the line, from 1, and the bytes between the
/// line's start and it.
#[derive(Clone, Copy, Debug, PartialEq, Eq)]
pub struct Shown {
    pub line: u32,
    pub byte: u32,
    pub end_line: u32,
    pub end_byte: u32,
}
