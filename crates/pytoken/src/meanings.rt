//! What stands in a literal.

use crate::faults::TokenError;

/// What a character of a literal, or an escape, stands for.
#[derive(Clone, Copy, Debug, PartialEq, Eq)]
pub enum Meaning {
    /// A code point, or a byte.
    Point(u32),
    /// Nothing: a backslash and a line end.
    Nothing,
    /// An escape that means nothing.
    Wrong(TokenError),
}
