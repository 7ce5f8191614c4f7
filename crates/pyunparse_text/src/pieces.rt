//! Tokens as they are handed out.

use pylex_listing::Kind;

/// A token as it is written: its type and its text.
#[derive(Debug, Drop)]
pub struct Piece {
    pub kind: Kind,
    pub text: String,
}
