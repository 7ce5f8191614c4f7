//! Why a replacement field's text gives no more tokens.

/// Why a replacement field's text gives no more tokens.
#[derive(Clone, Copy, Debug, PartialEq, Eq)]
pub enum FieldFault {
    /// A character that begins no token, or a string that is not ended.
    NoToken,
    /// The text's end within brackets that it opened.
    Unclosed,
    /// A closing bracket where none of the text's own is open.
    Closer,
    /// A comment.
    Comment,
}
