//! What may be wrong with a token by itself.

/// What may be wrong with a token by itself. Each is a fault in both extents of the language, unless
/// it says otherwise. Where a token has several faults, the first of these is reported.
#[derive(Clone, Copy, Debug, PartialEq, Eq)]
pub enum TokenError {
    /// A floating point number: a fault in the plain language alone.
    Float,
    /// An imaginary number, one that ends in `j`: a fault in the plain language alone.
    Complex,
    /// An f-string in the plain language; in the whole one a malformed f-string: one without a cut into
    /// texts and fields, or with a field whose expression has no tokens or one with a fault, or a
    /// string with a quote or a line feed between its quotes.
    FString,
    /// A whole number from 2^128 on in the plain language, from 10^4300 on in the whole one.
    IntegerTooLarge,
    /// `\N` in a text that isn't raw.
    NamedEscape,
    /// `\x`, `\u` or `\U` with too few digits or above 10FFFF, or an octal escape above 377 in
    /// bytes.
    BadEscape,
    /// A character above 7F in bytes.
    NonAsciiBytes,
    /// U+0000 in a string or a comment.
    Nul,
    /// A name whose form NFKC differs from it and is a keyword or no name.
    NameForm,
}
