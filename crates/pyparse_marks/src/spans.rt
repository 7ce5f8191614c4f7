//! A span.

/// The bytes of a source before a node, and before its end; a byte order mark isn't counted.
#[derive(Clone, Copy, Debug, PartialEq, Eq)]
pub struct Span {
    pub from: u32,
    pub to: u32,
}
