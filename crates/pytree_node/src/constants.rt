//! The values of constants.

use crate::integers::Integer;
use crate::points::Points;
use pynumber::Double;

/// The value of a constant, with its `kind`.
///
/// `ast` has no constant below 0, and these are all that literals, `None`, `True`, `False` and
/// `...` give.
#[derive(Drop)]
pub enum Constant {
    /// `None`.
    None,
    /// `...`.
    Ellipsis,
    /// `True` or `False`.
    Bool(bool),
    /// A whole number.
    Int(Integer),
    /// A float.
    Float(Double),
    /// An imaginary number, by its imaginary part.
    Imaginary(Double),
    /// A text, by its code points.
    Str(Points),
    /// A text whose `kind` is `u`: the first of its literals has the prefix `u`.
    UnicodeStr(Points),
    /// Bytes.
    Bytes(Vec<u8>),
}
