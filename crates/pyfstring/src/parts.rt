//! What a body is cut into.

ghost use Rattle.std.specs.Prelude.{◌≡◌};
ghost use Rattle.pyfstring.specs.Conversions.{conversion_value};

use std::alloc::AllocFailed;
use std::error::Error;
use std::fmt;

/// What a field converts its value by.
#[derive(Clone, Copy, Debug, PartialEq, Eq)]
pub enum Conversion {
    /// Nothing.
    None,
    /// `str`: `!s`.
    Str,
    /// `repr`: `!r`, and where a field has `=` and neither `!` nor a spec.
    Repr,
    /// `ascii`: `!a`.
    Ascii,
}

impl Conversion {
    /// The number that stands for it in Python's tree: the letter after the `!`, or -1.
    pub fn value(self) -> i32
        ensures { result ≡ conversion_value self }
    {
        match self {
            Conversion::None => -1,
            Conversion::Str => 115,
            Conversion::Repr => 114,
            Conversion::Ascii => 97,
        }
    }
}

/// A field: what stands between `{` and `}`, its expression not read. `S` is its format spec.
#[derive(Debug, Drop)]
pub struct Field<'a, S> {
    /// The source of its expression.
    pub text: &'a str,
    /// Of a field with `=` the source up to the conversion, the spec or the `}`.
    pub kept: Option<&'a str>,
    /// The conversion.
    pub conversion: Conversion,
    /// What stands after the `:`, cut into pieces.
    pub spec: Option<S>,
}

/// A piece of a body, or of a format spec.
#[derive(Debug, Drop)]
pub enum Piece<'a, S> {
    /// The source of a text, which may be empty.
    Text(&'a str),
    /// A field.
    Field(Field<'a, S>),
}

/// A piece of a format spec. The spec of a field in it is a text.
pub type SpecPiece<'a> = Piece<'a, &'a str>;

/// How a body is read.
#[derive(Clone, Copy, Debug, PartialEq, Eq)]
pub struct Manner {
    /// Whether the literal has the prefix `r`, so that a backslash stands for itself.
    pub is_raw: bool,
    /// Whether the literal stands in a field itself, so that none of its own has `=`.
    pub is_nested: bool,
}

/// Why a body was not cut.
#[derive(Clone, Copy, Debug, PartialEq, Eq)]
pub enum CutError {
    /// It has no cut.
    Malformed,
    /// There was no memory.
    Memory,
}

impl fmt::Display for CutError {
    fn fmt<W: fmt::Write>(&self, f: &mut fmt::Formatter<W>) -> fmt::Result {
        match self {
            CutError::Malformed => write!(f, "malformed f-string"),
            CutError::Memory => write!(f, "out of memory"),
        }
    }
}

impl Error for CutError {}

impl<T: Drop> From<AllocFailed<T>> for CutError {
    ghost use Rattle.pyfstring.specs.declared.parts.CutError.TheVariants.{Memory};

    ghost from_gives = { λ error r. r ≡ Memory };

    fn from(_error: AllocFailed<T>) -> CutError {
        CutError::Memory
    }
}
