//! Which Python's trees are meant, and how much of it.

/// A version of Python.
#[derive(Clone, Copy, Debug, PartialEq, Eq)]
pub enum Version {
    /// Python 3.11.
    Py311,
    /// Python 3.12: with `type` statements and type parameters.
    Py312,
}

/// How much of the language is read and written.
#[derive(Clone, Copy, Debug, PartialEq, Eq)]
pub enum Extent {
    /// All but floats, imaginary numbers, whole numbers from 2^128 on, f-strings and `match`
    /// statements.
    Plain,
    /// The whole language.
    Whole,
}

/// The language whose trees are read, shown and written.
#[derive(Clone, Copy, Debug, PartialEq, Eq)]
pub struct Profile {
    /// The version of Python.
    pub version: Version,
    /// How much of it is read and written.
    pub extent: Extent,
}

impl Profile {
    /// Python 3.11 in the plain extent.
    pub const PLAIN_311: Profile = Profile {
        version: Version::Py311,
        extent: Extent::Plain,
    };

    /// Python 3.12 in the plain extent.
    pub const PLAIN_312: Profile = Profile {
        version: Version::Py312,
        extent: Extent::Plain,
    };
}
