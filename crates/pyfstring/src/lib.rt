//! The cut of an f-string's body into pieces: texts, and fields with their expressions.
//!
//! [`pieces`] cuts a body, which is what stands between the quotes, or says that it is malformed.
//! Nothing of a field's expression is read but where it ends. A piece of text is the source as it
//! stands; [`single`] makes one brace of two.
//!
//! Python 3.11 language reference, 2.4.3, "Formatted string literals". A contract that says `≡` of
//! a word of `specs/` says that the call computes exactly that. `Pieces` is what a cut is, and `Laws`
//! says that a body has at most one, and that it is cut or malformed.
#![tactic(auto)]

mod cutter;
mod expressions;
mod fields;
mod parts;
mod scanner;
mod singles;
mod texts;

pub use cutter::pieces;
pub use parts::{Conversion, CutError, Field, Manner, Piece, SpecPiece};
pub use singles::single;
