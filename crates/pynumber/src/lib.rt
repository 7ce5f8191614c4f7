//! Numbers: whole ones of any size, floats and imaginary ones: the values of their literals, and
//! the texts that Python writes.
//!
//! [`Natural::read`] reads the digits of an integer literal in any base, unless the number has more
//! than 4,300 decimal digits, which Python doesn't write; [`Natural::push_decimal`] writes a number
//! in decimal. No long number is divided.
//!
//! [`Double`] is a double that a literal may have. [`Double::read`] reads a literal: the double
//! nearest to the number that it writes, a tie to the even one. [`Double::push_repr`] and
//! [`Double::push_imaginary_repr`] write what Python's `repr` writes, [`Double::push_source`] and
//! [`Double::push_imaginary_source`] what `ast.unparse` does: the fewest digits that are read back
//! as the same double.
//!
//! Python language reference, 2.4.5 to 2.4.7; library reference, "Integer string conversion length
//! limitation", `repr` and `float.hex`. A contract that says `≡` of a word of `specs/` says that the
//! call computes exactly that. `Search` is the decimal that is written, and `Laws` says that none is
//! shorter, and that each text is read back.
#![tactic(auto)]

mod doubles;
mod exact;
mod layouts;
mod limbs;
mod naturals;
mod shortest;
mod texts;
mod values;

pub use doubles::Double;
pub use naturals::Natural;
