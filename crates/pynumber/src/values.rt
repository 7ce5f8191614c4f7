//! The values of float and imaginary literals.
//!
//! Python language reference, 2.4.6 and 2.4.7.

ghost use Rattle.std.specs.Prelude.{◌≡◌, IfOk};
ghost use Rattle.pynumber.specs.FloatValues.{is_of_numeral, numeral_text, float_value};

use fast_float::Numeral;
use std::alloc::{AllocError, Global};

/// Whether a byte is neither an underscore nor the j of an imaginary literal.
fn is_of_numeral(byte: u8) -> bool
    ensures { result ≡ is_of_numeral byte }
{
    byte != b'_' && byte != b'j' && byte != b'J'
}

/// The numeral of a literal.
fn numeral_text(alloc: Global, text: &[u8]) -> Result<Vec<u8>, AllocError>
    ensures { IfOk result (λ kept. kept.items ≡ numeral_text text.now) }
{
    let mut kept = Vec::with_capacity(alloc, text.len())?;
    for byte in text {
        if is_of_numeral(*byte) {
            kept.push(*byte)?;
        }
    }
    Ok(kept)
}

/// The double nearest to the number that a literal writes.
pub(crate) fn float_value(alloc: Global, text: &[u8]) -> Result<f64, AllocError>
    ensures { IfOk result (λ value. value ≡ float_value text.now) }
{
    let kept = numeral_text(alloc, text)?;
    Ok(Numeral::scan(kept.as_slice()).to_float(false))
}
