//! The texts of doubles.

ghost use Rattle.std.specs.Prelude.{◌≡◌, ◌++◌, ◌≤◌, OnOk, from_bits};
ghost use Rattle.std.specs.String.{string_bytes};
ghost use Rattle.std.specs.Float.{binary64};
ghost use Rattle.pynumber.specs.FloatTexts.{float_text};

use crate::layouts::push_decimal;
use crate::shortest::shortest;
use std::alloc::{AllocError, Global};

/// The bits of infinity.
const INFINITY: u64 = 0x7ff0_0000_0000_0000;

/// Appends the text of a double that is not below 0, given by its bits; a whole number ends in
/// `end`.
pub(crate) fn push_number(
    out: &mut String,
    alloc: Global,
    bits: u64,
    end: &str,
    infinity: &str,
) -> Result<(), AllocError>
    requires { bits ≤ 0x7ff0_0000_0000_0000 }
    ensures { OnOk result (string_bytes out.new
        ≡ string_bytes out.old ++ float_text (from_bits binary64 bits) end.now infinity.now) }
{
    if bits == 0 {
        out.push('0')?;
        out.push_str(end)?;
        return Ok(());
    }
    if bits == INFINITY {
        out.push_str(infinity)?;
        return Ok(());
    }
    let decimal = shortest(alloc, bits)?;
    push_decimal(out, decimal, end)?;
    Ok(())
}
