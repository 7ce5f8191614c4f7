//! How Python lays out the digits of a float.
//!
//! Python library reference, `repr`: the format `r` of "Format Specification Mini-Language".

ghost use Rattle.std.specs.Prelude.{◌≡◌, ◌++◌, ◌<◌, ◌≤◌, length, OnOk, IsAscii};
ghost use Rattle.std.specs.String.{string_bytes};
ghost use Rattle.pynumber.specs.Layouts.{zeros, scientific, fixed, number_text};

use crate::shortest::Decimal;
use itoa::Buffer;
use std::alloc::AllocError;

/// Appends some zeros.
fn push_zeros(out: &mut String, count: usize) -> Result<(), AllocError>
    ensures { OnOk result (string_bytes out.new ≡ string_bytes out.old ++ zeros count) }
{
    for _ in 0..count {
        out.push('0')?;
    }
    Ok(())
}

/// Appends digits with a point after the first one, and a power of ten.
fn push_scientific(
    out: &mut String,
    digits: &str,
    sign: &str,
    power: u128,
) -> Result<(), AllocError>
    requires { (0 < length digits.now) × IsAscii digits.now }
    ensures { OnOk result (string_bytes out.new
        ≡ string_bytes out.old ++ scientific digits.now sign.now power) }
{
    let (first, rest) = digits.split_at(1);
    out.push_str(first)?;
    if !rest.is_empty() {
        out.push('.')?;
        out.push_str(rest)?;
    }
    out.push('e')?;
    out.push_str(sign)?;
    if power < 10 {
        out.push('0')?;
    }
    let mut buffer = Buffer::new();
    out.push_str(buffer.format(power))?;
    Ok(())
}

/// Appends digits with a point after `point` of them; a whole number ends in `end`.
fn push_fixed(out: &mut String, digits: &str, point: usize, end: &str) -> Result<(), AllocError>
    requires { IsAscii digits.now }
    ensures { OnOk result (string_bytes out.new
        ≡ string_bytes out.old ++ fixed digits.now point end.now) }
{
    if point < digits.len() {
        let (whole, fraction) = digits.split_at(point);
        out.push_str(whole)?;
        out.push('.')?;
        out.push_str(fraction)?;
        return Ok(());
    }
    out.push_str(digits)?;
    push_zeros(out, point - digits.len())?;
    out.push_str(end)?;
    Ok(())
}

/// Appends a decimal as Python writes floats; a whole number ends in `end`.
///
/// The sums are of 128 bits, where none overflows.
pub(crate) fn push_decimal(out: &mut String, decimal: Decimal, end: &str) -> Result<(), AllocError>
    ensures { OnOk result (string_bytes out.new
        ≡ string_bytes out.old ++ number_text decimal.digits decimal.up decimal.down end.now) }
{
    let mut buffer = Buffer::new();
    let digits = buffer.format(decimal.digits);
    let high = digits.len() as u128 + decimal.up as u128;
    let down = decimal.down as u128;
    if high > down {
        if high - down <= 16 {
            push_fixed(out, digits, (high - down) as usize, end)?;
        } else {
            push_scientific(out, digits, "+", high - down - 1)?;
        }
        return Ok(());
    }
    if down - high >= 4 {
        push_scientific(out, digits, "-", down - high + 1)?;
        return Ok(());
    }
    out.push_str("0.")?;
    push_zeros(out, (down - high) as usize)?;
    out.push_str(digits)?;
    Ok(())
}
