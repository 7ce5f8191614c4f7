//! What stands for the characters of texts in f-strings, and of literals in their fields.

ghost use Rattle.std.specs.Prelude.{◌≡◌, ◌++◌, ◌∷◌, OnOk};
ghost use Rattle.std.specs.List.{flat_map};
ghost use Rattle.std.specs.Str.{encode_utf8_all};
ghost use Rattle.std.specs.String.{string_bytes};
ghost use Rattle.pyunparse_text.specs.Pieces.{character_text, conversion_text, field_character};
ghost use Rattle.pytree_node.specs.Values.{Bytes, Str};
ghost use Rattle.pyunparse_text.specs.Pieces.{in_double_quotes, literal_text_in, prefix, quote};

use pyfstring::Conversion;
use pysource::{push_repr_bytes, push_repr_point, push_repr_points};
use std::alloc::AllocError;

/// Appends a character of a literal that stands in a field.
fn push_field_point(out: &mut String, point: u32) -> Result<(), AllocError>
    ensures { OnOk result
        (string_bytes out.new ≡ string_bytes out.old ++ encode_utf8_all (field_character point)) }
{
    match char::from_u32(point) {
        Some(c) => {
            out.push(c)?;
            Ok(())
        }
        None => push_repr_point(out, b'"', point),
    }
}

/// Appends the characters of a text that stands in a field.
fn push_field_points(out: &mut String, points: &[u32]) -> Result<(), AllocError>
    ensures { OnOk result (string_bytes out.new ≡
        string_bytes out.old ++ encode_utf8_all (flat_map field_character points.now)) }
{
    for point in points {
        push_field_point(out, *point)?;
    }
    Ok(())
}

/// Appends the characters of bytes that stand in a field.
#[tactic(auto, using(crate::proofs::Texts::EncodedLemmas::encoded_all))]
fn push_field_bytes(out: &mut String, bytes: &[u8]) -> Result<(), AllocError>
    ensures { OnOk result
        (string_bytes out.new ≡ string_bytes out.old ++ encode_utf8_all bytes.now) }
{
    for byte in bytes {
        out.push(char::from(*byte))?;
    }
    Ok(())
}

/// Appends a text in double quotes.
fn push_quoted_points(out: &mut String, points: &[u32]) -> Result<(), AllocError>
    ensures { OnOk result (string_bytes out.new ≡ string_bytes out.old
        ++ encode_utf8_all (in_double_quotes (flat_map field_character points.now))) }
{
    out.push('"')?;
    push_field_points(out, points)?;
    out.push('"')?;
    Ok(())
}

/// Appends a literal of bytes in double quotes.
fn push_quoted_bytes(out: &mut String, bytes: &[u8]) -> Result<(), AllocError>
    ensures { OnOk result (string_bytes out.new ≡ string_bytes out.old
        ++ encode_utf8_all (98 ∷ in_double_quotes bytes.now)) }
{
    out.push_str("b\"")?;
    push_field_bytes(out, bytes)?;
    out.push('"')?;
    Ok(())
}

/// Appends the prefix of a text literal of the kind `u`, or nothing.
fn push_prefix(out: &mut String, unicode: bool) -> Result<(), AllocError>
    ensures { OnOk result (string_bytes out.new ≡ string_bytes out.old ++ prefix unicode) }
{
    if unicode {
        out.push('u')?;
    }
    Ok(())
}

/// Appends a text literal, in a field or not.
pub(crate) fn push_text_literal(
    out: &mut String,
    in_field: bool,
    points: &[u32],
    unicode: bool,
) -> Result<(), AllocError>
    ensures { OnOk result (string_bytes out.new ≡ string_bytes out.old
        ++ encode_utf8_all (literal_text_in in_field (Str points.now unicode))) }
{
    push_prefix(out, unicode)?;
    if in_field {
        push_quoted_points(out, points)?;
    } else {
        push_repr_points(out, points)?;
    }
    Ok(())
}

/// Appends a literal of bytes, in a field or not.
#[tactic(auto, using(crate::proofs::Texts::ReprLemmas::bytes_plain))]
pub(crate) fn push_bytes_literal(
    out: &mut String,
    in_field: bool,
    bytes: &[u8],
) -> Result<(), AllocError>
    ensures { OnOk result (string_bytes out.new ≡ string_bytes out.old
        ++ encode_utf8_all (literal_text_in in_field (Bytes bytes.now))) }
{
    if in_field {
        return push_quoted_bytes(out, bytes);
    }
    push_repr_bytes(out, bytes)
}

/// Appends what stands for a character of a text in an f-string.
fn push_character(
    out: &mut String,
    in_field: bool,
    in_spec: bool,
    point: u32,
) -> Result<(), AllocError>
    ensures { OnOk result (string_bytes out.new ≡
        string_bytes out.old ++ encode_utf8_all (character_text in_field in_spec point)) }
{
    if point == u32::from(b'{') {
        out.push_str(if in_spec { "\\x7b" } else { "{{" })
    } else if point == u32::from(b'}') {
        out.push_str(if in_spec { "\\x7d" } else { "}}" })
    } else if in_field {
        push_field_point(out, point)
    } else {
        push_repr_point(out, b'\'', point)
    }
}

/// Appends a text in an f-string.
pub(crate) fn push_characters(
    out: &mut String,
    in_field: bool,
    in_spec: bool,
    points: &[u32],
) -> Result<(), AllocError>
    ensures { OnOk result (string_bytes out.new ≡ string_bytes out.old
        ++ encode_utf8_all (flat_map (character_text in_field in_spec) points.now)) }
{
    for point in points {
        push_character(out, in_field, in_spec, *point)?;
    }
    Ok(())
}

/// The quote of an f-string.
pub(crate) fn quote(in_field: bool) -> char
    ensures { result ≡ quote in_field }
{
    if in_field { '"' } else { '\'' }
}

/// What stands for a conversion.
pub(crate) fn conversion_text(conversion: Conversion) -> &'static str
    ensures { result.now ≡ conversion_text conversion }
{
    match conversion {
        Conversion::None => "",
        Conversion::Str => "!s",
        Conversion::Repr => "!r",
        Conversion::Ascii => "!a",
    }
}
