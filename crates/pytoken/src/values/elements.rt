//! What stands between the quotes of an f-string, one after another.
//!
//! Python language reference, 2.4.3 "Formatted string literals".

ghost use Rattle.std.specs.Prelude.{◌≡◌, ◌++◌, ◌∷◌, [], true, false, map, IfOk, IfErr};
ghost use Rattle.std.specs.Prelude.{OnOk, Some, None, option_map};
ghost use Rattle.std.specs.Str.{chars};
ghost use Rattle.pyfstring.specs.Parts.{text_of, part_of, spec_parts};
ghost use Rattle.pytoken.specs.FormattedStrings.{text_element, kept_elements, spec_elements};
ghost use Rattle.pytoken.specs.FormattedStrings.{part_elements, inner_elements, spec_part_elements};
ghost use Rattle.pytoken.specs.FormattedStrings.{body_part_elements, elements_of};
ghost use Rattle.pytoken.specs.FormattedStrings as elements;
ghost use Rattle.pytoken.specs.Inner.Pushing.{element_of, Grows, IfMalformed};

use crate::values::bodies::body;
use crate::values::strings::is_raw;
use crate::values::text_pieces::TextPiece;
use pyfstring::{Conversion, CutError, Manner, Piece, SpecPiece, pieces};
use std::alloc::{AllocError, Global};

/// What stands at a place between the quotes of an f-string.
#[derive(Clone, Copy, Debug)]
pub(crate) enum Element<'a> {
    /// A text.
    Text(TextPiece<'a>),
    /// The begin of a field: its conversion, and the source of its expression.
    Field(Conversion, &'a str),
    /// The begin of its format spec.
    Spec,
    /// Its end.
    End,
}

/// Appends one element.
fn push<'a>(out: &mut Vec<Element<'a>>, element: Element<'a>) -> Result<(), AllocError>
    ensures { OnOk result (Grows element_of out.old.items out.new.items (element_of element.entry ∷ [])) }
{
    out.push(element)?;
    Ok(())
}

/// Appends a text.
fn push_text<'a>(
    out: &mut Vec<Element<'a>>,
    text: &'a str,
    is_raw: bool,
    has_pairs: bool,
) -> Result<(), AllocError>
    ensures { OnOk result (Grows element_of out.old.items out.new.items
        (text_element is_raw has_pairs (chars text.now) ∷ [])) }
{
    push(out, Element::Text(TextPiece::new(text, is_raw, has_pairs)))
}

/// Appends what `=` keeps of a field.
fn push_kept<'a>(out: &mut Vec<Element<'a>>, kept: Option<&'a str>) -> Result<(), AllocError>
    ensures { OnOk result (Grows element_of out.old.items out.new.items
        (kept_elements (option_map text_of kept.entry))) }
{
    match kept {
        Some(text) => push_text(out, text, true, false),
        None => Ok(()),
    }
}

/// Appends the begin of a field.
fn push_begin<'a>(
    out: &mut Vec<Element<'a>>,
    kept: Option<&'a str>,
    conversion: Conversion,
    text: &'a str,
) -> Result<(), AllocError>
    ensures { OnOk result (Grows element_of out.old.items out.new.items
        (kept_elements (option_map text_of kept.entry)
        ++ (elements.Field conversion (chars text.now) ∷ []))) }
{
    push_kept(out, kept)?;
    push(out, Element::Field(conversion, text))
}

/// Appends the spec of a field that stands in a spec.
fn push_inner_spec<'a>(
    out: &mut Vec<Element<'a>>,
    is_raw: bool,
    spec: Option<&'a str>,
) -> Result<(), AllocError>
    ensures { OnOk result (Grows element_of out.old.items out.new.items
        (spec_elements (inner_elements is_raw) (option_map text_of spec.entry))) }
{
    let Some(text) = spec else {
        return Ok(());
    };
    push(out, Element::Spec)?;
    push_text(out, text, is_raw, false)
}

/// Appends a piece of a spec.
fn push_spec_piece<'a>(
    out: &mut Vec<Element<'a>>,
    is_raw: bool,
    piece: &SpecPiece<'a>,
) -> Result<(), AllocError>
    ensures { OnOk result (Grows element_of out.old.items out.new.items
        (part_elements is_raw false (inner_elements is_raw) (part_of text_of piece.now))) }
{
    match piece {
        Piece::Text(text) => push_text(out, text, is_raw, false),
        Piece::Field(field) => {
            push_begin(out, field.kept, field.conversion, field.text)?;
            push_inner_spec(out, is_raw, field.spec)?;
            push(out, Element::End)
        }
    }
}

/// Appends the pieces of a spec.
fn push_spec_pieces<'a>(
    out: &mut Vec<Element<'a>>,
    is_raw: bool,
    pieces: &[SpecPiece<'a>],
) -> Result<(), AllocError>
    ensures { OnOk result (Grows element_of out.old.items out.new.items
        (spec_part_elements is_raw (map (part_of text_of) pieces.now))) }
{
    'pieces: for piece in pieces {
        push_spec_piece(out, is_raw, piece)?;
    }
    Ok(())
}

/// Appends the spec of a field of a body.
fn push_spec<'a>(
    out: &mut Vec<Element<'a>>,
    is_raw: bool,
    spec: &Option<Vec<SpecPiece<'a>>>,
) -> Result<(), AllocError>
    ensures { OnOk result (Grows element_of out.old.items out.new.items
        (spec_elements (spec_part_elements is_raw) (option_map spec_parts spec.now))) }
{
    match spec {
        Some(pieces) => {
            push(out, Element::Spec)?;
            push_spec_pieces(out, is_raw, pieces)
        }
        None => Ok(()),
    }
}

/// Appends a piece of a body.
fn push_piece<'a>(
    out: &mut Vec<Element<'a>>,
    is_raw: bool,
    piece: &Piece<'a, Vec<SpecPiece<'a>>>,
) -> Result<(), AllocError>
    ensures { OnOk result (Grows element_of out.old.items out.new.items
        (part_elements is_raw true (spec_part_elements is_raw) (part_of spec_parts piece.now))) }
{
    match piece {
        Piece::Text(text) => push_text(out, text, is_raw, true),
        Piece::Field(field) => {
            push_begin(out, field.kept, field.conversion, field.text)?;
            push_spec(out, is_raw, &field.spec)?;
            push(out, Element::End)
        }
    }
}

/// Appends the pieces of a body.
fn push_pieces<'a>(
    out: &mut Vec<Element<'a>>,
    is_raw: bool,
    pieces: &[Piece<'a, Vec<SpecPiece<'a>>>],
) -> Result<(), AllocError>
    ensures { OnOk result (Grows element_of out.old.items out.new.items
        (body_part_elements is_raw (map (part_of spec_parts) pieces.now))) }
{
    'pieces: for piece in pieces {
        push_piece(out, is_raw, piece)?;
    }
    Ok(())
}

/// The elements of an f-string, by whether it stands in a field itself.
///
/// # Errors
///
/// [`CutError::Malformed`] exactly where its body has no cut.
pub(crate) fn elements<'a>(
    alloc: Global,
    text: &'a str,
    is_nested: bool,
) -> Result<Vec<Element<'a>>, CutError>
    ensures cut { IfOk result
        (λ made. elements_of is_nested (chars text.now) ≡ Some (map element_of made.items)) }
    ensures malformed { IfErr result
        (λ e. IfMalformed e (elements_of is_nested (chars text.now) ≡ None)) }
{
    let is_raw = is_raw(text);
    let pieces = pieces(alloc, body(text), Manner { is_raw, is_nested })?;
    let mut out = Vec::new(alloc);
    match push_pieces(&mut out, is_raw, &pieces) {
        Ok(()) => Ok(out),
        Err(_) => Err(CutError::Memory),
    }
}
