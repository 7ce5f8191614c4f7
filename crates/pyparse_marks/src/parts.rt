//! F-strings, part by part.
//!
//! Python language reference, 2.4.3 "Formatted string literals".

ghost use Rattle.std.specs.Prelude.{◌≡◌, true, false, map, OnOk, option_map};
ghost use Rattle.std.specs.Str.{chars};
ghost use Rattle.pyfstring.specs.Parts.{text_of, part_of, spec_parts};
ghost use Rattle.pyparse_marks.specs.TokenSpans.{past_text, past_part, past_spec, past_spec_parts};
ghost use Rattle.pyparse_marks.specs.TokenSpans.{past_body_parts, past_expression, past_formatted};
ghost use Rattle.pyparse_marks.specs.TokenSpans.{past_cut, parts_of, opening_len};
ghost use Rattle.pyparse_marks.specs.TokenSpans.{past_token, past_nested};
ghost use Rattle.pyparse_marks.specs.Inner.Walking.{around_of};

use crate::expressions::{Single, Tokens};
use crate::formatted::{Around, pass_end, pass_front, pass_inner_spec, pass_text};
use crate::lengths::{len, span, sum};
use crate::walkers::Walker;
use pyfstring::{CutError, Manner, Piece, SpecPiece, pieces};
use pylex_listing::Kind;
use pytoken::{after_opening, body, is_fstring, is_raw};
use std::alloc::{AllocError, Global};

/// Goes past a piece of a spec.
fn pass_spec_piece<T: Tokens>(
    alloc: Global,
    tokens: &T,
    around: &Around<'_>,
    piece: &SpecPiece<'_>,
    walker: &mut Walker,
) -> Result<(), AllocError>
    ensures { OnOk result (walker.new ≡ past_part (past_expression T.past)
        (past_text (around_of around.now)) (around_of around.now) (part_of text_of piece.now)
        walker.old) }
{
    match piece {
        Piece::Text(text) => pass_text(around, text, walker),
        Piece::Field(field) => {
            pass_front(alloc, tokens, around, field.kept, field.text, walker)?;
            pass_inner_spec(around, field.spec, walker)?;
            pass_end(around, walker)
        }
    }
}

/// Goes past the pieces of a spec.
fn pass_spec_pieces<T: Tokens>(
    alloc: Global,
    tokens: &T,
    around: &Around<'_>,
    pieces: &[SpecPiece<'_>],
    walker: &mut Walker,
) -> Result<(), AllocError>
    ensures { OnOk result (walker.new ≡ past_spec_parts (past_expression T.past)
        (around_of around.now) (map (part_of text_of) pieces.now) walker.old) }
{
    'pieces: for piece in pieces {
        pass_spec_piece(alloc, tokens, around, piece, walker)?;
    }
    Ok(())
}

/// Goes past the spec of a field of a body.
fn pass_spec<T: Tokens>(
    alloc: Global,
    tokens: &T,
    around: &Around<'_>,
    spec: &Option<Vec<SpecPiece<'_>>>,
    walker: &mut Walker,
) -> Result<(), AllocError>
    ensures { OnOk result (walker.new ≡ past_spec (past_spec_parts (past_expression T.past)
        (around_of around.now)) (around_of around.now) (option_map spec_parts spec.now)
        walker.old) }
{
    match spec {
        Some(pieces) => {
            walker.put(around.whole)?;
            walker.go_on(1)?;
            pass_spec_pieces(alloc, tokens, around, pieces, walker)
        }
        None => Ok(()),
    }
}

/// Goes past a piece of a body.
fn pass_piece<T: Tokens>(
    alloc: Global,
    tokens: &T,
    around: &Around<'_>,
    piece: &Piece<'_, Vec<SpecPiece<'_>>>,
    walker: &mut Walker,
) -> Result<(), AllocError>
    ensures { OnOk result (walker.new ≡ past_part (past_expression T.past)
        (past_spec_parts (past_expression T.past) (around_of around.now)) (around_of around.now)
        (part_of spec_parts piece.now) walker.old) }
{
    match piece {
        Piece::Text(text) => pass_text(around, text, walker),
        Piece::Field(field) => {
            pass_front(alloc, tokens, around, field.kept, field.text, walker)?;
            pass_spec(alloc, tokens, around, &field.spec, walker)?;
            pass_end(around, walker)
        }
    }
}

/// Goes past the pieces of a body.
fn pass_pieces<T: Tokens>(
    alloc: Global,
    tokens: &T,
    around: &Around<'_>,
    pieces: &[Piece<'_, Vec<SpecPiece<'_>>>],
    walker: &mut Walker,
) -> Result<(), AllocError>
    ensures { OnOk result (walker.new ≡ past_body_parts (past_expression T.past)
        (around_of around.now) (map (part_of spec_parts) pieces.now) walker.old) }
{
    'pieces: for piece in pieces {
        pass_piece(alloc, tokens, around, piece, walker)?;
    }
    Ok(())
}

/// The bytes before the body of a literal.
fn opening_len(text: &str) -> usize
    ensures { result ≡ opening_len (chars text.now) }
{
    len(text).saturating_sub(len(after_opening(text)))
}

/// Goes over an f-string, by whether it stands in a field itself, or nowhere if it is malformed.
/// Where one stands then isn't said.
fn pass_cut<T: Tokens>(
    alloc: Global,
    tokens: &T,
    is_nested: bool,
    around: &Around<'_>,
    walker: &mut Walker,
) -> Result<(), AllocError>
    ensures { OnOk result (walker.new ≡ past_cut (past_expression T.past) (around_of around.now)
        (opening_len (chars around.now.text.now)) (parts_of is_nested (chars around.now.text.now))
        walker.old) }
{
    let text = around.text;
    let is_raw = is_raw(text);
    match pieces(alloc, body(text), Manner { is_raw, is_nested }) {
        Ok(pieces) => {
            walker.put(around.whole)?;
            walker.go_on(opening_len(text))?;
            pass_pieces(alloc, tokens, around, &pieces, walker)?;
            walker.put(around.whole)
        }
        Err(CutError::Malformed) => Ok(()),
        Err(CutError::Memory) => Err(AllocError),
    }
}

/// Goes past an f-string, by whether it stands in a field itself.
fn pass_formatted<T: Tokens>(
    alloc: Global,
    tokens: &T,
    is_nested: bool,
    text: &str,
    walker: &mut Walker,
) -> Result<(), AllocError>
    ensures { OnOk result
        (walker.new ≡ past_formatted is_nested T.past (chars text.now) walker.old) }
{
    let start = walker.at();
    let stop = sum(start, len(text))?;
    let whole = span(start, stop)?;
    pass_cut(
        alloc,
        tokens,
        is_nested,
        &Around { text, start, whole },
        walker,
    )?;
    walker.move_to(stop);
    Ok(())
}

/// A token is one terminal, but for an f-string, whose fields have such tokens alone.
#[derive(Drop)]
struct Nested;

impl Tokens for Nested {
    ghost past = { past_nested };

    fn pass(
        &self,
        alloc: Global,
        kind: Kind,
        text: &str,
        walker: &mut Walker,
    ) -> Result<(), AllocError> {
        if is_fstring(kind, text) {
            return pass_formatted(alloc, &Single, true, text, walker);
        }
        walker.pass_text(text)
    }
}

/// Goes past a token that stands in no field.
pub(crate) fn pass_token(
    alloc: Global,
    kind: Kind,
    text: &str,
    walker: &mut Walker,
) -> Result<(), AllocError>
    ensures { OnOk result (walker.new ≡ past_token kind (chars text.now) walker.old) }
{
    if is_fstring(kind, text) {
        return pass_formatted(alloc, &Nested, false, text, walker);
    }
    walker.pass_text(text)
}
