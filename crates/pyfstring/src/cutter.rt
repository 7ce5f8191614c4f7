//! The cut of a body (reference 2.4.3).

ghost use Rattle.std.specs.Prelude.{◌≡◌, Some, None, false, IfOk, IfErr, option_map};
ghost use Rattle.std.specs.Str.{chars};
ghost use Rattle.pyfstring.specs.Parts.{field_of, text_of, spec_parts, body_parts};
ghost use Rattle.pyfstring.specs.Pieces.{IsCut};
ghost use Rattle.pyfstring.specs.Laws.{Tells, CutsAreLawful};
ghost use Rattle.pyfstring.specs.Cutting.{text_at, spec_at, inner_field_at, spec_pieces_at};
ghost use Rattle.pyfstring.specs.Cutting.{body_field_at, body_pieces_at};
ghost use Rattle.pyfstring.specs.Inner.Passing.{IfMalformed};

use crate::parts::{CutError, Field, Manner, Piece, SpecPiece};
use crate::scanner::Scanner;
use std::alloc::Global;

impl<'a> Scanner<'a> {
    /// The spec of a field in a spec: a text.
    fn inner_spec(&mut self, manner: Manner) -> Option<&'a str>
        ensures { spec_at (text_at manner.is_raw false) self.old
            ≡ Some (option_map text_of result, self.new) }
    {
        if !self.eat(':') {
            return None;
        }
        Some(self.text(manner.is_raw, false))
    }

    /// The field of a spec that stands here, after its `{`.
    fn inner_field(&mut self, alloc: Global, manner: Manner) -> Result<Field<'a, &'a str>, CutError>
        ensures ok { IfOk result
            (λ f. inner_field_at manner self.old ≡ Some (field_of text_of f, self.new)) }
        ensures malformed { IfErr result
            (λ e. IfMalformed e (inner_field_at manner self.old ≡ None)) }
    {
        let front = self.front(alloc, manner.is_nested)?;
        let spec = self.inner_spec(manner);
        self.close()?;
        Ok(front.with(spec))
    }

    /// The pieces of a spec.
    fn spec_pieces(&mut self, alloc: Global, manner: Manner) -> Result<Vec<SpecPiece<'a>>, CutError>
        ensures ok { IfOk result
            (λ ps. spec_pieces_at manner self.old ≡ Some (spec_parts ps, self.new)) }
        ensures malformed { IfErr result
            (λ e. IfMalformed e (spec_pieces_at manner self.old ≡ None)) }
    {
        let mut pieces = Vec::new(alloc);
        loop {
            pieces.push(Piece::Text(self.text(manner.is_raw, false)))?;
            if !self.eat('{') {
                return Ok(pieces);
            }
            pieces.push(Piece::Field(self.inner_field(alloc, manner)?))?;
        }
    }

    /// The spec of a field of a body.
    fn spec(
        &mut self,
        alloc: Global,
        manner: Manner,
    ) -> Result<Option<Vec<SpecPiece<'a>>>, CutError>
        ensures ok { IfOk result (λ s. spec_at (spec_pieces_at manner) self.old
            ≡ Some (option_map spec_parts s, self.new)) }
        ensures malformed { IfErr result
            (λ e. IfMalformed e (spec_at (spec_pieces_at manner) self.old ≡ None)) }
    {
        if !self.eat(':') {
            return Ok(None);
        }
        let pieces = self.spec_pieces(alloc, manner)?;
        Ok(Some(pieces))
    }

    /// The field of a body that stands here, after its `{`.
    fn field(
        &mut self,
        alloc: Global,
        manner: Manner,
    ) -> Result<Field<'a, Vec<SpecPiece<'a>>>, CutError>
        ensures ok { IfOk result
            (λ f. body_field_at manner self.old ≡ Some (field_of spec_parts f, self.new)) }
        ensures malformed { IfErr result
            (λ e. IfMalformed e (body_field_at manner self.old ≡ None)) }
    {
        let front = self.front(alloc, manner.is_nested)?;
        let spec = self.spec(alloc, manner)?;
        self.close()?;
        Ok(front.with(spec))
    }

    /// The pieces from here on.
    fn body_pieces(
        &mut self,
        alloc: Global,
        manner: Manner,
    ) -> Result<Vec<Piece<'a, Vec<SpecPiece<'a>>>>, CutError>
        ensures ok { IfOk result
            (λ ps. body_pieces_at manner self.old ≡ Some (body_parts ps, self.new)) }
        ensures malformed { IfErr result
            (λ e. IfMalformed e (body_pieces_at manner self.old ≡ None)) }
    {
        let mut pieces = Vec::new(alloc);
        loop {
            pieces.push(Piece::Text(self.text(manner.is_raw, true)))?;
            if !self.eat('{') {
                return Ok(pieces);
            }
            pieces.push(Piece::Field(self.field(alloc, manner)?))?;
        }
    }
}

/// The pieces of an f-string's body: texts and fields in turn, a text first and last.
///
/// # Errors
///
/// [`CutError::Malformed`] exactly where the body has no cut.
pub fn pieces<'a>(
    alloc: Global,
    body: &'a str,
    manner: Manner,
) -> Result<Vec<Piece<'a, Vec<SpecPiece<'a>>>>, CutError>
    ensures cut { IfOk result (λ ps. IsCut manner (chars body.now) (body_parts ps)) }
    ensures malformed { IfErr result (λ e. Tells manner (chars body.now) e) }
    ensures lawful { CutsAreLawful }
{
    let mut left = Scanner::new(body);
    let pieces = left.body_pieces(alloc, manner)?;
    if !left.is_at_end() {
        return Err(CutError::Malformed);
    }
    Ok(pieces)
}
