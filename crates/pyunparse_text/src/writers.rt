//! What tokens are written into.

ghost use Rattle.std.specs.Prelude.{◌≡◌, Bool, false, IfOk, List, OnOk};
ghost use Rattle.pytree_node.specs.Values.{Bytes, Str};
ghost use Rattle.pytoken.specs.Terminals.{Literal};
ghost use Rattle.pyunparse_text.specs.Folds.{anywhere, puts_elements, sited_in_utf8, Step};
ghost use Rattle.pyunparse_text.specs.Folds.{Begin, PutText, BeginField, EndExpression};
ghost use Rattle.pyunparse_text.specs.Folds.{BeginSpec, EndField};
ghost use Rattle.pyunparse_text.specs.Marks.{is_close_after, is_close_before};
ghost use Rattle.pyunparse_text.specs.Pieces.{Sited, sited, sited_string};
ghost use Rattle.pyunparse_text.specs.Written.{Element};

use crate::marks::Role;
use pyfstring::Conversion;
use pylex_listing::Kind;
use std::alloc::{AllocError, Global};

/// What tokens are written into, one after another: a text, or a list.
///
/// An f-string is one token, and is written step by step: it begins; its texts are put, and its
/// fields; it ends. A field begins; its expression is written as any other is; the expression
/// ends, perhaps with a conversion; a format spec may begin, whose texts and fields are put; the
/// field ends. The beginning of the f-string says whether this stands in a field of another one,
/// and later steps are given that.
pub trait Writer {
    // The writer after a token, whose text is given in UTF-8.
    ghost after: { Self → Sited → Self };

    // Whether it is a field of an f-string that is written.
    ghost is_in_field: { Self → Bool };

    // The writer after a step of the writing of an f-string.
    ghost step: { Self → Step → Self };

    /// The allocator that its memory is from.
    fn alloc(&self) -> Global;

    /// Writes a token, as close to its neighbours as its role says.
    fn put(&mut self, kind: Kind, text: &str, role: Role) -> Result<(), AllocError>
        ensures { OnOk result (self.new ≡ after self.old (anywhere (record {
          kind = kind;
          text = text.now;
          before = is_close_before role;
          following = is_close_after role;
        }))) };

    /// Writes a text constant.
    fn put_str(&mut self, points: &[u32], unicode: bool) -> Result<(), AllocError>
        ensures { OnOk result (self.new ≡
            after self.old (sited_in_utf8 (sited (Literal (Str points.now unicode)) false false))) };

    /// Writes a constant of bytes.
    fn put_bytes(&mut self, bytes: &[u8]) -> Result<(), AllocError>
        ensures { OnOk result (self.new ≡
            after self.old (sited_in_utf8 (sited (Literal (Bytes bytes.now)) false false))) };

    /// Begins an f-string, and says whether it stands in a field.
    fn begin_string(&mut self) -> Result<bool, AllocError>
        ensures site { IfOk result (λ in_field. in_field ≡ is_in_field self.old) }
        ensures begun { OnOk result (self.new ≡ step self.old Begin) };

    /// Writes a text in an f-string, or in a format spec of it.
    fn put_text(&mut self, in_field: bool, in_spec: bool, points: &[u32]) -> Result<(), AllocError>
        ensures { OnOk result (self.new ≡ step self.old (PutText in_field in_spec points.now)) };

    /// Begins a field.
    fn begin_field(&mut self) -> Result<(), AllocError>
        ensures { OnOk result (self.new ≡ step self.old BeginField) };

    /// Ends the expression of a field.
    fn end_expression(&mut self, in_field: bool, conversion: Conversion) -> Result<(), AllocError>
        ensures { OnOk result (self.new ≡ step self.old (EndExpression in_field conversion)) };

    /// Begins the format spec of a field.
    fn begin_spec(&mut self) -> Result<(), AllocError>
        ensures { OnOk result (self.new ≡ step self.old BeginSpec) };

    /// Ends a field.
    fn end_field(&mut self) -> Result<(), AllocError>
        ensures { OnOk result (self.new ≡ step self.old EndField) };

    /// Ends an f-string: what was written since it began is one token.
    fn end_string(&mut self, in_field: bool) -> Result<(), AllocError>
        ensures { OnOk result ((s : Self) → (es : List (Element Sited))
            → in_field ≡ is_in_field s
            → self.old ≡ puts_elements after step in_field (step s Begin) es
            → self.new ≡ after s (sited_in_utf8 (sited_string es))) };
}
