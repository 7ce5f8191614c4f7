//! A list of tokens, while it is written.

ghost use Rattle.std.specs.Prelude.{◌≡◌, ◌++◌, ◌∷◌, [], map, OnOk};
ghost use Rattle.std.specs.String.{string_bytes};

use crate::literal_texts::{push_bytes_literal, push_text_literal};
use crate::marks::Role;
use crate::pieces::Piece;
use crate::text_writer::TextWriter;
use crate::writers::Writer;
use pyfstring::Conversion;
use pylex_listing::Kind;
use std::alloc::{AllocError, Global};
use std::marker::Model;

/// A list that tokens are appended to, and the text of the f-string that is open after them.
#[derive(Drop)]
pub struct PieceWriter {
    alloc: Global,
    pieces: Vec<Piece>,
    string: Option<TextWriter>,
}

impl Model for PieceWriter {
    ghost use Rattle.std.specs.Prelude.{map};
    ghost use Rattle.pyunparse_text.specs.Told.{Listed, told};

    ghost Value = { Listed };

    ghost view = { λ w. record { tokens = map told w.pieces.items; string = w.string } };
}

impl PieceWriter {
    ghost use Rattle.pyunparse_text.specs.Told.{is_field, listed, told};

    /// The empty list.
    pub fn new(alloc: Global) -> PieceWriter
        ensures { result ≡ listed [] }
    {
        PieceWriter {
            alloc,
            pieces: Vec::new(alloc),
            string: None,
        }
    }

    /// The tokens.
    pub fn into_pieces(self) -> Vec<Piece>
        ensures { map told result.items ≡ self.tokens }
    {
        let PieceWriter { pieces, .. } = self;
        pieces
    }

    /// Whether it is a field of an f-string that is written.
    fn is_in_field(&self) -> bool
        ensures { result ≡ is_field self.now.string }
    {
        match &self.string {
            Some(string) => string.is_in_field(),
            None => false,
        }
    }

    /// Appends a token, where no f-string is open.
    fn push(&mut self, kind: Kind, text: String) -> Result<(), AllocError>
        ensures { OnOk result (self.new ≡ listed
            (self.old.tokens ++ record { kind = kind; text = string_bytes text } ∷ [])) }
    {
        self.string = None;
        self.pieces.push(Piece { kind, text })?;
        Ok(())
    }
}

impl Writer for PieceWriter {
    ghost use Rattle.pyunparse_text.specs.Told.{is_field, listed_after, listed_stepped};

    ghost after = { listed_after };

    ghost is_in_field = { λ l. is_field l.string };

    ghost step = { listed_stepped };

    fn alloc(&self) -> Global {
        self.alloc
    }

    fn put(&mut self, kind: Kind, text: &str, role: Role) -> Result<(), AllocError> {
        match &mut self.string {
            Some(string) if string.is_in_field() => string.put(kind, text, role),
            _ => {
                let text = String::from_str(self.alloc, text)?;
                self.push(kind, text)
            }
        }
    }

    fn put_str(&mut self, points: &[u32], unicode: bool) -> Result<(), AllocError> {
        match &mut self.string {
            Some(string) if string.is_in_field() => string.put_str(points, unicode),
            _ => {
                let mut text = String::new(self.alloc);
                push_text_literal(&mut text, false, points, unicode)?;
                self.push(Kind::String, text)
            }
        }
    }

    fn put_bytes(&mut self, bytes: &[u8]) -> Result<(), AllocError> {
        match &mut self.string {
            Some(string) if string.is_in_field() => string.put_bytes(bytes),
            _ => {
                let mut text = String::new(self.alloc);
                push_bytes_literal(&mut text, false, bytes)?;
                self.push(Kind::String, text)
            }
        }
    }

    fn begin_string(&mut self) -> Result<bool, AllocError> {
        match &mut self.string {
            Some(string) if string.is_in_field() => string.begin_string(),
            _ => {
                let mut string = TextWriter::new(self.alloc);
                let in_field = string.begin_string()?;
                self.string = Some(string);
                Ok(in_field)
            }
        }
    }

    fn put_text(
        &mut self,
        in_field: bool,
        in_spec: bool,
        points: &[u32],
    ) -> Result<(), AllocError> {
        match &mut self.string {
            Some(string) => string.put_text(in_field, in_spec, points),
            None => Ok(()),
        }
    }

    fn begin_field(&mut self) -> Result<(), AllocError> {
        match &mut self.string {
            Some(string) => string.begin_field(),
            None => Ok(()),
        }
    }

    fn end_expression(&mut self, in_field: bool, conversion: Conversion) -> Result<(), AllocError> {
        match &mut self.string {
            Some(string) => string.end_expression(in_field, conversion),
            None => Ok(()),
        }
    }

    fn begin_spec(&mut self) -> Result<(), AllocError> {
        match &mut self.string {
            Some(string) => string.begin_spec(),
            None => Ok(()),
        }
    }

    fn end_field(&mut self) -> Result<(), AllocError> {
        match &mut self.string {
            Some(string) => string.end_field(),
            None => Ok(()),
        }
    }

    fn end_string(&mut self, in_field: bool) -> Result<(), AllocError> {
        match self.string.take() {
            None => Ok(()),
            Some(mut string) => {
                string.end_string(in_field)?;
                if in_field {
                    self.string = Some(string);
                    return Ok(());
                }
                self.push(Kind::String, string.into_text())?;
                Ok(())
            }
        }
    }
}
