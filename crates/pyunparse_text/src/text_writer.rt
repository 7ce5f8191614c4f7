//! The text of a module, while it is written.

ghost use Rattle.std.specs.Prelude.{◌≡◌, ◌+◌, ◌-◌, ◌*◌, ◌<◌, ◌++◌, [], ◌∷◌, None, Some, false, replicate};
ghost use Rattle.std.specs.Prelude.{IfOk, OnOk};
ghost use Rattle.std.specs.Str.{bytes_eq};
ghost use Rattle.std.specs.String.{string_bytes};
ghost use Rattle.pyfstring.specs.Texts.{begins_with};
ghost use Rattle.pylex_lexeme.specs.Characters.{left_curly_bracket, line_feed, space};
ghost use Rattle.pyunparse_text.specs.Marks.{is_close_after, is_close_before};
ghost use Rattle.pyunparse_text.specs.Spacing.{is_number_kind};
ghost use Rattle.pyunparse_text.specs.Writing.{meets};

use crate::edges::Edge;
use crate::literal_texts::{
    conversion_text, push_bytes_literal, push_characters, push_text_literal, quote,
};
use crate::marks::Role;
use crate::writers::Writer;
use pyfstring::Conversion;
use pylex_listing::Kind;
use std::alloc::{AllocError, Global};
use std::marker::Model;

/// The blanks of a level.
const INDENT: &str = "    ";

/// What a literal says of what follows.
const LITERAL: Edge = Edge {
    following: false,
    number: false,
    comma: false,
    brace: false,
};

/// What the brace of a field says of what follows.
const FIELD: Edge = Edge {
    following: true,
    number: false,
    comma: false,
    brace: true,
};

/// Whether a kind is that of numbers.
fn is_number(kind: Kind) -> bool
    ensures { result ≡ is_number_kind kind }
{
    match kind {
        Kind::Number => true,
        _ => false,
    }
}

/// Whether a text is this byte alone.
fn is_byte(text: &str, byte: u8) -> bool
    ensures { result ≡ bytes_eq text.now (byte ∷ []) }
{
    let bytes = text.as_bytes();
    bytes.len() == 1 && bytes[0] == byte
}

/// Whether a text begins with an opening brace.
fn begins_with_brace(text: &str) -> bool
    ensures { result ≡ begins_with left_curly_bracket text.now }
{
    let bytes = text.as_bytes();
    !bytes.is_empty() && bytes[0] == b'{'
}

/// Whether a token touches the one before it. Its kind doesn't matter.
fn touches(edge: Edge, kind: Kind, text: &str, role: Role) -> bool
    ensures { result ≡ meets edge (record {
      kind = kind;
      text = text.now;
      before = is_close_before role;
      following = is_close_after role;
    }) }
{
    let _kind = kind;
    let before = role.is_close_before();
    let following = role.is_close_after();
    !(edge.brace && begins_with_brace(text))
        && (edge.following | before)
        && !(edge.number && is_byte(text, b'.'))
        && !(edge.comma && following && is_byte(text, b':'))
}

/// A text that tokens are appended to, with the blanks between them, and the front of its lines.
#[derive(Drop)]
pub struct TextWriter {
    text: String,
    last: Option<Edge>,
    front: String,
    in_field: bool,
}

impl Model for TextWriter {
    ghost use Rattle.std.specs.Prelude.{◌≡◌, ◌*◌, ◌/◌, length, replicate};
    ghost use Rattle.std.specs.String.{string_bytes};
    ghost use Rattle.pyunparse_text.specs.Writing.{Writing};

    ghost Value = { Writing };

    ghost view = { λ w. record {
      text = string_bytes w.text;
      last = w.last;
      level = length (string_bytes w.front) / 4;
      in_field = w.in_field;
    } };

    ghost invariant = { λ w. string_bytes w.front
        ≡ replicate (4 * (length (string_bytes w.front) / 4)) 32 };
}

impl TextWriter {
    ghost use Rattle.pylex_listing.specs.declared.kind.Kind.{Kind};
    ghost use Rattle.pyunparse_text.specs.Spacing.{Piece};
    ghost use Rattle.pyunparse_text.specs.Pieces.{quote};
    ghost use Rattle.pyunparse_text.specs.Writing.{blank, edge_of, more, no_text};

    /// The empty text.
    pub fn new(alloc: Global) -> TextWriter
        ensures { result ≡ no_text }
    {
        TextWriter {
            text: String::new(alloc),
            last: None,
            front: String::new(alloc),
            in_field: false,
        }
    }

    /// Whether it is a field of an f-string that is written.
    pub fn is_in_field(&self) -> bool
        ensures { result ≡ self.now.in_field }
    {
        self.in_field
    }

    /// The text.
    pub fn into_text(self) -> String
        ensures { string_bytes result ≡ self.text }
    {
        let TextWriter { text, .. } = self;
        text
    }

    /// Appends the blanks of a line's front. No f-string stands open there.
    pub fn begin_line(&mut self) -> Result<(), AllocError>
        ensures { OnOk result
            (self.new ≡ record {
              text = self.old.text ++ replicate (4 * self.old.level) space;
              last = None;
              level = self.old.level;
              in_field = false;
            }) }
    {
        self.last = None;
        self.in_field = false;
        self.text.push_str(self.front.as_str())
    }

    /// Appends a line's end.
    pub fn end_line(&mut self) -> Result<(), AllocError>
        ensures { OnOk result
            (self.new ≡ more self.old (line_feed ∷ [])) }
    {
        self.text.push('\n')
    }

    /// Goes a level deeper.
    pub fn indent(&mut self) -> Result<(), AllocError>
        ensures { OnOk result
            (self.new ≡ record {
              text = self.old.text;
              last = self.old.last;
              level = self.old.level + 1;
              in_field = self.old.in_field;
            }) }
    {
        self.front.push_str(INDENT)
    }

    /// Leaves a level.
    pub fn dedent(&mut self)
        requires { 0 < self.old.level }
        ensures { self.new ≡ record {
          text = self.old.text;
          last = self.old.last;
          level = self.old.level - 1;
          in_field = self.old.in_field;
        } }
    {
        let len = self.front.as_str().len();
        self.front.truncate(len - INDENT.len());
    }

    /// Appends the blank before a token, if there is one, and keeps what the token says of the
    /// next. The text matters where it is an operator's.
    #[inline(always)]
    fn space(&mut self, kind: Kind, text: &str, role: Role) -> Result<(), AllocError>
        ensures { OnOk result (self.new ≡ record {
          text = self.old.text ++ blank self.old.last (record {
            kind = kind;
            text = text.now;
            before = is_close_before role;
            following = is_close_after role;
          });
          last = Some (edge_of (record {
            kind = kind;
            text = text.now;
            before = is_close_before role;
            following = is_close_after role;
          }));
          level = self.old.level;
          in_field = self.old.in_field;
        }) }
    {
        self.put_blank(kind, text, role)?;
        self.last = Some(Edge {
            following: role.is_close_after(),
            number: is_number(kind),
            comma: is_byte(text, b','),
            brace: false,
        });
        Ok(())
    }

    /// Appends a text. A lone character is a push, which takes less than a copy.
    #[inline(always)]
    fn push_text(&mut self, text: &str) -> Result<(), AllocError>
        ensures { OnOk result (self.new ≡ more self.old text.now) }
    {
        let bytes = text.as_bytes();
        if bytes.len() == 1 && bytes[0].is_ascii() {
            return self.text.push(bytes[0] as char);
        }
        self.text.push_str(text)
    }

    /// Appends the quote of an f-string.
    fn push_quote(&mut self, in_field: bool) -> Result<(), AllocError>
        ensures { OnOk result (self.new ≡ more self.old (quote in_field ∷ [])) }
    {
        self.text.push(quote(in_field))
    }

    /// Appends the blank before a token, if there is one.
    fn put_blank(&mut self, kind: Kind, text: &str, role: Role) -> Result<(), AllocError>
        ensures { OnOk result (self.new ≡ record {
          text = self.old.text ++ blank self.old.last (record {
            kind = kind;
            text = text.now;
            before = is_close_before role;
            following = is_close_after role;
          });
          last = self.old.last;
          level = self.old.level;
          in_field = self.old.in_field;
        }) }
    {
        match self.last {
            None => Ok(()),
            Some(edge) => {
                if touches(edge, kind, text, role) {
                    return Ok(());
                }
                self.text.push(' ')
            }
        }
    }
}

impl Writer for TextWriter {
    ghost use Rattle.pyunparse_text.specs.Writing as writing;

    ghost after = { writing.after_sited };

    ghost is_in_field = { λ w. w.in_field };

    ghost step = { writing.stepped };

    fn alloc(&self) -> Global {
        *self.text.allocator()
    }

    fn put(&mut self, kind: Kind, text: &str, role: Role) -> Result<(), AllocError> {
        self.space(kind, text, role)?;
        self.push_text(text)
    }

    fn put_str(&mut self, points: &[u32], unicode: bool) -> Result<(), AllocError> {
        self.space(Kind::String, "", Role::Free)?;
        push_text_literal(&mut self.text, self.in_field, points, unicode)
    }

    fn put_bytes(&mut self, bytes: &[u8]) -> Result<(), AllocError> {
        self.space(Kind::String, "", Role::Free)?;
        push_bytes_literal(&mut self.text, self.in_field, bytes)
    }

    fn begin_string(&mut self) -> Result<bool, AllocError> {
        self.space(Kind::String, "", Role::Free)?;
        self.text.push('f')?;
        self.push_quote(self.in_field)?;
        Ok(self.in_field)
    }

    fn put_text(
        &mut self,
        in_field: bool,
        in_spec: bool,
        points: &[u32],
    ) -> Result<(), AllocError> {
        push_characters(&mut self.text, in_field, in_spec, points)
    }

    fn begin_field(&mut self) -> Result<(), AllocError> {
        self.last = Some(FIELD);
        self.in_field = true;
        self.text.push('{')
    }

    fn end_expression(&mut self, in_field: bool, conversion: Conversion) -> Result<(), AllocError> {
        self.last = Some(LITERAL);
        self.in_field = in_field;
        self.text.push_str(conversion_text(conversion))
    }

    fn begin_spec(&mut self) -> Result<(), AllocError> {
        self.text.push(':')
    }

    fn end_field(&mut self) -> Result<(), AllocError> {
        self.text.push('}')
    }

    fn end_string(&mut self, in_field: bool) -> Result<(), AllocError> {
        self.push_quote(in_field)?;
        Ok(())
    }
}
