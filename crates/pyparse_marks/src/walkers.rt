//! What goes over the terminals of a token.

ghost use Rattle.std.specs.Prelude.{◌≡◌, [], map, OnOk};
ghost use Rattle.std.specs.Str.{chars};
ghost use Rattle.pyparse_marks.specs.Spans.{told};
ghost use Rattle.pyparse_marks.specs.TokenSpans.{put, further, moved, over};
ghost use Rattle.pylex_lexeme.specs.Chars.{bytes_in};

use crate::lengths::{len, span, sum};
use crate::spans::Span;
use std::alloc::{AllocError, Global};
use std::marker::Model;

/// Where one stands who goes over the terminals of a token: the byte, and the spans so far.
#[derive(Drop)]
pub(crate) struct Walker {
    at: usize,
    spans: Vec<Span>,
}

impl Model for Walker {
    ghost use Rattle.std.specs.Prelude.{map};
    ghost use Rattle.pyparse_marks.specs.Spans.{told};
    ghost use Rattle.pyparse_marks.specs.TokenSpans.{Walk};

    ghost Value = { Walk };

    ghost view = { λ w. record { at = w.at; spans = map told w.spans.items } };
}

impl Walker {
    /// Before a token that begins at a byte.
    pub(crate) fn new(alloc: Global, at: usize) -> Walker
        ensures { result ≡ record { at = at; spans = [] } }
    {
        Walker {
            at,
            spans: Vec::new(alloc),
        }
    }

    /// The byte.
    pub(crate) fn at(&self) -> usize
        ensures { result ≡ self.now.at }
    {
        self.at
    }

    /// The spans so far.
    pub(crate) fn spans(&self) -> &[Span]
        ensures { map told result.now ≡ self.now.spans }
    {
        self.spans.as_slice()
    }

    /// One terminal more, of this span.
    pub(crate) fn put(&mut self, whole: Span) -> Result<(), AllocError>
        ensures { OnOk result (self.new ≡ put (told whole) self.old) }
    {
        self.spans.push(whole)?;
        Ok(())
    }

    /// Goes to a byte.
    pub(crate) fn move_to(&mut self, at: usize)
        ensures { self.new ≡ moved at self.old }
    {
        self.at = at;
    }

    /// Goes on by some bytes.
    pub(crate) fn go_on(&mut self, count: usize) -> Result<(), AllocError>
        ensures { OnOk result (self.new ≡ further count self.old) }
    {
        let at = sum(self.at(), count)?;
        self.move_to(at);
        Ok(())
    }

    /// Goes past a terminal that the next bytes are.
    pub(crate) fn pass(&mut self, count: usize) -> Result<(), AllocError>
        ensures { OnOk result (self.new ≡ over count self.old) }
    {
        let start = self.at();
        let stop = sum(start, count)?;
        self.put(span(start, stop)?)?;
        self.move_to(stop);
        Ok(())
    }

    /// Goes past a terminal that this text is.
    pub(crate) fn pass_text(&mut self, text: &str) -> Result<(), AllocError>
        ensures { OnOk result (self.new ≡ over (bytes_in (chars text.now)) self.old) }
    {
        self.pass(len(text))
    }
}
