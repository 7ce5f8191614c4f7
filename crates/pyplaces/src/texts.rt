//! The texts of spans.

ghost use Rattle.std.specs.Prelude.{◌≡◌, ◌↔◌, IsTrue};
ghost use Rattle.pyplaces.specs.Recording.{told};
ghost use Rattle.pyplaces.specs.Texts.{StandsIn, text_between};

use pyparse_marks::Span;
use pysource::Source;

/// Whether the ends of a span stand at characters of a source's text, in order.
pub fn has_span(source: &Source, span: Span) -> bool
    ensures { IsTrue result ↔ StandsIn source.now.text (told span) }
{
    let text = source.text();
    let from = span.from as usize;
    let to = span.to as usize;
    if to < from {
        return false;
    }
    if !text.is_char_boundary(from) {
        return false;
    }
    text.is_char_boundary(to)
}

/// The text of a span: what stands in the source between its ends.
pub fn span_text(source: &Source, span: Span) -> &str
    requires { StandsIn source.now.text (told span) }
    ensures { result.now ≡ text_between source.now.text (told span) }
{
    &source.text()[span.from as usize..span.to as usize]
}
