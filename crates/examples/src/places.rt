//! Where the nodes of a tree stand.

ghost use Rattle.std.specs.Prelude.{◌≡◌, IfOk, IfSome, filter, map};
ghost use Rattle.pyplaces.specs.Recording.{told};
ghost use Rattle.pyplaces.specs.Texts.{text_between};
ghost use Rattle.examples.specs.Places.{first_text, holds};

use pyparse::{Places, Span, has_span, span_text};
use pysource::Source;
use std::alloc::{AllocError, Global};

/// Whether a span holds a byte.
fn holds(span: Span, byte: u32) -> bool
    ensures { result ≡ holds byte (told span) }
{
    span.from <= byte && byte < span.to
}

/// The spans of the nodes around a byte of the source, in the order of the dump: outside f-strings
/// the innermost first.
pub fn spans_around(alloc: Global, places: &Places, byte: u32) -> Result<Vec<Span>, AllocError>
    ensures { IfOk result
        (λ found. map told found.items ≡ filter (holds byte) places.now.spans) }
{
    let mut found = Vec::new(alloc);
    for i in 0..places.len() {
        let span = places.span(i);
        if holds(span, byte) {
            found.push(span)?;
        }
    }
    Ok(found)
}

/// The text of the first of some spans, if its ends stand at characters of the source.
pub fn first_text<'a>(source: &'a Source, spans: &[Span]) -> Option<&'a str>
    ensures { IfSome result (λ text. first_text source.now.text (map told spans.now) text.now) }
{
    let span = *spans.first()?;
    if !has_span(source, span) {
        return None;
    }
    Some(span_text(source, span))
}
