//! Where the terminals of a line stand, if that is kept.

ghost use Rattle.std.specs.Prelude.{◌≡◌, ◌++◌, List, Some, None, [], map, is_some, OnOk};
ghost use Rattle.std.specs.Str.{chars};
ghost use Rattle.pyparse_marks.specs.Laws.{EachHasSpan};
ghost use Rattle.pyparse_marks.specs.Spans as words;
ghost use Rattle.pyparse_marks.specs.Spans.{added, emptied, told};
ghost use Rattle.pyparse_marks.specs.TokenSpans.{token_spans};

use crate::lengths::{len, span, sum};
use crate::parts::pass_token;
use crate::spans::Span;
use crate::walkers::Walker;
use pylex_listing::Kind;
use pytoken::is_fstring;
use std::alloc::{AllocError, Global};
use std::marker::Model;

/// The spans of the terminals of a line, or nothing where they aren't kept.
#[derive(Drop)]
pub struct Marks {
    kept: Option<Vec<Span>>,
}

impl Model for Marks {
    ghost use Rattle.std.specs.Prelude.{List, Option, map};
    ghost use Rattle.std.specs.Option.{option_map};
    ghost use Rattle.pyparse_marks.specs.Spans.{Span, told};

    ghost Value = { Option (List Span) };

    ghost view = { λ m. option_map (λ spans. map told spans.items) m.kept };
}

/// Appends the spans of an f-string.
#[inline(never)]
fn push_several(
    alloc: Global,
    kind: Kind,
    text: &str,
    from: usize,
    spans: &mut Vec<Span>,
) -> Result<(), AllocError>
    ensures { OnOk result (map told spans.new.items
        ≡ map told spans.old.items ++ token_spans from kind (chars text.now)) }
{
    let mut walker = Walker::new(alloc, from);
    pass_token(alloc, kind, text, &mut walker)?;
    spans.extend_from_slice(walker.spans())?;
    Ok(())
}

/// Appends the spans of a token.
fn push_token(
    alloc: Global,
    kind: Kind,
    text: &str,
    from: usize,
    spans: &mut Vec<Span>,
) -> Result<(), AllocError>
    ensures { OnOk result (map told spans.new.items
        ≡ map told spans.old.items ++ token_spans from kind (chars text.now)) }
{
    if is_fstring(kind, text) {
        return push_several(alloc, kind, text, from, spans);
    }
    let to = sum(from, len(text))?;
    spans.push(span(from, to)?)?;
    Ok(())
}

impl Marks {
    /// Keeps nothing.
    pub fn none() -> Marks
        ensures { result ≡ None }
    {
        Marks { kept: None }
    }

    /// Keeps the spans, of which there are none yet. It takes no memory.
    pub fn new(alloc: Global) -> Marks
        ensures empty { result ≡ Some [] }
        ensures law { EachHasSpan }
    {
        Marks {
            kept: Some(Vec::new(alloc)),
        }
    }

    /// Whether spans are kept.
    #[inline(always)]
    pub fn are_kept(&self) -> bool
        ensures { result ≡ is_some self.now }
    {
        self.kept.is_some()
    }

    /// The spans that are kept: none where they aren't.
    pub fn as_slice(&self) -> &[Span]
        ensures kept { (kept : List words.Span) → self.now ≡ Some kept → map told result.now ≡ kept }
        ensures none { self.now ≡ None → result.now ≡ [] }
    {
        match &self.kept {
            Some(spans) => spans.as_slice(),
            None => &[],
        }
    }

    /// Lets go of all spans.
    #[tactic(auto, unfolding(crate::specs::Spans::emptied))]
    pub fn clear(&mut self)
        ensures { self.new ≡ emptied self.old }
    {
        if let Some(spans) = &mut self.kept {
            spans.clear();
        }
    }

    /// The terminals of a token of this type and text, which begins at a byte of the source.
    ///
    /// A span has room for 32 bits. For a source that is longer, [`AllocError`] says that memory ran
    /// out, where spans are kept.
    #[inline(always)]
    #[tactic(auto, unfolding(crate::specs::Spans::added))]
    pub fn push(
        &mut self,
        alloc: Global,
        kind: Kind,
        text: &str,
        from: usize,
    ) -> Result<(), AllocError>
        ensures { OnOk result
            (self.new ≡ added self.old (token_spans from kind (chars text.now))) }
    {
        match &mut self.kept {
            Some(spans) => push_token(alloc, kind, text, from, spans),
            None => Ok(()),
        }
    }
}
