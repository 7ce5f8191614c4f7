//! The parts of an f-string that have no parts of their own.
//!
//! Python language reference, 2.4.3 "Formatted string literals".

ghost use Rattle.std.specs.Prelude.{◌≡◌, OnOk, option_map, slice_index_or};
ghost use Rattle.std.specs.Str.{chars};
ghost use Rattle.pyfstring.specs.Parts.{text_of};
ghost use Rattle.pyparse_marks.specs.TokenSpans.{put, further, past_text, with_kept, source_len};
ghost use Rattle.pyparse_marks.specs.TokenSpans.{is_conversion, past_conversion, past_spec, past_front};
ghost use Rattle.pyparse_marks.specs.TokenSpans.{past_expression};
ghost use Rattle.pyparse_marks.specs.Inner.Walking.{around_of};
ghost use Rattle.pyparse_marks.specs.Spans.{told};

use crate::expressions::{Tokens, pass_expression};
use crate::lengths::{len, sum};
use crate::spans::Span;
use crate::walkers::Walker;
use std::alloc::{AllocError, Global};

/// An f-string: its text, the byte at which it begins, and its span.
#[derive(Clone, Copy)]
pub(crate) struct Around<'t> {
    pub(crate) text: &'t str,
    pub(crate) start: usize,
    pub(crate) whole: Span,
}

/// A byte, and 0 where there is none.
#[tactic(auto, using(crate::proofs::ByteLemmas::byte_within, crate::proofs::ByteLemmas::byte_past))]
fn byte_at(bytes: &[u8], at: usize) -> u8
    ensures { result ≡ slice_index_or bytes.now at 0 }
{
    match bytes.get(at) {
        Some(byte) => *byte,
        None => 0,
    }
}

/// Goes past a text.
pub(crate) fn pass_text(
    around: &Around<'_>,
    text: &str,
    walker: &mut Walker,
) -> Result<(), AllocError>
    ensures { OnOk result
        (walker.new ≡ past_text (around_of around.now) (chars text.now) walker.old) }
{
    walker.put(around.whole)?;
    walker.go_on(len(text))
}

/// What `=` keeps of a field is a text in front of it.
fn put_kept(around: &Around<'_>, kept: Option<&str>, walker: &mut Walker) -> Result<(), AllocError>
    ensures { OnOk result (walker.new
        ≡ with_kept (around_of around.now) (option_map text_of kept.entry) walker.old) }
{
    match kept {
        Some(_) => walker.put(around.whole),
        None => Ok(()),
    }
}

/// The bytes of a field between its brace and its conversion, its spec or its end.
fn source_len(text: &str, kept: Option<&str>) -> usize
    ensures { result ≡ source_len (chars text.now) (option_map text_of kept.entry) }
{
    match kept {
        Some(source) => len(source),
        None => len(text),
    }
}

/// Whether an exclamation mark stands here.
fn is_conversion(around: &Around<'_>, walker: &Walker) -> bool
    ensures { result ≡ is_conversion (around_of around.now) walker.now }
{
    let at = walker.at().saturating_sub(around.start);
    byte_at(around.text.as_bytes(), at) == b'!'
}

/// Goes past a conversion, if one stands here.
fn pass_conversion(around: &Around<'_>, walker: &mut Walker) -> Result<(), AllocError>
    ensures { OnOk result (walker.new ≡ past_conversion (around_of around.now) walker.old) }
{
    if is_conversion(around, walker) {
        return walker.go_on(2);
    }
    Ok(())
}

/// Goes past a field up to its spec.
pub(crate) fn pass_front<T: Tokens>(
    alloc: Global,
    tokens: &T,
    around: &Around<'_>,
    kept: Option<&str>,
    text: &str,
    walker: &mut Walker,
) -> Result<(), AllocError>
    ensures { OnOk result (walker.new ≡ past_front (past_expression T.past) (around_of around.now)
        (option_map text_of kept.entry) (chars text.now) walker.old) }
{
    let begin = sum(walker.at(), 1)?;
    let end = sum(begin, source_len(text, kept))?;
    put_kept(around, kept, walker)?;
    walker.put(around.whole)?;
    pass_expression(alloc, tokens, text, walker)?;
    walker.move_to(end);
    pass_conversion(around, walker)
}

/// Goes past the spec of a field that stands in a spec.
pub(crate) fn pass_inner_spec(
    around: &Around<'_>,
    spec: Option<&str>,
    walker: &mut Walker,
) -> Result<(), AllocError>
    ensures { OnOk result (walker.new ≡ past_spec (past_text (around_of around.now))
        (around_of around.now) (option_map text_of spec.entry) walker.old) }
{
    let Some(text) = spec else {
        return Ok(());
    };
    walker.put(around.whole)?;
    walker.go_on(1)?;
    pass_text(around, text, walker)
}

/// Goes past the end of a field.
pub(crate) fn pass_end(around: &Around<'_>, walker: &mut Walker) -> Result<(), AllocError>
    ensures { OnOk result (walker.new ≡ further 1 (put (told around.now.whole) walker.old)) }
{
    walker.put(around.whole)?;
    walker.go_on(1)
}
