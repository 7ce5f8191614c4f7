//! Numbers of bytes.

ghost use Rattle.std.specs.Prelude.{◌≡◌, ◌+◌, IfOk};
ghost use Rattle.std.specs.Str.{chars};
ghost use Rattle.pylex_lexeme.specs.Chars.{bytes_in};
ghost use Rattle.pyparse_marks.specs.Spans.{span, told};

use crate::spans::Span;
use std::alloc::AllocError;

/// The bytes of a text.
#[inline(always)]
pub(crate) fn len(text: &str) -> usize
    ensures { result ≡ bytes_in (chars text.now) }
{
    text.len()
}

/// The sum of two numbers of bytes. One that has no room is told as memory that is wanting, since no
/// span has room for it.
#[inline(always)]
pub(crate) fn sum(bytes: usize, more: usize) -> Result<usize, AllocError>
    ensures { IfOk result (λ sum. sum ≡ bytes + more) }
{
    match bytes.checked_add(more) {
        Some(sum) => Ok(sum),
        None => Err(AllocError),
    }
}

/// A number of bytes as a span has it, if it has room for it.
#[inline(always)]
fn narrow(bytes: usize) -> Result<u32, AllocError>
    ensures { IfOk result (λ narrow. narrow ≡ bytes) }
{
    if bytes > 0xFFFF_FFFF {
        return Err(AllocError);
    }
    Ok(bytes as u32)
}

/// A span, if it has room.
#[inline(always)]
pub(crate) fn span(start: usize, stop: usize) -> Result<Span, AllocError>
    ensures { IfOk result (λ made. told made ≡ span start stop) }
{
    let from = narrow(start)?;
    let to = narrow(stop)?;
    Ok(Span { from, to })
}
