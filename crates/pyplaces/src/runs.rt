//! Runs of spans.

ghost use Rattle.std.specs.Prelude.{◌≡◌, ◌++◌, [], cond, map, OnOk};
ghost use Rattle.pyplaces.specs.Recording.{told};

use crate::Span;
use std::alloc::AllocError;

/// Spans, and more of them where they are wanted.
pub(crate) fn put(spans: &mut Vec<Span>, more: &[Span], wanted: bool) -> Result<(), AllocError>
    ensures { OnOk result (map told spans.new.items
        ≡ map told spans.old.items ++ cond wanted (map told more.now) []) }
{
    if wanted {
        spans.extend_from_slice(more)?;
    }
    Ok(())
}
