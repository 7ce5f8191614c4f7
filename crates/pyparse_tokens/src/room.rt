//! Appending where there is room, most often without a call.

ghost use Rattle.std.specs.Prelude.{◌≡◌, ◌++◌, ◌∷◌, [], OnOk};

use std::alloc::AllocError;

/// Appends an element. Room is made apart, so that most elements are written where they stand.
#[inline(always)]
pub(crate) fn put<T: Copy>(items: &mut Vec<T>, item: T) -> Result<(), AllocError>
    ensures { OnOk result (items.new.items ≡ items.old.items ++ item ∷ []) }
{
    if items.len() >= items.capacity() {
        items.reserve(1)?;
    }
    items.push_reserved(item);
    Ok(())
}
