//! Lists with room for what they hold.

ghost use Rattle.std.specs.Prelude.{◌≡◌, ◌++◌, ◌∷◌, [], OnOk};

use std::alloc::AllocError;

/// Appends an item. Room is made for one item, and then for twice as many: most lists of a tree hold
/// one or two, and `Vec::push` makes room for four.
#[inline(always)]
pub(crate) fn append<T: Drop>(items: &mut Vec<T>, item: T) -> Result<(), AllocError>
    ensures { OnOk result (items.new.items ≡ items.old.items ++ (item ∷ [])) }
{
    if items.len() == items.capacity() {
        items.reserve_exact(items.len().max(1))?;
    }
    items.push(item)?;
    Ok(())
}

/// Appends the items of another list. Room is made as for one item, where that suffices.
#[inline(always)]
pub(crate) fn append_all<T: Drop>(items: &mut Vec<T>, more: &mut Vec<T>) -> Result<(), AllocError>
    ensures { OnOk result (items.new.items ≡ items.old.items ++ more.old.items) }
{
    if items.len() == items.capacity() {
        items.reserve_exact(items.len().max(1))?;
    }
    items.append(more)
}
