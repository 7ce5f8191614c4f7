//! Tuples and slices, which are written by their places.

ghost use Rattle.std.specs.Prelude.{◌≡◌, OnOk, map};
ghost use Rattle.pytree_node.specs.declared.operators.Context.{Context};
ghost use Rattle.pytree_node.specs.TreeOf.{boxed_of, slice_of, tree_of};
ghost use Rattle.pytree_node.specs.Trees as plain;
ghost use Rattle.pytree_node.specs.Trees.{exprs, optional};
ghost use Rattle.pyunparse.specs.Inner.Elements.{are_bare, is_alone, is_elem, is_part, last};
ghost use Rattle.pyunparse_text.specs.Folds.{puts};
ghost use Rattle.pyunparse_text.specs.Pieces.{pieces};
ghost use Rattle.pyunparse_text.specs.Written as written;

use crate::displays::write_members;
use crate::optional::{write_perhaps, write_suffix};
use pygrammar::Level;
use pylex_listing::Exact;
use pytree_node::{Expr, Slice};
use pyunparse_text::levels::{element_level, reaches, tuple_level};
use pyunparse_text::marks::{Between, Role};
use pyunparse_text::sorts::{Sort, sort_of};
use pyunparse_text::tokens::{close, open, put_sign};
use pyunparse_text::writers::Writer;
use std::alloc::AllocError;

/// Whether there is a `:=` among some expressions.
fn some_named(es: &[Expr]) -> bool
    ensures { result ≡ written.some_named (exprs (map tree_of es.now)) }
{
    for e in es {
        if matches!(sort_of(e), Sort::Named) {
            return true;
        }
    }
    false
}

/// Whether some expressions are a starred one alone.
fn lone_star(es: &[Expr]) -> bool
    ensures { result ≡ written.lone_star (exprs (map tree_of es.now)) }
{
    let count = es.len();
    if count != 1 {
        return false;
    }
    matches!(sort_of(&es[0]), Sort::Starred)
}

/// Whether a level is that of the elements of a display.
fn is_elem(place: Level) -> bool
    ensures { result ≡ is_elem place }
{
    match place {
        Level::Elem => true,
        _ => false,
    }
}

/// Whether the elements of a tuple need no brackets, by the level that joins them.
fn are_bare(elts: &[Expr], place: Level) -> bool
    ensures { result ≡ are_bare (exprs (map tree_of elts.now)) place }
{
    !elts.is_empty() && !is_elem(place)
}

/// Whether a level is that of the parts of slices.
fn is_part(place: Level) -> bool
    ensures { result ≡ is_part place }
{
    match place {
        Level::Part => true,
        _ => false,
    }
}

/// Whether an element stands alone with a comma after it.
fn is_alone(elts: &[Expr], place: Level) -> bool
    ensures { result ≡ is_alone (exprs (map tree_of elts.now)) place }
{
    let count = elts.len();
    if count != 1 {
        return false;
    }
    !(is_part(place) & lone_star(elts))
}

/// Writes a tuple: with brackets where its place asks for them, or where it is empty, and with a
/// comma after an element that stands alone.
#[cycle(writing)]
pub(crate) fn write_tuple<W: Writer>(
    out: &mut W,
    level: Level,
    elts: &[Expr],
) -> Result<(), AllocError>
    ensures { (c : Context)
        → OnOk result
        (out.new ≡ puts W.after out.old
        (pieces level (plain.Tuple (exprs (map tree_of elts.now)) c))) }
{
    let named = some_named(elts);
    let place = tuple_level(level, named);
    let bare = are_bare(elts, place);
    open(out, bare)?;
    write_members(out, true, Between::Comma, element_level(level, named), elts)?;
    put_last(out, is_alone(elts, place))?;
    close(out, bare)
}

/// Writes the comma after an element that stands alone, or nothing.
pub(crate) fn put_last<W: Writer>(out: &mut W, is_alone: bool) -> Result<(), AllocError>
    ensures { OnOk result (out.new ≡ puts W.after out.old (last is_alone)) }
{
    if is_alone {
        return put_sign(out, Exact::Comma, Role::Trailing);
    }
    Ok(())
}

/// Writes `lower:upper:step`.
#[cycle(writing)]
pub(crate) fn write_slice<W: Writer>(
    out: &mut W,
    level: Level,
    slice: &Slice,
) -> Result<(), AllocError>
    ensures { OnOk result (out.new ≡ puts W.after out.old (pieces level (slice_of slice.now))) }
{
    let bare = reaches(level, Level::Slice);
    open(out, bare)?;
    write_perhaps(out, Level::Expression, &slice.lower)?;
    put_sign(out, Exact::Colon, Role::Tight)?;
    write_perhaps(out, Level::Expression, &slice.upper)?;
    write_suffix(out, Exact::Colon, Role::Tight, &slice.step)?;
    close(out, bare)
}
