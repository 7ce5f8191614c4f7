//! The members that show a node's place.

ghost use Rattle.std.specs.Prelude.{◌≡◌, ◌++◌, ℕ, List, codes, decimal, false, if◌then◌else◌, take, true};
ghost use Rattle.std.specs.Prelude.{OnOk};
ghost use Rattle.std.specs.String.{string_bytes};
ghost use Rattle.pytree_dump_text.specs.declared.styles.Style.{Style};
ghost use Rattle.pytree_dump_text.specs.Layout.{before, deeper, is_flat};
ghost use Rattle.pytree_dump_text.specs.Shows.{no_field};
ghost use Rattle.pytree_dump_text.specs.Slots.{coming};
ghost use Rattle.pytree_marked.specs.MarkedNodes.{following, members};
ghost use Rattle.pytree_marked.specs.Appends.{coming_with};
ghost use Rattle.pytree_marked.specs.Taking.{attributes, is_none_left};

use crate::places::PlaceSource;
use crate::shown::Shown;
use pytree_dump_text::{Style, Told, close, is_flat, push_before, push_number};
use std::alloc::AllocError;

/// Appends a member on a line of its own: what parts it from those before it, its name and a number.
fn push_line(
    out: &mut String,
    indentation: &str,
    first: bool,
    name: &'static str,
    number: u32,
) -> Result<(), AllocError>
    ensures { OnOk result
        (string_bytes out.new ≡ string_bytes out.old
        ++ (before false indentation.now first ++ (name.now ++ decimal number))) }
{
    push_before(out, indentation, false, first)?;
    push_named(out, name, number)
}

/// Appends a name, with what parts it from what stands before it, and a number.
#[inline(always)]
fn push_named(out: &mut String, name: &'static str, number: u32) -> Result<(), AllocError>
    ensures { OnOk result
        (string_bytes out.new ≡ string_bytes out.old ++ (name.now ++ decimal number)) }
{
    out.push_str(name)?;
    push_number(out, u64::from(number))
}

/// The name of the first member, with what parts it from those before it on a line.
#[inline(always)]
fn first_name(first: bool) -> &'static str
    ensures { (indentation : List ℕ)
        → result.now ≡ before true indentation first ++ codes "lineno=" }
{
    if first { "lineno=" } else { ", lineno=" }
}

/// Appends the members that show a place, on one line.
fn push_on_line(out: &mut String, told: Told, place: Shown) -> Result<(), AllocError>
    requires { told.one_line ≡ true }
    ensures { OnOk result ((style : Style) (indentation : List ℕ)
        → string_bytes out.new ≡ string_bytes out.old
        ++ coming style indentation told (members (attributes place))) }
{
    push_named(out, first_name(told.first), place.line)?;
    push_named(out, ", col_offset=", place.byte)?;
    push_named(out, ", end_lineno=", place.end_line)?;
    push_named(out, ", end_col_offset=", place.end_byte)
}

/// Appends the members that show a place, each on a line of its own.
fn push_on_lines(
    out: &mut String,
    indentation: &str,
    told: Told,
    place: Shown,
) -> Result<(), AllocError>
    requires { told.one_line ≡ false }
    ensures { OnOk result ((style : Style)
        → string_bytes out.new ≡ string_bytes out.old
        ++ coming style indentation.now told (members (attributes place))) }
{
    push_line(out, indentation, told.first, "lineno=", place.line)?;
    push_line(out, indentation, false, "col_offset=", place.byte)?;
    push_line(out, indentation, false, "end_lineno=", place.end_line)?;
    push_line(out, indentation, false, "end_col_offset=", place.end_byte)
}

/// Appends the members that show a place.
fn push_members(
    out: &mut String,
    indentation: &str,
    told: Told,
    place: Shown,
) -> Result<(), AllocError>
    ensures { OnOk result ((style : Style)
        → string_bytes out.new ≡ string_bytes out.old
        ++ coming style indentation.now told (members (attributes place))) }
{
    if told.one_line {
        push_on_line(out, told, place)
    } else {
        push_on_lines(out, indentation, told, place)
    }
}

/// Appends the members of a marked node after its fields: those that show the next place, where one
/// is left.
#[inline(always)]
fn push_place<P: PlaceSource>(
    out: &mut String,
    indentation: &str,
    told: Told,
    places: &mut P,
) -> Result<(), AllocError>
    ensures text { OnOk result ((style : Style)
        → string_bytes out.new ≡ string_bytes out.old
        ++ coming_with true style indentation.now (P.left places.old) told no_field) }
    ensures left { OnOk result (P.left places.new ≡ following true (P.left places.old)) }
{
    match places.next() {
        None => Ok(()),
        Some(place) => push_members(out, indentation, told, place),
    }
}

/// Appends what ends a marked node: its members and the bracket. Makes the indentation of a line as
/// short as it was.
#[inline(always)]
#[tactic(auto, using(crate::proofs::MemberLemmas::ended))]
pub fn end_node<P: PlaceSource>(
    out: &mut String,
    indentation: &mut String,
    style: Style,
    told: Told,
    outer: usize,
    places: &mut P,
) -> Result<(), AllocError>
    requires { string_bytes indentation.old
        ≡ deeper style.indent (take outer (string_bytes indentation.old)) }
    ensures text { OnOk result
        (string_bytes out.new ≡ string_bytes out.old
        ++ (coming_with true style (string_bytes indentation.old) (P.left places.old) told no_field
        ++ codes ")")) }
    ensures indentation { OnOk result
        (string_bytes indentation.new ≡ take outer (string_bytes indentation.old)) }
    ensures left { OnOk result (P.left places.new ≡ following true (P.left places.old)) }
{
    push_place(out, indentation.as_str(), told, places)?;
    close(out, indentation, style, outer, ")")
}

/// Whether the fields of a node are told on one line, where it is given whether they are without
/// places: a node that has a place, or that holds one, has lines of its own.
#[inline(always)]
#[tactic(auto, using(crate::proofs::Callers::Shortness::marked_line))]
pub fn is_told_on_line<P: PlaceSource>(style: Style, is_short: bool, places: &P) -> bool
    ensures { result ≡ (if is_none_left (P.left places.now) then is_short else is_flat style.indent) }
{
    if places.is_done() {
        is_short
    } else {
        is_flat(style)
    }
}
