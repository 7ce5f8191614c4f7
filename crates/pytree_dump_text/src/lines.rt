//! The lines of a dump, and what stands round the members of a node or a list.

ghost use Rattle.std.specs.Prelude.{◌≡◌, ◌++◌, length, replicate, take, ℕ, List, IfOk, OnOk};
ghost use Rattle.std.specs.String.{string_bytes};
ghost use Rattle.pysource.specs.Characters.{space};
ghost use Rattle.pytree_dump_text.specs.Names.{field_name};
ghost use Rattle.pytree_dump_text.specs.Layout.{before, deeper, is_flat, label};
ghost use Rattle.pytree_dump_text.specs.Shows.{Fields, left_out};
ghost use Rattle.pytree_dump_text.specs.Slots.{coming};

use crate::fields::{Field, joined, label};
use crate::styles::Style;
use std::alloc::AllocError;

/// How the fields of a node are told from here on.
#[derive(Clone, Copy)]
pub struct Told {
    /// On one line.
    pub one_line: bool,
    /// With their names.
    pub named: bool,
    /// With no field in indentation of them.
    pub first: bool,
}

/// How the fields after one that is left out are shown: with their names.
pub fn after_left_out(told: Told) -> Told
    ensures { (style : Style) → (indentation : List ℕ) → (rest : Fields)
        → coming style indentation result rest ≡ coming style indentation told (left_out rest) }
{
    Told {
        one_line: told.one_line,
        named: true,
        first: told.first,
    }
}

/// Whether a dump is one line.
pub fn is_flat(style: Style) -> bool
    ensures { result ≡ is_flat style.indent }
{
    style.indent.is_none()
}

/// Appends what stands before a member.
#[inline(always)]
pub fn push_before(
    out: &mut String,
    indentation: &str,
    one_line: bool,
    first: bool,
) -> Result<(), AllocError>
    ensures { OnOk result
        (string_bytes out.new ≡ string_bytes out.old ++ before one_line indentation.now first) }
{
    if one_line {
        if first { Ok(()) } else { out.push_str(", ") }
    } else {
        if !first {
            out.push_str(",")?;
        }
        out.push_str(indentation)
    }
}

/// Appends what stands before a field's value: what parts it from the others, and its name.
#[inline(always)]
pub fn push_lead(
    out: &mut String,
    indentation: &str,
    told: Told,
    field: Field,
) -> Result<(), AllocError>
    ensures { OnOk result
        (string_bytes out.new ≡ string_bytes out.old ++ before told.one_line indentation.now told.first
        ++ label told.named (field_name field)) }
{
    // At once, as most fields are told.
    if told.one_line && told.named && !told.first {
        return out.push_str(joined(field));
    }
    push_before(out, indentation, told.one_line, told.first)?;
    if told.named {
        out.push_str(label(field))
    } else {
        Ok(())
    }
}

/// Appends some blanks.
#[tactic(auto, using(crate::proofs::LineLemmas::one_blank))]
fn push_blanks(out: &mut String, n: u8) -> Result<(), AllocError>
    ensures { OnOk result (string_bytes out.new ≡ string_bytes out.old ++ replicate n space) }
{
    for _ in 0..n {
        out.push_str(" ")?;
    }
    Ok(())
}

/// Makes the indentation of a line one level deeper.
fn deepen(indentation: &mut String, style: Style) -> Result<(), AllocError>
    ensures { OnOk result (string_bytes indentation.new ≡ deeper style.indent (string_bytes indentation.old)) }
{
    if let Some(n) = style.indent {
        push_blanks(indentation, n)?;
    }
    Ok(())
}

/// Appends what begins a list or a node, its class and the bracket, makes the indentation of a line one
/// level deeper, and tells how long it was.
#[inline(always)]
pub fn open(
    out: &mut String,
    indentation: &mut String,
    style: Style,
    start: &'static str,
) -> Result<usize, AllocError>
    ensures text { OnOk result (string_bytes out.new ≡ string_bytes out.old ++ start.now) }
    ensures indentation { OnOk result
        (string_bytes indentation.new ≡ deeper style.indent (string_bytes indentation.old)) }
    ensures len { IfOk result (λ len. len ≡ length (string_bytes indentation.old)) }
{
    let len = indentation.as_str().len();
    out.push_str(start)?;
    deepen(indentation, style)?;
    Ok(len)
}

/// Appends the bracket that ends a node's fields or a list, and makes the indentation of a line as short
/// as it was.
#[inline(always)]
pub fn close(
    out: &mut String,
    indentation: &mut String,
    style: Style,
    len: usize,
    bracket: &'static str,
) -> Result<(), AllocError>
    requires { string_bytes indentation.old ≡ deeper style.indent (take len (string_bytes indentation.old)) }
    ensures text { OnOk result (string_bytes out.new ≡ string_bytes out.old ++ bracket.now) }
    ensures indentation { string_bytes indentation.new ≡ take len (string_bytes indentation.old) }
{
    indentation.truncate(len);
    out.push_str(bracket)
}
