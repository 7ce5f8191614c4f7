//! The nodes without a node below them, each of which stands on one line: names and constants.

ghost use Rattle.std.specs.Prelude.{◌≡◌, ◌++◌, ℕ, List, OnOk, codes, true};
ghost use Rattle.std.specs.List.{list_all};
ghost use Rattle.std.specs.Str.{chars};
ghost use Rattle.std.specs.String.{string_bytes};
ghost use Rattle.pytree_dump_text.specs.Slots.{kind_shown};
ghost use Rattle.pytree_dump_text.specs.Layout.{label, text};
ghost use Rattle.pytree_dump_text.specs.Shows.{context_name, shown};
ghost use Rattle.pytree_node.specs.TreeOf.{constant_of};
ghost use Rattle.pysource.specs.Reprs.{is_plain, repr_text};
ghost use Rattle.pytree_node.specs.Trees.{Constant as ConstantTree, Name};

use crate::styles::Style;
use crate::words::push_value;
use pysource::{is_plain_text, push_repr};
use pytree_node::{Constant, Context, Identifier};
use std::alloc::AllocError;

/// The end of a node whose last field is its context, which is not its first.
pub(crate) fn context_end(named: bool, ctx: Context) -> &'static str
    ensures { result.now ≡ codes ", " ++ label named (codes "ctx") ++ context_name ctx
        ++ codes "())" }
{
    if named {
        match ctx {
            Context::Load => ", ctx=Load())",
            Context::Store => ", ctx=Store())",
            Context::Del => ", ctx=Del())",
        }
    } else {
        match ctx {
            Context::Load => ", Load())",
            Context::Store => ", Store())",
            Context::Del => ", Del())",
        }
    }
}

/// The begin of a name, up to its text.
fn name_start(named: bool) -> &'static str
    ensures { result.now ≡ codes "Name(" ++ label named (codes "id") }
{
    if named { "Name(id=" } else { "Name(" }
}

/// Appends what ends a node whose field before its context is a repr: from the closing quote on.
#[inline(always)]
fn push_context_end(out: &mut String, ctx: Context) -> Result<(), AllocError>
    ensures { OnOk result
        (string_bytes out.new ≡ string_bytes out.old
        ++ (codes "', ctx=" ++ context_name ctx ++ codes "())")) }
{
    match ctx {
        Context::Load => out.push_str("', ctx=Load())"),
        Context::Store => out.push_str("', ctx=Store())"),
        Context::Del => out.push_str("', ctx=Del())"),
    }
}

/// Appends a name, its fields with their names, whose text stands as it is between single quotes.
#[inline(always)]
fn show_plain_name(out: &mut String, text: &str, ctx: Context) -> Result<(), AllocError>
    requires { list_all is_plain text.now ≡ true }
    ensures { OnOk result
        (string_bytes out.new ≡ string_bytes out.old
        ++ (codes "Name(id=" ++ repr_text (chars text.now)
        ++ (codes ", ctx=" ++ context_name ctx ++ codes "())"))) }
{
    out.push_str("Name(id='")?;
    out.push_str(text)?;
    push_context_end(out, ctx)
}

/// Appends the name of an attribute and its context, from what stands before the name on, and the
/// bracket that ends it.
#[inline(always)]
pub fn push_name_and_context(out: &mut String, text: &str, ctx: Context) -> Result<(), AllocError>
    ensures { OnOk result
        (string_bytes out.new ≡ string_bytes out.old
        ++ (codes ", attr=" ++ repr_text (chars text.now)
        ++ (codes ", ctx=" ++ context_name ctx ++ codes "())"))) }
{
    // Without a call for its repr, as most names are told.
    if is_plain_text(text) {
        out.push_str(", attr='")?;
        out.push_str(text)?;
        return push_context_end(out, ctx);
    }
    out.push_str(", attr=")?;
    push_repr(out, text)?;
    out.push_str(context_end(true, ctx))
}

/// Appends a name.
#[inline(always)]
pub fn show_name(
    out: &mut String,
    style: Style,
    id: &Identifier,
    ctx: Context,
) -> Result<(), AllocError>
    ensures { (indentation : List ℕ)
        → OnOk result
        (string_bytes out.new ≡ string_bytes out.old
        ++ text style indentation (shown (Name id.now ctx))) }
{
    let text = id.as_str();
    // Without a call for its repr, as most names are told.
    if style.names && is_plain_text(text) {
        return show_plain_name(out, text, ctx);
    }
    out.push_str(name_start(style.names))?;
    push_repr(out, text)?;
    out.push_str(context_end(style.names, ctx))
}

/// The begin of a constant, up to its value.
fn constant_start(named: bool) -> &'static str
    ensures { result.now ≡ codes "Constant(" ++ label named (codes "value") }
{
    if named {
        "Constant(value="
    } else {
        "Constant("
    }
}

/// The end of a constant, after its value.
fn constant_end(named: bool, value: &Constant) -> &'static str
    ensures { result.now ≡ kind_shown named (constant_of value.now) ++ codes ")" }
{
    match value {
        Constant::UnicodeStr(_) => { if named { ", kind='u')" } else { ", 'u')" } }
        _ => ")",
    }
}

/// Appends a constant.
#[tactic(auto, using(crate::proofs::LeafLemmas::constant_text))]
#[inline(always)]
pub fn show_constant(out: &mut String, style: Style, value: &Constant) -> Result<(), AllocError>
    ensures { (indentation : List ℕ)
        → OnOk result
        (string_bytes out.new ≡ string_bytes out.old
        ++ text style indentation (shown (ConstantTree (constant_of value.now)))) }
{
    out.push_str(constant_start(style.names))?;
    push_value(out, value)?;
    out.push_str(constant_end(style.names, value))
}
