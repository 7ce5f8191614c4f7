//! Imports.

#![tactic(auto, using(crate::proofs::Sequences::FoldLemmas::puts_append))]

ghost use Rattle.std.specs.Prelude.{◌≡◌, None, OnOk, map, false};
ghost use Rattle.std.specs.Str.{chars};
ghost use Rattle.pytree_node.specs.TreeOf.{alias_of};
ghost use Rattle.pyunparse_text.specs.Folds.{puts};
ghost use Rattle.pyunparse_text.specs.Pieces.{piece};
ghost use Rattle.pyunparse_text.specs.Written.{listed};
ghost use Rattle.pyunparse_text.specs.Statements as written;

use pylex_listing::Exact;
use pytoken::Keyword;
use pytree_node::{Alias, Identifier};
use pyunparse_text::marks::{Between, Role};
use pyunparse_text::tokens::{put_between, put_name, put_operator, put_sign, put_text, put_word};
use pyunparse_text::writers::Writer;
use std::alloc::AllocError;

/// Writes names with points between. The first may keep close to what stands before it.
pub(crate) fn write_dotted<W: Writer>(
    out: &mut W,
    close: bool,
    name: &str,
) -> Result<(), AllocError>
    ensures { OnOk result
        (out.new ≡ puts W.after out.old (written.dotted piece close (chars name.now))) }
{
    let mut before = close;
    let mut rest = name;
    while let Some((part, tail)) = rest.split_once('.') {
        put_text(out, part, before)?;
        put_sign(out, Exact::Dot, Role::Tight)?;
        before = false;
        rest = tail;
    }
    put_text(out, rest, before)
}

/// Writes the points of a relative import: three of them are one token.
pub(crate) fn write_points<W: Writer>(out: &mut W, count: u64) -> Result<(), AllocError>
    ensures { OnOk result
        (out.new ≡ puts W.after out.old (written.point_signs piece false (written.points count))) }
{
    let mut close = false;
    let mut left = count;
    while left >= 3 {
        put_operator(out, Exact::Ellipsis, close)?;
        close = true;
        left -= 3;
    }
    while left > 0 {
        put_operator(out, Exact::Dot, close)?;
        close = true;
        left -= 1;
    }
    Ok(())
}

/// Writes the name that something is given, if it is given one.
pub(crate) fn write_as<W: Writer>(out: &mut W, name: &Option<Identifier>) -> Result<(), AllocError>
    ensures { OnOk result (out.new ≡ puts W.after out.old (written.as_name piece name.now)) }
{
    match name {
        None => Ok(()),
        Some(name) => {
            put_word(out, Keyword::As)?;
            put_name(out, name)
        }
    }
}

/// Writes the names of an `import`.
pub(crate) fn write_modules<W: Writer>(out: &mut W, names: &[Alias]) -> Result<(), AllocError>
    ensures { OnOk result
        (out.new ≡ puts W.after out.old
        (listed piece (map (written.dotted_alias piece) (map alias_of names.now)))) }
{
    let mut first = true;
    for alias in names {
        put_between(out, first, Between::Comma)?;
        write_module_alias(out, alias)?;
        first = false;
    }
    Ok(())
}

/// Writes a module's name, and the name that it is given.
fn write_module_alias<W: Writer>(out: &mut W, alias: &Alias) -> Result<(), AllocError>
    ensures { OnOk result
        (out.new ≡ puts W.after out.old (written.dotted_alias piece (alias_of alias.now))) }
{
    write_dotted(out, false, alias.name.as_str())?;
    write_as(out, &alias.asname)
}

/// Whether a name is `*`.
fn is_asterisk(name: &Identifier) -> bool
    ensures { result ≡ written.is_star name.now None }
{
    name.as_str() == "*"
}

/// Whether the names of an import from a module are `*` alone, for all of them.
fn are_all(names: &[Alias]) -> bool
    ensures { result ≡ written.are_all (map alias_of names.now) }
{
    if names.len() != 1 {
        return false;
    }
    let alias = &names[0];
    alias.asname.is_none() & is_asterisk(&alias.name)
}

/// Writes the names of an import from a module.
pub(crate) fn write_imported<W: Writer>(out: &mut W, names: &[Alias]) -> Result<(), AllocError>
    ensures { OnOk result
        (out.new ≡ puts W.after out.old (written.imported piece (map alias_of names.now))) }
{
    if are_all(names) {
        return put_sign(out, Exact::Star, Role::Free);
    }
    write_aliases(out, names)
}

/// Writes names with the names that they are given.
fn write_aliases<W: Writer>(out: &mut W, names: &[Alias]) -> Result<(), AllocError>
    ensures { OnOk result
        (out.new ≡ puts W.after out.old
        (listed piece (map (written.name_alias piece) (map alias_of names.now)))) }
{
    let mut first = true;
    for alias in names {
        put_between(out, first, Between::Comma)?;
        write_alias(out, alias)?;
        first = false;
    }
    Ok(())
}

/// Writes a name, and the name that it is given.
fn write_alias<W: Writer>(out: &mut W, alias: &Alias) -> Result<(), AllocError>
    ensures { OnOk result
        (out.new ≡ puts W.after out.old (written.name_alias piece (alias_of alias.now))) }
{
    put_name(out, &alias.name)?;
    write_as(out, &alias.asname)
}
