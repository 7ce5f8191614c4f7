//! Whether the names of imports fit.

ghost use Rattle.std.specs.Prelude.{◌≡◌, ◌&&◌, IfOk, map};
ghost use Rattle.std.specs.List.{list_all};
ghost use Rattle.std.specs.Str.{chars};
ghost use Rattle.pytree_node.specs.TreeOf.{alias_of};
ghost use Rattle.pytree_fits.specs.Names.{is_name};
ghost use Rattle.pytree_fits.specs.Statements.{alias_fits, dotted, has_one, import_fits, imports_fit};
ghost use Rattle.pytree_fits.specs.Statements.{is_all, is_star, source_fits};

use crate::leaves::optional_name_fits;
use crate::names::is_name;
use pytree_node::{Alias, Identifier};
use std::alloc::{AllocError, Global};

/// Whether a text is names with dots between.
pub(crate) fn dotted_fits(alloc: Global, name: &str) -> Result<bool, AllocError>
    ensures { IfOk result (λ told. told ≡ dotted is_name (chars name.now)) }
{
    let mut rest = name;
    while let Some((part, following)) = rest.split_once('.') {
        if !is_name(alloc, part)? {
            return Ok(false);
        }
        rest = following;
    }
    is_name(alloc, rest)
}

/// Whether what `import` imports fits.
fn module_fits(alloc: Global, alias: &Alias) -> Result<bool, AllocError>
    ensures { IfOk result (λ told. told ≡ import_fits is_name (alias_of alias.now)) }
{
    Ok(dotted_fits(alloc, alias.name.as_str())? && optional_name_fits(alloc, &alias.asname)?)
}

/// Whether there is something that `import` imports, and each of it fits.
pub(crate) fn modules_fit(alloc: Global, names: &[Alias]) -> Result<bool, AllocError>
    ensures { IfOk result
        (λ told. told
        ≡ (has_one (map alias_of names.now) && list_all (import_fits is_name)
        (map alias_of names.now))) }
{
    if names.is_empty() {
        return Ok(false);
    }
    for alias in names {
        if !module_fits(alloc, alias)? {
            return Ok(false);
        }
    }
    Ok(true)
}

/// Whether a name that is imported from a module fits.
fn alias_fits(alloc: Global, alias: &Alias) -> Result<bool, AllocError>
    ensures { IfOk result (λ told. told ≡ alias_fits is_name (alias_of alias.now)) }
{
    Ok(is_name(alloc, alias.name.as_str())? && optional_name_fits(alloc, &alias.asname)?)
}

/// Whether all names that are imported fit.
fn aliases_fit(alloc: Global, names: &[Alias]) -> Result<bool, AllocError>
    ensures { IfOk result (λ told. told ≡ list_all (alias_fits is_name) (map alias_of names.now)) }
{
    for alias in names {
        if !alias_fits(alloc, alias)? {
            return Ok(false);
        }
    }
    Ok(true)
}

/// Whether a name is `*`.
fn is_star(name: &Identifier) -> bool
    ensures { result ≡ is_star name.now }
{
    name.as_str() == "*"
}

/// Whether some names are `*` alone.
fn is_all(names: &[Alias]) -> bool
    ensures { result ≡ is_all (map alias_of names.now) }
{
    match names {
        [alias] => is_star(&alias.name) && alias.asname.is_none(),
        _ => false,
    }
}

/// Whether what is imported from a module fits: names, or all of them.
fn imports_fit(alloc: Global, names: &[Alias]) -> Result<bool, AllocError>
    ensures { IfOk result (λ told. told ≡ imports_fit is_name (map alias_of names.now)) }
{
    if is_all(names) {
        return Ok(true);
    }
    Ok(!names.is_empty() && aliases_fit(alloc, names)?)
}

/// Whether the module that names are imported from fits, or there are dots in its place.
fn source_fits(alloc: Global, source: &Option<Identifier>, level: u64) -> Result<bool, AllocError>
    ensures { IfOk result (λ told. told ≡ source_fits is_name source.now level) }
{
    match source {
        None => Ok(level > 0),
        Some(source) => dotted_fits(alloc, source.as_str()),
    }
}

/// Whether what is imported from a module fits, and the module.
pub(crate) fn import_from_fits(
    alloc: Global,
    source: &Option<Identifier>,
    names: &[Alias],
    level: u64,
) -> Result<bool, AllocError>
    ensures { IfOk result
        (λ told. told
        ≡ (source_fits is_name source.now level && imports_fit is_name (map alias_of names.now))) }
{
    Ok(source_fits(alloc, source, level)? && imports_fit(alloc, names)?)
}
