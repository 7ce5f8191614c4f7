//! Copies of what is no node: names, comparisons and the values of constants.

ghost use Rattle.std.specs.Prelude.{◌≡◌, IfOk, Ok};
ghost use Rattle.pytree_node.specs.TreeOf.{constant_of};

use pytree_node::{Comparison, Constant, Identifier};
use std::alloc::{AllocError, Global};

/// Both values, where there was memory for the second.
///
/// A value is dropped here, by a call, and not where it is made: of an enum with many classes that
/// is long to prove.
pub(crate) fn both<A: Drop, B>(a: A, b: Result<B, AllocError>) -> Result<(A, B), AllocError>
    ensures first { IfOk result (λ made. made.0 ≡ a) }
    ensures second { IfOk result (λ made. b ≡ Ok made.1) }
{
    Ok((a, b?))
}

/// A copy of a name that may be absent.
pub(crate) fn copy_optional_name(
    name: &Option<Identifier>,
) -> Result<Option<Identifier>, AllocError>
    ensures { IfOk result (λ made. made ≡ name.now) }
{
    match name {
        None => Ok(None),
        Some(name) => Ok(Some(name.clone()?)),
    }
}

/// A copy of some comparisons.
pub(crate) fn copy_comparisons(
    alloc: Global,
    all: &[Comparison],
) -> Result<Vec<Comparison>, AllocError>
    ensures { IfOk result (λ made. made.items ≡ all.now) }
{
    let mut made = Vec::new(alloc);
    made.extend_from_slice(all)?;
    Ok(made)
}

/// A copy of the value of a constant.
pub(crate) fn copy_constant(alloc: Global, constant: &Constant) -> Result<Constant, AllocError>
    ensures { IfOk result (λ made. constant_of made ≡ constant_of constant.now) }
{
    match constant {
        Constant::None => Ok(Constant::None),
        Constant::Ellipsis => Ok(Constant::Ellipsis),
        Constant::Bool(value) => Ok(Constant::Bool(*value)),
        Constant::Int(value) => Ok(Constant::Int(value.clone()?)),
        Constant::Float(value) => Ok(Constant::Float(*value)),
        Constant::Imaginary(value) => Ok(Constant::Imaginary(*value)),
        Constant::Str(points) => Ok(Constant::Str(points.clone()?)),
        Constant::UnicodeStr(points) => Ok(Constant::UnicodeStr(points.clone()?)),
        Constant::Bytes(bytes) => Ok(Constant::Bytes(copy_bytes(alloc, bytes)?)),
    }
}

/// A copy of some bytes.
fn copy_bytes(alloc: Global, all: &[u8]) -> Result<Vec<u8>, AllocError>
    ensures { IfOk result (λ made. made.items ≡ all.now) }
{
    let mut made = Vec::new(alloc);
    made.extend_from_slice(all)?;
    Ok(made)
}

/// A copy of some names.
pub(crate) fn copy_names(alloc: Global, names: &[Identifier]) -> Result<Vec<Identifier>, AllocError>
    ensures { IfOk result (λ made. made.items ≡ names.now) }
{
    let mut made = Vec::new(alloc);
    for name in names {
        made.push(name.clone()?)?;
    }
    Ok(made)
}
