//! Copies of patterns.

ghost use Rattle.std.specs.Prelude.{◌≡◌, IfOk, map};
ghost use Rattle.pytree_node.specs.TreeOf.{boxed_pattern_of, pattern_of};

use crate::expressions::{copy_box, copy_expr, copy_exprs};
use crate::leaves::{copy_constant, copy_names, copy_optional_name};
use pytree_node::Pattern;
use std::alloc::{AllocError, Global};

/// A copy of a pattern.
#[cycle(copying)]
#[tactic(auto, using(pytree_node::proofs::Callers::PatternShapes::pattern_shapes))]
pub(crate) fn copy_pattern(alloc: Global, p: &Pattern) -> Result<Pattern, AllocError>
    ensures { IfOk result (λ made. pattern_of made ≡ pattern_of p.now) }
{
    match p {
        Pattern::MatchValue { value } => Ok(Pattern::MatchValue {
            value: copy_expr(alloc, value)?,
        }),
        Pattern::MatchSingleton { value } => Ok(Pattern::MatchSingleton {
            value: copy_constant(alloc, value)?,
        }),
        Pattern::MatchSequence { patterns } => Ok(Pattern::MatchSequence {
            patterns: copy_patterns(alloc, patterns)?,
        }),
        Pattern::MatchMapping {
            keys,
            patterns,
            rest,
        } => Ok(Pattern::MatchMapping {
            keys: copy_exprs(alloc, keys)?,
            patterns: copy_patterns(alloc, patterns)?,
            rest: copy_optional_name(rest)?,
        }),
        Pattern::MatchClass {
            cls,
            patterns,
            kwd_attrs,
            kwd_patterns,
        } => Ok(Pattern::MatchClass {
            cls: copy_box(alloc, cls)?,
            patterns: copy_patterns(alloc, patterns)?,
            kwd_attrs: copy_names(alloc, kwd_attrs)?,
            kwd_patterns: copy_patterns(alloc, kwd_patterns)?,
        }),
        Pattern::MatchStar { name } => Ok(Pattern::MatchStar {
            name: copy_optional_name(name)?,
        }),
        Pattern::MatchAs { pattern, name } => Ok(Pattern::MatchAs {
            pattern: copy_boxed_pattern(alloc, pattern)?,
            name: copy_optional_name(name)?,
        }),
        Pattern::MatchOr { patterns } => Ok(Pattern::MatchOr {
            patterns: copy_patterns(alloc, patterns)?,
        }),
    }
}

/// A copy of a pattern that may be absent, in a box.
#[cycle(copying)]
fn copy_boxed_pattern(
    alloc: Global,
    p: &Option<Box<Pattern>>,
) -> Result<Option<Box<Pattern>>, AllocError>
    ensures { IfOk result (λ made. boxed_pattern_of made ≡ boxed_pattern_of p.now) }
{
    match p {
        None => Ok(None),
        Some(p) => Ok(Some(Box::new(alloc, copy_pattern(alloc, p)?)?)),
    }
}

/// A copy of some patterns.
#[cycle(copying)]
fn copy_patterns(alloc: Global, ps: &[Pattern]) -> Result<Vec<Pattern>, AllocError>
    ensures { IfOk result (λ made. map pattern_of made.items ≡ map pattern_of ps.now) }
{
    let mut made = Vec::new(alloc);
    for p in ps {
        made.push(copy_pattern(alloc, p)?)?;
    }
    Ok(made)
}
