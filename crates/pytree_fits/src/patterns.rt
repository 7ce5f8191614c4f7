//! Whether patterns fit their places.

ghost use Rattle.std.specs.Prelude.{◌≡◌, ◌||◌, IfOk, eqb, leb, length, map, not};
ghost use Rattle.pytree_node.specs.TreeOf.{pattern_of, tree_of};
ghost use Rattle.pytree_node.specs.Trees.{patterns};
ghost use Rattle.pytree_fits.specs.PatternSlots.{begins_with_wildcard, count_patterns};
ghost use Rattle.pytree_fits.specs.PatternSlots.{each_pattern_fits, pattern_fits_at};
ghost use Rattle.pytree_fits.specs.PatternSlots.{takes_star_pattern};
ghost use Rattle.pytree_fits.specs.Tests.{tests_at};

use crate::asking::Asked;
use crate::names::are_names;
use crate::pattern_values::{
    begins_with_wildcard, capture_fits, class_fits, is_singleton, keys_fit, optional_capture_fits,
    value_fits,
};
use pygrammar::PatternLevel;
use pytree_node::{Expr, Identifier, Pattern};
use std::alloc::AllocError;

/// Whether a pattern fits a level of the grammar of patterns: whether each of its fields has what
/// may stand there. `Err` means out of memory alone, which the test of names may meet.
#[cycle(patterns)]
#[tactic(auto, using(pytree_node::proofs::Callers::PatternShapes::pattern_shapes))]
pub fn pattern_fits(
    asked: Asked,
    pattern: &Pattern,
    level: PatternLevel,
) -> Result<bool, AllocError>
    ensures { IfOk result
        (λ told. told ≡ pattern_fits_at (tests_at asked.extent asked.fields) level (pattern_of pattern.now)) }
{
    match pattern {
        Pattern::MatchValue { value } => value_fits(asked, value),
        Pattern::MatchSingleton { value } => Ok(is_singleton(value)),
        Pattern::MatchSequence { patterns } => {
            patterns_fit(asked, patterns, PatternLevel::StarPattern)
        }
        Pattern::MatchMapping {
            keys,
            patterns,
            rest,
        } => {
            if !are_keyed(keys, patterns) {
                return Ok(false);
            }
            if !keys_fit(asked, keys)? {
                return Ok(false);
            }
            if !patterns_fit(asked, patterns, PatternLevel::AsPattern)? {
                return Ok(false);
            }
            match rest {
                None => Ok(true),
                Some(rest) => capture_fits(asked, rest),
            }
        }
        Pattern::MatchClass {
            cls,
            patterns,
            kwd_attrs,
            kwd_patterns,
        } => {
            if !class_fits(asked, cls)? {
                return Ok(false);
            }
            if !patterns_fit(asked, patterns, PatternLevel::AsPattern)? {
                return Ok(false);
            }
            if !are_named(kwd_attrs, kwd_patterns) {
                return Ok(false);
            }
            if !are_names(asked.alloc, kwd_attrs)? {
                return Ok(false);
            }
            if !patterns_fit(asked, kwd_patterns, PatternLevel::AsPattern)? {
                return Ok(false);
            }
            Ok(may_be_named(patterns, kwd_attrs))
        }
        Pattern::MatchStar { name } => Ok(
            takes_star_pattern(level) && optional_capture_fits(asked, name)?,
        ),
        Pattern::MatchAs { pattern, name } => match (pattern, name) {
            (None, name) => optional_capture_fits(asked, name),
            (Some(_), None) => Ok(false),
            (Some(pattern), Some(name)) => Ok(
                capture_fits(asked, name)?
                    && pattern_fits(asked, pattern, PatternLevel::AsPattern)?,
            ),
        },
        Pattern::MatchOr { patterns } => Ok(
            are_alternatives(patterns) && patterns_fit(asked, patterns, PatternLevel::AsPattern)?,
        ),
    }
}

/// Whether each of some patterns fits a level.
#[cycle(patterns)]
#[tactic(auto, using(pytree_node::proofs::Callers::PatternShapes::pattern_shapes))]
fn patterns_fit(asked: Asked, ps: &[Pattern], level: PatternLevel) -> Result<bool, AllocError>
    ensures { IfOk result
        (λ told. told
        ≡ each_pattern_fits (tests_at asked.extent asked.fields) level (patterns (map pattern_of ps.now))) }
{
    for p in ps {
        if !pattern_fits(asked, p, level)? {
            return Ok(false);
        }
    }
    Ok(true)
}

/// Whether a MatchStar may stand at a level by itself.
fn takes_star_pattern(level: PatternLevel) -> bool
    ensures { result ≡ takes_star_pattern level }
{
    match level {
        PatternLevel::StarPattern => true,
        _ => false,
    }
}

/// Whether there are as many keys as patterns.
#[tactic(auto, using(crate::proofs::Counts::counts))]
fn are_keyed(keys: &[Expr], ps: &[Pattern]) -> bool
    ensures { result
        ≡ eqb (length (map tree_of keys.now)) (count_patterns (patterns (map pattern_of ps.now))) }
{
    keys.len() == ps.len()
}

/// Whether there are as many names as patterns.
#[tactic(auto, using(crate::proofs::Counts::counts))]
fn are_named(names: &[Identifier], ps: &[Pattern]) -> bool
    ensures { result
        ≡ eqb (length names.now) (count_patterns (patterns (map pattern_of ps.now))) }
{
    names.len() == ps.len()
}

/// Whether there are at least two patterns.
#[tactic(auto, using(crate::proofs::Counts::counts))]
fn are_alternatives(ps: &[Pattern]) -> bool
    ensures { result ≡ leb 2 (count_patterns (patterns (map pattern_of ps.now))) }
{
    ps.len() >= 2
}

/// Whether no pattern stands before some names, or the first of them isn't the wildcard's.
#[tactic(auto, using(crate::proofs::Counts::counts))]
fn may_be_named(ps: &[Pattern], names: &[Identifier]) -> bool
    ensures { result
        ≡ (eqb (count_patterns (patterns (map pattern_of ps.now))) 0 ||
        not (begins_with_wildcard names.now)) }
{
    ps.is_empty() || !begins_with_wildcard(names)
}
