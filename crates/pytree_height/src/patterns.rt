//! The heights of patterns.

ghost use Rattle.std.specs.Prelude.{◌≡◌, map};
ghost use Rattle.pytree_height.specs.Heights.{capped, optional_pattern_height, pattern_height};
ghost use Rattle.pytree_height.specs.Heights.{pattern_heights};
ghost use Rattle.pytree_node.specs.TreeOf.{boxed_pattern_of, pattern_of};
ghost use Rattle.pytree_node.specs.Trees.{optional_pattern, patterns};

use crate::expressions::{expr_height, exprs_height};
use crate::modules::one_more;
use pytree_node::Pattern;

/// The height of a pattern.
#[cycle(pattern_height)]
#[tactic(auto, using(pytree_node::proofs::Callers::PatternShapes::pattern_shapes, crate::proofs::CapLemmas::caps))]
pub(crate) fn pattern_height(p: &Pattern) -> u64
    ensures { result ≡ capped (pattern_height (pattern_of p.now)) }
{
    match p {
        Pattern::MatchValue { value } => one_more(expr_height(value)),
        Pattern::MatchSingleton { .. } => 1,
        Pattern::MatchSequence { patterns } => one_more(patterns_height(patterns)),
        Pattern::MatchMapping { keys, patterns, .. } => {
            one_more(exprs_height(keys).max(patterns_height(patterns)))
        }
        Pattern::MatchClass {
            cls,
            patterns,
            kwd_patterns,
            ..
        } => {
            let inner = patterns_height(patterns).max(patterns_height(kwd_patterns));
            one_more(expr_height(cls).max(inner))
        }
        Pattern::MatchStar { .. } => 1,
        Pattern::MatchAs { pattern, .. } => one_more(boxed_pattern_height(pattern)),
        Pattern::MatchOr { patterns } => one_more(patterns_height(patterns)),
    }
}

/// The height of a pattern that may be absent.
#[cycle(pattern_height)]
#[tactic(auto, using(pytree_node::proofs::Callers::PatternShapes::pattern_shapes, crate::proofs::CapLemmas::caps))]
fn boxed_pattern_height(p: &Option<Box<Pattern>>) -> u64
    ensures { result ≡ capped (optional_pattern_height (optional_pattern (boxed_pattern_of p.now))) }
{
    match p {
        None => 0,
        Some(p) => pattern_height(p),
    }
}

/// The height of the highest of some patterns, or 0.
#[cycle(pattern_height)]
#[tactic(auto, using(pytree_node::proofs::Callers::PatternShapes::pattern_shapes, crate::proofs::CapLemmas::caps))]
fn patterns_height(ps: &[Pattern]) -> u64
    ensures { result ≡ capped (pattern_heights (patterns (map pattern_of ps.now))) }
{
    let mut most: u64 = 0;
    for p in ps {
        most = most.max(pattern_height(p));
    }
    most
}
