//! Counts of patterns.

ghost use Rattle.std.specs.Prelude.{◌≡◌, ◌+◌, map};
ghost use Rattle.pytree_marked.specs.MarkedOptions.{marked_optional_pattern};
ghost use Rattle.pytree_marked.specs.Counts.{capped};
ghost use Rattle.pytree_dump_text.specs.Shows.{shown_pattern, shown_patterns};
ghost use Rattle.pytree_marked.specs.MarkedNodes.{marked, marked_rows};
ghost use Rattle.pytree_node.specs.TreeOf.{boxed_pattern_of, pattern_of};
ghost use Rattle.pytree_node.specs.Trees.{optional_pattern, patterns};

use crate::counts::one_more;
use crate::expressions::{expr_marked, exprs_marked};
use pytree_node::Pattern;

/// The nodes of a pattern that have a place, counted on.
#[cycle(pattern_counts)]
#[tactic(auto, using(pytree_node::proofs::Callers::PatternShapes::pattern_shapes, crate::proofs::CountLemmas::counting))]
pub(crate) fn pattern_marked(p: &Pattern, before: u64) -> u64
    ensures { result ≡ capped (before + marked (shown_pattern (pattern_of p.now))) }
{
    let count = one_more(before);
    match p {
        Pattern::MatchValue { value } => expr_marked(value, count),
        Pattern::MatchSingleton { .. } => count,
        Pattern::MatchSequence { patterns } => patterns_marked(patterns, count),
        Pattern::MatchMapping { keys, patterns, .. } => {
            patterns_marked(patterns, exprs_marked(keys, count))
        }
        Pattern::MatchClass {
            cls,
            patterns,
            kwd_patterns,
            ..
        } => {
            patterns_marked(
                kwd_patterns,
                patterns_marked(patterns, expr_marked(cls, count)),
            )
        }
        Pattern::MatchStar { .. } => count,
        Pattern::MatchAs { pattern, .. } => boxed_pattern_marked(pattern, count),
        Pattern::MatchOr { patterns } => patterns_marked(patterns, count),
    }
}

/// Those of a pattern that may be absent.
#[cycle(pattern_counts)]
#[tactic(auto, using(pytree_node::proofs::Callers::PatternShapes::pattern_shapes, crate::proofs::CountLemmas::counting))]
fn boxed_pattern_marked(p: &Option<Box<Pattern>>, before: u64) -> u64
    ensures { result ≡ capped (before + marked_optional_pattern (optional_pattern (boxed_pattern_of p.now))) }
{
    match p {
        None => before,
        Some(p) => pattern_marked(p, before),
    }
}

/// Those of some patterns.
#[cycle(pattern_counts)]
#[tactic(auto, using(pytree_node::proofs::Callers::PatternShapes::pattern_shapes, crate::proofs::CountLemmas::counting))]
fn patterns_marked(ps: &[Pattern], before: u64) -> u64
    ensures { result ≡ capped (before + marked_rows (shown_patterns (patterns (map pattern_of ps.now)))) }
{
    let mut count = before;
    for p in ps {
        count = pattern_marked(p, count);
    }
    count
}
