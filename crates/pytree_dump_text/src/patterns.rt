//! Which patterns stand on one line.

ghost use Rattle.std.specs.Prelude.{◌≡◌, ◌||◌, List, Option, codes, ℕ};
ghost use Rattle.pytree_dump_text.specs.Blocks.{bare_pattern_option, listed, shown_pattern_row};
ghost use Rattle.pytree_dump_text.specs.Layout.{is_flat, is_short, is_simple};
ghost use Rattle.pytree_dump_text.specs.Shows.{a_field, name_field, no_field, pattern_field, shown};
ghost use Rattle.pytree_dump_text.specs.Shows.{shown_pattern};
ghost use Rattle.pytree_node.specs.TreeOf.{boxed_pattern_of, pattern_of, tree_of};
ghost use Rattle.pytree_node.specs.Trees.{optional_pattern};

use crate::lines::is_flat;
use crate::styles::Style;
use pytree_node::{Expr, Pattern};

/// Whether a pattern shows no field.
#[tactic(auto, using(pytree_node::proofs::Callers::PatternShapes::pattern_shapes))]
pub(crate) fn is_bare_pattern(p: &Pattern) -> bool
    ensures { result ≡ is_simple (shown_pattern (pattern_of p.now)) }
{
    match p {
        Pattern::MatchValue { .. } => false,
        Pattern::MatchSingleton { .. } => false,
        Pattern::MatchSequence { .. } => false,
        Pattern::MatchMapping { .. } => false,
        Pattern::MatchClass { .. } => false,
        Pattern::MatchStar { name } => name.is_none(),
        Pattern::MatchAs { pattern, name } => pattern.is_none() && name.is_none(),
        Pattern::MatchOr { .. } => false,
    }
}

/// Whether a pattern is absent or shows no field.
fn is_bare_pattern_option(p: &Option<Box<Pattern>>) -> bool
    ensures { result ≡ bare_pattern_option (boxed_pattern_of p.now) }
{
    match p {
        None => true,
        Some(p) => is_bare_pattern(p),
    }
}

/// Whether a pattern that is a list of patterns stands on one line.
#[tactic(auto, using(crate::proofs::ShortLemmas::short_patterns))]
pub fn is_short_patterns(style: Style, patterns: &[Pattern]) -> bool
    ensures { result
        ≡ (is_flat style.indent || is_short
        (a_field (codes "patterns") (shown_pattern_row patterns.now) no_field)) }
{
    is_flat(style) || patterns.is_empty()
}

/// Whether a pattern of keys and patterns stands on one line. A name is simple.
#[tactic(auto, using(crate::proofs::ShortLemmas::short_mapping))]
pub fn is_short_mapping(style: Style, keys: &[Expr], patterns: &[Pattern]) -> bool
    ensures { (rest : Option (List ℕ))
        → result ≡ (is_flat style.indent || is_short
        (a_field (codes "keys") (listed (λ e. shown (tree_of e)) keys.now)
        (a_field (codes "patterns") (shown_pattern_row patterns.now)
        (name_field (codes "rest") rest no_field)))) }
{
    is_flat(style) || keys.is_empty() && patterns.is_empty()
}

/// Whether a pattern that names what another matches stands on one line. A name is simple.
#[tactic(auto, using(crate::proofs::ShortLemmas::short_as))]
pub fn is_short_as(style: Style, pattern: &Option<Box<Pattern>>) -> bool
    ensures { (name : Option (List ℕ))
        → result ≡ (is_flat style.indent || is_short
        (pattern_field (codes "pattern") (optional_pattern (boxed_pattern_of pattern.now))
        (name_field (codes "name") name no_field))) }
{
    is_flat(style) || is_bare_pattern_option(pattern)
}
