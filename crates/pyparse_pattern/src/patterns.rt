//! A pattern of a list of terminals.

ghost use Rattle.std.specs.Prelude.{[], IfOk, List, MatchResult, length, map};
ghost use Rattle.pytree_node.specs.TreeOf.{pattern_of};
ghost use Rattle.pytoken.specs.TerminalOf.{terminal};
ghost use Rattle.pyparse_pattern.specs.Patterns.{IsPattern, RefusedPattern};
ghost use Rattle.pyplaces.specs.PlacedPatterns.{PlacedPattern};
ghost use Rattle.pyplaces.specs.Recording.{Records};
ghost use Rattle.pyplaces.specs.Stretches.{Stretch};

use crate::levels::read_pattern;
use pygrammar::PatternLevel;
use pyparse_nodes::Stop;
use pyparse_reads::{Depth, MOST_HEIGHT, ReadsExpressions};
use pyplaces::Recorder;
use pytoken::Terminal;
use pytree_node::Pattern;
use std::alloc::Global;

/// The pattern of a level that some terminals are, as the grammar of the language reference,
/// section 8.6.4, derives it. At most [`MOST_HEIGHT`] nodes are nested.
///
/// # Errors
///
/// [`Stop::NoForm`]: they are none. [`Stop::TooDeep`]: they are none of this height; where they are
/// none at all, there are more of them than [`MOST_HEIGHT`], and those that count, of an f-string
/// its ends and the tokens of its fields, are no fewer. [`Stop::Memory`].
#[tactic(auto, using(crate::proofs::Wholes::whole_failed, crate::proofs::Wholes::whole_high, crate::proofs::Wholes::whole_more, crate::proofs::Wholes::whole_found))]
pub fn read_whole_pattern<E: ReadsExpressions, R: Recorder>(
    alloc: Global,
    tokens: &[Terminal],
    level: PatternLevel,
    recorder: &mut R,
) -> Result<Box<Pattern>, Stop>
    ensures answered { MatchResult result
        (λ p. IsPattern level (map terminal tokens.now) (pattern_of p.value))
        (λ s. RefusedPattern s level (map terminal tokens.now)) }
    ensures placed { IfOk result (λ p. (ps : List Stretch) ×
        PlacedPattern level (map terminal tokens.now) 0 (pattern_of p.value) []
        (length tokens.now) ps × Records R.after recorder.old ps recorder.new) }
{
    let read = read_pattern::<E, R>(alloc, tokens, level, 0, Depth::of(tokens), recorder)?;
    if read.height > MOST_HEIGHT {
        return Err(Stop::TooDeep);
    }
    if read.next != tokens.len() {
        return Err(Stop::NoForm);
    }
    Ok(read.pattern)
}
