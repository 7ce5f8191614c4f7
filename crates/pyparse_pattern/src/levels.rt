//! The levels of patterns.
//!
//! Python language reference, 8.6.4 "Patterns", 8.6.4.1 "OR Patterns" and 8.6.4.2 "AS Patterns".

ghost use Rattle.std.specs.Prelude.{◌≡◌, ◌+◌, ◌<◌, ◌≤◌, ◌++◌, ◌∷◌, IfOk, List, MatchResult, length};
ghost use Rattle.pytree_node.specs.TreeOf.{pattern_of};
ghost use Rattle.pytoken.specs.Terminals as terminals;
ghost use Rattle.pygrammar.specs.PatternReader as reader;
ghost use Rattle.pyparse_nodes.specs.Answers.{Failed};
ghost use Rattle.pyparse_nodes.specs.Views.{Stands, seen};
ghost use Rattle.pyparse_reads.specs.Readings.{IsOpen};
ghost use Rattle.pyparse_pattern.specs.Answers.{PatternAnswered, reads};
ghost use Rattle.pyparse_pattern.specs.Inner.Found.{AlternativesAt};
ghost use Rattle.pyparse_pattern.specs.Inner.PlacedParts.{AlternativesPlaced};
ghost use Rattle.pyparse_pattern.specs.Inner.Readings.{alternatives_of, as_from, level_reads, star_name};
ghost use Rattle.pyplaces.specs.PlacedPatterns.{PlacedPattern};
ghost use Rattle.pyplaces.specs.Recording.{Records};
ghost use Rattle.pyplaces.specs.Stretches.{Stretch};

use crate::closed::read_closed;
use crate::found::{Patterns, ReadPattern};
use crate::lists::{first_pattern, push};
use crate::makers::{make_as, make_or, make_sequence, make_star};
use crate::names::{captured, is_wildcard};
use crate::sequences::others;
use pygrammar::PatternLevel;
use pylex_listing::Exact;
use pyparse_nodes::{Stop, identifier_of, is_op, is_word, name_at};
use pyparse_reads::{Depth, ReadsExpressions};
use pyplaces::Recorder;
use pytoken::{Keyword, Terminal};
use std::alloc::Global;

/// Reads a pattern of a level at a place of some terminals.
///
/// # Errors
///
/// [`Stop::NoForm`]: none stands there. [`Stop::TooDeep`]: what stands there is too high, or too
/// deep within brackets. [`Stop::Memory`].
#[cycle(reading)]
#[tactic(auto, using(crate::proofs::LevelSteps::by_level))]
pub fn read_pattern<E: ReadsExpressions, R: Recorder>(
    alloc: Global,
    tokens: &[Terminal],
    level: PatternLevel,
    at: usize,
    depth: Depth,
    recorder: &mut R,
) -> Result<ReadPattern, Stop>
    requires { at ≤ length tokens.now }
    ensures answered { PatternAnswered tokens.now depth.room (at + 1)
        (reads depth level (seen tokens.now at)) result }
    ensures placed { IfOk result (λ r. (ps : List Stretch) ×
        PlacedPattern level (seen tokens.now at) at (pattern_of r.pattern.value)
        (seen tokens.now r.next) r.next ps × Records R.after recorder.old ps recorder.new) }
{
    depth.enter()?;
    match level {
        PatternLevel::Patterns => read_patterns::<E, R>(alloc, tokens, at, depth, recorder),
        PatternLevel::StarPattern => read_star::<E, R>(alloc, tokens, at, depth, recorder),
        PatternLevel::AsPattern => read_as::<E, R>(alloc, tokens, at, depth, recorder),
        PatternLevel::OrPattern => read_or::<E, R>(alloc, tokens, at, depth, recorder),
        PatternLevel::ClosedPattern => read_closed::<E, R>(alloc, tokens, at, depth, recorder),
    }
}

/// Patterns with commas between them, or one without a star.
#[cycle(reading)]
fn read_patterns<E: ReadsExpressions, R: Recorder>(
    alloc: Global,
    tokens: &[Terminal],
    at: usize,
    depth: Depth,
    recorder: &mut R,
) -> Result<ReadPattern, Stop>
    requires within { at ≤ length tokens.now }
    requires open { IsOpen depth }
    ensures answered { PatternAnswered tokens.now depth.room (at + 1)
        (level_reads depth PatternLevel.Patterns (seen tokens.now at)) result }
    ensures placed { IfOk result (λ r. (ps : List Stretch) ×
        PlacedPattern PatternLevel.Patterns (seen tokens.now at) at (pattern_of r.pattern.value)
        (seen tokens.now r.next) r.next ps × Records R.after recorder.old ps recorder.new) }
{
    let first = read_star::<E, R>(alloc, tokens, at, depth, recorder)?;
    if is_op(tokens, first.next, Exact::Comma) {
        let patterns = others::<E, R>(alloc, tokens, first, depth, recorder)?;
        let next = patterns.next;
        recorder.node(at, next)?;
        return make_sequence(alloc, patterns, next, depth.room);
    }
    if is_op(tokens, at, Exact::Star) {
        return Err(Stop::NoForm);
    }
    Ok(first)
}

/// A pattern with a star, or one without.
#[cycle(reading)]
fn read_star<E: ReadsExpressions, R: Recorder>(
    alloc: Global,
    tokens: &[Terminal],
    at: usize,
    depth: Depth,
    recorder: &mut R,
) -> Result<ReadPattern, Stop>
    requires within { at ≤ length tokens.now }
    requires open { IsOpen depth }
    ensures answered { PatternAnswered tokens.now depth.room (at + 1)
        (level_reads depth PatternLevel.StarPattern (seen tokens.now at)) result }
    ensures placed { IfOk result (λ r. (ps : List Stretch) ×
        PlacedPattern PatternLevel.StarPattern (seen tokens.now at) at (pattern_of r.pattern.value)
        (seen tokens.now r.next) r.next ps × Records R.after recorder.old ps recorder.new) }
{
    if is_op(tokens, at, Exact::Star) {
        starred(alloc, tokens, at, at + 1, depth, recorder)
    } else {
        read_as::<E, R>(alloc, tokens, at, depth, recorder)
    }
}

/// After a `*`.
fn starred<R: Recorder>(
    alloc: Global,
    tokens: &[Terminal],
    from: usize,
    at: usize,
    depth: Depth,
    recorder: &mut R,
) -> Result<ReadPattern, Stop>
    requires { IsOpen depth }
    ensures answered { PatternAnswered tokens.now depth.room at
        (star_name depth (seen tokens.now at)) result }
    ensures placed { at ≡ from + 1 → IfOk result (λ r. (ps : List Stretch) ×
        PlacedPattern PatternLevel.StarPattern
        (terminals.Op Exact.Star ∷ seen tokens.now at) from (pattern_of r.pattern.value)
        (seen tokens.now r.next) r.next ps × Records R.after recorder.old ps recorder.new) }
{
    match name_at(tokens, at) {
        Some(name) => {
            let name = identifier_of(alloc, name)?;
            recorder.node(from, at + 1)?;
            make_star(alloc, captured(name), at + 1)
        }
        None => Err(Stop::NoForm),
    }
}

/// A pattern, and the name after its `as`.
#[cycle(reading)]
fn read_as<E: ReadsExpressions, R: Recorder>(
    alloc: Global,
    tokens: &[Terminal],
    at: usize,
    depth: Depth,
    recorder: &mut R,
) -> Result<ReadPattern, Stop>
    requires within { at ≤ length tokens.now }
    requires open { IsOpen depth }
    ensures answered { PatternAnswered tokens.now depth.room (at + 1)
        (level_reads depth PatternLevel.AsPattern (seen tokens.now at)) result }
    ensures placed { IfOk result (λ r. (ps : List Stretch) ×
        PlacedPattern PatternLevel.AsPattern (seen tokens.now at) at (pattern_of r.pattern.value)
        (seen tokens.now r.next) r.next ps × Records R.after recorder.old ps recorder.new) }
{
    let inner = read_or::<E, R>(alloc, tokens, at, depth, recorder)?;
    if is_word(tokens, inner.next, Keyword::As) {
        named(alloc, tokens, inner, at, depth, recorder)
    } else {
        Ok(inner)
    }
}

/// The name after an `as`, from the `as` on. The pattern before it begins at a place.
fn named<R: Recorder>(
    alloc: Global,
    tokens: &[Terminal],
    inner: ReadPattern,
    at: usize,
    depth: Depth,
    recorder: &mut R,
) -> Result<ReadPattern, Stop>
    requires { Stands (terminals.Word Keyword.As) tokens.now inner.next }
    ensures answered { PatternAnswered tokens.now depth.room inner.next
        (as_from depth.room (pattern_of inner.pattern.value) (seen tokens.now inner.next)) result }
    ensures placed { (ps : List Stretch)
        → PlacedPattern PatternLevel.OrPattern (seen tokens.now at) at
        (pattern_of inner.pattern.value) (seen tokens.now inner.next) inner.next ps
        → IfOk result (λ r. (qs : List Stretch) ×
        PlacedPattern PatternLevel.AsPattern (seen tokens.now at) at (pattern_of r.pattern.value)
        (seen tokens.now r.next) r.next (ps ++ qs) ×
        Records R.after recorder.old qs recorder.new) }
{
    let next = inner.next + 1;
    match name_at(tokens, next) {
        Some(name) => {
            let name = identifier_of(alloc, name)?;
            if is_wildcard(&name) {
                return Err(Stop::NoForm);
            }
            recorder.node(at, next + 1)?;
            make_as(alloc, inner, name, next + 1, depth.room)
        }
        None => Err(Stop::NoForm),
    }
}

/// Patterns with `|` between them, or one.
#[cycle(reading)]
fn read_or<E: ReadsExpressions, R: Recorder>(
    alloc: Global,
    tokens: &[Terminal],
    at: usize,
    depth: Depth,
    recorder: &mut R,
) -> Result<ReadPattern, Stop>
    requires within { at ≤ length tokens.now }
    requires open { IsOpen depth }
    ensures answered { PatternAnswered tokens.now depth.room (at + 1)
        (level_reads depth PatternLevel.OrPattern (seen tokens.now at)) result }
    ensures placed { IfOk result (λ r. (ps : List Stretch) ×
        PlacedPattern PatternLevel.OrPattern (seen tokens.now at) at (pattern_of r.pattern.value)
        (seen tokens.now r.next) r.next ps × Records R.after recorder.old ps recorder.new) }
{
    let first = read_closed::<E, R>(alloc, tokens, at, depth, recorder)?;
    if is_op(tokens, first.next, Exact::VBar) {
        let patterns = alternatives::<E, R>(alloc, tokens, first, depth, recorder)?;
        recorder.node(at, patterns.next)?;
        make_or(alloc, patterns, depth.room)
    } else {
        Ok(first)
    }
}

/// A first alternative, and those after it.
#[cycle(reading)]
fn alternatives<E: ReadsExpressions, R: Recorder>(
    alloc: Global,
    tokens: &[Terminal],
    first: ReadPattern,
    depth: Depth,
    recorder: &mut R,
) -> Result<Patterns, Stop>
    requires within { first.next ≤ length tokens.now }
    requires open { IsOpen depth }
    ensures answered { MatchResult result
        (λ r. AlternativesAt tokens.now first.next (pattern_of first.pattern.value)
        (alternatives_of depth (seen tokens.now first.next)) r)
        (λ s. Failed s (alternatives_of depth (seen tokens.now first.next))) }
    ensures placed { IfOk result (λ r. AlternativesPlaced R.after tokens.now first.next
        (pattern_of first.pattern.value) r recorder.old recorder.new) }
{
    let next = first.next;
    let mut patterns = first_pattern(alloc, first, next)?;
    'bars: while is_op(tokens, patterns.next, Exact::VBar) {
        let at = patterns.next + 1;
        let one = read_pattern::<E, R>(
            alloc,
            tokens,
            PatternLevel::ClosedPattern,
            at,
            depth.inner(),
            recorder,
        )?;
        patterns = push(patterns, one)?;
    }
    Ok(patterns)
}
