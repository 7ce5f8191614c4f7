//! The patterns of sequences, and what stands alone in round brackets.
//!
//! Python language reference, 8.6.4.7 "Group Patterns" and 8.6.4.8 "Sequence Patterns".

ghost use Rattle.std.specs.Prelude.{◌≡◌, ◌+◌, ◌<◌, ◌≤◌, ◌∷◌, [], IfOk, List, length, map};
ghost use Rattle.pytree_node.specs.TreeOf.{pattern_of};
ghost use Rattle.pytree_node.specs.Trees as plain;
ghost use Rattle.pytoken.specs.Terminals as terminals;
ghost use Rattle.pygrammar.specs.PatternEntries as entries;
ghost use Rattle.pygrammar.specs.PatternReader as reader;
ghost use Rattle.pygrammar.specs.Reader.{closed};
ghost use Rattle.pyparse_nodes.specs.Views.{Stands, seen};
ghost use Rattle.pyparse_reads.specs.Readings.{IsOpen};
ghost use Rattle.pyparse_pattern.specs.Answers.{PatternAnswered};
ghost use Rattle.pyparse_pattern.specs.Inner.Found.{ElementsAnswered};
ghost use Rattle.pyparse_pattern.specs.Inner.PlacedParts.{BracketedPlaced, ElementsPlaced, GroupedPlaced};
ghost use Rattle.pyparse_pattern.specs.Inner.Readings.{entries_of, round_reads, square_reads};
ghost use Rattle.pyplaces.specs.PlacedPatterns.{PlacedPattern};
ghost use Rattle.pyplaces.specs.Recording.{Records};
ghost use Rattle.pyplaces.specs.Stretches.{Stretch};

use crate::entries::PatternItem;
use crate::found::{Patterns, ReadPattern};
use crate::levels::read_pattern;
use crate::listings::read_entries;
use crate::lists::{first_pattern, no_patterns, with_elements};
use crate::makers::make_sequence;
use pygrammar::PatternLevel;
use pylex_listing::Exact;
use pyparse_nodes::{Stop, is_op};
use pyparse_reads::{Depth, ReadsExpressions};
use pyplaces::Recorder;
use pytoken::Terminal;
use std::alloc::Global;

/// The patterns that stand after some, with commas between them.
#[cycle(reading)]
fn elements<E: ReadsExpressions, R: Recorder>(
    alloc: Global,
    tokens: &[Terminal],
    patterns: Patterns,
    depth: Depth,
    recorder: &mut R,
) -> Result<Patterns, Stop>
    requires within { patterns.next ≤ length tokens.now }
    requires open { IsOpen depth }
    ensures answered { ElementsAnswered tokens.now patterns.next
        (map pattern_of patterns.items.items)
        (entries_of depth entries.Element (seen tokens.now patterns.next)) result }
    ensures placed { IfOk result (λ r. ElementsPlaced R.after tokens.now patterns.next
        (map pattern_of patterns.items.items) r recorder.old recorder.new) }
{
    let entries = read_entries::<E, R>(
        alloc,
        tokens,
        PatternItem::Element,
        patterns.next,
        depth,
        recorder,
    )?;
    with_elements(patterns, entries)
}

/// A first pattern, and those after the comma after it.
#[cycle(reading)]
pub(crate) fn others<E: ReadsExpressions, R: Recorder>(
    alloc: Global,
    tokens: &[Terminal],
    first: ReadPattern,
    depth: Depth,
    recorder: &mut R,
) -> Result<Patterns, Stop>
    requires comma { Stands (terminals.Op Exact.Comma) tokens.now first.next }
    requires open { IsOpen depth }
    ensures answered { ElementsAnswered tokens.now (first.next + 1)
        (pattern_of first.pattern.value ∷ [])
        (entries_of depth entries.Element (seen tokens.now (first.next + 1))) result }
    ensures placed { IfOk result (λ r. ElementsPlaced R.after tokens.now (first.next + 1)
        (pattern_of first.pattern.value ∷ []) r recorder.old recorder.new) }
{
    let next = first.next + 1;
    let patterns = first_pattern(alloc, first, next)?;
    elements::<E, R>(alloc, tokens, patterns, depth, recorder)
}

/// The sequence of some patterns, which begins at a place, and after which its bracket has to stand.
fn bracketed<R: Recorder>(
    alloc: Global,
    tokens: &[Terminal],
    patterns: Patterns,
    sign: Exact,
    from: usize,
    room: usize,
    recorder: &mut R,
) -> Result<ReadPattern, Stop>
    requires { patterns.next ≤ length tokens.now }
    ensures answered { PatternAnswered tokens.now room patterns.next
        (reader.cap_pattern room
        (closed sign (seen tokens.now patterns.next)
        (plain.MatchSequence (plain.patterns (map pattern_of patterns.items.items))))) result }
    ensures placed { IfOk result (λ r. BracketedPlaced R.after tokens.now sign from patterns r
        recorder.old recorder.new) }
{
    if !is_op(tokens, patterns.next, sign) {
        return Err(Stop::NoForm);
    }
    let next = patterns.next + 1;
    recorder.node(from, next)?;
    make_sequence(alloc, patterns, next, room)
}

/// A pattern alone, after which its bracket has to stand.
fn grouped(tokens: &[Terminal], read: ReadPattern) -> Result<ReadPattern, Stop>
    requires { read.next ≤ length tokens.now }
    ensures answered { PatternAnswered tokens.now read.height (read.next + 1)
        (closed Exact.RPar (seen tokens.now read.next) (pattern_of read.pattern.value)) result }
    ensures placed { IfOk result (λ r. GroupedPlaced tokens.now read r) }
{
    if !is_op(tokens, read.next, Exact::RPar) {
        return Err(Stop::NoForm);
    }
    Ok(ReadPattern {
        pattern: read.pattern,
        height: read.height,
        next: read.next + 1,
    })
}

/// After a `(`.
#[cycle(reading)]
pub(crate) fn round<E: ReadsExpressions, R: Recorder>(
    alloc: Global,
    tokens: &[Terminal],
    from: usize,
    at: usize,
    depth: Depth,
    recorder: &mut R,
) -> Result<ReadPattern, Stop>
    requires within { at ≤ length tokens.now }
    requires open { IsOpen depth }
    ensures answered { PatternAnswered tokens.now depth.room at
        (reader.cap_pattern depth.room
        (round_reads depth (seen tokens.now at))) result }
    ensures placed { at ≡ from + 1 → IfOk result (λ r. (ps : List Stretch) ×
        PlacedPattern PatternLevel.ClosedPattern
        (terminals.Op Exact.LPar ∷ seen tokens.now at) from (pattern_of r.pattern.value)
        (seen tokens.now r.next) r.next ps × Records R.after recorder.old ps recorder.new) }
{
    if is_op(tokens, at, Exact::RPar) {
        recorder.node(from, at + 1)?;
        return make_sequence(alloc, no_patterns(alloc, at), at + 1, depth.room);
    }
    let first = read_pattern::<E, R>(
        alloc,
        tokens,
        PatternLevel::StarPattern,
        at,
        depth.same(),
        recorder,
    )?;
    if is_op(tokens, first.next, Exact::Comma) {
        let patterns = others::<E, R>(alloc, tokens, first, depth, recorder)?;
        return bracketed(
            alloc,
            tokens,
            patterns,
            Exact::RPar,
            from,
            depth.room,
            recorder,
        );
    }
    if is_op(tokens, at, Exact::Star) {
        return Err(Stop::NoForm);
    }
    grouped(tokens, first)
}

/// After a `[`.
#[cycle(reading)]
pub(crate) fn square<E: ReadsExpressions, R: Recorder>(
    alloc: Global,
    tokens: &[Terminal],
    from: usize,
    at: usize,
    depth: Depth,
    recorder: &mut R,
) -> Result<ReadPattern, Stop>
    requires within { at ≤ length tokens.now }
    requires open { IsOpen depth }
    ensures answered { PatternAnswered tokens.now depth.room at
        (reader.cap_pattern depth.room (square_reads depth (seen tokens.now at))) result }
    ensures placed { at ≡ from + 1 → IfOk result (λ r. (ps : List Stretch) ×
        PlacedPattern PatternLevel.ClosedPattern
        (terminals.Op Exact.LSqb ∷ seen tokens.now at) from (pattern_of r.pattern.value)
        (seen tokens.now r.next) r.next ps × Records R.after recorder.old ps recorder.new) }
{
    let patterns = elements::<E, R>(alloc, tokens, no_patterns(alloc, at), depth, recorder)?;
    bracketed(
        alloc,
        tokens,
        patterns,
        Exact::RSqb,
        from,
        depth.room,
        recorder,
    )
}
