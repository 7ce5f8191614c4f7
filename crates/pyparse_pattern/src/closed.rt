//! Patterns that nothing but their first terminal tells apart.
//!
//! Python language reference, 8.6.4.3 "Literal Patterns" to 8.6.4.10 "Class Patterns".

ghost use Rattle.std.specs.Prelude.{◌≡◌, ◌+◌, ◌<◌, ◌≤◌, ◌++◌, ◌∷◌, IfOk, List, MatchBool, length};
ghost use Rattle.std.specs.Str.{chars};
ghost use Rattle.unicode_normalization.specs.Forms.{nfkc};
ghost use Rattle.pytree_node.specs.TreeOf.{pattern_of, tree_of};
ghost use Rattle.pytoken.specs.Terminals as terminals;
ghost use Rattle.pygrammar.specs.PatternReader as reader;
ghost use Rattle.pyparse_nodes.specs.Views.{Stands, seen};
ghost use Rattle.pyparse_reads.specs.Readings.{IsOpen};
ghost use Rattle.pyparse_pattern.specs.Answers.{PatternAnswered};
ghost use Rattle.pyparse_pattern.specs.Inner.Found.{IsQualified, IsUnqualified};
ghost use Rattle.pyparse_pattern.specs.Inner.Readings.{class_reads, level_reads, literal_reads};
ghost use Rattle.pyparse_pattern.specs.Inner.Readings.{mapping_reads, name_reads};
ghost use Rattle.pyplaces.specs.PlacedPatterns.{PlacedClass, PlacedPattern};
ghost use Rattle.pyplaces.specs.Recording.{Records};
ghost use Rattle.pyplaces.specs.Stretches.{Stretch};

use crate::classes::finish_class;
use crate::dotted::dotted;
use crate::entries::PatternItem;
use crate::found::ReadPattern;
use crate::keys::singleton;
use crate::listings::read_entries;
use crate::literals::read_literal;
use crate::makers::{make_capture, make_singleton, make_value};
use crate::mappings::finish_mapping;
use crate::names::{captured, is_wildcard};
use crate::sequences::{round, square};
use pygrammar::PatternLevel;
use pylex_listing::Exact;
use pyparse_nodes::{Read, Stop, identifier_of, is_op, terminal_at};
use pyparse_reads::{Depth, ReadsExpressions};
use pyplaces::Recorder;
use pytoken::Terminal;
use std::alloc::Global;

/// A pattern of its own: a literal, a name, a value, or what stands in brackets.
#[cycle(reading)]
pub(crate) fn read_closed<E: ReadsExpressions, R: Recorder>(
    alloc: Global,
    tokens: &[Terminal],
    at: usize,
    depth: Depth,
    recorder: &mut R,
) -> Result<ReadPattern, Stop>
    requires within { at ≤ length tokens.now }
    requires open { IsOpen depth }
    ensures answered { PatternAnswered tokens.now depth.room (at + 1)
        (level_reads depth PatternLevel.ClosedPattern (seen tokens.now at)) result }
    ensures placed { IfOk result (λ r. (ps : List Stretch) ×
        PlacedPattern PatternLevel.ClosedPattern (seen tokens.now at) at (pattern_of r.pattern.value)
        (seen tokens.now r.next) r.next ps × Records R.after recorder.old ps recorder.new) }
{
    match terminal_at(tokens, at) {
        Some(Terminal::Ident(name)) => {
            name_pattern::<E, R>(alloc, tokens, name, at, at + 1, depth, recorder)
        }
        Some(Terminal::Word(word)) => {
            let value = singleton(word)?;
            recorder.node(at, at + 1)?;
            make_singleton(alloc, value, at + 1)
        }
        Some(Terminal::Op(Exact::LPar)) => round::<E, R>(
            alloc,
            tokens,
            at,
            at + 1,
            depth,
            recorder,
        ),
        Some(Terminal::Op(Exact::LSqb)) => square::<E, R>(
            alloc,
            tokens,
            at,
            at + 1,
            depth,
            recorder,
        ),
        Some(Terminal::Op(Exact::LBrace)) => mapping::<E, R>(
            alloc,
            tokens,
            at,
            at + 1,
            depth,
            recorder,
        ),
        _ => literal_pattern::<E, R>(alloc, tokens, at, depth, recorder),
    }
}

/// A literal.
#[tactic(auto, using(crate::proofs::StringSteps::value_failed, crate::proofs::StringSteps::value_read))]
fn literal_pattern<E: ReadsExpressions, R: Recorder>(
    alloc: Global,
    tokens: &[Terminal],
    at: usize,
    depth: Depth,
    recorder: &mut R,
) -> Result<ReadPattern, Stop>
    requires { IsOpen depth }
    ensures answered { PatternAnswered tokens.now depth.room (at + 1)
        (reader.cap_pattern depth.room (literal_reads depth (seen tokens.now at))) result }
    ensures placed { IfOk result (λ r. (ps : List Stretch) ×
        PlacedPattern PatternLevel.ClosedPattern (seen tokens.now at) at (pattern_of r.pattern.value)
        (seen tokens.now r.next) r.next ps × Records R.after recorder.old ps recorder.new) }
{
    let e = read_literal::<E, R>(alloc, tokens, at, depth, recorder)?;
    recorder.node(at, e.next)?;
    make_value(alloc, e, depth.room)
}

/// Whether a name ends at the place: no point and no bracket stands there.
fn is_unqualified(tokens: &[Terminal], at: usize) -> bool
    ensures { MatchBool result (IsUnqualified tokens.now at) (IsQualified tokens.now at) }
{
    !is_op(tokens, at, Exact::Dot) && !is_op(tokens, at, Exact::LPar)
}

/// After a name: a capture, a value or the pattern of a class.
#[cycle(reading)]
fn name_pattern<E: ReadsExpressions, R: Recorder>(
    alloc: Global,
    tokens: &[Terminal],
    first: &str,
    from: usize,
    at: usize,
    depth: Depth,
    recorder: &mut R,
) -> Result<ReadPattern, Stop>
    requires within { at ≤ length tokens.now }
    requires open { IsOpen depth }
    ensures answered { PatternAnswered tokens.now depth.room at
        (reader.cap_pattern depth.room
        (name_reads depth (nfkc (chars first.now)) (seen tokens.now at))) result }
    ensures placed { at ≡ from + 1 → (x : terminals.Spelled) → x.form ≡ nfkc (chars first.now)
        → IfOk result (λ r. (ps : List Stretch) × PlacedPattern PatternLevel.ClosedPattern
        (terminals.Ident x ∷ seen tokens.now at) from (pattern_of r.pattern.value)
        (seen tokens.now r.next) r.next ps × Records R.after recorder.old ps recorder.new) }
{
    let name = identifier_of(alloc, first)?;
    if is_wildcard(&name) || is_unqualified(tokens, at) {
        recorder.node(from, at)?;
        return make_capture(alloc, captured(name), at);
    }
    drop(name);
    let e = dotted(alloc, tokens, first, from, at, depth.inner().room, recorder)?;
    if is_op(tokens, e.next, Exact::LPar) {
        class_pattern::<E, R>(alloc, tokens, e, from, depth, recorder)
    } else {
        recorder.node(from, e.next)?;
        make_value(alloc, e, depth.room)
    }
}

/// The pattern of a class that begins at a place, from its bracket on.
#[cycle(reading)]
fn class_pattern<E: ReadsExpressions, R: Recorder>(
    alloc: Global,
    tokens: &[Terminal],
    class: Read,
    at: usize,
    depth: Depth,
    recorder: &mut R,
) -> Result<ReadPattern, Stop>
    requires within { class.next < length tokens.now }
    requires open { IsOpen depth }
    ensures answered { PatternAnswered tokens.now depth.room class.next
        (reader.cap_pattern depth.room
        (class_reads depth (tree_of class.expr.value)
        (seen tokens.now (class.next + 1)))) result }
    ensures placed { Stands (terminals.Op Exact.LPar) tokens.now class.next
        → (i : List terminals.Terminal) (ps : List Stretch)
        → PlacedClass i at (tree_of class.expr.value) (seen tokens.now class.next) class.next ps
        → IfOk result (λ r. (qs : List Stretch) ×
        PlacedPattern PatternLevel.ClosedPattern i at (pattern_of r.pattern.value)
        (seen tokens.now r.next) r.next (ps ++ qs) ×
        Records R.after recorder.old qs recorder.new) }
{
    let next = class.next + 1;
    let entries = read_entries::<E, R>(
        alloc,
        tokens,
        PatternItem::ClassArgument,
        next,
        depth,
        recorder,
    )?;
    finish_class(alloc, tokens, class, entries, at, depth.room, recorder)
}

/// After a `{`. The values' patterns are set aside: they come after all keys.
#[cycle(reading)]
fn mapping<E: ReadsExpressions, R: Recorder>(
    alloc: Global,
    tokens: &[Terminal],
    from: usize,
    at: usize,
    depth: Depth,
    recorder: &mut R,
) -> Result<ReadPattern, Stop>
    requires within { at ≤ length tokens.now }
    requires open { IsOpen depth }
    ensures answered { PatternAnswered tokens.now depth.room at
        (reader.cap_pattern depth.room (mapping_reads depth (seen tokens.now at))) result }
    ensures placed { at ≡ from + 1 → IfOk result (λ r. (ps : List Stretch) ×
        PlacedPattern PatternLevel.ClosedPattern
        (terminals.Op Exact.LBrace ∷ seen tokens.now at) from (pattern_of r.pattern.value)
        (seen tokens.now r.next) r.next ps × Records R.after recorder.old ps recorder.new) }
{
    let kept = recorder.aside();
    let entries = read_entries::<E, R>(
        alloc,
        tokens,
        PatternItem::KeyPattern,
        at,
        depth,
        recorder,
    )?;
    finish_mapping(alloc, tokens, entries, from, kept, depth.room, recorder)
}
