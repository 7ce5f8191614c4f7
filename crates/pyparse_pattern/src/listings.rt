//! Lists with commas between their entries.
//!
//! Python language reference, 8.6.4.8 "Sequence Patterns" to 8.6.4.10 "Class Patterns".

ghost use Rattle.std.specs.Prelude.{◌≡◌, ◌+◌, ◌-◌, ◌<◌, ◌≤◌, ◌∷◌, IfOk, ℕ, length};
ghost use Rattle.pygrammar.specs.PatternEntries as entries;
ghost use Rattle.pyparse_nodes.specs.Views.{seen};
ghost use Rattle.pyparse_reads.specs.Readings.{IsOpen};
ghost use Rattle.pytoken.specs.Terminals as terminals;
ghost use Rattle.pyparse_pattern.specs.Inner.Entries.{entry_of, item_of};
ghost use Rattle.pyparse_pattern.specs.Inner.Found.{EntriesAnswered, EntryAnswered};
ghost use Rattle.pyparse_pattern.specs.Inner.PlacedParts.{EntriesPlaced, EntryPlaced};
ghost use Rattle.pyparse_pattern.specs.Inner.Readings.{entries_of, entry_reads, rest_reads};
ghost use Rattle.pyplaces.specs.PatternPlaces as places;
ghost use Rattle.pyplaces.specs.PlacedPatterns.{PlacedEntry};

use crate::entries::{
    Entries, PatternEntry, PatternItem, ReadEntry, alone, no_entries, placed, starts_entry,
    with_entry,
};
use crate::keys::read_key;
use crate::levels::read_pattern;
use crate::names::is_wildcard;
use pygrammar::PatternLevel;
use pylex_listing::Exact;
use pyparse_nodes::{Stop, identifier_of, is_op, name_at, name_with};
use pyparse_reads::{Depth, ReadsExpressions};
use pyplaces::Recorder;
use pytoken::Terminal;
use std::alloc::Global;

/// The entries at a place, with commas between them.
#[cycle(reading)]
pub(crate) fn read_entries<E: ReadsExpressions, R: Recorder>(
    alloc: Global,
    tokens: &[Terminal],
    item: PatternItem,
    at: usize,
    depth: Depth,
    recorder: &mut R,
) -> Result<Entries, Stop>
    requires within { at ≤ length tokens.now }
    requires open { IsOpen depth }
    ensures answered { EntriesAnswered tokens.now (depth.room - 1) at
        (entries_of depth (item_of item) (seen tokens.now at)) result }
    ensures placed { IfOk result (λ r. EntriesPlaced R.after R.beside tokens.now (item_of item) at r
        recorder.old recorder.new) }
{
    let mut before = no_entries(alloc, at);
    'more: while starts_entry(tokens, item, before.next) {
        let one = read_entry::<E, R>(alloc, tokens, item, before.next, depth, recorder)?;
        let entries = with_entry(before, one)?;
        if !is_op(tokens, entries.next, Exact::Comma) {
            return Ok(entries);
        }
        let next = entries.next + 1;
        before = placed(entries, next);
    }
    Ok(before)
}

/// An entry of a list.
#[cycle(reading)]
fn read_entry<E: ReadsExpressions, R: Recorder>(
    alloc: Global,
    tokens: &[Terminal],
    item: PatternItem,
    at: usize,
    depth: Depth,
    recorder: &mut R,
) -> Result<ReadEntry, Stop>
    requires within { at ≤ length tokens.now }
    requires open { IsOpen depth }
    ensures answered { EntryAnswered tokens.now (depth.room - 1) (at + 1)
        (entry_reads depth (item_of item) (seen tokens.now at)) result }
    ensures placed { IfOk result (λ r. EntryPlaced R.after R.beside tokens.now (item_of item) at r
        recorder.old recorder.new) }
{
    match item {
        PatternItem::Element => {
            let level = PatternLevel::StarPattern;
            let read = read_pattern::<E, R>(alloc, tokens, level, at, depth.inner(), recorder)?;
            Ok(alone(read))
        }
        PatternItem::KeyPattern => key_entry::<E, R>(alloc, tokens, at, depth, recorder),
        PatternItem::ClassArgument => argument_entry::<E, R>(alloc, tokens, at, depth, recorder),
    }
}

/// A key and the pattern after its colon, which is set aside, or a `**` and a name.
#[cycle(reading)]
fn key_entry<E: ReadsExpressions, R: Recorder>(
    alloc: Global,
    tokens: &[Terminal],
    at: usize,
    depth: Depth,
    recorder: &mut R,
) -> Result<ReadEntry, Stop>
    requires within { at ≤ length tokens.now }
    requires open { IsOpen depth }
    ensures answered { EntryAnswered tokens.now (depth.room - 1) (at + 1)
        (entry_reads depth entries.KeyPattern (seen tokens.now at)) result }
    ensures placed { IfOk result (λ r. EntryPlaced R.after R.beside tokens.now entries.KeyPattern at
        r recorder.old recorder.new) }
{
    if is_op(tokens, at, Exact::DoubleStar) {
        return rest_entry(alloc, tokens, at + 1);
    }
    let key = read_key::<E, R>(alloc, tokens, at, depth, recorder)?;
    if !is_op(tokens, key.next, Exact::Colon) {
        return Err(Stop::NoForm);
    }
    let level = PatternLevel::AsPattern;
    let before = recorder.recorded();
    let read = read_pattern::<E, R>(alloc, tokens, level, key.next + 1, depth.inner(), recorder)?;
    recorder.set_aside(before)?;
    Ok(ReadEntry {
        height: key.height.max(read.height),
        next: read.next,
        entry: PatternEntry::Keyed(key.expr, read.pattern),
    })
}

/// After a `**`.
fn rest_entry(alloc: Global, tokens: &[Terminal], at: usize) -> Result<ReadEntry, Stop>
    ensures answered { EntryAnswered tokens.now 0 (at + 1) (rest_reads (seen tokens.now at)) result }
    ensures placed { (from : ℕ) → at ≡ from + 1 → IfOk result
        (λ r. PlacedEntry entries.KeyPattern (terminals.Op Exact.DoubleStar ∷ seen tokens.now at)
        from (entry_of r.entry) (seen tokens.now r.next) r.next places.Rest) }
{
    match name_at(tokens, at) {
        Some(name) => {
            let name = identifier_of(alloc, name)?;
            if is_wildcard(&name) {
                return Err(Stop::NoForm);
            }
            Ok(ReadEntry {
                entry: PatternEntry::Rest(name),
                height: 0,
                next: at + 1,
            })
        }
        None => Err(Stop::NoForm),
    }
}

/// A pattern, or a name and the pattern after its `=`.
#[cycle(reading)]
fn argument_entry<E: ReadsExpressions, R: Recorder>(
    alloc: Global,
    tokens: &[Terminal],
    at: usize,
    depth: Depth,
    recorder: &mut R,
) -> Result<ReadEntry, Stop>
    requires within { at ≤ length tokens.now }
    requires open { IsOpen depth }
    ensures answered { EntryAnswered tokens.now (depth.room - 1) (at + 1)
        (entry_reads depth entries.ClassArgument (seen tokens.now at)) result }
    ensures placed { IfOk result (λ r. EntryPlaced R.after R.beside tokens.now entries.ClassArgument
        at r recorder.old recorder.new) }
{
    let level = PatternLevel::AsPattern;
    match name_with(tokens, at, Exact::Equal) {
        Some(name) => {
            let read = read_pattern::<E, R>(alloc, tokens, level, at + 2, depth.inner(), recorder)?;
            let name = identifier_of(alloc, name)?;
            Ok(ReadEntry {
                height: read.height,
                next: read.next,
                entry: PatternEntry::Named(name, read.pattern),
            })
        }
        None => {
            let read = read_pattern::<E, R>(alloc, tokens, level, at, depth.inner(), recorder)?;
            Ok(alone(read))
        }
    }
}
