//! The patterns of mappings.
//!
//! Python language reference, 8.6.4.9 "Mapping Patterns".

ghost use Rattle.std.specs.Prelude.{◌≡◌, ◌≤◌, ◌+◌, ◌∷◌, IfOk, List, MatchResult, length, map, true};
ghost use Rattle.pytree_node.specs.TreeOf.{pattern_of};
ghost use Rattle.pytree_node.specs.Trees as plain;
ghost use Rattle.pytoken.specs.Terminals as terminals;
ghost use Rattle.pygrammar.specs.PatternEntries as arguments;
ghost use Rattle.pygrammar.specs.PatternReader as reader;
ghost use Rattle.pyparse_nodes.specs.Views.{seen};
ghost use Rattle.pyparse_pattern.specs.Answers.{PatternAnswered};
ghost use Rattle.pyparse_pattern.specs.Inner.Entries.{entry_of};
ghost use Rattle.pyparse_pattern.specs.Inner.Made.{MakesPattern};
ghost use Rattle.pyparse_pattern.specs.Inner.Parts.{IsMappingGrown};
ghost use Rattle.pyparse_pattern.specs.Inner.PlacedParts.{followings, fronts};
ghost use Rattle.pyparse_pattern.specs.Inner.Readings.{mapping_from};
ghost use Rattle.pyplaces.specs.PatternPlaces.{EntryPlaces};
ghost use Rattle.pyplaces.specs.PlacedPatterns.{PlacedEntries, PlacedPattern};
ghost use Rattle.pyplaces.specs.Recording.{Kept, Records};
ghost use Rattle.pyplaces.specs.Stretches.{Stretch};

use crate::entries::{Entries, PatternEntry};
use crate::found::ReadPattern;
use crate::lists::put_pattern;
use crate::makers::{above, boxed};
use pygrammar::PatternLevel;
use pylex_listing::Exact;
use pyparse_nodes::{Stop, is_op, put};
use pyplaces::Recorder;
use pytoken::Terminal;
use pytree_node::{Expr, Identifier, Pattern};
use std::alloc::Global;

/// Whether entries are those of a mapping: a `**` stands last, if at all.
fn is_mapping(items: &[PatternEntry]) -> bool
    ensures { result ≡ arguments.is_mapping (map entry_of items.now) }
{
    for (at, entry) in items.iter().enumerate() {
        match entry {
            PatternEntry::Keyed(_, _) => {}
            PatternEntry::Rest(_) => return at + 1 == items.len(),
            _ => return false,
        }
    }
    true
}

/// The parts of a mapping.
#[derive(Drop)]
struct Parts {
    keys: Vec<Expr>,
    patterns: Vec<Pattern>,
    rest: Option<Identifier>,
}

/// Appends the parts of an entry.
#[tactic(auto, using(crate::proofs::Growing::grown_keys, crate::proofs::Growing::grown_patterns))]
fn add(parts: &mut Parts, entry: PatternEntry) -> Result<(), Stop>
    ensures { MatchResult result (λ _. IsMappingGrown parts.old parts.new (entry_of entry))
        (λ s. s ≡ Stop.Memory) }
{
    match entry {
        PatternEntry::Keyed(key, pattern) => {
            put(&mut parts.keys, key)?;
            put_pattern(&mut parts.patterns, pattern)
        }
        PatternEntry::Rest(name) => {
            parts.rest = Some(name);
            Ok(())
        }
        _ => Ok(()),
    }
}

/// A mapping of its entries, with the place after its bracket.
#[tactic(auto, using(pytree_node::proofs::Callers::PatternShapes::pattern_shapes))]
fn make_mapping(
    alloc: Global,
    entries: Entries,
    next: usize,
    room: usize,
) -> Result<ReadPattern, Stop>
    requires { arguments.is_mapping (map entry_of entries.items.items) ≡ true }
    ensures { MakesPattern room
        (plain.MatchMapping (arguments.pattern_keys (map entry_of entries.items.items))
        (arguments.key_patterns (map entry_of entries.items.items))
        (arguments.rest_of (map entry_of entries.items.items))) next result }
{
    let height = above(entries.height, room)?;
    let mut parts = Parts {
        keys: Vec::new(alloc),
        patterns: Vec::new(alloc),
        rest: None,
    };
    for entry in entries.items {
        add(&mut parts, entry)?;
    }
    let Parts {
        keys,
        patterns,
        rest,
    } = parts;
    boxed(
        alloc,
        Pattern::MatchMapping {
            keys,
            patterns,
            rest,
        },
        height,
        next,
    )
}

/// A mapping, which begins at a place, and after whose entries its bracket has to stand. Its
/// patterns are set aside, after `kept` others.
pub(crate) fn finish_mapping<R: Recorder>(
    alloc: Global,
    tokens: &[Terminal],
    entries: Entries,
    from: usize,
    kept: usize,
    room: usize,
    recorder: &mut R,
) -> Result<ReadPattern, Stop>
    requires { entries.next ≤ length tokens.now }
    ensures answered { PatternAnswered tokens.now room entries.next
        (reader.cap_pattern room
        (mapping_from (map entry_of entries.items.items) (seen tokens.now entries.next))) result }
    ensures placed { (i : List terminals.Terminal) (w : R) (fs : List EntryPlaces)
        → PlacedEntries arguments.KeyPattern i (from + 1) (map entry_of entries.items.items)
        (seen tokens.now entries.next) entries.next fs
        → kept ≡ R.aside_count w → Kept R.after R.beside w (fronts fs) (followings fs) recorder.old
        → IfOk result (λ r. (ps : List Stretch) × PlacedPattern PatternLevel.ClosedPattern
        (terminals.Op Exact.LBrace ∷ i) from (pattern_of r.pattern.value)
        (seen tokens.now r.next) r.next ps × Records R.after w ps recorder.new) }
{
    if !is_op(tokens, entries.next, Exact::RBrace) {
        return Err(Stop::NoForm);
    }
    if !is_mapping(&entries.items) {
        return Err(Stop::NoForm);
    }
    let next = entries.next + 1;
    recorder.take_back(kept)?;
    recorder.node(from, next)?;
    make_mapping(alloc, entries, next, room)
}
