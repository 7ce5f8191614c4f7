//! The patterns of classes.
//!
//! Python language reference, 8.6.4.10 "Class Patterns".

ghost use Rattle.std.specs.Prelude.{◌≡◌, ◌≤◌, ◌+◌, ◌++◌, IfOk, List, MatchResult, false, length, map, true};
ghost use Rattle.pytree_node.specs.TreeOf.{pattern_of, tree_of};
ghost use Rattle.pytree_node.specs.Trees as plain;
ghost use Rattle.pytoken.specs.Terminals as terminals;
ghost use Rattle.pygrammar.specs.PatternEntries as arguments;
ghost use Rattle.pygrammar.specs.PatternReader as reader;
ghost use Rattle.pyparse_nodes.specs.Views.{Stands, seen};
ghost use Rattle.pyparse_pattern.specs.Answers.{PatternAnswered};
ghost use Rattle.pyparse_pattern.specs.Inner.Entries.{entry_of};
ghost use Rattle.pyparse_pattern.specs.Inner.Made.{MakesPattern};
ghost use Rattle.pyparse_pattern.specs.Inner.Parts.{IsClassGrown};
ghost use Rattle.pyparse_pattern.specs.Inner.PlacedParts.{fronts};
ghost use Rattle.pyparse_pattern.specs.Inner.Readings.{class_from};
ghost use Rattle.pyplaces.specs.PatternPlaces.{EntryPlaces};
ghost use Rattle.pyplaces.specs.PlacedPatterns.{PlacedClass, PlacedEntries, PlacedPattern};
ghost use Rattle.pyplaces.specs.Recording.{Records};
ghost use Rattle.pyplaces.specs.Stretches.{Stretch};

use crate::entries::{Entries, PatternEntry};
use crate::found::ReadPattern;
use crate::lists::put_pattern;
use crate::makers::{above, boxed};
use crate::names::is_wildcard;
use pygrammar::PatternLevel;
use pylex_listing::Exact;
use pyparse_nodes::{Read, Stop, append, is_op};
use pyplaces::Recorder;
use pytoken::Terminal;
use pytree_node::{Identifier, Pattern};
use std::alloc::Global;

/// Whether entries are those of a class, in their order.
fn are_class_arguments(items: &[PatternEntry]) -> bool
    ensures { result ≡ arguments.are_class_arguments false (map entry_of items.now) }
{
    let mut alone = false;
    let mut named = false;
    for entry in items {
        match entry {
            PatternEntry::Alone(_) => {
                if named {
                    return false;
                }
                alone = true;
            }
            PatternEntry::Named(name, _) => {
                if alone && !named && is_wildcard(name) {
                    return false;
                }
                named = true;
            }
            _ => return false,
        }
    }
    true
}

/// The parts of a class pattern.
#[derive(Drop)]
struct Parts {
    patterns: Vec<Pattern>,
    kwd_attrs: Vec<Identifier>,
    kwd_patterns: Vec<Pattern>,
}

/// Appends the parts of an entry.
#[tactic(auto, using(crate::proofs::Growing::grown_patterns, crate::proofs::Growing::grown_names))]
fn add(parts: &mut Parts, entry: PatternEntry) -> Result<(), Stop>
    ensures { MatchResult result (λ _. IsClassGrown parts.old parts.new (entry_of entry))
        (λ s. s ≡ Stop.Memory) }
{
    match entry {
        PatternEntry::Alone(pattern) => put_pattern(&mut parts.patterns, pattern),
        PatternEntry::Named(name, pattern) => {
            append(&mut parts.kwd_attrs, name)?;
            put_pattern(&mut parts.kwd_patterns, pattern)
        }
        _ => Ok(()),
    }
}

/// A class pattern of its class and its arguments, with the place after its bracket.
#[tactic(auto, using(pytree_node::proofs::Callers::PatternShapes::pattern_shapes))]
fn make_class(
    alloc: Global,
    class: Read,
    entries: Entries,
    next: usize,
    room: usize,
) -> Result<ReadPattern, Stop>
    requires { arguments.are_class_arguments false (map entry_of entries.items.items) ≡ true }
    ensures { MakesPattern room
        (plain.MatchClass (tree_of class.expr.value)
        (arguments.elements (map entry_of entries.items.items))
        (arguments.named_attributes (map entry_of entries.items.items))
        (arguments.named_patterns (map entry_of entries.items.items))) next result }
{
    let height = above(class.height.max(entries.height), room)?;
    let mut parts = Parts {
        patterns: Vec::new(alloc),
        kwd_attrs: Vec::new(alloc),
        kwd_patterns: Vec::new(alloc),
    };
    for entry in entries.items {
        add(&mut parts, entry)?;
    }
    let Parts {
        patterns,
        kwd_attrs,
        kwd_patterns,
    } = parts;
    boxed(
        alloc,
        Pattern::MatchClass {
            cls: class.expr,
            patterns,
            kwd_attrs,
            kwd_patterns,
        },
        height,
        next,
    )
}

/// The pattern of a class that begins at a place, after whose arguments its bracket has to stand.
pub(crate) fn finish_class<R: Recorder>(
    alloc: Global,
    tokens: &[Terminal],
    class: Read,
    entries: Entries,
    at: usize,
    room: usize,
    recorder: &mut R,
) -> Result<ReadPattern, Stop>
    requires { entries.next ≤ length tokens.now }
    ensures answered { PatternAnswered tokens.now room entries.next
        (reader.cap_pattern room
        (class_from (tree_of class.expr.value) (map entry_of entries.items.items)
        (seen tokens.now entries.next))) result }
    ensures placed { Stands (terminals.Op Exact.LPar) tokens.now class.next
        → (i : List terminals.Terminal) (ps : List Stretch) (w : R) (fs : List EntryPlaces)
        → PlacedClass i at (tree_of class.expr.value) (seen tokens.now class.next) class.next ps
        → PlacedEntries arguments.ClassArgument (seen tokens.now (class.next + 1)) (class.next + 1)
        (map entry_of entries.items.items) (seen tokens.now entries.next) entries.next fs
        → Records R.after w (fronts fs) recorder.old
        → IfOk result (λ r. (qs : List Stretch) ×
        PlacedPattern PatternLevel.ClosedPattern i at (pattern_of r.pattern.value)
        (seen tokens.now r.next) r.next (ps ++ qs) × Records R.after w qs recorder.new) }
{
    if !is_op(tokens, entries.next, Exact::RPar) {
        return Err(Stop::NoForm);
    }
    if !are_class_arguments(&entries.items) {
        return Err(Stop::NoForm);
    }
    let next = entries.next + 1;
    recorder.node(at, next)?;
    make_class(alloc, class, entries, next, room)
}
