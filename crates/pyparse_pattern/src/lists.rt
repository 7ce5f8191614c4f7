//! Lists of patterns.

ghost use Rattle.std.specs.Prelude.{◌≡◌, ◌++◌, ◌∷◌, [], MatchResult, map, max, true};
ghost use Rattle.pytree_node.specs.TreeOf.{pattern_of};
ghost use Rattle.pyparse_pattern.specs.Inner.Entries.{alone_in, are_alone, entry_of};

use crate::entries::{Entries, PatternEntry};
use crate::found::{Patterns, ReadPattern};
use pyparse_nodes::{Stop, append};
use pytree_node::Pattern;
use std::alloc::Global;

/// Appends a pattern.
pub(crate) fn put_pattern(items: &mut Vec<Pattern>, item: Box<Pattern>) -> Result<(), Stop>
    ensures { MatchResult result (λ _. items.new.items ≡ items.old.items ++ (item.value ∷ []))
        (λ s. s ≡ Stop.Memory) }
{
    append(items, Box::into_inner(item))
}

/// A list of none.
pub(crate) fn no_patterns(alloc: Global, at: usize) -> Patterns
    ensures items { map pattern_of result.items.items ≡ [] }
    ensures next { result.next ≡ at }
{
    Patterns {
        items: Vec::new(alloc),
        height: 0,
        next: at,
    }
}

/// A list of one, with this place after it.
#[tactic(auto, using(crate::proofs::Growing::pushed, crate::proofs::Growing::pushed_height))]
pub(crate) fn first_pattern(alloc: Global, read: ReadPattern, next: usize) -> Result<Patterns, Stop>
    ensures items { MatchResult result
        (λ r. map pattern_of r.items.items ≡ pattern_of read.pattern.value ∷ [])
        (λ s. s ≡ Stop.Memory) }
    ensures next { MatchResult result (λ r. r.next ≡ next) (λ s. s ≡ Stop.Memory) }
{
    let mut items = Vec::new(alloc);
    put_pattern(&mut items, read.pattern)?;
    Ok(Patterns {
        items,
        height: read.height,
        next,
    })
}

/// A list with one more.
#[tactic(auto, using(crate::proofs::Growing::pushed, crate::proofs::Growing::pushed_height))]
pub(crate) fn push(patterns: Patterns, read: ReadPattern) -> Result<Patterns, Stop>
    ensures items { MatchResult result
        (λ r. map pattern_of r.items.items ≡ map pattern_of patterns.items.items
        ++ (pattern_of read.pattern.value ∷ []))
        (λ s. s ≡ Stop.Memory) }
    ensures next { MatchResult result (λ r. r.next ≡ read.next) (λ s. s ≡ Stop.Memory) }
    ensures height { MatchResult result (λ r. r.height ≡ max patterns.height read.height)
        (λ s. s ≡ Stop.Memory) }
{
    let Patterns {
        items,
        height,
        next: _,
    } = patterns;
    let mut items = items;
    put_pattern(&mut items, read.pattern)?;
    Ok(Patterns {
        items,
        height: height.max(read.height),
        next: read.next,
    })
}

/// A list with the patterns of some entries, which are patterns alone.
#[tactic(auto, using(crate::proofs::Growing::alone_heights))]
pub(crate) fn with_elements(patterns: Patterns, entries: Entries) -> Result<Patterns, Stop>
    requires { are_alone (map entry_of entries.items.items) ≡ true }
    ensures items { MatchResult result
        (λ r. map pattern_of r.items.items ≡ map pattern_of patterns.items.items
        ++ alone_in (map entry_of entries.items.items))
        (λ s. s ≡ Stop.Memory) }
    ensures next { MatchResult result (λ r. r.next ≡ entries.next) (λ s. s ≡ Stop.Memory) }
    ensures height { MatchResult result (λ r. r.height ≡ max patterns.height entries.height)
        (λ s. s ≡ Stop.Memory) }
{
    let height = patterns.height.max(entries.height);
    let next = entries.next;
    let mut items = patterns.items;
    for entry in entries.items {
        match entry {
            PatternEntry::Alone(pattern) => put_pattern(&mut items, pattern)?,
            _ => {}
        }
    }
    Ok(Patterns {
        items,
        height,
        next,
    })
}
