//! What stands between the commas of a list of patterns.

ghost use Rattle.std.specs.Prelude.{◌≡◌, ◌++◌, ◌≤◌, ◌<◌, ◌∷◌, [], MatchResult, length, map, max, true};
ghost use Rattle.pytree_node.specs.TreeOf.{pattern_of};
ghost use Rattle.pytoken.specs.TerminalOf.{terminal};
ghost use Rattle.pygrammar.specs.PatternEntries as grammar;
ghost use Rattle.pygrammar.specs.PatternReader as reader;
ghost use Rattle.pyparse_nodes.specs.Views.{seen};
ghost use Rattle.pyparse_pattern.specs.Inner.Entries.{entry_height, entry_heights, entry_of, item_of};

use crate::found::ReadPattern;
use pylex_listing::Exact;
use pyparse_nodes::{Stop, append, terminal_at};
use pytoken::{Keyword, Terminal};
use pytree_node::{Expr, Identifier, Pattern};
use std::alloc::Global;

/// What stands between the commas of a list.
#[derive(Clone, Copy)]
pub(crate) enum PatternItem {
    /// Of a sequence.
    Element,
    /// Of a mapping.
    KeyPattern,
    /// Of a class pattern.
    ClassArgument,
}

/// What is read of one.
#[derive(Drop)]
pub(crate) enum PatternEntry {
    /// A pattern.
    Alone(Box<Pattern>),
    /// A key and the pattern after its colon.
    Keyed(Box<Expr>, Box<Pattern>),
    /// The name after a `**`.
    Rest(Identifier),
    /// A name and the pattern after its `=`.
    Named(Identifier, Box<Pattern>),
}

/// One that was read, the height of the higher part, and the place after it.
#[derive(Drop)]
pub(crate) struct ReadEntry {
    pub entry: PatternEntry,
    pub height: usize,
    pub next: usize,
    pub ghost is_height: { height ≡ entry_height (entry_of entry) },
}

/// Those of a list, the height of the highest, and the place after the last.
#[derive(Drop)]
pub(crate) struct Entries {
    pub items: Vec<PatternEntry>,
    pub height: usize,
    pub next: usize,
    pub ghost is_height: { height ≡ entry_heights (map entry_of items.items) },
}

/// A pattern as an entry of its own.
pub(crate) fn alone(read: ReadPattern) -> ReadEntry
    ensures entry { entry_of result.entry ≡ grammar.Alone (pattern_of read.pattern.value) }
    ensures height { result.height ≡ read.height }
    ensures next { result.next ≡ read.next }
{
    ReadEntry {
        height: read.height,
        next: read.next,
        entry: PatternEntry::Alone(read.pattern),
    }
}

/// None yet, at a place.
pub(crate) fn no_entries(alloc: Global, at: usize) -> Entries
    ensures items { map entry_of result.items.items ≡ [] }
    ensures next { result.next ≡ at }
    ensures height { result.height ≡ 0 }
{
    Entries {
        items: Vec::new(alloc),
        height: 0,
        next: at,
    }
}

/// One more.
#[tactic(auto, using(crate::proofs::Growing::entry_pushed, crate::proofs::Growing::entry_pushed_height))]
pub(crate) fn with_entry(entries: Entries, one: ReadEntry) -> Result<Entries, Stop>
    ensures items { MatchResult result
        (λ r. map entry_of r.items.items ≡ map entry_of entries.items.items
        ++ (entry_of one.entry ∷ []))
        (λ s. s ≡ Stop.Memory) }
    ensures next { MatchResult result (λ r. r.next ≡ one.next) (λ s. s ≡ Stop.Memory) }
    ensures height { MatchResult result (λ r. r.height ≡ max entries.height one.height)
        (λ s. s ≡ Stop.Memory) }
{
    let Entries {
        items,
        height,
        next: _,
    } = entries;
    let mut items = items;
    append(&mut items, one.entry)?;
    Ok(Entries {
        items,
        height: height.max(one.height),
        next: one.next,
    })
}

/// The same ones, with another place after them.
pub(crate) fn placed(entries: Entries, next: usize) -> Entries
    ensures items { map entry_of result.items.items ≡ map entry_of entries.items.items }
    ensures height { result.height ≡ entries.height }
    ensures next { result.next ≡ next }
{
    let mut entries = entries;
    entries.next = next;
    entries
}

/// Whether a pattern without a star begins with a terminal.
fn begins_pattern(t: Terminal) -> bool
    ensures { result ≡ reader.begins_pattern (terminal t.entry) }
{
    match t {
        Terminal::Op(sign) => match sign {
            Exact::LPar => true,
            Exact::LSqb => true,
            Exact::LBrace => true,
            Exact::Minus => true,
            _ => false,
        },
        Terminal::Word(word) => match word {
            Keyword::None => true,
            Keyword::True => true,
            Keyword::False => true,
            _ => false,
        },
        Terminal::Ident(_) => true,
        Terminal::Whole(_) => true,
        Terminal::Number(_) => true,
        Terminal::Literal(_) => true,
        Terminal::FormattedBegin => true,
        Terminal::FormattedEnd => false,
        Terminal::FormattedText(_) => false,
        Terminal::FieldBegin(_) => false,
        Terminal::SpecBegin => false,
        Terminal::FieldEnd => false,
        Terminal::Layout => false,
    }
}

/// Whether an entry begins with a terminal.
fn begins_entry(item: PatternItem, t: Terminal) -> bool
    ensures { result ≡ reader.begins_entry (item_of item) (terminal t.entry) }
{
    match (item, t) {
        (PatternItem::Element, Terminal::Op(Exact::Star)) => true,
        (PatternItem::KeyPattern, Terminal::Op(Exact::DoubleStar)) => true,
        _ => begins_pattern(t),
    }
}

/// Whether an entry begins at the place.
pub(crate) fn starts_entry(tokens: &[Terminal], item: PatternItem, at: usize) -> bool
    ensures is { result ≡ reader.starts_entry (item_of item) (seen tokens.now at) }
    ensures within { result ≡ true → at < length tokens.now }
{
    match terminal_at(tokens, at) {
        Some(t) => begins_entry(item, t),
        None => false,
    }
}
