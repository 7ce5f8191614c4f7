//! What words in rows stand for.

use pygrammar::{Level, PatternLevel};
use pylex::Kind;
use pytree::{Extent, Profile, Style};
use std::alloc::Global;
use std::fmt::Debug;
use std::process::Abort;

/// The style of a dump: `names` or `bare`, for with all names or without. After that stands `3.12`
/// for that Python instead of 3.11, or how many blanks a level has on lines.
pub(crate) fn style_of(words: &str) -> Style {
    let (names, rest) = words.split_once(' ').unwrap_or((words, ""));
    Style {
        indent: rest.parse::<u8>().ok(),
        names: names == "names",
        profile: if rest == "3.12" {
            Profile::PLAIN_312
        } else {
            Profile::PLAIN_311
        },
    }
}

/// The extent of the language that `Whole` or `Plain` is.
pub(crate) fn extent_of(name: &str) -> Extent {
    if name == "Whole" {
        Extent::Whole
    } else {
        Extent::Plain
    }
}

/// The one of some values that is shown by a name.
fn named<T: Copy + Debug>(rt: &impl Abort, alloc: Global, all: &[T], name: &str) -> T {
    for one in all {
        let shown = format!(in alloc; "{one:?}").expect(rt, "memory");
        if shown.as_str() == name {
            return *one;
        }
    }
    panic!(rt; "no name: {name:?}");
}

/// The levels that rows name.
const LEVELS: &[Level] = &[
    Level::Value,
    Level::Stars,
    Level::StarItem,
    Level::Named,
    Level::Expression,
    Level::Or,
    Level::Factor,
    Level::Power,
    Level::Await,
    Level::Primary,
    Level::Atom,
    Level::Elem,
    Level::Slices,
    Level::Slice,
];

/// The level of a name.
pub(crate) fn level_of(rt: &impl Abort, alloc: Global, name: &str) -> Level {
    named(rt, alloc, LEVELS, name)
}

/// The levels of patterns.
const PATTERN_LEVELS: &[PatternLevel] = &[
    PatternLevel::Patterns,
    PatternLevel::StarPattern,
    PatternLevel::AsPattern,
    PatternLevel::OrPattern,
    PatternLevel::ClosedPattern,
];

/// The level of patterns of a name.
pub(crate) fn pattern_level_of(rt: &impl Abort, alloc: Global, name: &str) -> PatternLevel {
    named(rt, alloc, PATTERN_LEVELS, name)
}

/// The types of tokens that rows name.
const KINDS: &[Kind] = &[
    Kind::Name,
    Kind::Number,
    Kind::String,
    Kind::Op,
    Kind::Newline,
    Kind::Comment,
];

/// The type of tokens of a name.
pub(crate) fn kind_of(rt: &impl Abort, alloc: Global, name: &str) -> Kind {
    named(rt, alloc, KINDS, name)
}
