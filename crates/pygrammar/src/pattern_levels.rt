//! The levels of the pattern grammar.

ghost use Rattle.std.specs.Prelude.{◌≡◌};
ghost use Rattle.pygrammar.specs.PatternOperators.{below_pattern, pattern_rank};

/// A line of the pattern grammar (language reference, 8.6.4 and 10), the lowest first.
///
/// In each line below the words with a capital are levels. Each level but the last also takes
/// whatever the next one takes; `Patterns` takes of `StarPattern` only what `AsPattern` takes.
#[derive(Clone, Copy, Debug, PartialEq, Eq)]
pub enum PatternLevel {
    /// `patterns`: `StarPattern ("," StarPattern)+ [","]`, `StarPattern ","`, or `AsPattern`.
    Patterns,
    /// `maybe_star_pattern`: `"*" NAME`, or `AsPattern`.
    StarPattern,
    /// `pattern`: `OrPattern "as" NAME`, or `OrPattern`.
    AsPattern,
    /// `or_pattern`: `ClosedPattern ("|" ClosedPattern)+`, or `ClosedPattern`.
    OrPattern,
    /// `closed_pattern`: a literal, a name, a value, or what stands in brackets.
    ClosedPattern,
}

impl PatternLevel {
    /// The place of the level in one order: the lowest has rank 1.
    #[inline(always)]
    pub fn rank(self) -> u8
        ensures { result ≡ pattern_rank self }
    {
        match self {
            PatternLevel::Patterns => 1,
            PatternLevel::StarPattern => 2,
            PatternLevel::AsPattern => 3,
            PatternLevel::OrPattern => 4,
            PatternLevel::ClosedPattern => 5,
        }
    }

    /// The level that the last alternative of the level's line names. `ClosedPattern` names none,
    /// so it is its own.
    pub fn below(self) -> PatternLevel
        ensures { result ≡ below_pattern self }
    {
        match self {
            PatternLevel::Patterns => PatternLevel::AsPattern,
            PatternLevel::StarPattern => PatternLevel::AsPattern,
            PatternLevel::AsPattern => PatternLevel::OrPattern,
            PatternLevel::OrPattern => PatternLevel::ClosedPattern,
            PatternLevel::ClosedPattern => PatternLevel::ClosedPattern,
        }
    }
}
