//! What a level has open.

ghost use Rattle.std.specs.Prelude.{◌≡◌, reverse};
ghost use Rattle.pyparse_block.specs.Inner.Steps.{above, ended, first, goes_on, is_whole};
ghost use Rattle.pyparse_block.specs.Inner.Steps.{may_end, next};

use crate::outline::shapes::{Clause, Shape};

/// The statement that a level has open, whose last clause and its block are whole.
#[derive(Clone, Copy)]
pub(crate) enum GroupKind {
    /// None that could go on.
    Idle,
    /// Decorators.
    Marked,
    /// An `if` and its `elif`s.
    Choice,
    /// A `while` or a `for`.
    Loop,
    /// A `try` alone.
    Trial,
    /// A `try` and its `except`s.
    Caught { star: bool },
    /// These and an `else`.
    Settled,
    /// In the block of a `match`: its cases.
    Matching,
}

impl GroupKind {
    /// Whether it may end before another statement: all but decorators, a `try` alone, and cases,
    /// which no other line may follow.
    pub(crate) fn is_whole(self) -> bool
        ensures { result ≡ is_whole self }
    {
        match self {
            GroupKind::Marked | GroupKind::Trial | GroupKind::Matching => false,
            _ => true,
        }
    }

    /// What is open after another statement that begins here, if it may.
    fn ended(self, next: GroupKind) -> Option<GroupKind>
        ensures { result ≡ ended self next }
    {
        if self.is_whole() { Some(next) } else { None }
    }

    /// What the block of a line begins with.
    pub(crate) fn first(shape: Shape) -> GroupKind
        ensures { result ≡ first shape }
    {
        match shape {
            Shape::Opening {
                clause: Clause::Match,
            } => GroupKind::Matching,
            _ => GroupKind::Idle,
        }
    }

    /// What the level below has open where this one ends, if it may: what was awaited there, and
    /// after the cases of a `match` nothing.
    pub(crate) fn above(self, awaited: GroupKind) -> Option<GroupKind>
        ensures { result ≡ above self awaited }
    {
        match self {
            GroupKind::Matching => Some(GroupKind::Idle),
            _ => self.ended(awaited),
        }
    }

    /// What is open after a clause and its block, if the clause may stand here: 8.1 to 8.8.
    fn goes_on(self, clause: Clause) -> Option<GroupKind>
        ensures { result ≡ goes_on clause self }
    {
        match clause {
            Clause::If => self.ended(GroupKind::Choice),
            Clause::Elif => match self {
                GroupKind::Choice => Some(GroupKind::Choice),
                _ => None,
            },
            Clause::Else => match self {
                GroupKind::Choice | GroupKind::Loop => Some(GroupKind::Idle),
                GroupKind::Caught { star: _ } => Some(GroupKind::Settled),
                _ => None,
            },
            Clause::Loop => self.ended(GroupKind::Loop),
            Clause::With => self.ended(GroupKind::Idle),
            Clause::Try => self.ended(GroupKind::Trial),
            Clause::Except { star } => match self {
                GroupKind::Trial => Some(GroupKind::Caught { star }),
                GroupKind::Caught { star: other } if star == other => Some(self),
                _ => None,
            },
            Clause::Finally => match self {
                GroupKind::Trial | GroupKind::Caught { star: _ } | GroupKind::Settled => Some(
                    GroupKind::Idle,
                ),
                _ => None,
            },
            Clause::Def => match self {
                GroupKind::Marked => Some(GroupKind::Idle),
                _ => self.ended(GroupKind::Idle),
            },
            Clause::Match => self.ended(GroupKind::Idle),
            Clause::Case => match self {
                GroupKind::Matching => Some(GroupKind::Matching),
                _ => None,
            },
        }
    }

    /// What is open after a line, if the line may stand here.
    pub(crate) fn next(self, shape: Shape) -> Option<GroupKind>
        ensures { result ≡ next shape self }
    {
        match shape {
            Shape::Simple => self.ended(GroupKind::Idle),
            Shape::Decorator => match self {
                GroupKind::Marked => Some(GroupKind::Marked),
                _ => self.ended(GroupKind::Marked),
            },
            Shape::Opening { clause } | Shape::Inline { clause } => self.goes_on(clause),
        }
    }
}

/// Whether all levels may end, by what the deepest has open, and what is awaited below it, the
/// deepest last.
pub(crate) fn may_end(group: GroupKind, below: &[GroupKind]) -> bool
    ensures { result ≡ may_end group (reverse below.now) }
{
    let mut group = group;
    let mut below = below;
    while let Some((awaited, lower)) = below.split_last() {
        let Some(left) = group.above(*awaited) else {
            return false;
        };
        group = left;
        below = lower;
    }
    group.is_whole()
}
