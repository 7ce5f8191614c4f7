//! How many statements stand round a line, counted line by line.

ghost use Rattle.std.specs.Prelude.{◌≡◌, ◌+◌, ◌∷◌, [], suc, min, IfOk};
ghost use Rattle.pygrammar.specs.Depths.{under};
ghost use Rattle.pyparse_block.specs.Outlines.{lasts_of};
ghost use Rattle.pyparse_block.specs.Inner.Counting.{Counts, arms_top, clause_in, deep_in};
ghost use Rattle.pyparse_block.specs.Inner.Counting.{own_of, round_top};

use crate::outline::shapes::{Clause, Shape};
use std::alloc::{AllocError, Global};

/// So many statements round it make a statement stand too deep. None is counted further.
const DEEP: u32 = 500;

/// The last line of a level: how many statements stand round it, the `elif`s of the `if` that it
/// belongs to, up to it, and how many statements it is itself.
#[derive(Clone, Copy)]
pub(crate) struct Last {
    level: usize,
    round: u16,
    arms: u16,
    own: u16,
}

/// A count, no further than it counts.
fn capped(count: u32) -> u16
    ensures { result ≡ min 500 count }
{
    count.min(DEEP) as u16
}

impl Last {
    /// How many statements stand round the lines of its block.
    fn inside(self) -> u32
        ensures { result ≡ self.round + (self.arms + self.own) }
    {
        u32::from(self.round) + u32::from(self.arms) + u32::from(self.own)
    }

    /// Whether a statement with so many round it that it stands too deep begins in the line, by the
    /// line's shape: in a clause other than `elif` none begins but those after its colon.
    fn is_deep(self, shape: Shape) -> bool
        ensures { result ≡ deep_in shape self.round self.arms self.own }
    {
        let round = u32::from(self.round);
        let arms = u32::from(self.arms);
        match shape {
            Shape::Simple | Shape::Decorator => round >= DEEP,
            Shape::Opening { clause } => match clause {
                Clause::Else | Clause::Except { star: _ } | Clause::Finally | Clause::Case => false,
                _ => round + arms >= DEEP,
            },
            Shape::Inline { clause: _ } => self.inside() >= DEEP,
        }
    }
}

/// Drops the levels deeper than this one.
fn drop_deeper(lasts: &mut Vec<Last>, level: usize)
    ensures { lasts_of lasts.new.items ≡ under (suc level) (lasts_of lasts.old.items) }
{
    while let Some(last) = lasts.last() {
        if last.level <= level {
            return;
        }
        lasts.pop();
    }
}

/// Drops this level and the deeper ones.
fn drop_from(lasts: &mut Vec<Last>, level: usize)
    ensures { lasts_of lasts.new.items ≡ under level (lasts_of lasts.old.items) }
{
    while let Some(last) = lasts.last() {
        if last.level < level {
            return;
        }
        lasts.pop();
    }
}

/// The `elif`s of the `if` that a line of this level and shape belongs to, up to it.
fn arms_after(lasts: &[Last], level: usize, shape: Shape) -> u32
    ensures { result ≡ arms_top shape level (lasts_of lasts.now) }
{
    let Some(last) = lasts.last() else {
        return 0;
    };
    if last.level != level {
        return 0;
    }
    match shape.clause() {
        Some(Clause::Elif) => u32::from(last.arms) + 1,
        Some(Clause::Else) => u32::from(last.arms),
        _ => 0,
    }
}

/// How many statements a line of this shape is itself: a `case` is none.
fn own(shape: Shape) -> u16
    ensures { result ≡ own_of (clause_in shape) }
{
    match shape.clause() {
        Some(Clause::Case) => 0,
        _ => 1,
    }
}

/// How many statements stand round a line of the next level.
fn round_after(lasts: &[Last]) -> u32
    ensures { result ≡ round_top (lasts_of lasts.now) }
{
    match lasts.last() {
        Some(last) => last.inside(),
        None => 0,
    }
}

/// The last line of each level that later lines can stand in, the deepest last.
#[derive(Drop)]
pub(crate) struct Depths {
    lasts: Vec<Last>,
}

impl Depths {
    /// Before the first line.
    pub(crate) fn new(alloc: Global) -> Depths
        ensures { lasts_of result.lasts.items ≡ [] }
    {
        Depths {
            lasts: Vec::new(alloc),
        }
    }

    /// The next line: its level, and its shape. Whether a statement begins in it that stands too
    /// deep.
    pub(crate) fn step(&mut self, level: usize, shape: Shape) -> Result<bool, AllocError>
        ensures { IfOk result
            (Counts level shape (lasts_of self.old.lasts.items) (lasts_of self.new.lasts.items)) }
    {
        drop_deeper(&mut self.lasts, level);
        let arms = arms_after(&self.lasts, level, shape);
        drop_from(&mut self.lasts, level);
        let round = round_after(&self.lasts);
        let last = Last {
            level,
            round: capped(round),
            arms: capped(arms),
            own: own(shape),
        };
        self.lasts.push(last)?;
        Ok(last.is_deep(shape))
    }
}
