//! The open levels.

ghost use Rattle.std.specs.Prelude.{◌≡◌, IfErr, OnOk};
ghost use Rattle.pygrammar.specs.Reading.{Fine, start};
ghost use Rattle.pyparse_block.specs.Faults.{IsFaulty, Tells};
ghost use Rattle.pyparse_block.specs.Outlines.{levels_of, outline};
ghost use Rattle.pyparse_block.specs.Inner.Steps.{awaits_block, finish, may_end, place, settle};
ghost use Rattle.pyparse_block.specs.Inner.Steps.{step};

use crate::outline::faults::{BlockFault, BlockStop};
use crate::outline::groups::{GroupKind, may_end};
use crate::outline::shapes::Shape;
use std::alloc::Global;

/// What is kept of the open levels: what the deepest has open, whether it has had no line yet, and
/// what those below it will have open once the block that they wait for is whole, the deepest last.
#[derive(Drop)]
pub(crate) struct Levels {
    group: GroupKind,
    fresh: bool,
    below: Vec<GroupKind>,
}

impl Levels {
    /// Before the first line.
    pub(crate) fn new(alloc: Global) -> Levels
        ensures { levels_of result ≡ outline start }
    {
        Levels {
            group: GroupKind::Idle,
            fresh: false,
            below: Vec::new(alloc),
        }
    }

    /// The levels above this one come to their end.
    #[tactic(auto, using(crate::proofs::outline::LevelLemmas::ending))]
    fn settle(&mut self, level: usize) -> Result<(), BlockStop>
        ensures ok { OnOk result (settle level (levels_of self.old) ≡ Fine (levels_of self.new)) }
        ensures refused { IfErr result (Tells (settle level (levels_of self.old))) }
    {
        while level < self.below.len() {
            if self.fresh {
                return Err(BlockStop::Faulty(BlockFault::ExpectedIndent));
            }
            let awaited = self.below.pop().unwrap();
            let Some(group) = self.group.above(awaited) else {
                return Err(BlockStop::Faulty(BlockFault::MisplacedClause));
            };
            self.group = group;
        }
        Ok(())
    }

    /// A line of the deepest level.
    fn place(&mut self, shape: Shape) -> Result<(), BlockStop>
        ensures ok { OnOk result (place shape (levels_of self.old) ≡ Fine (levels_of self.new)) }
        ensures refused { IfErr result (Tells (place shape (levels_of self.old))) }
    {
        let Some(group) = self.group.next(shape) else {
            return Err(BlockStop::Faulty(BlockFault::MisplacedClause));
        };
        if shape.opens() {
            self.below.push(group)?;
            self.group = GroupKind::first(shape);
            self.fresh = true;
        } else {
            self.group = group;
            self.fresh = false;
        }
        Ok(())
    }

    /// The next line: its level, and its shape.
    pub(crate) fn step(&mut self, level: usize, shape: Shape) -> Result<(), BlockStop>
        ensures ok { OnOk result
            (step level shape (levels_of self.old) ≡ Fine (levels_of self.new)) }
        ensures refused { IfErr result (Tells (step level shape (levels_of self.old))) }
    {
        self.settle(level)?;
        if level > self.below.len() {
            return Err(BlockStop::Faulty(BlockFault::UnexpectedIndent));
        }
        self.place(shape)
    }

    /// Whether the last line waits for a block.
    fn awaits_block(&self) -> bool
        ensures { result ≡ awaits_block (levels_of self.now) }
    {
        self.fresh && !self.below.is_empty()
    }

    /// Whether what the levels have open may end.
    fn may_end(&self) -> bool
        ensures { result ≡ may_end self.now.group (levels_of self.now).below }
    {
        may_end(self.group, &self.below)
    }

    /// The end of all lines.
    #[tactic(auto, using(crate::proofs::outline::LevelLemmas::finishing))]
    pub(crate) fn finish(&self) -> Result<(), BlockStop>
        ensures ok { OnOk result (finish (levels_of self.now) ≡ Fine tt) }
        ensures refused { IfErr result (Tells (finish (levels_of self.now))) }
        ensures faulty { IfErr result IsFaulty }
    {
        if self.awaits_block() {
            return Err(BlockStop::Faulty(BlockFault::ExpectedIndent));
        }
        if !self.may_end() {
            return Err(BlockStop::Faulty(BlockFault::MisplacedClause));
        }
        Ok(())
    }
}
