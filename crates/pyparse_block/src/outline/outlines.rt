//! The outline of a source, line by line.

ghost use Rattle.std.specs.Prelude.{◌≡◌, ◌++◌, ◌∷◌, [], List, true, IfErr, IfOk, OnErr, OnOk};
ghost use Rattle.pytree_node.specs.Trees.{Stmt};
ghost use Rattle.pygrammar.specs.Lines.{Line, are_proper, line};
ghost use Rattle.pygrammar.specs.Blocks.{Block};
ghost use Rattle.pygrammar.specs.Depths.{count, innermost, is_deep};
ghost use Rattle.pygrammar.specs.FormOf.{form_of};
ghost use Rattle.pygrammar.specs.Reading.{Fine};
ghost use Rattle.pyparse_block.specs.Faults.{Blames, IsFaulty, Tells};
ghost use Rattle.pyparse_block.specs.Inner.Counting.{Counts};
ghost use Rattle.pyparse_block.specs.Inner.Steps.{step};

use crate::outline::depths::Depths;
use crate::outline::faults::BlockStop;
use crate::outline::levels::Levels;
use crate::outline::shapes::{Shape, shape_of};
use pygrammar::Form;
use std::alloc::Global;

/// What is kept of the logical lines so far: of each open level what it has open, and how deep the
/// last of its lines stands.
#[derive(Drop)]
pub struct Outline {
    levels: Levels,
    depths: Depths,
}

impl Outline {
    ghost use Rattle.pyparse_block.specs.Outlines.{Follows, lasts_of, levels_of};

    /// Before the first line. It takes no memory.
    #[tactic(auto, using(crate::proofs::outline::OutlineLemmas::outline_follows))]
    pub fn new(alloc: Global) -> Outline
        ensures { Follows [] result }
    {
        Outline {
            levels: Levels::new(alloc),
            depths: Depths::new(alloc),
        }
    }

    /// Takes the next line: its level, which is the number of levels above 0 that are open at it,
    /// and its form. Whether a statement begins in it with 500 statements round it. After an error
    /// it is as it was before the first line.
    ///
    /// # Errors
    ///
    /// [`BlockStop::Faulty`] where the line is the first faulty one, by its fault, and
    /// [`BlockStop::Memory`].
    #[tactic(auto, using(crate::proofs::outline::OutlineLemmas::outline_follows))]
    #[inline(always)]
    pub fn step(&mut self, alloc: Global, level: usize, form: &Form) -> Result<bool, BlockStop>
        ensures ok { (xs : List Line) → Follows xs self.old
            → OnOk result (Follows (xs ++ line level (form_of form.now) ∷ []) self.new) }
        ensures deep { (xs : List Line) → Follows xs self.old → IfOk result
            (λ deep. deep ≡ is_deep (innermost (line level (form_of form.now)) (count [] xs))) }
        ensures blamed { (xs more : List Line) → Follows xs self.old → IfErr result
            (Blames (xs ++ line level (form_of form.now) ∷ more)
            (line level (form_of form.now) ∷ more)) }
        ensures err { OnErr result (Follows [] self.new) }
    {
        match self.take(level, shape_of(form)) {
            Ok(deep) => Ok(deep),
            Err(stop) => {
                *self = Outline::new(alloc);
                Err(stop)
            }
        }
    }

    /// Takes the next line, by its shape.
    #[inline(always)]
    fn take(&mut self, level: usize, shape: Shape) -> Result<bool, BlockStop>
        ensures ok { OnOk result
            (step level shape (levels_of self.old.levels) ≡ Fine (levels_of self.new.levels)) }
        ensures counts { IfOk result
            (Counts level shape (lasts_of self.old.depths.lasts.items)
            (lasts_of self.new.depths.lasts.items)) }
        ensures refused { IfErr result (Tells (step level shape (levels_of self.old.levels))) }
    {
        self.levels.step(level, shape)?;
        Ok(self.depths.step(level, shape)?)
    }

    /// The end of the lines: whether they are statements. Those that are read from terminals are
    /// proper.
    ///
    /// # Errors
    ///
    /// [`BlockStop::Faulty`] where the end of the lines is faulty, by its fault; it takes no
    /// memory.
    #[tactic(auto, using(crate::proofs::outline::OutlineLemmas::outline_follows))]
    pub fn finish(&self) -> Result<(), BlockStop>
        ensures ok { (xs : List Line) → are_proper xs ≡ true → Follows xs self.now
            → OnOk result ((ss : List Stmt) × Block 0 xs ss) }
        ensures blamed { (xs : List Line) → Follows xs self.now → IfErr result (Blames xs []) }
        ensures faulty { IfErr result IsFaulty }
    {
        self.levels.finish()
    }
}
