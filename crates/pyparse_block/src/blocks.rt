//! The statements of a source, line by line.

ghost use Rattle.std.specs.Prelude.{◌≡◌, ◌++◌, ◌∷◌, [], List, true, map, IfOk, IfErr, OnOk, OnErr};
ghost use Rattle.pytree_node.specs.TreeOf.{stmt_of};
ghost use Rattle.pygrammar.specs.Lines.{Line, are_proper, line};
ghost use Rattle.pygrammar.specs.Blocks.{Block};
ghost use Rattle.pygrammar.specs.Reading.{Fine, finish, run, start, step};
ghost use Rattle.pygrammar.specs.FormOf.{form_of};
ghost use Rattle.pyparse_block.specs.Faults.{Blames, Tells};
ghost use Rattle.pyparse_block.specs.StateOf.{state_of};

use crate::outline::BlockStop;
use crate::stack::Stack;
use pygrammar::Form;
use pytree_node::Stmt;
use std::alloc::Global;

/// What is kept of the logical lines so far: the statements that are whole, and of the others what
/// their lines have said.
#[derive(Drop)]
pub struct Blocks {
    stack: Stack,
}

impl Blocks {
    /// Before the first line. It takes no memory.
    pub fn new(alloc: Global) -> Blocks
        ensures start { state_of result ≡ start }
        ensures read { run [] start ≡ Fine (state_of result) }
    {
        Blocks {
            stack: Stack::new(alloc),
        }
    }

    /// Lets go of all that is kept.
    #[cold]
    #[inline(never)]
    fn begin_anew(&mut self, alloc: Global)
        ensures { state_of self.new ≡ start }
    {
        self.stack = Stack::new(alloc);
    }

    /// Takes the next line: its level, which is the number of levels above 0 that are open at it,
    /// and its form. After an error it is as it was before the first line.
    ///
    /// # Errors
    ///
    /// [`BlockStop::Faulty`] where the line is the first faulty one, by its fault, and
    /// [`BlockStop::Memory`].
    #[inline(always)]
    pub fn step(&mut self, alloc: Global, level: usize, form: Form) -> Result<(), BlockStop>
        ensures ok { OnOk result
            (step (state_of self.old) (line level (form_of form)) ≡ Fine (state_of self.new)) }
        ensures refused { IfErr result
            (Tells (step (state_of self.old) (line level (form_of form)))) }
        ensures err { OnErr result (state_of self.new ≡ start) }

        // Of the lines so far, and those that may follow.
        ensures read { (xs : List Line) → run xs start ≡ Fine (state_of self.old) → OnOk result
            (run (xs ++ line level (form_of form) ∷ []) start ≡ Fine (state_of self.new)) }
        ensures blamed { (xs more : List Line) → run xs start ≡ Fine (state_of self.old)
            → IfErr result
            (Blames (xs ++ line level (form_of form) ∷ more) (line level (form_of form) ∷ more)) }
    {
        match self.stack.step(alloc, level, form) {
            Ok(()) => Ok(()),
            Err(stop) => {
                self.begin_anew(alloc);
                Err(stop)
            }
        }
    }

    /// The statements of the lines, after the last one.
    ///
    /// # Errors
    ///
    /// [`BlockStop::Faulty`] where the end of the lines is faulty, by its fault, and
    /// [`BlockStop::Memory`].
    pub fn finish(self, alloc: Global) -> Result<Vec<Stmt>, BlockStop>
        ensures ok { IfOk result (λ v. finish (state_of self) ≡ Fine (map stmt_of v.items)) }
        ensures refused { IfErr result (Tells (finish (state_of self))) }

        // Of the lines so far. Those that are read from terminals are proper.
        ensures block { (xs : List Line) → are_proper xs ≡ true
            → run xs start ≡ Fine (state_of self)
            → IfOk result (λ v. Block 0 xs (map stmt_of v.items)) }
        ensures blamed { (xs : List Line) → run xs start ≡ Fine (state_of self)
            → IfErr result (Blames xs []) }
    {
        self.stack.finish(alloc)
    }
}
