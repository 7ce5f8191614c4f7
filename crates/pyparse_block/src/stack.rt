//! The stack of open levels.

ghost use Rattle.std.specs.Prelude.{◌≡◌, ◌<◌, false, true, map, length, IfOk, IfErr, OnOk};
ghost use Rattle.pytree_node.specs.TreeOf.{stmt_of, tree_of};
ghost use Rattle.pygrammar.specs.Lines.{decorator_form, header_form, line, simple_form};
ghost use Rattle.pygrammar.specs.Reading.{Fine, finish, first_group, place, settle, start, step};
ghost use Rattle.pygrammar.specs.FormOf.{form_of, header_of, suite_of};
ghost use Rattle.pyparse_block.specs.Faults.{Tells};
ghost use Rattle.pyparse_block.specs.Inner.Levels.{ended};
ghost use Rattle.pyparse_block.specs.Inner.Meeting.{is_matching};
ghost use Rattle.pyparse_block.specs.Values.{group_of, state_of};

use crate::closing::{close, let_go, put_all};
use crate::groups::{Group, PartialBlock};
use crate::growing::{grow, grow_match};
use crate::meeting::{is_matching, mark, meet};
use crate::outline::{BlockFault, BlockStop};
use pygrammar::{Form, Header};
use pytree_node::{Expr, Stmt};
use std::alloc::{AllocError, Global};
use std::mem;

/// A level that waits for the block of its last line, a header.
#[derive(Drop)]
pub(crate) struct Waiting {
    pub(crate) part: PartialBlock,
    pub(crate) header: Header,
}

/// What is kept of lines: the deepest open level, whether it has had no line yet, and the levels
/// below it, the deepest last.
#[derive(Drop)]
pub(crate) struct Stack {
    pub(crate) part: PartialBlock,
    pub(crate) fresh: bool,
    pub(crate) below: Vec<Waiting>,
}

/// What the block of a header begins with.
fn first_group(alloc: Global, header: &Header) -> Group
    ensures { group_of result ≡ first_group (header_of header.now) }
{
    match header {
        Header::Match { .. } => Group::Matching {
            cases: Vec::new(alloc),
        },
        _ => Group::Idle,
    }
}

impl Stack {
    /// Before the first line.
    pub(crate) fn new(alloc: Global) -> Stack
        ensures { state_of result ≡ start }
    {
        Stack {
            part: PartialBlock {
                done: Vec::new(alloc),
                group: Group::Idle,
            },
            fresh: false,
            below: Vec::new(alloc),
        }
    }

    /// The cases of a `match` come to their end, and with them its statement.
    #[tactic(auto, using(crate::proofs::LevelLemmas::ending))]
    fn end_match(&mut self) -> Result<(), AllocError>
        requires below { 0 < length self.old.below.items }
        requires old { self.old.fresh ≡ false }
        requires cases { is_matching (group_of self.old.part.group) ≡ true }
        ensures ended { OnOk result (ended (state_of self.old) ≡ Fine (state_of self.new)) }
        ensures fewer { OnOk result (length self.new.below.items < length self.old.below.items) }
    {
        let Waiting { part, header } = self.below.pop().unwrap();
        let PartialBlock { done: _, group } = mem::replace(&mut self.part, part);
        let Group::Matching { cases } = group else {
            unreachable!();
        };
        grow_match(&mut self.part, header, cases)
    }

    /// The deepest level comes to its end, and with it the block of the header below.
    #[tactic(auto, using(crate::proofs::LevelLemmas::ending))]
    #[inline(never)]
    fn end_level(&mut self, alloc: Global) -> Result<(), BlockStop>
        requires { 0 < length self.old.below.items }
        ensures ended { OnOk result (ended (state_of self.old) ≡ Fine (state_of self.new)) }
        ensures refused { IfErr result (Tells (ended (state_of self.old))) }
        ensures fewer { OnOk result (length self.new.below.items < length self.old.below.items) }
    {
        if self.fresh {
            return Err(BlockStop::Faulty(BlockFault::ExpectedIndent));
        }
        if is_matching(&self.part.group) {
            return Ok(self.end_match()?);
        }
        close(alloc, &mut self.part)?;
        let Waiting { part, header } = self.below.pop().unwrap();
        let PartialBlock { mut done, group: _ } = mem::replace(&mut self.part, part);
        // The block is whole, so the room that is left over is given back.
        done.shrink_to_fit();
        grow(alloc, &mut self.part, header, done)?;
        self.fresh = false;
        Ok(())
    }

    /// The levels above this one come to their end.
    #[tactic(auto, using(crate::proofs::LevelLemmas::ending))]
    fn settle(&mut self, alloc: Global, level: usize) -> Result<(), BlockStop>
        ensures settled { OnOk result
            (settle level (state_of self.old) ≡ Fine (state_of self.new)) }
        ensures refused { IfErr result (Tells (settle level (state_of self.old))) }
    {
        while level < self.below.len() {
            self.end_level(alloc)?;
        }
        Ok(())
    }

    /// Simple statements of the deepest level.
    #[tactic(auto, using(crate::proofs::LevelLemmas::placing))]
    fn place_simple(&mut self, alloc: Global, statements: Vec<Stmt>) -> Result<(), BlockStop>
        ensures placed { OnOk result (place (state_of self.old)
            (simple_form (map stmt_of statements.items)) ≡ Fine (state_of self.new)) }
        ensures refused { IfErr result
            (Tells (place (state_of self.old) (simple_form (map stmt_of statements.items)))) }
    {
        match close(alloc, &mut self.part) {
            Ok(()) => {}
            Err(stop) => {
                let_go(statements);
                return Err(stop);
            }
        }
        put_all(&mut self.part.done, statements)?;
        self.fresh = false;
        Ok(())
    }

    /// A decorator of the deepest level.
    #[tactic(auto, using(crate::proofs::LevelLemmas::placing))]
    #[inline(never)]
    fn place_decorator(&mut self, alloc: Global, value: Box<Expr>) -> Result<(), BlockStop>
        ensures placed { OnOk result (place (state_of self.old)
            (decorator_form (tree_of value.value)) ≡ Fine (state_of self.new)) }
        ensures refused { IfErr result
            (Tells (place (state_of self.old) (decorator_form (tree_of value.value)))) }
    {
        mark(alloc, &mut self.part, value)?;
        self.fresh = false;
        Ok(())
    }

    /// A header of the deepest level, with its block if that stands after its colon.
    #[tactic(auto, using(crate::proofs::LevelLemmas::placing))]
    #[inline(never)]
    fn place_header(
        &mut self,
        alloc: Global,
        header: Header,
        suite: Option<Vec<Stmt>>,
    ) -> Result<(), BlockStop>
        ensures placed { OnOk result (place (state_of self.old)
            (header_form (header_of header) (suite_of suite)) ≡ Fine (state_of self.new)) }
        ensures refused { IfErr result
            (Tells (place (state_of self.old) (header_form (header_of header) (suite_of suite)))) }
    {
        meet(alloc, &mut self.part, &header)?;
        match suite {
            None => {
                let fresh = PartialBlock {
                    done: Vec::new(alloc),
                    group: first_group(alloc, &header),
                };
                let part = mem::replace(&mut self.part, fresh);
                self.below.push(Waiting { part, header })?;
                self.fresh = true;
            }
            Some(body) => {
                grow(alloc, &mut self.part, header, body)?;
                self.fresh = false;
            }
        }
        Ok(())
    }

    /// A line of the deepest level.
    fn place(&mut self, alloc: Global, form: Form) -> Result<(), BlockStop>
        ensures placed { OnOk result
            (place (state_of self.old) (form_of form) ≡ Fine (state_of self.new)) }
        ensures refused { IfErr result (Tells (place (state_of self.old) (form_of form))) }
    {
        match form {
            Form::Simple { statements } => self.place_simple(alloc, statements),
            Form::Decorator { value } => self.place_decorator(alloc, value),
            Form::Headed { header, suite } => self.place_header(alloc, header, suite),
        }
    }

    /// The next line: its level, and its form.
    #[tactic(auto, using(crate::proofs::LevelLemmas::placing))]
    pub(crate) fn step(&mut self, alloc: Global, level: usize, form: Form) -> Result<(), BlockStop>
        ensures goes { OnOk result
            (step (state_of self.old) (line level (form_of form)) ≡ Fine (state_of self.new)) }
        ensures refused { IfErr result
            (Tells (step (state_of self.old) (line level (form_of form)))) }
    {
        match self.settle(alloc, level) {
            Ok(()) => {}
            Err(stop) => {
                let_go(form);
                return Err(stop);
            }
        }
        if level > self.below.len() {
            let_go(form);
            return Err(BlockStop::Faulty(BlockFault::UnexpectedIndent));
        }
        self.place(alloc, form)
    }

    /// The end of all lines.
    pub(crate) fn finish(self, alloc: Global) -> Result<Vec<Stmt>, BlockStop>
        ensures tree { IfOk result (λ v. finish (state_of self) ≡ Fine (map stmt_of v.items)) }
        ensures refused { IfErr result (Tells (finish (state_of self))) }
    {
        let mut stack = self;
        stack.settle(alloc, 0)?;
        close(alloc, &mut stack.part)?;
        let Stack {
            part,
            fresh: _,
            below: _,
        } = stack;
        let PartialBlock { done, group: _ } = part;
        Ok(done)
    }
}
