//! The places of statements, line by line.

ghost use Rattle.std.specs.Prelude.{◌≡◌, ◌++◌, ◌∷◌, [], List, map, IfOk, OnErr, OnOk};
ghost use Rattle.pytree_node.specs.Trees as plain;
ghost use Rattle.pygrammar.specs.Blocks.{Block};
ghost use Rattle.pygrammar.specs.FormOf.{form_of, header_of, suite_of};
ghost use Rattle.pygrammar.specs.Lines.{Line, header_form, line};
ghost use Rattle.pyplaces.specs.BlockPlaces.{LinePlaces, block_places};
ghost use Rattle.pyplaces.specs.Recording.{told};
ghost use Rattle.pyplaces.specs.StateOf.{Follows, places_of, state_of};
ghost use Rattle.pyplaces.specs.Steps.{finish, place, settle, step};

use crate::Span;
use crate::kinds::{begins_node, has_parts, is_clause, is_definition, is_except};
use crate::line_spans::LineSpans;
use crate::nodes::OpenNode;
use crate::runs::put;
use pygrammar::{Form, Header};
use pytree_node::Stmt;
use std::alloc::{AllocError, Global};
use std::mem;

/// What is kept of the places of the logical lines so far.
#[derive(Drop)]
pub struct PlaceStack {
    /// The spans so far, in the order in which the dump writes their nodes.
    spans: Vec<Span>,
    /// Those of decorators whose definition is still to come.
    decorators: Vec<Span>,
    /// The open nodes, the innermost last.
    nodes: Vec<OpenNode>,
    /// The end of the last line.
    to: u32,
}

impl PlaceStack {
    /// Before the first line. It takes no memory.
    pub fn new(alloc: Global) -> PlaceStack
        ensures { Follows [] [] result }
    {
        PlaceStack {
            spans: Vec::new(alloc),
            decorators: Vec::new(alloc),
            nodes: Vec::new(alloc),
            to: 0,
        }
    }

    /// The nodes end that a line doesn't belong to.
    fn settle(&mut self, level: usize, is_clause: bool) -> Result<(), AllocError>
        ensures { OnOk result (state_of self.new ≡ settle level is_clause (state_of self.old)) }
    {
        while let Some(last) = self.nodes.last() {
            if !last.ends(level, is_clause) {
                return Ok(());
            }
            let node = self.nodes.pop().unwrap();
            node.close(&mut self.spans, self.to)?;
        }
        Ok(())
    }

    /// The spans of a header, and the node that it begins.
    fn place_header(
        &mut self,
        alloc: Global,
        level: usize,
        header: &Header,
        suite: &Option<Vec<Stmt>>,
        given: &LineSpans<'_>,
    ) -> Result<(), AllocError>
        ensures { OnOk result (state_of self.new ≡ place (state_of self.old) level
            (header_form (header_of header.now) (suite_of suite.now)) (places_of given.now)) }
    {
        put(&mut self.spans, given.before, has_parts(header))?;
        put(&mut self.spans, given.suite, suite.is_some())?;
        self.to = given.whole.to;
        if begins_node(header) {
            let mut following = mem::replace(&mut self.decorators, Vec::new(alloc));
            put(&mut following, given.following, is_definition(header))?;
            let node = OpenNode {
                level,
                is_handler: is_except(header),
                from: given.whole.from,
                following,
            };
            self.nodes.push(node)?;
        }
        Ok(())
    }

    /// The spans of a line, and the node that it begins.
    fn place(
        &mut self,
        alloc: Global,
        level: usize,
        form: &Form,
        given: &LineSpans<'_>,
    ) -> Result<(), AllocError>
        ensures { OnOk result (state_of self.new
            ≡ place (state_of self.old) level (form_of form.now) (places_of given.now)) }
    {
        match form {
            Form::Simple { statements: _ } => {
                put(&mut self.spans, given.suite, true)?;
                self.to = given.whole.to;
                Ok(())
            }
            Form::Decorator { value: _ } => {
                put(&mut self.decorators, given.before, true)?;
                self.to = given.whole.to;
                Ok(())
            }
            Form::Headed { header, suite } => self.place_header(alloc, level, header, suite, given),
        }
    }

    /// Takes the next line.
    fn take(
        &mut self,
        alloc: Global,
        level: usize,
        form: &Form,
        given: &LineSpans<'_>,
    ) -> Result<(), AllocError>
        ensures { OnOk result (state_of self.new
            ≡ step (state_of self.old) (line level (form_of form.now)) (places_of given.now)) }
    {
        self.settle(level, is_clause(form))?;
        self.place(alloc, level, form, given)
    }

    /// Takes the next line: its level, which is the number of levels above 0 that are open at it,
    /// its form, and where it and its parts stand. After an error it is as it was before the first
    /// line.
    ///
    /// # Errors
    ///
    /// [`AllocError`] where there was no memory.
    pub fn step(
        &mut self,
        alloc: Global,
        level: usize,
        form: &Form,
        given: &LineSpans<'_>,
    ) -> Result<(), AllocError>
        ensures ok { OnOk result (state_of self.new
            ≡ step (state_of self.old) (line level (form_of form.now)) (places_of given.now)) }
        ensures err { OnErr result (Follows [] [] self.new) }

        // Of the lines so far.
        ensures follows { (xs : List Line) (zs : List LinePlaces) → Follows xs zs self.old
            → OnOk result (Follows (xs ++ line level (form_of form.now) ∷ [])
            (zs ++ places_of given.now ∷ []) self.new) }
    {
        match self.take(alloc, level, form, given) {
            Ok(()) => Ok(()),
            Err(error) => {
                *self = PlaceStack::new(alloc);
                Err(error)
            }
        }
    }

    /// The spans of the nodes of all lines, after the last one, in the order in which the dump
    /// writes the nodes.
    ///
    /// # Errors
    ///
    /// [`AllocError`] where there was no memory.
    pub fn finish(self) -> Result<Vec<Span>, AllocError>
        ensures ok { IfOk result (λ v. map told v.items ≡ finish (state_of self)) }

        // Of the lines so far, whichever the derivation of their statements.
        ensures placed { (xs : List Line) (zs : List LinePlaces) (ss : List plain.Stmt)
            (b : Block 0 xs ss) → Follows xs zs self
            → IfOk result (λ v. map told v.items ≡ block_places zs b) }
    {
        let mut stack = self;
        stack.settle(0, false)?;
        let PlaceStack {
            spans,
            decorators: _,
            nodes: _,
            to: _,
        } = stack;
        Ok(spans)
    }
}
