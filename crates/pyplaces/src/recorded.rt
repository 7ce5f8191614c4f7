//! The spans of nodes, while they are recorded.

ghost use Rattle.std.specs.Prelude.{◌≡◌, ◌++◌, map, take, drop, OnOk};
ghost use Rattle.pyplaces.specs.Recording.{told};
ghost use Rattle.pyplaces.specs.Stretches.{span_after};

use crate::recorders::Recorder;
use crate::row_ends::row_end;
use pyparse_marks::Span;
use pytoken::Terminal;
use std::alloc::{AllocError, Global};
use std::marker::Model;

/// The spans of nodes so far, those that are set aside, and those of the terminals of the line that
/// is read.
#[derive(Drop)]
pub struct Recorded<'a> {
    alloc: Global,
    marks: &'a [Span],
    spans: Vec<Span>,
    aside: Vec<Span>,
}

impl<'a> Model for Recorded<'a> {
    ghost use Rattle.std.specs.Prelude.{map};
    ghost use Rattle.pyplaces.specs.Recording.{Recording, told};

    ghost Value = { Recording };

    ghost view = { λ w. record {
      marks = map told w.marks.now;
      spans = map told w.spans.items;
      aside = map told w.aside.items;
    } };
}

impl<'a> Recorded<'a> {
    ghost use Rattle.std.specs.Prelude.{[]};
    ghost use Rattle.pyplaces.specs.Recording.{recording};

    /// Nothing is recorded of a line whose terminals have these spans. It takes no memory.
    pub fn new(alloc: Global, marks: &'a [Span]) -> Recorded<'a>
        ensures { result ≡ recording (map told marks.now) [] [] }
    {
        Recorded {
            alloc,
            marks,
            spans: Vec::new(alloc),
            aside: Vec::new(alloc),
        }
    }

    /// The spans of the nodes that are recorded, in the order in which the dump writes them.
    pub fn spans(&self) -> &[Span]
        ensures { map told result.now ≡ self.now.spans }
    {
        self.spans.as_slice()
    }
}

/// The span of a terminal, and an empty one where there is none.
#[tactic(auto, using(crate::proofs::MarkLemmas::mark_within, crate::proofs::MarkLemmas::mark_past))]
fn mark_at(marks: &[Span], at: usize) -> Span
    ensures { told result ≡ span_after at (map told marks.now) }
{
    match marks.get(at) {
        Some(mark) => *mark,
        None => Span { from: 0, to: 0 },
    }
}

/// Moves all spans but the first `from` to the end of others.
fn move_spans(spans: &mut Vec<Span>, from: usize, others: &mut Vec<Span>) -> Result<(), AllocError>
    ensures { OnOk result ((spans.new.items ≡ take from spans.old.items)
        × (others.new.items ≡ others.old.items ++ drop from spans.old.items)) }
{
    if let Some(moved) = spans.get(from..) {
        others.extend_from_slice(moved)?;
    }
    spans.truncate(from);
    Ok(())
}

impl<'a> Recorder for Recorded<'a> {
    ghost use Rattle.std.specs.Prelude.{length, refl};
    ghost use Rattle.pyplaces.specs.Recording.{emptied, put_aside, recorded};

    ghost after = { recorded };

    ghost beside = { put_aside };

    ghost recorded_count = { λ w. length w.spans };

    ghost aside_count = { λ w. length w.aside };

    ghost emptied = { emptied };

    fn node(&mut self, first: usize, next: usize) -> Result<(), AllocError> {
        let from = mark_at(self.marks, first).from;
        let to = mark_at(self.marks, next.saturating_sub(1)).to;
        self.spans.push(Span { from, to })?;
        Ok(())
    }

    fn recorded(&self) -> usize {
        self.spans.len()
    }

    fn aside(&self) -> usize {
        self.aside.len()
    }

    fn set_aside(&mut self, from: usize) -> Result<(), AllocError> {
        move_spans(&mut self.spans, from, &mut self.aside)
    }

    fn take_back(&mut self, from: usize) -> Result<(), AllocError> {
        move_spans(&mut self.aside, from, &mut self.spans)
    }

    fn row_end(&self, tokens: &[Terminal], at: usize) -> usize {
        row_end(tokens, at)
    }

    fn fresh(&self) -> Result<Self, AllocError> {
        Ok(Recorded {
            alloc: self.alloc,
            marks: self.marks,
            spans: Vec::new(self.alloc),
            aside: Vec::new(self.alloc),
        })
    }

    fn add(&mut self, mut other: Self) -> Result<(), AllocError> {
        move_spans(&mut other.spans, 0, &mut self.spans)
    }

    ghost apart = { λ w s t. refl };

    ghost recorded_still = { λ w s. refl };

    ghost aside_still = { λ w s. refl };
}
