//! The places of a tree.

ghost use Rattle.std.specs.Prelude.{◌≡◌, ◌≤◌, ◌<◌, ◌^◌, ℕ, true, map, length, slice_index};
ghost use Rattle.std.specs.Prelude.{slice_index_or, IfOk};
ghost use Rattle.pyplaces.specs.LineStarts.{Rising, attributes_by, byte_by, line_by, line_starts};
ghost use Rattle.pyplaces.specs.PlacesOf.{shown_from};
ghost use Rattle.pyplaces.specs.Recording.{told};
ghost use Rattle.pyplaces.specs.Stretches.{span};
ghost use Rattle.pytree_marked.specs.Taking.{attributes};

use pyparse_marks::Span;
use pysource::Source;
use pytree_marked::Shown;
use std::alloc::{AllocError, Global};
use std::marker::Model;

/// Where the lines of a text start, in bytes.
fn line_starts(alloc: Global, text: &str) -> Result<Vec<u32>, AllocError>
    requires { length text.now < 2 ^ 32 }
    ensures { IfOk result (λ starts. starts.items ≡ line_starts text.now) }
{
    let bytes = text.as_bytes();
    let mut starts: Vec<u32> = Vec::new(alloc);
    starts.push(0)?;
    for i in 0..bytes.len() {
        if bytes[i] == b'\n' {
            starts.push((i + 1) as u32)?;
        }
    }
    Ok(starts)
}

/// How many lines start at an offset or before it.
fn lines_up_to(starts: &[u32], offset: u32) -> usize
    requires { Rising starts.now }
    ensures within { result ≤ length starts.now }
    ensures before { (k : ℕ) → k < result → slice_index starts.now k ≤ offset }
    ensures following { (k : ℕ) → result ≤ k → k < length starts.now → offset < slice_index starts.now k }
{
    let mut low = 0;
    let mut high = starts.len();
    while low < high {
        let middle = low + (high - low) / 2;
        if starts[middle] <= offset {
            low = middle + 1;
        } else {
            high = middle;
        }
    }
    low
}

/// Whether an offset stands in a line, the first line being 1.
#[inline(always)]
fn is_in_line(starts: &[u32], line: usize, offset: u32) -> bool
    requires { Rising starts.now }
    ensures within { result ≡ true → line ≤ length starts.now }
    ensures before { result ≡ true → (k : ℕ) → k < line → slice_index starts.now k ≤ offset }
    ensures following { result ≡ true → (k : ℕ) → line ≤ k → k < length starts.now
        → offset < slice_index starts.now k }
{
    if line == 0 || line > starts.len() {
        return false;
    }
    if starts[line - 1] > offset {
        return false;
    }
    line == starts.len() || offset < starts[line]
}

/// How many lines start at an offset or before it. A number is tried first.
#[inline(always)]
fn lines_from(starts: &[u32], near: usize, offset: u32) -> usize
    requires { Rising starts.now }
    ensures within { result ≤ length starts.now }
    ensures before { (k : ℕ) → k < result → slice_index starts.now k ≤ offset }
    ensures following { (k : ℕ) → result ≤ k → k < length starts.now → offset < slice_index starts.now k }
{
    if is_in_line(starts, near, offset) {
        return near;
    }
    lines_up_to(starts, offset)
}

/// The start of a line, and 0 where there is none.
#[tactic(auto, using(crate::proofs::LineStartLemmas::start_within, crate::proofs::LineStartLemmas::start_past))]
fn start_at(starts: &[u32], at: usize) -> u32
    ensures { result ≡ slice_index starts.now at }
{
    match starts.get(at) {
        Some(start) => *start,
        None => 0,
    }
}

/// The line of an offset, from 1, and the bytes between the line's start and it. A line is tried
/// first.
#[inline(always)]
fn shown_at(starts: &[u32], near: usize, offset: u32) -> (u32, u32)
    requires rising { Rising starts.now }
    requires few { length starts.now < 2 ^ 32 }
    ensures line { result.0 ≡ line_by starts.now offset }
    ensures byte { result.1 ≡ byte_by starts.now offset }
{
    let line = lines_from(starts, near, offset);
    let start = start_at(starts, line.saturating_sub(1));
    (line as u32, offset.saturating_sub(start))
}

/// Where the nodes of a tree stand in its source: the span of each node that has one, those of a
/// node's fields before its own, in the order in which the dump writes them.
#[derive(Drop)]
pub struct Places {
    spans: Vec<Span>,
    /// Where the lines of the source start.
    starts: Vec<u32>,
}

impl Model for Places {
    ghost use Rattle.std.specs.Prelude.{◌<◌, ◌^◌, length, map};
    ghost use Rattle.pyplaces.specs.LineStarts.{Rising};
    ghost use Rattle.pyplaces.specs.PlacesOf.{PlacesOf};
    ghost use Rattle.pyplaces.specs.Recording.{told};

    ghost Value = { PlacesOf };

    ghost view = { λ p. record { spans = map told p.spans.items; starts = p.starts.items } };

    ghost invariant = { λ p. Rising p.starts.items × (length p.starts.items < 2 ^ 32) };
}

impl Places {
    /// The places with these spans, of a tree of a source.
    pub fn new(alloc: Global, source: &Source, spans: Vec<Span>) -> Result<Places, AllocError>
        ensures spans { IfOk result (λ p. p.spans ≡ map told spans.items) }
        ensures starts { IfOk result (λ p. p.starts ≡ line_starts source.now.text) }
    {
        let starts = line_starts(alloc, source.text())?;
        Ok(Places { spans, starts })
    }

    /// How many nodes have a place.
    pub fn len(&self) -> usize
        ensures { result ≡ length self.now.spans }
    {
        self.spans.len()
    }

    /// The span of a node.
    pub fn span(&self, i: usize) -> Span
        requires { i < length self.now.spans }
        ensures { told result ≡ slice_index_or self.now.spans i (span 0 0) }
    {
        self.spans[i]
    }

    /// What is shown of the place of a node.
    pub fn shown(&self, i: usize) -> Shown
        requires { i < length self.now.spans }
        ensures { attributes result
            ≡ attributes_by self.now.starts (slice_index_or self.now.spans i (span 0 0)) }
    {
        self.shown_near(i, 1)
    }

    /// What is shown of the place of a node. A line is tried first where it begins.
    #[inline(always)]
    fn shown_near(&self, i: usize, near: u32) -> Shown
        requires { i < length self.now.spans }
        ensures { attributes result
            ≡ attributes_by self.now.starts (slice_index_or self.now.spans i (span 0 0)) }
    {
        let span = self.span(i);
        let (line, byte) = shown_at(&self.starts, near as usize, span.from);
        let (end_line, end_byte) = shown_at(&self.starts, line as usize, span.to);
        Shown {
            line,
            byte,
            end_line,
            end_byte,
        }
    }
}

/// The places of a tree that its dump has still to take.
#[derive(Drop)]
pub struct PlacesLeft<'a> {
    places: &'a Places,
    next: usize,
    /// The line of the place that was taken last, near which the next one most often begins.
    line: u32,
}

impl<'a> PlacesLeft<'a> {
    /// All places of a tree.
    pub fn new(places: &'a Places) -> PlacesLeft<'a>
        ensures places { result.places.now ≡ places.now }
        ensures next { result.next ≡ 0 }
    {
        PlacesLeft {
            places,
            next: 0,
            line: 1,
        }
    }
}

impl<'a> pytree_marked::PlaceSource for PlacesLeft<'a> {
    ghost left = { λ w. shown_from w.next w.places.now };

    fn is_done(&self) -> bool {
        self.next >= self.places.len()
    }

    fn next(&mut self) -> Option<Shown> {
        if self.next >= self.places.len() {
            return None;
        }
        let place = self.places.shown_near(self.next, self.line);
        self.next += 1;
        self.line = place.line;
        Some(place)
    }
}
