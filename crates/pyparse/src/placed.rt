//! The tree of a source, and where its nodes stand.

ghost use Rattle.std.specs.Prelude.{◌≡◌, ◌+◌, ◌-◌, ◌≤◌, ℕ, List, Some, drop, length, map, slice_get, take};
ghost use Rattle.std.specs.Prelude.{IfOk, IfErr, OnOk};
ghost use Rattle.pylex_listing.specs.Listing as listing;
ghost use Rattle.pylex_listing.specs.Listing.{in_characters};
ghost use Rattle.pytree_node.specs.declared.profiles.Profile.{Profile};
ghost use Rattle.pytree_node.specs.TreeOf.{module_of};
ghost use Rattle.pytoken.specs.Tokens as tokens;
ghost use Rattle.pyparse_marks.specs.LineSpans.{line_spans};
ghost use Rattle.pyparse_marks.specs.Spans.{told};
ghost use Rattle.pyparse_tokens.specs.LineReadings.{HoldsLine};
ghost use Rattle.pyplaces.specs.BlockPlaces.{whole_of};
ghost use Rattle.pyplaces.specs.Laws as places_laws;
ghost use Rattle.pyplaces.specs.Order.{SourcePlacesAreLawful};
ghost use Rattle.pyplaces.specs.Unique.{PlacesAreUnique};
ghost use Rattle.pyparse_block.specs.Modules.{Refuses};
ghost use Rattle.pyparse.specs.Placed.{PlacedAs};
ghost use Rattle.pyparse.specs.Inner.PlacedLines.{IsPlaced};
ghost use Rattle.pyparse_block.specs.Known.{Closes};

use crate::progress::Progress;
use pyparse_line::FormRead;
use pyparse_marks::{Marks, Span};
use pyparse_tokens::{LogicalLines, ParseFault};
use pyplaces::{LineSpans, PlaceStack, Places, Recorded};
use pysource::{Place, Source};
use pytree_node::{Module, Profile};
use std::alloc::{AllocError, Global};

/// A module, and where its nodes stand in the source that it was read from.
#[derive(Drop)]
pub struct Placed {
    module: Module,
    places: Places,
}

impl Placed {
    /// The module.
    pub fn module(&self) -> &Module
        ensures { result.now ≡ self.now.module }
    {
        &self.module
    }

    /// Where its nodes stand.
    pub fn places(&self) -> &Places
        ensures { result.now ≡ self.now.places }
    {
        &self.places
    }

    /// The module, and where its nodes stand.
    pub fn into_parts(self) -> (Module, Places)
        ensures { result ≡ (self.module, self.places) }
    {
        let Placed { module, places } = self;
        (module, places)
    }
}

/// The bytes of a line, from its first terminal to its last.
fn whole_of(marks: &[Span]) -> Span
    ensures { told result ≡ whole_of (map told marks.now) }
{
    match (marks.first(), marks.last()) {
        (Some(first), Some(last)) => Span {
            from: first.from,
            to: last.to,
        },
        _ => Span { from: 0, to: 0 },
    }
}

/// Some of a line's spans.
fn run_of(spans: &[Span], from: usize, to: usize) -> &[Span]
    ensures { from ≤ to → to ≤ length spans.now
        → map told result.now ≡ take (to - from) (drop from (map told spans.now)) }
{
    match spans.get(from..to) {
        Some(run) => run,
        None => &[],
    }
}

/// What is known of a source after some of its logical lines, with the places of their statements.
#[derive(Drop)]
struct PlacedProgress {
    progress: Progress,
    stack: PlaceStack,
}

impl PlacedProgress {
    /// Before the first line. It takes no memory.
    fn new(alloc: Global) -> PlacedProgress
        ensures { (profile : Profile) (s : listing.Source) → IsPlaced profile s 0 result }
    {
        PlacedProgress {
            progress: Progress::new(alloc),
            stack: PlaceStack::new(alloc),
        }
    }

    /// The next line, which is held, and whose terminals have these spans. Where a line has no form,
    /// none after it is asked for one.
    fn take(
        &mut self,
        alloc: Global,
        lines: &LogicalLines<'_>,
        marks: &[Span],
        profile: Profile,
    ) -> Result<(), AllocError>
        ensures { (k : ℕ) → HoldsLine (in_characters lines.now.source) k lines.now
            → ((x : tokens.Line) → slice_get (tokens.lines (in_characters lines.now.source)) k ≡ Some x
            → map told marks.now ≡ line_spans (in_characters lines.now.source).text x)
            → IsPlaced profile (in_characters lines.now.source) k self.old
            → OnOk result (IsPlaced profile (in_characters lines.now.source) (k + 1) self.new) }
    {
        if self.progress.is_unread() {
            return Ok(());
        }
        let mut recorder = Recorded::new(alloc, marks);
        let read = match self.progress.read(alloc, lines, profile, &mut recorder)? {
            Some(read) => read,
            None => return Ok(()),
        };
        let FormRead {
            form,
            before,
            following,
        } = read;
        let spans = recorder.spans();
        let given = LineSpans {
            whole: whole_of(marks),
            before: run_of(spans, 0, before),
            following: run_of(spans, before, following),
            suite: run_of(spans, following, spans.len()),
        };
        let level = lines.level();
        self.stack.step(alloc, level, &form, &given)?;
        self.progress.keep(alloc, level, form, lines.start())?;
        Ok(())
    }

    /// The module with its places, or the first refusal, after the last line: where the source ends.
    fn finish(self, alloc: Global, source: &Source, end: Place) -> Result<Placed, ParseFault>
        ensures placed { (profile : Profile) (k : ℕ) → IsPlaced profile (in_characters source.now) k self
            → Closes profile (in_characters source.now) k end
            → IfOk result (λ p. PlacedAs profile (in_characters source.now) source.now.text
            (module_of p.module) p.places) }
        ensures refused { (profile : Profile) (k : ℕ) → IsPlaced profile (in_characters source.now) k self
            → Closes profile (in_characters source.now) k end
            → IfErr result (Refuses profile (in_characters source.now)) }
    {
        let PlacedProgress { progress, stack } = self;
        match progress.finish(alloc, end) {
            Ok(module) => {
                let places = Places::new(alloc, source, stack.finish()?)?;
                Ok(Placed { module, places })
            }
            Err(fault) => Err(fault),
        }
    }
}

/// The tree of a source, as [`parse`](crate::parse) gives it, and where its nodes stand.
///
/// Of each node that has a place the span is kept, in bytes, in the order in which the dump writes
/// the nodes: 8 bytes a node, and 4 for each line of the source.
///
/// # Errors
///
/// As those of `parse`.
#[tactic(auto, using(pyplaces::proofs::Laws::Law::places_are_lawful, pyplaces::proofs::Order::Law::source_places_are_lawful, pyplaces::proofs::Unique::Law::places_are_unique))]
pub fn parse_placed(alloc: Global, source: &Source, profile: Profile) -> Result<Placed, ParseFault>
    ensures placed { IfOk result (λ p. PlacedAs profile (in_characters source.now) source.now.text
        (module_of p.module) p.places) }
    ensures refused { IfErr result (Refuses profile (in_characters source.now)) }
    ensures places { places_laws.PlacesAreLawful }
    ensures laid_out { SourcePlacesAreLawful }
    ensures unique { PlacesAreUnique }
{
    let mut lines = LogicalLines::new(alloc, source, profile.extent)?;
    let mut marks = Marks::new(alloc);
    let mut progress = PlacedProgress::new(alloc);
    while lines.next_marked(&mut marks)? {
        progress.take(alloc, &lines, marks.as_slice(), profile)?;
    }
    progress.finish(alloc, source, lines.end())
}
