//! The listing of a source, one entry after another.

ghost use Rattle.std.specs.Prelude.{◌≡◌, ◌≢◌, ◌↔◌, IsTrue, ◌+◌, ◌-◌, ◌^◌, ◌<◌, ◌≤◌, length, IfOk};
ghost use Rattle.std.specs.Prelude.{IfErr, IfSome, OnOk, OnErr, Ok, Err, true, slice_index};
ghost use Rattle.std.specs.Str.{chars};
ghost use Rattle.pylex_lexeme.specs.Characters.{line_feed};
ghost use Rattle.pylex_listing.specs.Listing.{last_line, listing, in_characters};
ghost use Rattle.pylex_listing.specs.Laws.{IsLawful, AllLie, HaveExact};
ghost use Rattle.pylex.specs.Standing.{IsCursorOf};
ghost use Rattle.pylex.specs.Listers.{StandsIn, LeadsInto, NextStep, AwaitsIndent};
ghost use Rattle.pylex_listing.specs.Steps.{most_entries};
ghost use Rattle.pylex.specs.Spots.{spot_cursor, at_spot};
ghost use Rattle.pylex.specs.LineStarts.{BeginsLine};

use crate::cursor::{Cursor, CursorFault};
use crate::machine::Machine;
use crate::spots::Spot;
use pylex_lexeme::lexeme::Class;
use pylex_listing::Step;
use pysource::{Place, Source};
use std::alloc::{AllocError, Global};
use std::marker::Model;

/// Whether a text ends in a line feed.
#[inline(always)]
fn ends_in_feed(text: &str) -> bool
    ensures some { result ≡ true → 0 < length text.now }
    ensures last { result ≡ true → slice_index text.now (length text.now - 1) ≡ line_feed }
{
    let bytes = text.as_bytes();
    if bytes.is_empty() {
        return false;
    }
    bytes[bytes.len() - 1] == b'\n'
}

/// The line that a text ends in.
fn last_line(text: &str) -> &str
    ensures line { chars result.now ≡ last_line (chars text.now) }
    ensures within { length result.now ≤ length text.now }
{
    // Most spots that a lister goes to are at the start of a line.
    if ends_in_feed(text) {
        return "";
    }
    match text.rfind('\n') {
        Some(at) => &text[at + 1..],
        None => text,
    }
}

/// Lists the entries of a source, one after another.
#[derive(Drop)]
pub struct Lister<'a> {
    source: &'a Source,
    machine: Machine,
    /// The text after what the lister has looked at.
    left: &'a str,
}

impl<'a> Model for Lister<'a> {
    ghost use Rattle.pylex.specs.Listers.{Listed};
    ghost use Rattle.pylex.specs.Inner.MachineSteps.{shown_from, Holds};

    ghost Value = { Listed };

    ghost view = { λ l. record { source = l.source.now; shown = shown_from l.machine } };

    ghost invariant = { λ l. Holds l.source.now l.machine l.left.now };
}

impl<'a> Lister<'a> {
    /// Begins at the start of a source. No memory is taken.
    pub fn new(alloc: Global, source: &'a Source) -> Lister<'a>
        ensures source { result.source ≡ source.now }
        ensures stands { StandsIn result (in_characters source.now) 0 }
        ensures lawful { IsLawful (in_characters source.now) }
        ensures lies { AllLie source.now.text (listing (in_characters source.now)) }
        ensures exact { HaveExact (in_characters source.now) }
    {
        Lister {
            source,
            machine: Machine::start(alloc),
            left: source.text(),
        }
    }

    /// The next entry, the end, or the fault that ends the listing; after the end or a fault the
    /// same again.
    ///
    /// Memory is taken only where an INDENT comes. If it runs out, the lister is unchanged, and
    /// the call can be repeated.
    pub fn next(&mut self) -> Result<Step, AllocError>
        ensures steps { IfOk result (λ step. NextStep self.old step self.new) }
        ensures source { self.new.source ≡ self.old.source }
        ensures same { OnErr result (self.new ≡ self.old) }
        ensures indent { OnErr result (AwaitsIndent self.old) }
        ensures given { self.new.shown.given ≤ most_entries }
    {
        if self.machine.is_at_start() {
            return Ok(Step::Entry(self.machine.begin()));
        }
        self.left = self.machine.look_on(self.left);
        if let Some((entry, left)) = self.machine.step_on(self.left) {
            self.left = left;
            return Ok(Step::Entry(entry));
        }
        if let Some(step) = self.machine.layout_on(self.left)? {
            return Ok(step);
        }
        self.next_met()
    }

    /// The next step after the first one, of whatever is met.
    #[inline(never)]
    fn next_met(&mut self) -> Result<Step, AllocError>
        requires { 0 < self.old.shown.given }
        ensures steps { IfOk result (λ step. NextStep self.old step self.new) }
        ensures source { self.new.source ≡ self.old.source }
        ensures same { OnErr result (self.new ≡ self.old) }
        ensures indent { OnErr result (AwaitsIndent self.old) }
        ensures given { self.new.shown.given ≤ most_entries }
    {
        let (peeked, now, left) = self.machine.peek(self.left);
        let fault = self.source.line_fault();
        let step = self.machine.advance(peeked, now, left, fault)?;
        if let Step::Entry(_) = step {
            self.left = left;
        }
        Ok(step)
    }

    /// The spot where the lister stands, if that is one within a logical line: there its cursor says
    /// no more, but for the open levels.
    #[inline(always)]
    pub fn spot(&self) -> Option<Spot>
        ensures shown { IfSome result
            (λ s. spot_cursor s self.entry.now.shown.levels ≡ self.entry.now.shown) }
        ensures begun { IfSome result (λ s. s.begun ≡ true) }
        ensures some { IfSome result (λ s. 0 < s.given) }
    {
        self.machine.spot()
    }

    /// The token that begins a line, where its entry comes next: its class, its text, its place, and
    /// the spot after it. It isn't given: the lister stands where it stood.
    ///
    /// None says nothing. It is answered where anything else comes next, as an INDENT, and where a
    /// level was closed since the last entry with text.
    #[inline(always)]
    pub fn begin_line(&mut self) -> Option<(Class, &'a str, Place, Spot)>
        ensures same { self.new ≡ self.old }
        ensures begins { IfSome result
            (λ r. BeginsLine self.old r.0 r.1.now r.2 r.3) }
    {
        if self.machine.is_at_start() {
            return None;
        }
        self.left = self.machine.look_on(self.left);
        self.machine.line_start(self.left)
    }

    /// Goes to a spot of the source at which the levels are open that are open here. The entries
    /// between are not given.
    pub fn go_to(&mut self, spot: Spot)
        requires { LeadsInto (spot_cursor spot self.old.shown.levels) self.old.source }
        ensures { self.new ≡ at_spot self.old.source spot self.old.shown.levels }
    {
        let source = self.source;
        let (before, left) = source.text().split_at(spot.offset);
        self.machine.stand(spot, last_line(before));
        self.left = left;
    }

    /// Whether this is the lister's cursor.
    fn shows(&self, cursor: &Cursor) -> bool
        ensures { IsTrue result ↔ (cursor.now ≡ self.entry.now.shown) }
    {
        self.machine.is_at(cursor)
    }

    /// The lister's cursor: what is kept of the listing after the entries that were given. With it
    /// [`Lister::resume`] resumes in this source.
    pub fn cursor(&self) -> Result<Cursor, AllocError>
        ensures shown { IfOk result (λ cursor. cursor ≡ self.entry.now.shown) }
        ensures leads { IfOk result (λ cursor. LeadsInto cursor self.entry.now.source) }
    {
        self.machine.cursor()
    }

    /// Begins at a cursor's point, with none of the entries given that stand after it.
    fn at_point(
        alloc: Global,
        source: &'a Source,
        cursor: &Cursor,
    ) -> Result<Lister<'a>, AllocError>
        requires { LeadsInto cursor.now source.now }
        ensures { IfOk result
            (λ lister. lister
            ≡ record {
              source = source.now;
              shown = record cursor.now { given = cursor.now.given - cursor.now.skip; skip = 0 };
            }) }
    {
        let point = cursor.point();
        let levels = cursor.levels(alloc)?;
        let (before, left) = source.text().split_at(point.offset);
        let given = cursor.given() - cursor.skip();
        Ok(Lister {
            source,
            machine: Machine::at(given, point, levels, last_line(before)),
            left,
        })
    }

    /// Resumes after a cursor of this source, or of another that agrees with it: of the same
    /// encoding and line fault, and with a text of the same length, in which the line of the
    /// cursor's offset begins at the same place and everything from there on is the same. The lines
    /// before that one are not read.
    pub fn resume(
        alloc: Global,
        source: &'a Source,
        cursor: &Cursor,
    ) -> Result<Lister<'a>, AllocError>
        requires { LeadsInto cursor.now source.now }
        ensures { IfOk result
            (λ lister. lister ≡ record { source = source.now; shown = cursor.now }) }
    {
        let mut lister = Lister::at_point(alloc, source, cursor)?;
        for _given in 0..cursor.skip() {
            let _ = lister.next()?;
        }
        Ok(lister)
    }

    /// Resumes after a cursor of this very source. It lists the source from its start up to there.
    ///
    /// # Errors
    ///
    /// [`CursorFault::AnotherSource`] where the source has no such cursor.
    pub fn resume_checked(
        alloc: Global,
        source: &'a Source,
        cursor: &Cursor,
    ) -> Result<Lister<'a>, CursorFault>
        ensures lister { IfOk result
            (λ lister. lister ≡ record { source = source.now; shown = cursor.now }) }
        ensures own { OnOk result (IsCursorOf cursor.now (in_characters source.now)) }
        ensures leads { OnOk result (LeadsInto cursor.now source.now) }
        ensures another { IfErr result
            (λ fault. fault ≡ CursorFault.AnotherSource
            → IsCursorOf cursor.now (in_characters source.now) → ⊥) }
        ensures fault { IfErr result (λ fault. fault ≢ CursorFault.Text) }
    {
        let mut lister = Lister::new(alloc, source);
        for _given in 0..cursor.given() {
            let step = lister.next()?;
            let Step::Entry(_) = step else {
                return Err(CursorFault::AnotherSource);
            };
        }
        if !lister.shows(cursor) {
            return Err(CursorFault::AnotherSource);
        }
        Ok(lister)
    }
}
