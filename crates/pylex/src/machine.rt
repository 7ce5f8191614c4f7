//! Where a lister stands in a listing, and its steps from there: what all listers share, whatever
//! text they hold.

ghost use Rattle.std.specs.Prelude.{◌≡◌, ℕ, ◌+◌, ◌-◌, ◌^◌, ◌<◌, ◌≤◌, true, false, List, [], ◌∷◌};
ghost use Rattle.std.specs.Prelude.{◌++◌, length, take, OnOk, OnErr, IfOk};
ghost use Rattle.std.specs.Prelude.{None, IfSome, IsTrue, ◌↔◌};
ghost use Rattle.std.specs.Str.{chars};
ghost use Rattle.pylex_listing.specs.Listing.{origin};
ghost use Rattle.pylex_listing.specs.Machine.{first_state, mark_at};
ghost use Rattle.pylex.specs.Standing.{resumed};
ghost use Rattle.pylex.specs.LineState.{Stands, IsAscending, Peek, StopAhead, HasRoom, Following};
ghost use Rattle.pylex.specs.LineState.{with_levels};
ghost use Rattle.pylex.specs.Listers.{shown_by, shown_at};
ghost use Rattle.pylex.specs.Spots.{spot_cursor};
ghost use Rattle.pylex.specs.Inner.MachineSteps.{FaultsFirst, HasPlace, IsSame, StepsOn, Advance};
ghost use Rattle.pylex.specs.Inner.MachineSteps.{StaysAfter, LooksOn, shown_from};
ghost use Rattle.pylex.specs.Inner.LineLayouts.{LaysOut, AwaitsLevel};
ghost use Rattle.pylex.specs.Inner.LineStarting.{LineStart};

use crate::cursor::{Cursor, CursorPoint};
use crate::ends::end_step;
use crate::line_state::LineState;
use crate::peeked::{Indentation, Peeked, entry_on, indentation_for, past_spaces, peek, settle};
use crate::spots::{Spot, start_lexeme};
use pylex_lexeme::lexeme::{Class, begins_significant};
use pylex_listing::{Entry, Kind, Step, entry_of, mark};
use pysource::{LineFault, Place};
use std::alloc::{AllocError, Global};

/// Opens a level above the first ones. Where more stood there no memory is taken.
fn open_level(levels: &mut Vec<usize>, nested: usize, width: usize) -> Result<(), AllocError>
    requires { nested ≤ length levels.old.items }
    ensures ok { OnOk result (levels.new.items ≡ take nested levels.old.items ++ width ∷ []) }
    ensures same { OnErr result (levels.new.items ≡ levels.old.items) }
{
    if nested == levels.len() {
        return levels.push(width).map_err(|_| AllocError);
    }
    levels.truncate(nested + 1);
    levels[nested] = width;
    Ok(())
}

/// What a lister has given, and how far it has looked from there.
#[derive(Drop)]
pub struct Machine {
    /// How many entries were given.
    given: usize,
    /// The point of the lister's cursor.
    point: CursorPoint,
    /// The levels above 0 that are open at the point.
    levels: Vec<usize>,
    /// How far the lister has looked from there: past lexemes that give nothing, and DEDENTs that
    /// were given.
    now: LineState,
    /// How many of the levels are open there.
    nested: usize,
    /// How many entries of the end were given.
    tail: usize,
}

impl Machine {
    /// At the start of a source. No memory is taken.
    pub(crate) fn start(alloc: Global) -> Machine
        ensures given { result.given ≡ 0 }
        ensures point { (k : ℕ) (levels : List ℕ)
            → shown_by k result.point levels 0 ≡ shown_at k (with_levels result.now (0 ∷ levels)) }
        ensures levels { result.levels.items ≡ [] }
        ensures now { with_levels result.now (0 ∷ []) ≡ first_state }
        ensures nested { result.nested ≡ 0 }
        ensures tail { result.tail ≡ 0 }
    {
        let now = LineState::start();
        Machine {
            given: 0,
            point: CursorPoint::at(now),
            levels: Vec::new(alloc),
            now,
            nested: 0,
            tail: 0,
        }
    }

    /// At the point of a cursor, where nothing after it is looked at.
    pub(crate) fn at(given: usize, point: CursorPoint, levels: Vec<usize>, line: &str) -> Machine
        requires { length line.now < 2 ^ 62 }
        ensures given { result.given ≡ given }
        ensures point { result.point ≡ point }
        ensures levels { result.levels ≡ levels }
        ensures now { (k n : ℕ) (levels : List ℕ)
            → with_levels result.now (0 ∷ levels)
            ≡ resumed (shown_by k point levels n) (chars line.now) }
        ensures nested { result.nested ≡ length levels.items }
        ensures tail { result.tail ≡ 0 }
    {
        let nested = levels.len();
        Machine {
            given,
            point,
            levels,
            now: point.line_state(line),
            nested,
            tail: 0,
        }
    }

    /// The spot where the lister stands, if that is one within a logical line.
    #[inline(always)]
    pub(crate) fn spot(&self) -> Option<Spot>
        ensures shown { IfSome result
            (λ s. spot_cursor s (0 ∷ self.entry.now.levels.items) ≡ shown_from self.entry.now) }
        ensures begun { IfSome result (λ s. s.begun ≡ true) }
        ensures some { IfSome result (λ s. 0 < s.given) }
    {
        if self.given == 0 || self.tail > 0 || self.nested < self.levels.len() {
            return None;
        }
        if !self.point.begun {
            return None;
        }
        Some(Spot {
            given: self.given,
            offset: self.point.offset,
            row: self.point.row,
            depth: self.point.depth,
            begun: true,
        })
    }

    /// Stands at a spot, with the levels that are open, where nothing after it is looked at. The
    /// spot's line so far is this.
    pub(crate) fn stand(&mut self, spot: Spot, line: &str)
        requires { length line.now < 2 ^ 62 }
        ensures given { self.new.given ≡ spot.given }
        ensures point { (k n : ℕ) (levels : List ℕ)
            → shown_by k self.new.point levels n
            ≡ record (spot_cursor spot (0 ∷ levels)) { given = k; skip = n } }
        ensures levels { self.new.levels ≡ self.old.levels }
        ensures now { (k n : ℕ) (levels : List ℕ)
            → with_levels self.new.now (0 ∷ levels)
            ≡ resumed (shown_by k self.new.point levels n) (chars line.now) }
        ensures nested { self.new.nested ≡ length self.old.levels.items }
        ensures tail { self.new.tail ≡ 0 }
    {
        let point = CursorPoint {
            offset: spot.offset,
            row: spot.row,
            depth: spot.depth,
            begun: spot.begun,
        };
        self.given = spot.given;
        self.point = point;
        self.now = point.line_state(line);
        self.nested = self.levels.len();
        self.tail = 0;
    }

    /// Whether no entry was given.
    #[inline(always)]
    pub(crate) fn is_at_start(&self) -> bool
        ensures start { result ≡ true → self.entry.now.given ≡ 0 }
        ensures following { result ≡ false → 0 < self.entry.now.given }
    {
        self.given == 0
    }

    /// Gives the entry of the encoding, the first one.
    #[inline(always)]
    pub(crate) fn begin(&mut self) -> Entry
        ensures entry { mark_at Kind.Encoding 0 origin origin ≡ Step.Entry result }
        ensures given { self.new ≡ record self.old { given = 1 } }
    {
        self.given = 1;
        let origin = Place { row: 0, column: 0 };
        mark(Kind::Encoding, 0, origin, origin)
    }

    /// How far the lister has looked from the point.
    #[inline(always)]
    pub(crate) fn now(&self) -> LineState
        ensures { result ≡ self.entry.now.now }
    {
        self.now
    }

    /// Looks past the spaces that a line begins with, and past its margin where its first token
    /// stands at the last open level. What is left of the text there.
    #[inline(always)]
    pub(crate) fn look_on<'a>(&mut self, text: &'a str) -> &'a str
        requires place { HasPlace self.old }
        requires stands { Stands self.old.now text.now }
        ensures { LooksOn self.old text.now self.new result.now }
    {
        if self.tail > 0 || !self.now.margin {
            return text;
        }
        let left = past_spaces(&mut self.now, text);
        let levels = &self.levels.as_slice()[..self.nested];
        settle(&mut self.now, levels, left);
        left
    }

    /// Continues from here at the next look.
    #[inline(always)]
    pub(crate) fn look_from(&mut self, now: LineState)
        ensures { self.new ≡ record self.old { now = now } }
    {
        self.now = now;
    }

    /// Gives the entry of the next lexeme that gives one, where that stands after a line's margin or
    /// is no significant token, and the text that is left there. Otherwise nothing is changed.
    #[inline(always)]
    pub(crate) fn step_on<'a>(&mut self, text: &'a str) -> Option<(Entry, &'a str)>
        requires some { 0 < self.old.given }
        requires place { HasPlace self.old }
        requires stands { Stands self.old.now text.now }
        ensures some { IfSome result (λ r. StepsOn self.old text.now r.0 self.new r.1.now) }
        ensures none { result ≡ None → self.new ≡ self.old }
    {
        if self.tail > 0 {
            return None;
        }
        let mut now = self.now;
        let (entry, left) = entry_on(&mut now, text)?;
        self.levels.truncate(self.nested);
        self.given += 1;
        self.point.stand(now);
        self.now.begin_anew(now);
        Some((entry, left))
    }

    /// Gives the INDENT or the next DEDENT of a line whose first significant token stands here.
    /// Otherwise nothing is changed.
    ///
    /// Memory is taken only for an INDENT; if it runs out, nothing is changed.
    #[inline(always)]
    pub(crate) fn layout_on(&mut self, text: &str) -> Result<Option<Step>, AllocError>
        requires some { 0 < self.old.given }
        requires place { HasPlace self.old }
        requires stands { Stands self.old.now text.now }
        ensures some { IfOk result
            (λ r. IfSome r (λ step. LaysOut self.old text.now step self.new)) }
        ensures none { IfOk result (λ r. r ≡ None → self.new ≡ self.old) }
        ensures same { OnErr result (IsSame self.old self.new) }
        ensures indent { OnErr result (AwaitsLevel self.old text.now) }
    {
        if self.tail > 0 || !self.now.margin || !begins_significant(text) {
            return Ok(None);
        }
        let levels = &self.levels.as_slice()[..self.nested];
        match indentation_for(self.now.width, levels) {
            Indentation::Indent => {
                let step = self.advance(Peeked::Indent, self.now, text, None)?;
                Ok(Some(step))
            }
            Indentation::Dedent => {
                let step = self.advance(Peeked::Dedent, self.now, text, None)?;
                Ok(Some(step))
            }
            Indentation::Level | Indentation::Mismatch => Ok(None),
        }
    }

    /// The token that begins a line, where its entry comes next: its class, its text, its place, and
    /// the spot after it.
    #[inline(always)]
    pub(crate) fn line_start<'a>(&self, text: &'a str) -> Option<(Class, &'a str, Place, Spot)>
        requires place { HasPlace self.now }
        requires stands { Stands self.now.now text.now }
        ensures { IfSome result
            (λ r. LineStart self.entry.now text.now r.0 r.1.now r.2 r.3) }
    {
        if self.tail > 0 || self.nested < self.levels.len() || self.now.margin {
            return None;
        }
        start_lexeme(self.now, self.given, text)
    }

    /// What is met next in a text, and how far from it.
    #[inline(always)]
    pub(crate) fn peek<'a>(&self, text: &'a str) -> (Peeked, LineState, &'a str)
        requires stands { Stands self.now.now text.now }
        requires ascending { IsAscending 0 self.now.levels.items }
        requires within { self.now.nested ≤ length self.now.levels.items }
        requires stop { 0 < self.now.tail → StopAhead self.now.now (chars text.now) }
        ensures finds { Peek
            (take self.entry.now.nested self.entry.now.levels.items) self.entry.now.now
            (chars text.now) result.0 result.1 (chars result.2.now) }
        ensures stands { Stands result.1 result.2.now }
        ensures room { (n : ℕ) → HasRoom self.entry.now.now (length text.now + n)
            → HasRoom result.1 (length result.2.now + n) }
        ensures following { Following text.now result.2.now }
        ensures stop { 0 < self.entry.now.tail → result.0 ≡ Peeked.Stop }
        ensures stay { 0 < self.entry.now.tail
            → (result.1 ≡ self.entry.now.now) × (result.2.now ≡ text.now) }
    {
        let levels = &self.levels.as_slice()[..self.nested];
        peek(self.tail, self.now, levels, text)
    }

    /// Advances past what was met, where that gives an entry. `left` is the text that is left
    /// there, and `fault` that of the line after it.
    ///
    /// Memory is taken only for an INDENT; if it runs out, nothing is changed.
    #[inline(always)]
    pub(crate) fn advance(
        &mut self,
        peeked: Peeked,
        now: LineState,
        left: &str,
        fault: Option<LineFault>,
    ) -> Result<Step, AllocError>
        requires some { 0 < self.old.given }
        requires place { HasPlace self.old }
        requires stands { Stands now left.now }
        requires stop { peeked ≡ Peeked.Stop → StopAhead now (chars left.now) }
        requires tail { 0 < self.old.tail → peeked ≡ Peeked.Stop }
        requires dedent { peeked ≡ Peeked.Dedent → 0 < self.old.nested }
        ensures went { IfOk result
            (λ step. Advance self.old peeked now left.now fault step self.new) }
        ensures fault { IfOk result (FaultsFirst peeked fault) }
        ensures stays { IfOk result (StaysAfter self.old peeked self.new) }
        ensures same { OnErr result (IsSame self.old self.new) }
        ensures indent { OnErr result (peeked ≡ Peeked.Indent) }
    {
        match peeked {
            Peeked::Entry(entry) => {
                self.levels.truncate(self.nested);
                self.given += 1;
                self.point = CursorPoint::at(now);
                self.now = now.begun_anew();
                Ok(Step::Entry(entry))
            }
            Peeked::Fault(fault) => Ok(Step::Fault(fault)),
            Peeked::Indent => {
                open_level(&mut self.levels, self.nested, now.width)?;
                let measured = now.measured();
                self.given += 1;
                self.point = CursorPoint::at(measured);
                self.now = measured.begun_anew();
                self.nested = self.levels.len();
                Ok(Step::Entry(entry_of(Kind::Indent, None, now.line, now.now)))
            }
            Peeked::Dedent => {
                self.given += 1;
                self.now = now;
                self.nested -= 1;
                let place = now.now.place;
                Ok(Step::Entry(mark(Kind::Dedent, now.now.offset, place, place)))
            }
            Peeked::Stop => {
                let step = end_step(now, left, fault, self.nested, self.tail);
                if let Step::Entry(_) = step {
                    self.given += 1;
                    self.now = now;
                    self.tail += 1;
                }
                Ok(step)
            }
        }
    }

    /// How many entries without text were given after the point.
    pub(crate) fn skip(&self) -> usize
        requires { HasPlace self.now }
        ensures { result
            ≡ (length self.entry.now.levels.items - self.entry.now.nested) + self.entry.now.tail }
    {
        self.levels.len() - self.nested + self.tail
    }

    /// Whether this is the cursor of the machine.
    pub(crate) fn is_at(&self, cursor: &Cursor) -> bool
        requires { HasPlace self.now }
        ensures { IsTrue result ↔ (cursor.now ≡ shown_from self.entry.now) }
    {
        cursor.is_at(self.given, self.point, self.levels.as_slice(), self.skip())
    }

    /// The cursor of the machine.
    pub(crate) fn cursor(&self) -> Result<Cursor, AllocError>
        requires place { HasPlace self.now }
        requires row { 1 ≤ self.now.point.row }
        ensures { IfOk result (λ cursor. cursor ≡ shown_from self.entry.now) }
    {
        Cursor::at(
            *self.levels.allocator(),
            self.given,
            self.point,
            self.levels.as_slice(),
            self.skip(),
        )
    }
}
