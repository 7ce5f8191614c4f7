//! How far a lister has come in a text.

ghost use Rattle.std.specs.Prelude.{◌≡◌, ℕ, ◌+◌, ◌-◌, ◌*◌, ◌^◌, ◌<◌, ◌≤◌, ◌&&◌, ◌||◌, not, ◌==◌};
ghost use Rattle.std.specs.Prelude.{if◌then◌else◌, List, [], ◌∷◌, length, false, true, IfSome};
ghost use Rattle.std.specs.Str.{chars};
ghost use Rattle.pylex_listing.specs.Indentation.{width_from};
ghost use Rattle.pylex_lexeme.specs.Lexemes.{is_significant_class, is_blanks_class, is_line_end_class};
ghost use Rattle.pylex_lexeme.specs.Lexemes.{is_opener_class, is_closer_class};
ghost use Rattle.pylex_lexeme.specs.Chars.{bytes_in};
ghost use Rattle.pylex_lexeme.specs.Operators.{is_closer};
ghost use Rattle.pylex_listing.specs.Machine.{past, after, entry_by, still, pushed, first_state};
ghost use Rattle.pylex_listing.specs.Machine.{last_line_end, last_place, line_end_kind_of};
ghost use Rattle.pylex_listing.specs.Listing.{row_after};
ghost use Rattle.pylex.specs.LineState.{with_levels, measured, begun_anew, given, HasRoom};
ghost use Rattle.pylex.specs.Inner.Plain.{AreSpaces};
ghost use Rattle.pylex.specs.Inner.Told.{Tells, Passed, GivesEntry, is_text, text_kind};
ghost use Rattle.pylex_listing.specs.Lines.{count_if};

use crate::entries::Emitted;
use crate::leading_char::{walk, walk_lexeme};
use crate::measures::width_after;
use pylex_lexeme::lexeme::Class;
use pylex_listing::{
    Entry, Exact, Kind, LeadingChar, ListingError, ListingFault, Point, entry_of, mark,
};
use pysource::Place;

/// How far a lister has come, its open levels aside.
#[derive(Clone, Copy, Debug, PartialEq, Eq)]
pub struct LineState {
    pub now: Point,
    /// Where the measured line begins.
    pub line: Point,
    /// How many brackets are open.
    pub depth: usize,
    /// The width of the blanks in the margin; 0 past it.
    pub width: usize,
    /// Only blanks stand before this place in its measured line.
    pub margin: bool,
    /// The line holds more than blanks and a comment so far.
    pub logical: bool,
    /// The last lexeme was a backslash and a line end.
    pub joined: bool,
    pub lead: LeadingChar,
}

/// The type of the entry of a lexeme that is given as it stands, operators aside.
#[inline(always)]
fn text_kind(class: Class) -> Kind
    ensures { result ≡ text_kind class }
{
    match class {
        Class::Name => Kind::Name,
        Class::Number => Kind::Number,
        Class::String => Kind::String,
        _ => Kind::Comment,
    }
}

impl LineState {
    /// At the start of a text.
    pub(crate) fn start() -> LineState
        ensures { with_levels result (0 ∷ []) ≡ first_state }
    {
        let point = Point {
            place: Place { row: 1, column: 0 },
            offset: 0,
        };
        LineState {
            now: point,
            line: point,
            depth: 0,
            margin: true,
            width: 0,
            logical: false,
            joined: false,
            lead: LeadingChar::Nothing,
        }
    }

    /// After the layout before the first significant token of a logical line.
    pub(crate) fn measured(self) -> LineState
        ensures measured { (levels : List ℕ)
            → with_levels result (pushed self.width levels) ≡ measured (with_levels self levels) }
        ensures room { (n : ℕ) → HasRoom self n → HasRoom result n }
    {
        LineState {
            margin: false,
            width: 0,
            logical: true,
            ..self
        }
    }

    /// Goes past the layout before the first significant token of a logical line.
    #[inline(always)]
    pub(crate) fn measure(&mut self)
        ensures measured { (levels : List ℕ)
            → with_levels self.new (pushed self.old.width levels)
            ≡ measured (with_levels self.old levels) }
        ensures room { (n : ℕ) → HasRoom self.old n → HasRoom self.new n }
    {
        self.margin = false;
        self.width = 0;
        self.logical = true;
    }

    /// Directly after an entry with text: a line is yet to be measured only at its start.
    pub(crate) fn begun_anew(self) -> LineState
        ensures begun { (levels : List ℕ)
            → with_levels result levels ≡ begun_anew (with_levels self levels) }
        ensures room { (n : ℕ) → HasRoom self n → HasRoom result n }
    {
        LineState {
            line: self.now,
            margin: !self.logical && self.now.place.column == 0,
            width: 0,
            joined: false,
            ..self
        }
    }

    /// The depth after a lexeme.
    #[inline(always)]
    fn depth_after(self, class: Class) -> usize
        requires { self.depth < 2 ^ 62 }
        ensures { result
            ≡ self.depth + count_if (is_opener_class class) - count_if (is_closer_class class) }
    {
        if class.is_opener() {
            return self.depth + 1;
        }
        if class.is_closer() {
            return self.depth.saturating_sub(1);
        }
        self.depth
    }

    /// The type of the entry of a line end.
    #[inline(always)]
    fn line_end_kind(self) -> Kind
        ensures { (levels : List ℕ) → line_end_kind_of (with_levels self levels) ≡ result }
    {
        if self.logical && self.depth == 0 {
            Kind::Newline
        } else {
            Kind::Nl
        }
    }

    /// What a lexeme gives that ends at a point: an entry, nothing, or the fault of a closing
    /// bracket where none is open.
    #[tactic(auto, unfolding(pylex_listing::specs::Machine::entry_by))]
    #[inline(always)]
    pub(crate) fn give(self, class: Class, text: &str, end: Point) -> Emitted
        requires room { HasRoom self (length text.now) }
        requires end { end ≡ past self.now (chars text.now) }
        requires counted { bytes_in (chars text.now) ≡ length text.now }
        ensures { (levels : List ℕ)
            → entry_by (with_levels self levels) (record { «class» = class; text = chars text.now })
            ≡ given result }
    {
        let (kind, exact) = match class {
            Class::Blanks | Class::Join => return Emitted::Nothing,
            Class::LineEnd => {
                let kind = if self.logical && self.depth == 0 {
                    Kind::Newline
                } else {
                    Kind::Nl
                };
                return Emitted::Entry(entry_of(kind, None, self.now, self.now.following(text)));
            }
            Class::Operator(operator) => {
                if self.depth == 0 && operator.is_closer() {
                    return Emitted::Fault(ListingFault {
                        code: ListingError::UnmatchedCloser,
                        place: self.now.place,
                    });
                }
                (Kind::Op, Some(operator))
            }
            Class::Name => (Kind::Name, None),
            Class::Number => (Kind::Number, None),
            Class::String => (Kind::String, None),
            Class::Comment => (Kind::Comment, None),
        };
        Emitted::Entry(entry_of(kind, exact, self.now, end))
    }

    /// Whether a lexeme ends the measured line.
    fn ends_line(self, class: Class) -> bool
        ensures { result ≡ (is_line_end_class class && (self.depth == 0)) }
    {
        class.is_line_end() && self.depth == 0
    }

    /// Where the measured line begins after a lexeme that ends here.
    fn line_after(self, class: Class, now: Point) -> Point
        ensures { result
            ≡ (if is_line_end_class class && (self.depth == 0) then now else self.line) }
    {
        if self.ends_line(class) {
            now
        } else {
            self.line
        }
    }

    /// Whether only blanks stand in the measured line after a lexeme.
    fn margin_after(self, class: Class) -> bool
        ensures { result
            ≡ ((is_line_end_class class && (self.depth == 0)) ||
            (is_blanks_class class && self.margin)) }
    {
        self.ends_line(class) || class.is_blanks() && self.margin
    }

    /// The width of these blanks.
    fn width_past(self, class: Class, text: &str) -> usize
        requires { self.width + 8 * length text.now < 2 ^ 63 }
        ensures value { result
            ≡ still (is_blanks_class class && self.margin)
            (width_from self.width (chars text.now)) }
        ensures bound { result ≤ self.width + 8 * length text.now }
    {
        if class.is_blanks() && self.margin {
            width_after(self.width, text)
        } else {
            0
        }
    }

    /// Whether the line holds more than blanks and a comment after a lexeme.
    fn logical_after(self, class: Class) -> bool
        ensures { result
            ≡ (not (is_line_end_class class && (self.depth == 0)) &&
            (is_significant_class class || self.logical)) }
    {
        !self.ends_line(class) && (class.is_significant() || self.logical)
    }

    /// How far the lister has come after a lexeme.
    #[inline(always)]
    pub(crate) fn after(self, class: Class, text: &str) -> LineState
        requires room { HasRoom self (length text.now) }
        requires counted { bytes_in (chars text.now) ≡ length text.now }
        requires some { 0 < length text.now }
        requires settled { (self.margin && is_significant_class class) ≡ false }
        requires told { Tells class text.now }
        ensures after { (levels : List ℕ)
            → with_levels result levels
            ≡ after (with_levels self levels) (record { «class» = class; text = chars text.now }) }
        ensures now { result.now ≡ past self.now (chars text.now) }
        ensures room { (n : ℕ) → HasRoom self (length text.now + n) → HasRoom result n }
    {
        let (place, lead) = walk_lexeme(self.now.place, self.lead, class, text);
        let now = Point {
            place,
            offset: self.now.offset + text.len(),
        };
        LineState {
            now,
            line: self.line_after(class, now),
            depth: self.depth_after(class),
            margin: self.margin_after(class),
            width: self.width_past(class, text),
            logical: self.logical_after(class),
            joined: class.is_join(),
            lead,
        }
    }

    /// Goes past spaces in a line's margin.
    #[inline(always)]
    pub(crate) fn pass_spaces(&mut self, spaces: &str)
        requires room { HasRoom self.old (length spaces.now) }
        requires counted { bytes_in (chars spaces.now) ≡ length spaces.now }
        requires margin { self.old.margin ≡ true }
        requires spaces { AreSpaces spaces.now }
        ensures passed { Passed self.old Class.Blanks (chars spaces.now) self.new }
        ensures margin { self.new.margin ≡ true }
        ensures room { (n : ℕ) → HasRoom self.old (length spaces.now + n) → HasRoom self.new n }
    {
        self.now.place.column += spaces.len();
        self.now.offset += spaces.len();
        self.width += spaces.len();
        self.joined = false;
    }

    /// Goes past blanks after a line's margin.
    #[inline(always)]
    pub(crate) fn pass_blanks(&mut self, text: &str)
        requires room { HasRoom self.old (length text.now) }
        requires counted { bytes_in (chars text.now) ≡ length text.now }
        requires following { self.old.margin ≡ false }
        requires told { Tells Class.Blanks text.now }
        ensures { Passed self.old Class.Blanks (chars text.now) self.new }
    {
        self.now.place.column += text.len();
        self.now.offset += text.len();
        self.width = 0;
        self.joined = false;
    }

    /// Goes past a backslash and a line end after a line's margin.
    #[inline(always)]
    pub(crate) fn pass_join(&mut self, text: &str)
        requires room { HasRoom self.old (length text.now) }
        requires counted { bytes_in (chars text.now) ≡ length text.now }
        requires following { self.old.margin ≡ false }
        requires told { Tells Class.Join text.now }
        ensures { Passed self.old Class.Join (chars text.now) self.new }
    {
        self.now.place.row += 1;
        self.now.place.column = 0;
        self.now.offset += text.len();
        self.width = 0;
        self.logical = true;
        self.joined = true;
        self.lead = LeadingChar::Nothing;
    }

    /// Whether an operator closes a bracket where none is open.
    #[inline(always)]
    fn is_unmatched(self, operator: Exact) -> bool
        ensures { result ≡ (is_closer operator && (self.depth == 0)) }
    {
        operator.is_closer() && self.depth == 0
    }

    /// Goes past an operator after a line's margin, and gives its entry; none where it closes a
    /// bracket and none is open.
    #[inline(always)]
    fn pass_operator(&mut self, operator: Exact, text: &str) -> Option<Entry>
        requires room { HasRoom self.old (length text.now) }
        requires counted { bytes_in (chars text.now) ≡ length text.now }
        requires following { self.old.margin ≡ false }
        requires told { Tells (Class.Operator operator) text.now }
        requires some { 0 < length text.now }
        ensures passed { IfSome result
            (λ e. Passed self.old (Class.Operator operator) (chars text.now) self.new) }
        ensures entry { IfSome result
            (λ e. GivesEntry self.old (Class.Operator operator) (chars text.now) e) }
    {
        if self.is_unmatched(operator) {
            return None;
        }
        let start = self.now;
        self.depth = self.depth_after(Class::Operator(operator));
        self.now.place.column += text.len();
        self.now.offset += text.len();
        self.width = 0;
        self.logical = true;
        self.joined = false;
        self.lead = self.lead.begun();
        Some(entry_of(Kind::Op, Some(operator), start, self.now))
    }

    /// Goes past another lexeme with an entry, after a line's margin.
    #[inline(always)]
    fn pass_text(&mut self, class: Class, text: &str) -> Entry
        requires room { HasRoom self.old (length text.now) }
        requires counted { bytes_in (chars text.now) ≡ length text.now }
        requires following { self.old.margin ≡ false }
        requires class { is_text class ≡ true }
        ensures passed { Passed self.old class (chars text.now) self.new }
        ensures entry { GivesEntry self.old class (chars text.now) result }
    {
        let start = self.now;
        let (place, lead) = walk(start.place, self.lead, text);
        self.now.place = place;
        self.now.offset += text.len();
        self.width = 0;
        self.logical = self.logical_after(class);
        self.joined = false;
        self.lead = lead;
        entry_of(text_kind(class), None, start, self.now)
    }

    /// Goes past a line end after a line's margin.
    #[inline(always)]
    fn pass_line_end(&mut self, text: &str) -> Entry
        requires room { HasRoom self.old (length text.now) }
        requires counted { bytes_in (chars text.now) ≡ length text.now }
        requires following { self.old.margin ≡ false }
        requires told { Tells Class.LineEnd text.now }
        requires some { 0 < length text.now }
        ensures passed { Passed self.old Class.LineEnd (chars text.now) self.new }
        ensures entry { GivesEntry self.old Class.LineEnd (chars text.now) result }
    {
        let start = self.now;
        let kind = self.line_end_kind();
        let end = Point {
            place: Place {
                row: start.place.row,
                column: start.place.column + text.len(),
            },
            offset: start.offset + text.len(),
        };
        let now = Point {
            place: Place {
                row: start.place.row + 1,
                column: 0,
            },
            offset: end.offset,
        };
        self.now = now;
        self.line = self.line_after(Class::LineEnd, now);
        self.width = 0;
        self.margin = self.ends_line(Class::LineEnd);
        self.logical = self.logical_after(Class::LineEnd);
        self.joined = false;
        self.lead = LeadingChar::Nothing;
        entry_of(kind, None, start, end)
    }

    /// Goes past a lexeme after a line's margin, and gives its entry; none where it gives a fault
    /// or nothing.
    #[inline(always)]
    pub(crate) fn pass(&mut self, class: Class, text: &str) -> Option<Entry>
        requires room { HasRoom self.old (length text.now) }
        requires counted { bytes_in (chars text.now) ≡ length text.now }
        requires following { self.old.margin ≡ false }
        requires told { Tells class text.now }
        requires some { 0 < length text.now }
        ensures passed { IfSome result (λ e. Passed self.old class (chars text.now) self.new) }
        ensures entry { IfSome result (λ e. GivesEntry self.old class (chars text.now) e) }
    {
        match class {
            Class::Operator(operator) => self.pass_operator(operator, text),
            Class::LineEnd => Some(self.pass_line_end(text)),
            Class::Blanks | Class::Join => None,
            // What the class decides is decided once for all.
            Class::Name => Some(self.pass_text(Class::Name, text)),
            Class::Number => Some(self.pass_text(Class::Number, text)),
            Class::String => Some(self.pass_text(Class::String, text)),
            Class::Comment => Some(self.pass_text(Class::Comment, text)),
        }
    }

    /// Directly after an entry with text: a line is yet to be measured only at its start.
    #[inline(always)]
    pub(crate) fn begin_anew(&mut self, following: LineState)
        ensures begun { (levels : List ℕ)
            → with_levels self.new levels ≡ begun_anew (with_levels following levels) }
        ensures room { (n : ℕ) → HasRoom following n → HasRoom self.new n }
    {
        self.now = following.now;
        self.line = following.now;
        self.depth = following.depth;
        self.width = 0;
        self.margin = !following.logical && following.now.place.column == 0;
        self.logical = following.logical;
        self.joined = false;
        self.lead = following.lead;
    }

    /// Whether a statement is open at the text's end: within brackets, or directly after a join.
    pub(crate) fn is_open(self) -> bool
        ensures { result ≡ (not (self.depth == 0) || self.joined) }
    {
        self.depth != 0 || self.joined
    }

    /// The line end that the text's end gives to a last line that lacks its own, if it does.
    #[tactic(auto, unfolding(pylex_listing::specs::Machine::last_line_end))]
    pub(crate) fn last_line_end(self) -> Emitted
        requires { self.now.place.column < 2 ^ 62 }
        ensures { (levels : List ℕ) → last_line_end (with_levels self levels) ≡ given result }
    {
        let end = self.now.place;
        if self.logical {
            if self.lead.is_hash() {
                return Emitted::Nothing;
            }
            let further = Place {
                row: end.row,
                column: end.column + 1,
            };
            return Emitted::Entry(mark(Kind::Newline, self.now.offset, end, further));
        }
        if self.margin {
            return Emitted::Nothing;
        }
        Emitted::Entry(mark(Kind::Nl, self.now.offset, end, end))
    }

    /// The start of the row after the last line, an unfinished one counted.
    pub(crate) fn row_after(self) -> Place
        requires { self.now.place.row < 2 ^ 62 }
        ensures { result ≡ record { row = row_after self.now.place; column = 0 } }
    {
        let end = self.now.place;
        Place {
            row: if end.column == 0 {
                end.row
            } else {
                end.row + 1
            },
            column: 0,
        }
    }

    /// Where the entries of the end stand.
    pub(crate) fn last_place(self) -> Place
        requires { self.now.place.row < 2 ^ 62 }
        ensures { (levels : List ℕ) → result ≡ last_place (with_levels self levels) }
    {
        if self.margin {
            return Place {
                row: self.now.place.row,
                column: 0,
            };
        }
        self.row_after()
    }
}
