//! Points of a text, and the entries that stand at them.

ghost use Rattle.std.specs.Prelude.{◌≡◌, ◌+◌, ◌^◌, ◌<◌, length};
ghost use Rattle.std.specs.Str.{chars};
ghost use Rattle.pylex_lexeme.specs.Chars.{bytes_in};
ghost use Rattle.pylex_listing.specs.Machine.{following, step_of, mark_at};

use crate::entries::{Entry, Step};
use crate::kind::{Exact, Kind};
use pylex_lexeme::scanner::char_count;
use pysource::Place;

/// A place of a text, and its offset in bytes.
#[derive(Clone, Copy, Debug, PartialEq, Eq)]
pub struct Point {
    pub place: Place,
    pub offset: usize,
}

impl Point {
    /// The point after a line end that begins here, still on its row.
    pub fn following(self, text: &str) -> Point
        requires column { self.place.column + length text.now < 2 ^ 63 }
        requires offset { self.offset + length text.now < 2 ^ 63 }
        requires counted { bytes_in (chars text.now) ≡ length text.now }
        ensures { result ≡ following self (chars text.now) }
    {
        Point {
            place: Place {
                row: self.place.row,
                column: self.place.column + char_count(text),
            },
            offset: self.offset + text.len(),
        }
    }
}

/// The entry from a point to another.
pub fn entry_of(kind: Kind, exact: Option<Exact>, from: Point, to: Point) -> Entry
    ensures { step_of kind exact from to ≡ Step.Entry result }
{
    Entry {
        kind,
        exact,
        start: from.place,
        end: to.place,
        from: from.offset,
        to: to.offset,
    }
}

/// An entry of empty text.
pub fn mark(kind: Kind, offset: usize, start: Place, end: Place) -> Entry
    ensures { mark_at kind offset start end ≡ Step.Entry result }
{
    Entry {
        kind,
        exact: None,
        start,
        end,
        from: offset,
        to: offset,
    }
}
