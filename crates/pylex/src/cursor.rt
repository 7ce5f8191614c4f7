//! Cursors: what is kept of a listing after its first entries, and a cursor's text.

ghost use Rattle.std.specs.Prelude.{◌≡◌, ◌≢◌, ℕ, ◌+◌, ◌^◌, ◌<◌, ◌≤◌, List, [], ◌∷◌, ◌++◌, length};
ghost use Rattle.std.specs.Prelude.{decimal, codes, All, IfOk, IfErr, IfSome, IsUtf8, OnOk, IsTrue};
ghost use Rattle.std.specs.Prelude.{◌↔◌, ◌-◌, slice_index, MatchOption, MatchResult};
ghost use Rattle.std.specs.List.{flat_map};
ghost use Rattle.std.specs.Option.{IsSomeAnd};
ghost use Rattle.std.specs.String.{string_bytes};
ghost use Rattle.pylex_lexeme.specs.Characters.{space};
ghost use Rattle.pylex.specs.Cursors.{CursorParts, cursor_text, part, with_commas};
ghost use Rattle.pylex.specs.CursorTexts.{AreLevels, IsWellFormed};
ghost use Rattle.pylex.specs.LineState.{IsAscending, with_levels};
ghost use Rattle.pylex.specs.Standing.{resumed};
ghost use Rattle.pylex.specs.Listers.{shown_at, shown_by};
ghost use Rattle.std.specs.Str.{chars};

use crate::leading_char::lead_of;
use crate::line_state::LineState;
use itoa::Buffer;
use pylex_lexeme::scanner::char_count;
use pylex_listing::Point;
use pysource::Place;
use std::alloc::{AllocError, Global};
use std::marker::Model;
use thiserror::Error;

/// Why there is no cursor, or why one can't be used.
#[derive(Debug, Drop, Error)]
pub enum CursorFault {
    /// The cursor is of another source.
    #[error("cursor of another source")]
    AnotherSource,
    /// The text is no cursor's.
    #[error("malformed cursor")]
    Text,
    /// Memory ran out.
    #[error("out of memory")]
    Memory,
}

impl From<AllocError> for CursorFault {
    ghost use Rattle.pylex.specs.declared.cursor.CursorFault.TheVariants.{Memory};

    ghost from_gives = { λ error r. r ≡ Memory };

    fn from(_error: AllocError) -> CursorFault {
        CursorFault::Memory
    }
}

/// What is kept of a listing after its first entries, so that it can resume after them.
///
/// All but the counts of entries speak of the point after the last given entry that has text in
/// the source, or of the source's start.
#[derive(Debug, Drop)]
pub struct Cursor {
    /// The entries that were given.
    given: usize,
    /// The bytes before the point.
    offset: usize,
    /// The point's row, from 1 on.
    row: usize,
    /// The brackets that are open at the point.
    depth: usize,
    /// Whether a logical line has begun and has not ended.
    begun: bool,
    /// The entries of empty text that were given after the point.
    skip: usize,
    /// The open columns, ascending from 0.
    levels: Vec<usize>,
}

/// What a cursor says of its point: directly after the last entry with text in the source, or at
/// its start.
#[derive(Clone, Copy, Debug, PartialEq, Eq)]
pub(crate) struct CursorPoint {
    pub offset: usize,
    pub row: usize,
    pub depth: usize,
    pub begun: bool,
}

impl CursorPoint {
    /// Directly after an entry.
    pub(crate) fn at(now: LineState) -> CursorPoint
        ensures { (k : ℕ) (levels : List ℕ)
            → shown_by k result levels 0 ≡ shown_at k (with_levels now (0 ∷ levels)) }
    {
        CursorPoint {
            offset: now.now.offset,
            row: now.now.place.row,
            depth: now.depth,
            begun: now.logical,
        }
    }

    /// Stands directly after an entry.
    #[inline(always)]
    pub(crate) fn stand(&mut self, now: LineState)
        ensures { (k : ℕ) (levels : List ℕ)
            → shown_by k self.new levels 0 ≡ shown_at k (with_levels now (0 ∷ levels)) }
    {
        self.offset = now.now.offset;
        self.row = now.now.place.row;
        self.depth = now.depth;
        self.begun = now.logical;
    }

    /// How far a lister has come there; the point's line so far is this.
    #[tactic(auto, unfolding(crate::specs::Standing::resumed))]
    pub(crate) fn line_state(self, line: &str) -> LineState
        requires { length line.now < 2 ^ 62 }
        ensures { (k n : ℕ) (levels : List ℕ)
            → with_levels result (0 ∷ levels)
            ≡ resumed (shown_by k self levels n) (chars line.now) }
    {
        let now = Point {
            place: Place {
                row: self.row,
                column: char_count(line),
            },
            offset: self.offset,
        };
        LineState {
            now,
            line: now,
            depth: self.depth,
            margin: !self.begun && now.place.column == 0,
            width: 0,
            logical: self.begun,
            joined: false,
            lead: lead_of(line),
        }
    }
}

impl Model for Cursor {
    ghost use Rattle.pylex.specs.Cursors.{CursorParts};
    ghost use Rattle.pylex.specs.CursorTexts.{IsWellFormed};

    ghost Value = { CursorParts };

    ghost view = { λ c. record {
      given = c.given;
      offset = c.offset;
      row = c.row;
      depth = c.depth;
      begun = c.begun;
      skip = c.skip;
      levels = c.levels.items;
    } };

    ghost invariant = { λ c. IsWellFormed
        (record {
          given = c.given;
          offset = c.offset;
          row = c.row;
          depth = c.depth;
          begun = c.begun;
          skip = c.skip;
          levels = c.levels.items;
        }) };
}

/// Writes a blank and a number.
fn push_part(text: &mut String, number: usize) -> Result<(), AllocError>
    ensures { OnOk result (string_bytes text.new ≡ string_bytes text.old ++ part number) }
{
    text.push(' ')?;
    text.push_str(Buffer::new().format(number))
}

/// Writes numbers with commas between them.
fn push_levels(text: &mut String, levels: &[usize]) -> Result<(), AllocError>
    ensures { OnOk result
        (string_bytes text.new ≡ string_bytes text.old ++ with_commas levels.now) }
{
    for (index, level) in levels.iter().enumerate() {
        if index > 0 {
            text.push(',')?;
        }
        text.push_str(Buffer::new().format(*level))?;
    }
    Ok(())
}

/// Reads the number in front, up to a blank, and gives what stands after that. Other spellings of
/// a number are read too.
fn number(text: &str) -> Option<(usize, &str)>
    ensures { (n : ℕ) (rest : List ℕ) → n < 2 ^ 64 → text.now ≡ decimal n ++ space ∷ rest
        → IsSomeAnd result (λ r. (r.0 ≡ n) × (r.1.now ≡ rest)) }
{
    let (front, rest) = text.split_once(' ')?;
    Some((front.parse().ok()?, rest))
}

/// Reads the six numbers before the levels, each with a blank after it, and gives the levels.
fn numbers(text: &str) -> Option<([usize; 6], &str)>
    ensures { (ns rest : List ℕ) → length ns ≡ 6 → All (λ n. n < 2 ^ 64) ns
        → text.now ≡ flat_map (λ n. decimal n ++ space ∷ []) ns ++ rest
        → IsSomeAnd result (λ r. (r.0 ≡ ns) × (r.1.now ≡ rest)) }
{
    let mut numbers = [0; 6];
    let mut rest = text;
    for read in numbers.iter_mut() {
        let (value, back) = number(rest)?;
        *read = value;
        rest = back;
    }
    Some((numbers, rest))
}

/// Reads the first level, and gives what stands after its comma. Other spellings of a number are
/// read too.
fn first_level(text: &str) -> Option<(usize, Option<&str>)>
    ensures reads { (n : ℕ) (ns : List ℕ) → n < 2 ^ 64 → text.now ≡ with_commas (n ∷ ns)
        → IsSomeAnd result
        (λ r. (r.0 ≡ n)
        × MatchOption r.1 (ns ≡ []) (λ back. (0 < length ns) × (back.now ≡ with_commas ns))) }
    ensures text { IfSome result (λ r. IfSome r.1 (λ back. IsUtf8 back.now)) }
    ensures shorter { IfSome result (λ r. IfSome r.1 (λ back. length back.now < length text.now)) }
{
    match text.split_once(',') {
        Some((front, back)) => Some((front.parse().ok()?, Some(back))),
        None => Some((text.parse().ok()?, None)),
    }
}

/// Whether a level can follow these: 0 in front, and else a larger one.
fn can_follow(levels: &[usize], level: usize) -> bool
    ensures first { length levels.now ≡ 0 → (IsTrue result ↔ (level ≡ 0)) }
    ensures above { 0 < length levels.now
        → (IsTrue result ↔ (slice_index levels.now (length levels.now - 1) < level)) }
{
    match levels.last() {
        None => level == 0,
        Some(last) => *last < level,
    }
}

/// Reads the levels, which take the whole text.
fn read_levels(alloc: Global, text: &str) -> Result<Vec<usize>, CursorFault>
    ensures levels { IfOk result (λ levels. AreLevels levels.items) }
    ensures reads { (ns : List ℕ) → AreLevels ns → with_commas ns ≡ text.now
        → MatchResult result (λ levels. levels.items ≡ ns) (λ fault. fault ≡ CursorFault.Memory) }
    ensures fault { IfErr result (λ fault. fault ≢ CursorFault.AnotherSource) }
{
    let mut levels = Vec::new(alloc);
    let mut rest = Some(text);
    while let Some(joined) = rest {
        let (level, back) = first_level(joined).ok_or(CursorFault::Text)?;
        if !can_follow(levels.as_slice(), level) {
            return Err(CursorFault::Text);
        }
        levels.push(level).map_err(|_| CursorFault::Memory)?;
        rest = back;
    }
    Ok(levels)
}

/// 0, and the levels above it.
fn from_ground(alloc: Global, levels: &[usize]) -> Result<Vec<usize>, AllocError>
    requires { IsAscending 0 levels.now }
    ensures items { IfOk result (λ all. all.items ≡ 0 ∷ levels.now) }
    ensures levels { IfOk result (λ all. AreLevels all.items) }
{
    let mut all = Vec::new(alloc);
    all.push(0)?;
    for level in levels {
        all.push(*level)?;
    }
    Ok(all)
}

/// Whether these are 0 and the levels above it.
fn are_from_ground(all: &[usize], levels: &[usize]) -> bool
    ensures { IsTrue result ↔ (all.now ≡ 0 ∷ levels.now) }
{
    let Some((first, above)) = all.split_first() else {
        return false;
    };
    if *first != 0 || above.len() != levels.len() {
        return false;
    }
    for index in 0..levels.len() {
        if above[index] != levels[index] {
            return false;
        }
    }
    true
}

impl Cursor {
    /// The cursor at a point, by the entries given, the open levels above 0, and the entries
    /// without text given after it.
    pub(crate) fn at(
        alloc: Global,
        given: usize,
        point: CursorPoint,
        levels: &[usize],
        skip: usize,
    ) -> Result<Cursor, AllocError>
        requires row { 1 ≤ point.row }
        requires ascending { IsAscending 0 levels.now }
        ensures { IfOk result (λ cursor. cursor ≡ shown_by given point levels.now skip) }
    {
        let levels = from_ground(alloc, levels)?;
        Ok(Cursor {
            given: given,
            offset: point.offset,
            row: point.row,
            depth: point.depth,
            begun: point.begun,
            skip: skip,
            levels,
        })
    }

    /// How many entries were given.
    pub(crate) fn given(&self) -> usize
        ensures { result ≡ self.now.given }
    {
        self.given
    }

    /// How many entries of empty text were given after the point.
    pub(crate) fn skip(&self) -> usize
        ensures { result ≡ self.now.skip }
    {
        self.skip
    }

    /// The cursor's point.
    pub(crate) fn point(&self) -> CursorPoint
        ensures { (k n : ℕ) (levels : List ℕ)
            → shown_by k result levels n
            ≡ record self.now { given = k; levels = 0 ∷ levels; skip = n } }
    {
        CursorPoint {
            offset: self.offset,
            row: self.row,
            depth: self.depth,
            begun: self.begun,
        }
    }

    /// The levels above 0 that are open at the point.
    pub(crate) fn levels(&self, alloc: Global) -> Result<Vec<usize>, AllocError>
        ensures { IfOk result (λ levels. self.now.levels ≡ 0 ∷ levels.items) }
    {
        let mut levels = Vec::new(alloc);
        for level in &self.levels.as_slice()[1..] {
            levels.push(*level)?;
        }
        Ok(levels)
    }

    /// Whether this is the cursor at a point, by the same parts.
    pub(crate) fn is_at(
        &self,
        given: usize,
        point: CursorPoint,
        levels: &[usize],
        skip: usize,
    ) -> bool
        ensures { IsTrue result ↔ (self.now ≡ shown_by given point levels.now skip) }
    {
        self.given == given
            && self.offset == point.offset
            && self.row == point.row
            && self.depth == point.depth
            && self.begun == point.begun
            && self.skip == skip
            && are_from_ground(self.levels.as_slice(), levels)
    }
}

impl Cursor {
    /// Reads the one cursor that can have this text. The text may also be another spelling of that
    /// cursor's, with a zero in front of a number or more after the last one.
    fn read(alloc: Global, text: &str) -> Result<Cursor, CursorFault>
        ensures well_formed { IfOk result (λ cursor. IsWellFormed cursor) }
        ensures reads { (c : CursorParts) → IsWellFormed c → cursor_text c ≡ text.now
            → MatchResult result (λ cursor. cursor ≡ c) (λ fault. fault ≡ CursorFault.Memory) }
        ensures fault { IfErr result (λ fault. fault ≢ CursorFault.AnotherSource) }
    {
        let rest = text.strip_prefix("pytok1 ").ok_or(CursorFault::Text)?;
        let (numbers, rest) = numbers(rest).ok_or(CursorFault::Text)?;
        let [given, offset, row, depth, begun, skip] = numbers;
        if row == 0 {
            return Err(CursorFault::Text);
        }
        let levels = read_levels(alloc, rest)?;
        Ok(Cursor {
            given,
            offset,
            row,
            depth,
            begun: begun == 1,
            skip,
            levels,
        })
    }

    /// The cursor that has this text, as [`Cursor::to_text`] writes it.
    ///
    /// # Errors
    ///
    /// [`CursorFault::Text`] for every other text, also for another spelling of a number.
    pub fn from_text(alloc: Global, text: &str) -> Result<Cursor, CursorFault>
        ensures read { IfOk result (λ cursor. cursor_text cursor ≡ text.now) }
        ensures well_formed { IfOk result (λ cursor. IsWellFormed cursor) }
        ensures only { IfOk result
            (λ cursor. (c : CursorParts) → IsWellFormed c → cursor_text c ≡ text.now → c ≡ cursor) }
        ensures malformed { IfErr result
            (λ fault. fault ≡ CursorFault.Text → (c : CursorParts) → IsWellFormed c
            → cursor_text c ≡ text.now → ⊥) }
        ensures fault { IfErr result (λ fault. fault ≢ CursorFault.AnotherSource) }
    {
        let cursor = Cursor::read(alloc, text)?;
        let written = cursor.to_text().map_err(|_| CursorFault::Memory)?;
        if written.as_str() == text {
            Ok(cursor)
        } else {
            Err(CursorFault::Text)
        }
    }

    /// The cursor's text: `pytok1 GIVEN OFFSET ROW DEPTH OPEN SKIP LEVELS`, one blank between
    /// parts, decimal numbers without leading zeros, OPEN 1 where a logical line has begun and else
    /// 0, LEVELS joined by commas.
    pub fn to_text(&self) -> Result<String, AllocError>
        ensures { IfOk result (λ text. string_bytes text ≡ cursor_text self.now) }
    {
        let mut text = String::from_str(*self.levels.allocator(), "pytok1")?;
        push_part(&mut text, self.given)?;
        push_part(&mut text, self.offset)?;
        push_part(&mut text, self.row)?;
        push_part(&mut text, self.depth)?;
        push_part(&mut text, usize::from(self.begun))?;
        push_part(&mut text, self.skip)?;
        text.push(' ')?;
        push_levels(&mut text, self.levels.as_slice())?;
        Ok(text)
    }
}
