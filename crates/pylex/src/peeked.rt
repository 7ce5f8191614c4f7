//! What a lister meets next, and the layout of a line before its first token.

ghost use Rattle.std.specs.Prelude.{◌≡◌, ℕ, ◌+◌, ◌<◌, true, false, List, ◌∷◌, length, None, IfSome};
ghost use Rattle.std.specs.Str.{chars};
ghost use Rattle.pylex.specs.LineState.{is_level, IsTop, Stands, IsAscending, IsIndentation};
ghost use Rattle.pylex.specs.LineState.{Settles, Comes, Peek, StopAhead, HasRoom, Following};
ghost use Rattle.pylex.specs.LineState.{NextEntry};

use crate::entries::Emitted;
use crate::line_state::LineState;
use crate::measures::cut_spaces;
use pylex_lexeme::lexeme::{Class, begins_significant, cut};
use pylex_listing::{Entry, ListingError, ListingFault};

/// What a lister meets next.
#[derive(Clone, Copy, Debug, PartialEq, Eq)]
pub enum Peeked {
    Entry(Entry),
    Fault(ListingFault),
    /// The first significant token of a line that opens a level.
    Indent,
    /// The first significant token of a line that closes a level.
    Dedent,
    /// The end of the lexemes.
    Stop,
}

/// What the width of a line asks for.
#[derive(Clone, Copy, Debug, PartialEq, Eq)]
pub enum Indentation {
    /// Nothing: it is the width of the last open level.
    Level,
    Indent,
    Dedent,
    Mismatch,
}

/// The last open level, by the levels above 0.
fn top_level(levels: &[usize]) -> usize
    ensures { IsTop levels.now result }
{
    match levels.last() {
        Some(top) => *top,
        None => 0,
    }
}

/// Whether a width is that of an open level.
fn is_level(width: usize, levels: &[usize]) -> bool
    ensures { result ≡ is_level width (0 ∷ levels.now) }
{
    width == 0 || levels.contains(&width)
}

/// The layout of a line by its width and the open levels above 0.
#[tactic(auto, using(crate::proofs::Levels::Tops::top_indent, crate::proofs::Levels::Tops::top_level, crate::proofs::Levels::Tops::top_dedent, crate::proofs::Levels::Tops::top_mismatch))]
pub(crate) fn indentation_for(width: usize, levels: &[usize]) -> Indentation
    requires { IsAscending 0 levels.now }
    ensures { IsIndentation width levels.now result }
{
    let top = top_level(levels);
    if width > top {
        Indentation::Indent
    } else if width == top {
        Indentation::Level
    } else if is_level(width, levels) {
        Indentation::Dedent
    } else {
        Indentation::Mismatch
    }
}

/// Whether a width is that of the last open level, by the levels above 0.
#[inline(always)]
fn is_last_level(width: usize, levels: &[usize]) -> bool
    requires { IsAscending 0 levels.now }
    ensures { result ≡ true → IsIndentation width levels.now Indentation.Level }
{
    let top = top_level(levels);
    if width == top {
        return true;
    }
    false
}

/// Goes past the spaces that a line's margin begins with, where no other blank follows. What is
/// left of the text there.
#[inline(always)]
pub(crate) fn past_spaces<'a>(now: &mut LineState, text: &'a str) -> &'a str
    requires stands { Stands now.old text.now }
    requires margin { now.old.margin ≡ true }
    ensures comes { (levels : List ℕ)
        → Comes levels now.old (chars text.now) now.new (chars result.now) }
    ensures stands { Stands now.new result.now }
    ensures margin { now.new.margin ≡ true }
{
    let Some((spaces, left)) = cut_spaces(text) else {
        return text;
    };
    now.pass_spaces(spaces);
    left
}

/// Goes past the margin of a line whose first significant token stands here, at the last open
/// level.
#[inline(always)]
pub(crate) fn settle(now: &mut LineState, levels: &[usize], text: &str)
    requires stands { Stands now.old text.now }
    requires ascending { IsAscending 0 levels.now }
    requires margin { now.old.margin ≡ true }
    ensures comes { Comes levels.now now.old (chars text.now) now.new (chars text.now) }
    ensures stands { Stands now.new text.now }
{
    if !begins_significant(text) {
        return;
    }
    if is_last_level(now.width, levels) {
        now.measure();
    }
}

/// Goes past the layout before the first significant token of a logical line, or says what it is.
#[inline(always)]
fn line_start(now: &mut LineState, levels: &[usize], text: &str) -> Option<Peeked>
    requires stands { Stands now.old text.now }
    requires ascending { IsAscending 0 levels.now }
    ensures settles { result ≡ None → Settles levels.now now.old (chars text.now) now.new }
    ensures room { (n : ℕ) → HasRoom now.old n → HasRoom now.new n }
    ensures finds { IfSome result
        (λ m. Peek levels.now now.old (chars text.now) m now.new (chars text.now)) }
    ensures stands { Stands now.new text.now }
{
    if !now.margin || !begins_significant(text) {
        return None;
    }
    match indentation_for(now.width, levels) {
        Indentation::Level => {
            *now = now.measured();
            None
        }
        Indentation::Indent => Some(Peeked::Indent),
        Indentation::Dedent => Some(Peeked::Dedent),
        Indentation::Mismatch => Some(Peeked::Fault(ListingFault {
            code: ListingError::UnindentMismatch,
            place: now.now.place,
        })),
    }
}

/// Advances to what a lister meets next.
#[inline(always)]
fn find<'a>(start: LineState, levels: &[usize], text: &'a str) -> (Peeked, LineState, &'a str)
    requires stands { Stands start text.now }
    requires ascending { IsAscending 0 levels.now }
    ensures finds { Peek levels.now start (chars text.now) result.0 result.1 (chars result.2.now) }
    ensures stands { Stands result.1 result.2.now }
    ensures room { (n : ℕ) → HasRoom start (length text.now + n)
        → HasRoom result.1 (length result.2.now + n) }
    ensures following { Following text.now result.2.now }
{
    let mut now = start;
    let mut rest = text;
    let mut walked = false;
    loop {
        if let Some(peeked) = line_start(&mut now, levels, rest) {
            return (peeked, now, rest);
        }
        // One walk finds whether an entry comes: if none does, it is not begun again.
        if !now.margin && !walked {
            walked = true;
            let mut ahead = now;
            if let Some((entry, left)) = next_entry(&mut ahead, rest) {
                return (Peeked::Entry(entry), ahead, left);
            }
        }
        let Some((class, front, back)) = cut(rest) else {
            return (Peeked::Stop, now, rest);
        };
        let ahead = now.after(class, front);
        match now.give(class, front, ahead.now) {
            Emitted::Fault(fault) => return (Peeked::Fault(fault), now, rest),
            Emitted::Entry(entry) => return (Peeked::Entry(entry), ahead, back),
            Emitted::Nothing => {
                now = ahead;
                rest = back;
            }
        }
    }
}

/// Advances to the next lexeme that gives an entry, after a line's margin: its entry, and what is
/// left after it.
#[inline(always)]
fn next_entry<'a>(now: &mut LineState, text: &'a str) -> Option<(Entry, &'a str)>
    requires stands { Stands now.old text.now }
    requires following { now.old.margin ≡ false }
    ensures { IfSome result (λ r. NextEntry now.old text.now r.0 now.new r.1.now) }
{
    let mut rest = text;
    loop {
        let (class, front, back) = cut(rest)?;
        match class {
            Class::Blanks => {
                now.pass_blanks(front);
                rest = back;
            }
            Class::Join => {
                now.pass_join(front);
                rest = back;
            }
            _ => {
                let entry = now.pass(class, front)?;
                return Some((entry, back));
            }
        }
    }
}

/// Advances past a comment or a line end that stands here in a line's margin: its entry, and what
/// is left after it.
#[inline(always)]
fn margin_entry<'a>(now: &mut LineState, text: &'a str) -> Option<(Entry, &'a str)>
    requires stands { Stands now.old text.now }
    ensures { IfSome result (λ r. NextEntry now.old text.now r.0 now.new r.1.now) }
{
    // Most margins end at a significant token, and nothing is cut twice.
    let bytes = text.as_bytes();
    if bytes.is_empty() || (bytes[0] != b'#' && bytes[0] != b'\n' && bytes[0] != b'\r') {
        return None;
    }
    let (class, front, back) = cut(text)?;
    if class.is_significant() {
        return None;
    }
    let ahead = now.after(class, front);
    let Emitted::Entry(entry) = now.give(class, front, ahead.now) else {
        return None;
    };
    *now = ahead;
    Some((entry, back))
}

/// Advances to the next lexeme that gives an entry, where no layout comes before it: its entry, and
/// what is left after it. In a line's margin that is one that stands here.
#[inline(always)]
pub(crate) fn entry_on<'a>(now: &mut LineState, text: &'a str) -> Option<(Entry, &'a str)>
    requires stands { Stands now.old text.now }
    ensures { IfSome result (λ r. NextEntry now.old text.now r.0 now.new r.1.now) }
{
    if now.margin {
        return margin_entry(now, text);
    }
    next_entry(now, text)
}

/// What a lister meets next. Where entries of the end were given that is the end.
#[inline(always)]
pub(crate) fn peek<'a>(
    tail: usize,
    start: LineState,
    levels: &[usize],
    text: &'a str,
) -> (Peeked, LineState, &'a str)
    requires stands { Stands start text.now }
    requires ascending { IsAscending 0 levels.now }
    requires stop { 0 < tail → StopAhead start (chars text.now) }
    ensures finds { Peek levels.now start (chars text.now) result.0 result.1 (chars result.2.now) }
    ensures stands { Stands result.1 result.2.now }
    ensures room { (n : ℕ) → HasRoom start (length text.now + n)
        → HasRoom result.1 (length result.2.now + n) }
    ensures following { Following text.now result.2.now }
    ensures stop { 0 < tail → result.0 ≡ Peeked.Stop }
    ensures stay { 0 < tail → (result.1 ≡ start) × (result.2.now ≡ text.now) }
{
    if tail > 0 {
        return (Peeked::Stop, start, text);
    }
    find(start, levels, text)
}
