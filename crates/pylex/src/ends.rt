//! What comes where the lexemes of a text end.

ghost use Rattle.std.specs.Prelude.{◌≡◌, ℕ, ◌^◌, ◌<◌, List, ◌∷◌, length, drop};
ghost use Rattle.std.specs.Prelude.{Option, option_map, OnSome};
ghost use Rattle.std.specs.Str.{chars};
ghost use Rattle.pylex_listing.specs.Listing.{of_line, stop_fault};
ghost use Rattle.pylex_listing.specs.Steps.{first_step, HasNoText, IsNoEntry, IsAt};
ghost use Rattle.pylex_listing.specs.Machine.{remaining, after_steps};
ghost use Rattle.pylex.specs.LineState.{Stands, IsAscending, StopAhead, closing, with_levels};
ghost use Rattle.pylex.specs.LineState.{given, GivesNoText, IsGivenFault, GivesAt};

use crate::entries::Emitted;
use crate::line_state::LineState;
use pylex_lexeme::string::{is_open_string, opens_string};
use pylex_listing::{Entry, Kind, ListingError, ListingFault, Step, mark};
use pysource::{LineFault, Place};

/// The fault of a line, as one of the listing.
fn line_fault(fault: LineFault) -> ListingFault
    ensures { result ≡ of_line fault }
{
    ListingFault {
        code: ListingError::Line(fault.code),
        place: fault.place,
    }
}

/// The fault where no lexeme stands before the text's end.
#[tactic(auto, unfolding(pylex_listing::specs::Listing::stop_fault))]
fn stop_fault_at(place: Place, left: &str, fault: Option<LineFault>) -> ListingFault
    ensures { stop_fault (option_map of_line fault) place (chars left.now) ≡ Step.Fault result }
{
    if !opens_string(left) {
        return ListingFault {
            code: ListingError::BadCharacter,
            place,
        };
    }
    if !is_open_string(left) {
        return ListingFault {
            code: ListingError::UnterminatedString,
            place,
        };
    }
    match fault {
        Some(fault) => line_fault(fault),
        None => ListingFault {
            code: ListingError::EofInString,
            place,
        },
    }
}

/// What comes where the lexemes end: a fault, or what the text's end gives its last line.
fn stop(now: LineState, left: &str, fault: Option<LineFault>) -> Emitted
    requires stands { Stands now left.now }
    requires stop { StopAhead now (chars left.now) }
    ensures steps { (levels : List ℕ)
        → remaining (option_map of_line fault) (with_levels now levels) (chars left.now)
        ≡ after_steps (given result) (closing (with_levels now levels)) }
    ensures empty { GivesNoText result }
    ensures at { GivesAt now.now.offset result }
    ensures fault { OnSome fault (IsGivenFault result) }
{
    if !left.is_empty() {
        return Emitted::Fault(stop_fault_at(now.now.place, left, fault));
    }
    if let Some(fault) = fault {
        return Emitted::Fault(line_fault(fault));
    }
    if now.is_open() {
        return Emitted::Fault(ListingFault {
            code: ListingError::EofInStatement,
            place: now.row_after(),
        });
    }
    now.last_line_end()
}

/// The step of the end after the line end, by how many of these steps were given: a DEDENT for
/// each open level, and then the end marker.
fn closing_step(now: LineState, nested: usize, closed: usize) -> Step
    requires { now.now.place.row < 2 ^ 62 }
    ensures step { (levels : List ℕ) → IsAscending 0 levels → length levels ≡ nested
        → result ≡ first_step (drop closed (closing (with_levels now (0 ∷ levels)))) }
    ensures empty { HasNoText result }
    ensures at { IsAt now.now.offset result }
{
    let place = now.last_place();
    let offset = now.now.offset;
    if closed < nested {
        Step::Entry(mark(Kind::Dedent, offset, place, place))
    } else if closed == nested {
        Step::Entry(mark(Kind::EndMarker, offset, place, place))
    } else {
        Step::End
    }
}

/// The step that is due where the lexemes end, by how many of the entries there were given.
pub(crate) fn end_step(
    now: LineState,
    left: &str,
    fault: Option<LineFault>,
    nested: usize,
    tail: usize,
) -> Step
    requires stands { Stands now left.now }
    requires stop { StopAhead now (chars left.now) }
    ensures step { (levels : List ℕ) → IsAscending 0 levels → length levels ≡ nested
        → tail < length
        (remaining (option_map of_line fault) (with_levels now (0 ∷ levels)) (chars left.now))
        → result ≡ first_step
        (drop tail (remaining (option_map of_line fault) (with_levels now (0 ∷ levels))
        (chars left.now))) }
    ensures empty { HasNoText result }
    ensures at { IsAt now.now.offset result }
    ensures fault { OnSome fault (IsNoEntry result) }
{
    match stop(now, left, fault) {
        Emitted::Fault(fault) => Step::Fault(fault),
        Emitted::Entry(entry) if tail == 0 => Step::Entry(entry),
        Emitted::Entry(_) => closing_step(now, nested, tail - 1),
        Emitted::Nothing => closing_step(now, nested, tail),
    }
}
