//! Literals and f-strings.
//!
//! Python language reference, 2.4.2 "String literal concatenation" and 2.4.3 "f-strings".

ghost use Rattle.std.specs.Prelude.{◌≡◌, ◌+◌, ◌<◌, ◌≤◌, ◌∷◌, ◌++◌, ℕ, IfOk, List, MatchResult, [], length};
ghost use Rattle.std.specs.Prelude.{Some, false};
ghost use Rattle.pytree_node.specs.TreeOf.{boxed_of, tree_of};
ghost use Rattle.pytree_node.specs.Trees.{optional};
ghost use Rattle.pygrammar.specs.Capped.{cap};
ghost use Rattle.pygrammar.specs.FormattedStrings.{StringPart};
ghost use Rattle.pygrammar.specs.Looks.{conversion_in, text_in};
ghost use Rattle.pygrammar.specs.Reader as reader;
ghost use Rattle.pyparse_nodes.specs.Answers.{Answered, PartAnswered};
ghost use Rattle.pyparse_nodes.specs.JoinedStates.{gathered, state_of};
ghost use Rattle.pyparse_nodes.specs.Boundaries.{conversion_of, points_of};
ghost use Rattle.pyparse_nodes.specs.Views.{first_is, seen};
ghost use Rattle.pyparse_expr.specs.Inner.PlacedStrings.{FieldPlaced, FormattedPlaced, JoinedPlaced};
ghost use Rattle.pyparse_expr.specs.Inner.PlacedStrings.{PartsPlaced};
ghost use Rattle.pyparse_expr.specs.Inner.Places.{Span};
ghost use Rattle.pyparse_expr.specs.Inner.Readings.{inner_reads};
ghost use Rattle.pyparse_expr.specs.Inner.Strings.{Lowers, PartAdded, PartsAnswered, part_reads};
ghost use Rattle.pyparse_reads.specs.Readings.{IsOpen};
ghost use Rattle.pytoken.specs.StringValues.{string_value};
ghost use Rattle.pytoken.specs.TerminalOf.{literal_characters};
ghost use Rattle.pytoken.specs.Terminals as terminals;
ghost use Rattle.pyplaces.specs.Placed.{Placed, PlacedFormatted, PlacedLiterals, PlacedSpec};
ghost use Rattle.pyplaces.specs.Recording.{Alike, Records};
ghost use Rattle.pyplaces.specs.RowEnds.{row_length};
ghost use Rattle.pyplaces.specs.Rows.{text_places};
ghost use Rattle.pyplaces.specs.Stretches.{Stretch, stretch};

use crate::atoms::read_atom;
use pygrammar::Level;
use pylex_listing::Exact;
use pyparse_nodes::{
    Boundary, FormattedPart, JoinedValues, LiteralRun, Optional, Read, Stop, is_boundary, is_op,
    joined_text, literal_at, literal_text, make_field, make_joined, make_literal, moved, part_at,
    string_run, with_field, with_text,
};
use pyparse_reads::Depth;
use pyplaces::Recorder;
use pytoken::{Literal, LiteralText, Terminal};
use pytree_node::{Conversion, Points};
use std::alloc::Global;

/// Where a row of literals and f-strings begins, and the place after it, as the recorder has it.
#[derive(Clone, Copy)]
pub(crate) struct Row {
    pub first: usize,
    pub following: usize,
}

/// Records the text after the last field, if it isn't empty.
#[inline(always)]
fn record_text<R: Recorder>(values: &JoinedValues, row: Row, recorder: &mut R) -> Result<(), Stop>
    ensures { MatchResult result
        (λ _. (whole : Stretch) → Alike R.after (stretch row.first row.following) whole
        → Records R.after recorder.old (text_places whole values.now.text) recorder.new)
        (λ s. s ≡ Stop.Memory) }
{
    if values.text.as_slice().is_empty() {
        return Ok(());
    }
    recorder.node(row.first, row.following)?;
    Ok(())
}

/// Records the text after the last field, and the JoinedStr.
#[inline(always)]
fn record_joined<R: Recorder>(values: &JoinedValues, row: Row, recorder: &mut R) -> Result<(), Stop>
    ensures { MatchResult result
        (λ _. (whole : Stretch) → Alike R.after (stretch row.first row.following) whole
        → Records R.after recorder.old (text_places whole values.now.text ++ (whole ∷ []))
        recorder.new)
        (λ s. s ≡ Stop.Memory) }
{
    record_text(values, row, recorder)?;
    recorder.node(row.first, row.following)?;
    Ok(())
}

/// What was read, where it is no higher than the room.
fn lowered(read: Read, room: usize) -> Result<Read, Stop>
    ensures { Lowers room read result }
{
    if read.height > room {
        return Err(Stop::TooDeep);
    }
    Ok(read)
}

/// The atom that begins with a literal, from after it.
#[cycle(reading)]
pub(crate) fn string_atom<R: Recorder>(
    alloc: Global,
    tokens: &[Terminal],
    first: LiteralText,
    from: usize,
    at: usize,
    depth: Depth,
    recorder: &mut R,
) -> Result<Read, Stop>
    requires within { at ≤ length tokens.now }
    requires open { IsOpen depth }
    ensures answered { Answered tokens.now depth.room at
        (cap depth.room (reader.literals (inner_reads depth)
        (string_value (literal_characters first.entry)) (seen tokens.now at))) result }
    ensures placed { at ≡ from + 1 → IfOk result (λ r. (ps : List Stretch) ×
        Placed Level.Atom
        (terminals.Literal (string_value (literal_characters first.entry)) ∷ seen tokens.now at)
        from (tree_of r.expr.value) (seen tokens.now r.next) r.next ps ×
        Records R.after recorder.old ps recorder.new) }
{
    let read = read_literals(alloc, tokens, first, from, at, depth, recorder)?;
    lowered(read, depth.room)
}

/// The atom that begins with an f-string, from after the begin of that.
#[cycle(reading)]
pub(crate) fn formatted_atom<R: Recorder>(
    alloc: Global,
    tokens: &[Terminal],
    from: usize,
    at: usize,
    depth: Depth,
    recorder: &mut R,
) -> Result<Read, Stop>
    requires within { at ≤ length tokens.now }
    requires open { IsOpen depth }
    ensures answered { Answered tokens.now depth.room at
        (cap depth.room
        (reader.joined_step (inner_reads depth) false [] (seen tokens.now at))) result }
    ensures placed { at ≡ from + 1 → IfOk result (λ r. (ps : List Stretch) ×
        Placed Level.Atom (terminals.FormattedBegin ∷ seen tokens.now at) from
        (tree_of r.expr.value) (seen tokens.now r.next) r.next ps ×
        Records R.after recorder.old ps recorder.new) }
{
    let before = joined_text(alloc, Points::new(alloc), at);
    let read = read_joined(alloc, tokens, false, from, before, depth, recorder)?;
    lowered(read, depth.room)
}

/// Literals and f-strings, after a first literal.
#[cycle(reading)]
#[inline(never)]
pub(crate) fn read_literals<R: Recorder>(
    alloc: Global,
    tokens: &[Terminal],
    first: LiteralText,
    from: usize,
    at: usize,
    depth: Depth,
    recorder: &mut R,
) -> Result<Read, Stop>
    requires within { at ≤ length tokens.now }
    requires open { IsOpen depth }
    ensures answered { PartAnswered tokens.now at
        (reader.literals (inner_reads depth)
        (string_value (literal_characters first.entry)) (seen tokens.now at))
        (λ r. tree_of r.expr.value) (λ r. r.next) result }
    ensures placed { at ≡ from + 1 → IfOk result (λ r. (ps : List Stretch) ×
        Placed Level.Atom
        (terminals.Literal (string_value (literal_characters first.entry)) ∷ seen tokens.now at)
        from (tree_of r.expr.value) (seen tokens.now r.next) r.next ps ×
        Records R.after recorder.old ps recorder.new) }
{
    let LiteralRun { value, next } = string_run(alloc, tokens, first, at)?;
    if !is_boundary(tokens, next, Boundary::FormattedBegin) {
        recorder.node(from, next)?;
        return make_literal(alloc, value, next);
    }
    match value {
        Literal::Text { points, unicode } => {
            let before = joined_text(alloc, points, next + 1);
            read_joined(alloc, tokens, unicode, from, before, depth, recorder)
        }
        Literal::Bytes(_bytes) => Err(Stop::NoForm),
    }
}

/// Literals and f-strings, after the begin of the first f-string and after the texts in front
/// of it.
#[cycle(reading)]
pub(crate) fn read_joined<R: Recorder>(
    alloc: Global,
    tokens: &[Terminal],
    unicode: bool,
    from: usize,
    before: JoinedValues,
    depth: Depth,
    recorder: &mut R,
) -> Result<Read, Stop>
    requires within { before.next ≤ length tokens.now }
    requires open { IsOpen depth }
    ensures answered { (acc : List StringPart) → state_of before ≡ gathered unicode acc
        → PartAnswered tokens.now before.next
        (reader.joined_step (inner_reads depth) unicode acc (seen tokens.now before.next))
        (λ r. tree_of r.expr.value) (λ r. r.next) result }
    ensures placed { IfOk result
        (λ r. JoinedPlaced R.after tokens.now unicode (stretch from r.next) before r recorder.old
        recorder.new) }
{
    let row = Row {
        first: from,
        following: recorder.row_end(tokens, before.next),
    };
    let first = read_formatted(alloc, tokens, unicode, before, row, depth, recorder)?;
    let whole = more_literals(alloc, tokens, unicode, first, row, depth, recorder)?;
    record_joined(&whole, row, recorder)?;
    make_joined(alloc, whole, unicode)
}

/// Literals and f-strings, after others.
#[cycle(reading)]
fn more_literals<R: Recorder>(
    alloc: Global,
    tokens: &[Terminal],
    unicode: bool,
    before: JoinedValues,
    row: Row,
    depth: Depth,
    recorder: &mut R,
) -> Result<JoinedValues, Stop>
    requires within { before.next ≤ length tokens.now }
    requires open { IsOpen depth }
    ensures place { IfOk result (λ r. Span before.next (length tokens.now) r.next) }
    ensures parts { (acc : List StringPart) → state_of before ≡ gathered unicode acc
        → PartsAnswered unicode tokens.now before.next
        (reader.literals_loop (inner_reads depth) unicode (length (seen tokens.now before.next)) acc
        (seen tokens.now before.next)) result }
    ensures placed { (whole : Stretch) → Alike R.after (stretch row.first row.following) whole
        → IfOk result
        (λ r. PartsPlaced R.after (PlacedLiterals unicode whole) tokens.now unicode whole before r
        recorder.old recorder.new) }
    ensures ended { IfOk result (λ r. row_length 0 (seen tokens.now r.next) ≡ 0) }
{
    let mut values = before;
    'more: loop {
        if let Some(literal) = literal_at(tokens, values.next) {
            let next = values.next + 1;
            let text = literal_text(alloc, literal)?;
            values = with_text(values, unicode, text, next)?;
        } else if is_boundary(tokens, values.next, Boundary::FormattedBegin) {
            let next = values.next + 1;
            values = read_formatted(
                alloc,
                tokens,
                unicode,
                moved(values, next),
                row,
                depth,
                recorder,
            )?;
        } else {
            return Ok(values);
        }
    }
}

/// An f-string after its begin, after other parts.
#[cycle(reading)]
fn read_formatted<R: Recorder>(
    alloc: Global,
    tokens: &[Terminal],
    unicode: bool,
    before: JoinedValues,
    row: Row,
    depth: Depth,
    recorder: &mut R,
) -> Result<JoinedValues, Stop>
    requires within { before.next ≤ length tokens.now }
    requires open { IsOpen depth }
    ensures place { IfOk result (λ r. Span before.next (length tokens.now) r.next) }
    ensures parts { (acc : List StringPart) → state_of before ≡ gathered unicode acc
        → PartsAnswered unicode tokens.now before.next
        (reader.formatted_step (inner_reads depth) unicode acc (seen tokens.now before.next))
        result }
    ensures placed { (whole : Stretch) → Alike R.after (stretch row.first row.following) whole
        → IfOk result
        (λ r. FormattedPlaced R.after tokens.now unicode whole before r recorder.old
        recorder.new) }
{
    let values = read_parts(alloc, tokens, unicode, before, row, depth, recorder)?;
    if !is_boundary(tokens, values.next, Boundary::FormattedEnd) {
        return Err(Stop::NoForm);
    }
    let next = values.next + 1;
    Ok(moved(values, next))
}

/// Texts and fields, after other parts. Any number that is enough ends the reader of the
/// definition.
#[cycle(reading)]
fn read_parts<R: Recorder>(
    alloc: Global,
    tokens: &[Terminal],
    unicode: bool,
    before: JoinedValues,
    row: Row,
    depth: Depth,
    recorder: &mut R,
) -> Result<JoinedValues, Stop>
    requires within { before.next ≤ length tokens.now }
    requires open { IsOpen depth }
    ensures place { IfOk result (λ r. Span before.next (length tokens.now) r.next) }
    ensures parts { (most : ℕ) (acc : List StringPart) → length (seen tokens.now before.next) ≤ most
        → state_of before ≡ gathered unicode acc
        → PartsAnswered unicode tokens.now before.next
        (reader.parts_loop (inner_reads depth) unicode most acc (seen tokens.now before.next))
        result }
    ensures placed { (whole : Stretch) → Alike R.after (stretch row.first row.following) whole
        → IfOk result
        (λ r. PartsPlaced R.after (PlacedFormatted unicode whole) tokens.now unicode whole before r
        recorder.old recorder.new) }
{
    let mut values = before;
    'parts: while let Some(part) = part_at(tokens, values.next) {
        values = with_part(alloc, tokens, unicode, part, values, row, depth, recorder)?;
    }
    Ok(values)
}

/// One more part, from its first terminal on.
#[cycle(reading)]
fn with_part<R: Recorder>(
    alloc: Global,
    tokens: &[Terminal],
    unicode: bool,
    part: FormattedPart,
    before: JoinedValues,
    row: Row,
    depth: Depth,
    recorder: &mut R,
) -> Result<JoinedValues, Stop>
    requires within { before.next < length tokens.now }
    requires open { IsOpen depth }
    ensures place { IfOk result (λ r. Span (before.next + 1) (length tokens.now) r.next) }
    ensures part { (most : ℕ) → length (seen tokens.now (before.next + 1)) ≤ most
        → PartAdded unicode tokens.now (before.next + 1) before
        (part_reads (inner_reads depth) unicode most part.entry (seen tokens.now (before.next + 1)))
        result }
    ensures placed { points_of (Some part.entry) ≡ first_is text_in (seen tokens.now before.next)
        → conversion_of (Some part.entry) ≡ first_is conversion_in (seen tokens.now before.next)
        → (whole : Stretch) → Alike R.after (stretch row.first row.following) whole
        → IfOk result
        (λ r. PartsPlaced R.after (PlacedFormatted unicode whole) tokens.now unicode whole before r
        recorder.old recorder.new) }
{
    let next = before.next + 1;
    match part {
        FormattedPart::Text(text) => {
            let points = text.value(alloc)?;
            with_text(before, unicode, points, next)
        }
        FormattedPart::Field(conversion) => {
            record_text(&before, row, recorder)?;
            let field = read_field(
                alloc, tokens, unicode, conversion, next, row, depth, recorder,
            )?;
            recorder.node(row.first, row.following)?;
            with_field(alloc, before, unicode, field)
        }
    }
}

/// A field, after its begin.
#[cycle(reading)]
fn read_field<R: Recorder>(
    alloc: Global,
    tokens: &[Terminal],
    unicode: bool,
    conversion: Conversion,
    at: usize,
    row: Row,
    depth: Depth,
    recorder: &mut R,
) -> Result<Read, Stop>
    requires within { at ≤ length tokens.now }
    requires open { IsOpen depth }
    ensures place { IfOk result (λ r. Span at (length tokens.now) r.next) }
    ensures is { (most : ℕ) → length (seen tokens.now at) ≤ most
        → PartAnswered tokens.now at
        (reader.field_with (inner_reads depth)
        (λ i. reader.parts_loop (inner_reads depth) unicode most [] i) unicode conversion
        (seen tokens.now at))
        (λ r. tree_of r.expr.value) (λ r. r.next) result }
    ensures placed { (whole : Stretch) → Alike R.after (stretch row.first row.following) whole
        → IfOk result
        (λ r. FieldPlaced R.after tokens.now unicode conversion whole at r recorder.old
        recorder.new) }
{
    if !is_op(tokens, at, Exact::LPar) {
        return Err(Stop::NoForm);
    }
    let value = read_atom(alloc, tokens, at, depth.inner(), recorder)?;
    let spec = read_spec(alloc, tokens, unicode, value.next, row, depth, recorder)?;
    if !is_boundary(tokens, spec.next, Boundary::FieldEnd) {
        return Err(Stop::NoForm);
    }
    let next = spec.next + 1;
    make_field(alloc, value, conversion, spec, next)
}

/// A format spec, if one stands there.
#[cycle(reading)]
fn read_spec<R: Recorder>(
    alloc: Global,
    tokens: &[Terminal],
    unicode: bool,
    at: usize,
    row: Row,
    depth: Depth,
    recorder: &mut R,
) -> Result<Optional, Stop>
    requires within { at ≤ length tokens.now }
    requires open { IsOpen depth }
    ensures place { IfOk result (λ r. Span at (length tokens.now) r.next) }
    ensures is { (most : ℕ) → length (seen tokens.now at) ≤ most
        → PartAnswered tokens.now at
        (reader.spec_with (λ i. reader.parts_loop (inner_reads depth) unicode most [] i) unicode
        (seen tokens.now at))
        (λ r. optional (boxed_of r.expr)) (λ r. r.next) result }
    ensures placed { (whole : Stretch) → Alike R.after (stretch row.first row.following) whole
        → IfOk result (λ r. (ps : List Stretch) ×
        PlacedSpec unicode whole (seen tokens.now at) at (optional (boxed_of r.expr))
        (seen tokens.now r.next) r.next ps ×
        Records R.after recorder.old ps recorder.new) }
{
    if !is_boundary(tokens, at, Boundary::SpecBegin) {
        return Ok(Optional {
            expr: None,
            height: 0,
            next: at,
        });
    }
    let before = joined_text(alloc, Points::new(alloc), at + 1);
    let values = read_parts(alloc, tokens, unicode, before, row, depth, recorder)?;
    record_joined(&values, row, recorder)?;
    let read = make_joined(alloc, values, false)?;
    Ok(Optional {
        expr: Some(read.expr),
        height: read.height,
        next: read.next,
    })
}
