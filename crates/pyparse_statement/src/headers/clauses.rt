//! The headers of clauses with no test: `else`, `try`, `except`, `finally`.
//!
//! Python language reference, 8.4 "The `try` statement".

ghost use Rattle.std.specs.Prelude.{◌≡◌, ◌+◌, ◌≤◌, None, false, length};
ghost use Rattle.pygrammar.specs.LineReader as line_reader;
ghost use Rattle.pygrammar.specs.Lines as lines;
ghost use Rattle.pyparse_nodes.specs.Views.{seen};
ghost use Rattle.pygrammar.specs.FormOf.{header_of};
ghost use Rattle.pyparse_statement.specs.Answers.{HeaderAnswered};
ghost use Rattle.pyparse_reads.specs.Readings.{reads};
ghost use Rattle.std.specs.Prelude.{IfOk};
ghost use Rattle.pyparse_statement.specs.PlacedHeaders.{ExceptPlaced, WordHeader};

use crate::headers::found::ReadHeader;
use crate::statements::{read_as, starts_expression};
use pygrammar::{Header, Level};
use pylex_listing::Exact;
use pyparse_nodes::{Stop, is_op};
use pyparse_reads::{Depth, ReadsExpressions};
use pyplaces::Recorder;
use pytoken::{Keyword, Terminal};
use std::alloc::Global;

/// An `else`.
pub(crate) fn else_at(next: usize, before: usize) -> ReadHeader
    ensures header { header_of result.header ≡ lines.else_header }
    ensures next { result.next ≡ next }
    ensures before { result.before ≡ before }
{
    ReadHeader {
        header: Header::Else,
        height: 0,
        next,
        before,
    }
}

/// A `try`.
pub(crate) fn try_at(next: usize, before: usize) -> ReadHeader
    ensures header { header_of result.header ≡ lines.try_header }
    ensures next { result.next ≡ next }
    ensures before { result.before ≡ before }
{
    ReadHeader {
        header: Header::Try,
        height: 0,
        next,
        before,
    }
}

/// A `finally`.
pub(crate) fn finally_at(next: usize, before: usize) -> ReadHeader
    ensures header { header_of result.header ≡ lines.finally_header }
    ensures next { result.next ≡ next }
    ensures before { result.before ≡ before }
{
    ReadHeader {
        header: Header::Finally,
        height: 0,
        next,
        before,
    }
}

/// An `except` of no class.
fn except_at(next: usize, before: usize) -> ReadHeader
    ensures header { header_of result.header ≡ lines.except_header false None None }
    ensures next { result.next ≡ next }
    ensures before { result.before ≡ before }
{
    ReadHeader {
        header: Header::Except {
            star: false,
            class: None,
            name: None,
        },
        height: 0,
        next,
        before,
    }
}

/// The class of an `except`, and its name.
fn except_of<E: ReadsExpressions, R: Recorder>(
    alloc: Global,
    tokens: &[Terminal],
    star: bool,
    at: usize,
    depth: Depth,
    recorder: &mut R,
) -> Result<ReadHeader, Stop>
    requires { at ≤ length tokens.now }
    ensures answered { HeaderAnswered tokens.now at
        (line_reader.except_of (reads depth) star (seen tokens.now at)) result }
    ensures placed { IfOk result (ExceptPlaced R.after R.recorded_count star tokens.now at
        recorder.old recorder.new) }
{
    let class = E::read_at(alloc, tokens, Level::Expression, at, depth, recorder)?;
    let name = read_as(alloc, tokens, class.next)?;
    Ok(ReadHeader {
        height: class.height,
        next: name.next,
        before: recorder.recorded(),
        header: Header::Except {
            star,
            class: Some(class.expr),
            name: name.name,
        },
    })
}

/// After an `except`.
pub(crate) fn except_rest<E: ReadsExpressions, R: Recorder>(
    alloc: Global,
    tokens: &[Terminal],
    at: usize,
    depth: Depth,
    recorder: &mut R,
) -> Result<ReadHeader, Stop>
    requires { at ≤ length tokens.now }
    ensures answered { HeaderAnswered tokens.now at
        (line_reader.except_rest (reads depth) (seen tokens.now at)) result }
    ensures placed { WordHeader R.after R.recorded_count Keyword.Except tokens.now at recorder.old
        recorder.new result }
{
    if is_op(tokens, at, Exact::Star) {
        return except_of::<E, R>(alloc, tokens, true, at + 1, depth, recorder);
    }
    if starts_expression(tokens, at) {
        return except_of::<E, R>(alloc, tokens, false, at, depth, recorder);
    }
    Ok(except_at(at, recorder.recorded()))
}
