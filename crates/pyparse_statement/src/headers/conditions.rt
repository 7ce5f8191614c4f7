//! The headers of a test: `if`, `elif`, `while`.
//!
//! Python language reference, 8.1 "The `if` statement" and 8.2 "The `while` statement".

ghost use Rattle.std.specs.Prelude.{◌≡◌, ◌+◌, ◌≤◌, length};
ghost use Rattle.pygrammar.specs.Lines as lines;
ghost use Rattle.pygrammar.specs.Reader as reader;
ghost use Rattle.pyparse_nodes.specs.Views.{seen};
ghost use Rattle.pyparse_statement.specs.Answers.{HeaderAnswered};
ghost use Rattle.pyparse_reads.specs.Readings.{reads};
ghost use Rattle.pyparse_statement.specs.PlacedHeaders.{WordHeader};

use crate::headers::found::ReadHeader;
use pygrammar::{Header, Level, LoopHead};
use pyparse_nodes::Stop;
use pyparse_reads::{Depth, ReadsExpressions};
use pyplaces::Recorder;
use pytoken::{Keyword, Terminal};
use std::alloc::Global;

/// After an `if`.
pub(crate) fn if_rest<E: ReadsExpressions, R: Recorder>(
    alloc: Global,
    tokens: &[Terminal],
    at: usize,
    depth: Depth,
    recorder: &mut R,
) -> Result<ReadHeader, Stop>
    requires { at ≤ length tokens.now }
    ensures answered { HeaderAnswered tokens.now at
        (reader.and_then (reads depth Level.Named (seen tokens.now at))
        (λ e r. reader.Found (lines.if_header e) r)) result }
    ensures placed { WordHeader R.after R.recorded_count Keyword.If tokens.now at recorder.old
        recorder.new result }
{
    let test = E::read_at(alloc, tokens, Level::Named, at, depth, recorder)?;
    Ok(ReadHeader {
        height: test.height,
        next: test.next,
        before: recorder.recorded(),
        header: Header::If { test: test.expr },
    })
}

/// After an `elif`.
pub(crate) fn elif_rest<E: ReadsExpressions, R: Recorder>(
    alloc: Global,
    tokens: &[Terminal],
    at: usize,
    depth: Depth,
    recorder: &mut R,
) -> Result<ReadHeader, Stop>
    requires { at ≤ length tokens.now }
    ensures answered { HeaderAnswered tokens.now at
        (reader.and_then (reads depth Level.Named (seen tokens.now at))
        (λ e r. reader.Found (lines.elif_header e) r)) result }
    ensures placed { WordHeader R.after R.recorded_count Keyword.Elif tokens.now at recorder.old
        recorder.new result }
{
    let test = E::read_at(alloc, tokens, Level::Named, at, depth, recorder)?;
    Ok(ReadHeader {
        height: test.height,
        next: test.next,
        before: recorder.recorded(),
        header: Header::Elif { test: test.expr },
    })
}

/// After a `while`.
pub(crate) fn while_rest<E: ReadsExpressions, R: Recorder>(
    alloc: Global,
    tokens: &[Terminal],
    at: usize,
    depth: Depth,
    recorder: &mut R,
) -> Result<ReadHeader, Stop>
    requires { at ≤ length tokens.now }
    ensures answered { HeaderAnswered tokens.now at
        (reader.and_then (reads depth Level.Named (seen tokens.now at))
        (λ e r. reader.Found (lines.loop_header (lines.while_head e)) r)) result }
    ensures placed { WordHeader R.after R.recorded_count Keyword.While tokens.now at recorder.old
        recorder.new result }
{
    let test = E::read_at(alloc, tokens, Level::Named, at, depth, recorder)?;
    Ok(ReadHeader {
        height: test.height,
        next: test.next,
        before: recorder.recorded(),
        header: Header::Loop {
            head: LoopHead::While { test: test.expr },
        },
    })
}
