//! The headers of `for` and `with`, and of `async for` and `async with`.
//!
//! Python language reference, 8.3 "The `for` statement", 8.5 "The `with` statement" and 8.9
//! "Coroutines".

ghost use Rattle.std.specs.Prelude.{◌≡◌, ◌+◌, ◌≤◌, length};
ghost use Rattle.pygrammar.specs.LineReader as line_reader;
ghost use Rattle.pyparse_nodes.specs.Views.{seen};
ghost use Rattle.pyparse_statement.specs.Answers.{HeaderAnswered};
ghost use Rattle.pyparse_reads.specs.Readings.{reads};
ghost use Rattle.pyparse_statement.specs.PlacedHeaders.{AsyncHeader};

use crate::headers::found::ReadHeader;
use crate::headers::items::read_items;
use pygrammar::{Header, Level, LoopHead};
use pyparse_nodes::{Stop, is_word, stored};
use pyparse_reads::{Depth, ReadsExpressions};
use pyplaces::Recorder;
use pytoken::{Keyword, Terminal};
use std::alloc::Global;

/// After a `for`.
pub(crate) fn for_rest<E: ReadsExpressions, R: Recorder>(
    alloc: Global,
    tokens: &[Terminal],
    is_async: bool,
    at: usize,
    depth: Depth,
    recorder: &mut R,
) -> Result<ReadHeader, Stop>
    requires { at ≤ length tokens.now }
    ensures answered { HeaderAnswered tokens.now at
        (line_reader.for_rest (reads depth) is_async (seen tokens.now at)) result }
    ensures placed { AsyncHeader R.after R.recorded_count is_async Keyword.For tokens.now at
        recorder.old recorder.new result }
{
    let target = E::target_at(alloc, tokens, at, depth, recorder)?;
    if !is_word(tokens, target.next, Keyword::In) {
        return Err(Stop::NoForm);
    }
    let iter = E::read_at(
        alloc,
        tokens,
        Level::Stars,
        target.next + 1,
        depth,
        recorder,
    )?;
    let target = stored(target)?;
    Ok(ReadHeader {
        height: target.height.max(iter.height),
        next: iter.next,
        before: recorder.recorded(),
        header: Header::Loop {
            head: LoopHead::For {
                is_async,
                target: target.expr,
                iter: iter.expr,
            },
        },
    })
}

/// After a `with`.
pub(crate) fn with_rest<E: ReadsExpressions, R: Recorder + Drop>(
    alloc: Global,
    tokens: &[Terminal],
    is_async: bool,
    at: usize,
    depth: Depth,
    recorder: &mut R,
) -> Result<ReadHeader, Stop>
    requires { at ≤ length tokens.now }
    ensures answered { HeaderAnswered tokens.now at
        (line_reader.with_rest (reads depth) is_async (seen tokens.now at)) result }
    ensures placed { AsyncHeader R.after R.recorded_count is_async Keyword.With
        tokens.now at recorder.old recorder.new result }
{
    let items = read_items::<E, R>(alloc, tokens, at, depth, recorder)?;
    Ok(ReadHeader {
        height: items.height,
        next: items.next,
        before: recorder.recorded(),
        header: Header::With {
            is_async,
            items: items.items,
        },
    })
}
