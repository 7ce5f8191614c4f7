//! A header.

ghost use Rattle.std.specs.Prelude.{◌≡◌, ◌+◌, ◌≤◌, length};
ghost use Rattle.pytoken.specs.Terminals as plain;
ghost use Rattle.pygrammar.specs.LineReader as line_reader;
ghost use Rattle.pyparse_nodes.specs.Views.{Stands, seen};
ghost use Rattle.pyparse_statement.specs.Answers.{HeaderAnswered};
ghost use Rattle.pyparse_reads.specs.Readings.{reads};
ghost use Rattle.std.specs.Prelude.{IfOk};
ghost use Rattle.pyparse_statement.specs.PlacedHeaders.{HeaderPlaced};

use crate::headers::clauses::{else_at, except_rest, finally_at, try_at};
use crate::headers::conditions::{elif_rest, if_rest, while_rest};
use crate::headers::definitions::{class_rest, def_rest};
use crate::headers::found::ReadHeader;
use crate::headers::loops::{for_rest, with_rest};
use crate::headers::words::word_at;
use pyparse_nodes::Stop;
use pyparse_reads::{Depth, ReadsExpressions};
use pyplaces::Recorder;
use pytoken::{Keyword, Terminal};
use pytree_node::Profile;
use std::alloc::Global;

/// A header that begins with `async`.
fn async_header<E: ReadsExpressions, R: Recorder + Drop>(
    alloc: Global,
    tokens: &[Terminal],
    at: usize,
    profile: Profile,
    depth: Depth,
    recorder: &mut R,
) -> Result<ReadHeader, Stop>
    requires word { Stands (plain.Word Keyword.Async) tokens.now at }
    ensures answered { HeaderAnswered tokens.now at
        (line_reader.read_header profile (reads depth) (seen tokens.now at)) result }
    ensures placed { IfOk result (HeaderPlaced R.after R.recorded_count profile
        tokens.now at recorder.old recorder.new) }
{
    let word = match word_at(tokens, at + 1) {
        Some(word) => word,
        None => return Err(Stop::NoForm),
    };
    match word {
        Keyword::For => for_rest::<E, R>(alloc, tokens, true, at + 2, depth, recorder),
        Keyword::With => with_rest::<E, R>(alloc, tokens, true, at + 2, depth, recorder),
        Keyword::Def => def_rest::<E, R>(alloc, tokens, true, at + 2, profile, depth, recorder),
        _ => Err(Stop::NoForm),
    }
}

/// The header at a place, up to its colon, in a version of Python.
///
/// # Errors
///
/// [`Stop::NoForm`]: none stands there. [`Stop::TooDeep`]: an expression in it is too high for
/// `depth`. [`Stop::Memory`].
pub fn read_header<E: ReadsExpressions, R: Recorder + Drop>(
    alloc: Global,
    tokens: &[Terminal],
    at: usize,
    profile: Profile,
    depth: Depth,
    recorder: &mut R,
) -> Result<ReadHeader, Stop>
    requires { at ≤ length tokens.now }
    ensures answered { HeaderAnswered tokens.now at
        (line_reader.read_header profile (reads depth) (seen tokens.now at)) result }
    ensures placed { IfOk result (HeaderPlaced R.after R.recorded_count profile
        tokens.now at recorder.old recorder.new) }
{
    let word = match word_at(tokens, at) {
        Some(word) => word,
        None => return Err(Stop::NoForm),
    };
    let next = at + 1;
    let recorded = recorder.recorded();
    match word {
        Keyword::If => if_rest::<E, R>(alloc, tokens, next, depth, recorder),
        Keyword::Elif => elif_rest::<E, R>(alloc, tokens, next, depth, recorder),
        Keyword::Else => Ok(else_at(next, recorded)),
        Keyword::While => while_rest::<E, R>(alloc, tokens, next, depth, recorder),
        Keyword::For => for_rest::<E, R>(alloc, tokens, false, next, depth, recorder),
        Keyword::With => with_rest::<E, R>(alloc, tokens, false, next, depth, recorder),
        Keyword::Try => Ok(try_at(next, recorded)),
        Keyword::Finally => Ok(finally_at(next, recorded)),
        Keyword::Except => except_rest::<E, R>(alloc, tokens, next, depth, recorder),
        Keyword::Def => def_rest::<E, R>(alloc, tokens, false, next, profile, depth, recorder),
        Keyword::Class => class_rest::<E, R>(alloc, tokens, next, profile, depth, recorder),
        Keyword::Async => async_header::<E, R>(alloc, tokens, at, profile, depth, recorder),
        _ => Err(Stop::NoForm),
    }
}
