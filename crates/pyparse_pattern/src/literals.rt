//! Literals in patterns.
//!
//! Python language reference, 8.6.4.3 "Literal Patterns".

ghost use Rattle.std.specs.Prelude.{◌≡◌, ◌+◌, ◌<◌, IfOk, List, length, true};
ghost use Rattle.pytree_node.specs.TreeOf.{tree_of};
ghost use Rattle.pytoken.specs.TerminalOf.{terminal};
ghost use Rattle.pygrammar.specs.PatternReader as reader;
ghost use Rattle.pygrammar.specs.Reader.{NoForm};
ghost use Rattle.pyparse_nodes.specs.Answers.{Answered};
ghost use Rattle.pyparse_nodes.specs.Views.{seen};
ghost use Rattle.pyparse_reads.specs.Readings.{IsOpen};
ghost use Rattle.pyparse_pattern.specs.Inner.Readings.{field_reads};
ghost use Rattle.pyparse_pattern.specs.Inner.Values.{begins_string, starts_string};
ghost use Rattle.pyplaces.specs.PlacedPatterns.{PlacedLiteral};
ghost use Rattle.pyplaces.specs.Recording.{Records};
ghost use Rattle.pyplaces.specs.Stretches.{Stretch};

use crate::numbers::read_number;
use pygrammar::Level;
use pyparse_nodes::{Read, Stop, terminal_at};
use pyparse_reads::{Depth, ReadsExpressions};
use pyplaces::Recorder;
use pytoken::Terminal;
use std::alloc::Global;

/// Whether a terminal is a string literal or begins an f-string.
fn begins_string(t: Terminal) -> bool
    ensures { result ≡ begins_string (terminal t.entry) }
{
    match t {
        Terminal::Literal(_) => true,
        Terminal::FormattedBegin => true,
        _ => false,
    }
}

/// Whether a string literal or an f-string begins at the place.
fn starts_string(tokens: &[Terminal], at: usize) -> bool
    ensures is { result ≡ starts_string (seen tokens.now at) }
    ensures within { result ≡ true → at < length tokens.now }
{
    match terminal_at(tokens, at) {
        Some(t) => begins_string(t),
        None => false,
    }
}

/// The literal at a place, up to a height. Strings are read as the atom that they are.
#[tactic(auto, using(crate::proofs::StringSteps::strings_read, crate::proofs::StringSteps::number_read))]
pub(crate) fn read_literal<E: ReadsExpressions, R: Recorder>(
    alloc: Global,
    tokens: &[Terminal],
    at: usize,
    depth: Depth,
    recorder: &mut R,
) -> Result<Read, Stop>
    requires { IsOpen depth }
    ensures answered { Answered tokens.now depth.room (at + 1)
        (reader.cap_value depth.room
        (reader.literal_or (field_reads depth) (seen tokens.now at) NoForm)) result }
    ensures placed { IfOk result (λ r. (ps : List Stretch) ×
        PlacedLiteral (seen tokens.now at) at (tree_of r.expr.value)
        (seen tokens.now r.next) r.next ps × Records R.after recorder.old ps recorder.new) }
{
    if starts_string(tokens, at) {
        E::read_at(alloc, tokens, Level::Atom, at, depth, recorder)
    } else {
        read_number(alloc, tokens, at, depth.room, recorder)
    }
}
