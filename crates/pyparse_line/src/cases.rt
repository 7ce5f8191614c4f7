//! The header of a case: which line is one, and what stands between its word and its colon.
//!
//! Python language reference, 2.3.2 "Soft Keywords" and 8.6 "The `match` statement".

ghost use Rattle.std.specs.Prelude.{◌≡◌, ◌≤◌, ◌&&◌, length};
ghost use Rattle.std.specs.Str.{bytes_eq, chars};
ghost use Rattle.pygrammar.specs.Forms.{case_name};
ghost use Rattle.pyparse_nodes.specs.Views.{seen};
ghost use Rattle.pyparse_reads.specs.Readings.{reads};
ghost use Rattle.pyparse_pattern.specs.Answers as patterns;
ghost use Rattle.pyparse_statement.specs.Answers.{HeaderAnswered};
ghost use Rattle.pyparse_line.specs.Inner.Fronts.{case_header_of};
ghost use Rattle.std.specs.Prelude.{IfOk, ℕ, ◌∷◌, ◌+◌};
ghost use Rattle.pygrammar.specs.Forms.{case_word};
ghost use Rattle.pytree_node.specs.Trees.{Identifier};
ghost use Rattle.pyparse_line.specs.Inner.Placed.{CasePlaced};

use pygrammar::{Header, Level, PatternLevel};
use pyparse_nodes::Stop;
use pyparse_pattern::read_pattern;
use pyparse_reads::{Depth, ReadsExpressions};
use pyparse_statement::{ReadHeader, after_word};
use pyplaces::Recorder;
use pytoken::{Keyword, Terminal};
use std::alloc::Global;

/// Whether a text is `case`.
fn spells_case(text: &str) -> bool
    ensures { result ≡ bytes_eq (chars text.now) case_name }
{
    text == "case"
}

/// Whether a line that begins with this NAME is the header of a case: in the whole language its
/// place tells it, which is in a `match` or elsewhere.
pub(crate) fn is_case_line(name: &str, inside: bool) -> bool
    ensures { result ≡ inside && bytes_eq (chars name.now) case_name }
{
    inside && spells_case(name)
}

/// After a `case`: the pattern, and the guard if there is one.
pub(crate) fn case_rest<E: ReadsExpressions, R: Recorder>(
    alloc: Global,
    tokens: &[Terminal],
    at: usize,
    depth: Depth,
    recorder: &mut R,
) -> Result<ReadHeader, Stop>
    requires { at ≤ length tokens.now }
    ensures answered { HeaderAnswered tokens.now at
        (case_header_of (reads depth) (patterns.reads depth) (seen tokens.now at)) result }
    ensures placed { (from : ℕ) (form : Identifier) → at ≡ from + 1
        → seen tokens.now from ≡ case_word form ∷ seen tokens.now at
        → IfOk result (CasePlaced R.after R.recorded_count tokens.now from recorder.old
        recorder.new) }
{
    let pattern = read_pattern::<E, R>(alloc, tokens, PatternLevel::Patterns, at, depth, recorder)?;
    let guard = after_word::<E, R>(
        alloc,
        tokens,
        Keyword::If,
        Level::Named,
        pattern.next,
        depth,
        recorder,
    )?;
    Ok(ReadHeader {
        height: pattern.height.max(guard.height),
        next: guard.next,
        before: recorder.recorded(),
        header: Header::Case {
            pattern: pattern.pattern,
            guard: guard.expr,
        },
    })
}
