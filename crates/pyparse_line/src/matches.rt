//! The header of a `match`: which line is one, and what it is.
//!
//! Python language reference, 2.3.2 "Soft Keywords" and 8.6 "The `match` statement".

ghost use Rattle.std.specs.Prelude.{◌≡◌, ◌+◌, ◌≤◌, ◌&&◌, length};
ghost use Rattle.std.specs.Str.{bytes_eq, chars};
ghost use Rattle.pygrammar.specs.Forms.{match_name};
ghost use Rattle.pygrammar.specs.LineReader as line_reader;
ghost use Rattle.pyparse_nodes.specs.Views.{seen};
ghost use Rattle.pyparse_reads.specs.Readings.{reads};
ghost use Rattle.pyparse_line.specs.Inner.Answers.{FormAnswered};
ghost use Rattle.pyparse_line.specs.Inner.Fronts.{matched};
ghost use Rattle.std.specs.Prelude.{IfOk, ℕ, ◌∷◌, true};
ghost use Rattle.pygrammar.specs.Forms.{is_whole, match_word};
ghost use Rattle.pytree_node.specs.Trees.{Identifier};
ghost use Rattle.pyparse_line.specs.Inner.Placed.{LinePlaced};

use crate::found::ReadForm;
use pygrammar::{Form, Header, Level};
use pylex_listing::Exact;
use pyparse_nodes::{Stop, is_op};
use pyparse_reads::{Depth, ReadsExpressions};
use pyplaces::Recorder;
use pytoken::Terminal;
use pytree_node::Profile;
use std::alloc::Global;

/// Whether a text is `match`.
fn spells_match(text: &str) -> bool
    ensures { result ≡ bytes_eq (chars text.now) match_name }
{
    text == "match"
}

/// Whether what stands after the first terminal ends in a colon.
#[tactic(auto, using(crate::proofs::MatchSteps::no_colon, crate::proofs::MatchSteps::last_colon))]
fn ends_in_colon(tokens: &[Terminal]) -> bool
    ensures { result ≡ line_reader.ends_in_colon (seen tokens.now 1) }
{
    if tokens.len() < 2 {
        return false;
    }
    is_op(tokens, tokens.len() - 1, Exact::Colon)
}

/// Whether a line that begins with this NAME is the header of a `match`: in the whole language the
/// ends of the line tell it.
pub(crate) fn is_match_line(tokens: &[Terminal], name: &str) -> bool
    ensures { result ≡ bytes_eq (chars name.now) match_name
        && line_reader.ends_in_colon (seen tokens.now 1) }
{
    spells_match(name) && ends_in_colon(tokens)
}

/// After a `match`: the subject, and the colon.
#[inline(never)]
pub(crate) fn match_rest<E: ReadsExpressions, R: Recorder>(
    alloc: Global,
    tokens: &[Terminal],
    at: usize,
    depth: Depth,
    recorder: &mut R,
) -> Result<ReadForm, Stop>
    requires { at ≤ length tokens.now }
    ensures answered { FormAnswered tokens.now (at + 1) (matched (reads depth) (seen tokens.now at))
        result }
    ensures placed { (profile : Profile) (form : Identifier) → is_whole profile.extent ≡ true
        → at ≡ 1
        → seen tokens.now 0 ≡ match_word form ∷ seen tokens.now at
        → IfOk result (LinePlaced R.after R.recorded_count profile tokens.now recorder.old
        recorder.new) }
{
    let subject = E::read_at(alloc, tokens, Level::Subject, at, depth, recorder)?;
    if !is_op(tokens, subject.next, Exact::Colon) {
        return Err(Stop::NoForm);
    }
    let recorded = recorder.recorded();
    Ok(ReadForm {
        height: subject.height,
        next: subject.next + 1,
        before: recorded,
        following: recorded,
        form: Form::Headed {
            header: Header::Match {
                subject: subject.expr,
            },
            suite: None,
        },
    })
}
