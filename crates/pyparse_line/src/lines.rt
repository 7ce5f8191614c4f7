//! A logical line.

ghost use Rattle.std.specs.Prelude.{◌≡◌, ◌++◌, ◌≤◌, IfOk, MatchResult, map};
ghost use Rattle.pygrammar.specs.Forms.{FormAt};
ghost use Rattle.pygrammar.specs.FormHeights.{form_height};
ghost use Rattle.pygrammar.specs.LineLaws.{LinesAreLawful};
ghost use Rattle.pytoken.specs.TerminalOf.{terminal};
ghost use Rattle.pygrammar.specs.FormOf.{form_of};
ghost use Rattle.pyplaces.specs.FormPlaces.{places_at};
ghost use Rattle.pyplaces.specs.Recording.{Records, afters};
ghost use Rattle.pyparse_line.specs.Lines.{Refused};

use crate::fronts::read_front;
use pygrammar::Form;
use pyparse_nodes::Stop;
use pyparse_reads::{Depth, MOST_HEIGHT, ReadsExpressions};
use pyplaces::Recorder;
use pytoken::Terminal;
use pytree_node::Profile;
use std::alloc::Global;

/// The form of a line, and how many nodes are recorded up to the last one before its body, and up
/// to the last one after its body; those of the statements in the line come after them.
#[derive(Drop)]
pub struct FormRead {
    pub form: Form,
    pub before: usize,
    pub following: usize,
}

/// The form of a logical line that some terminals are, in a version and an extent of Python.
/// `inside` says whether the line stands in a `match`. At most [`MOST_HEIGHT`] nodes of an
/// expression or a pattern are nested.
///
/// # Errors
///
/// [`Stop::NoForm`]: they are none. [`Stop::TooDeep`]: they are none of this height; where they are
/// none at all, those that count, of an f-string its ends and the tokens of its fields, are more
/// than [`MOST_HEIGHT`]. [`Stop::Memory`].
#[tactic(auto, using(crate::proofs::Wholes::line_failed, crate::proofs::Wholes::line_more, crate::proofs::Wholes::line_high, crate::proofs::Wholes::line_found, pygrammar::proofs::Callers::Lines::lines_are_lawful))]
pub fn read_line<E: ReadsExpressions, R: Recorder + Drop>(
    alloc: Global,
    tokens: &[Terminal],
    profile: Profile,
    inside: bool,
    recorder: &mut R,
) -> Result<FormRead, Stop>
    ensures form { MatchResult result
        (λ r. FormAt profile inside (map terminal tokens.now) (form_of r.form)
        × (form_height (form_of r.form) ≤ 500))
        (λ s. Refused s profile inside (map terminal tokens.now)) }
    ensures lawful { LinesAreLawful }
    ensures placed { IfOk result
        (λ r. (d : FormAt profile inside (map terminal tokens.now) (form_of r.form))
        × (r.before ≡ R.recorded_count (afters R.after recorder.old (places_at d).before))
        × (r.following ≡ R.recorded_count
        (afters R.after recorder.old ((places_at d).before ++ (places_at d).following)))
        × Records R.after recorder.old
        ((places_at d).before ++ ((places_at d).following ++ (places_at d).suite)) recorder.new) }
{
    let read = read_front::<E, R>(alloc, tokens, profile, inside, Depth::of(tokens), recorder)?;
    if read.next != tokens.len() {
        return Err(Stop::NoForm);
    }
    if read.height > MOST_HEIGHT {
        return Err(Stop::TooDeep);
    }
    Ok(FormRead {
        form: read.form,
        before: read.before,
        following: read.following,
    })
}
