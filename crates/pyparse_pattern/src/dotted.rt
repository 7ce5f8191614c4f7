//! Names with points between them.

ghost use Rattle.std.specs.Prelude.{◌≡◌, ◌+◌, ◌≤◌, ◌∷◌, IfOk, List, length};
ghost use Rattle.std.specs.Str.{chars};
ghost use Rattle.unicode_normalization.specs.Forms.{nfkc};
ghost use Rattle.pytree_node.specs.TreeOf.{tree_of};
ghost use Rattle.pytoken.specs.Terminals as terminals;
ghost use Rattle.pygrammar.specs.PatternReader as reader;
ghost use Rattle.pyparse_nodes.specs.Answers.{Answered};
ghost use Rattle.pyparse_nodes.specs.Views.{seen};
ghost use Rattle.pyplaces.specs.PlacedPatterns.{PlacedDotted};
ghost use Rattle.pyplaces.specs.Recording.{Records};
ghost use Rattle.pyplaces.specs.Stretches.{Stretch};

use pylex_listing::Exact;
use pyparse_nodes::{Read, Stop, is_op, make_attribute, make_name, name_at};
use pyplaces::Recorder;
use pytoken::Terminal;
use pytree_node::Context;
use std::alloc::Global;

/// A name and the names after points after it, from after the first one. Each attribute has to
/// have room, the name alone has it always.
pub(crate) fn dotted<R: Recorder>(
    alloc: Global,
    tokens: &[Terminal],
    first: &str,
    from: usize,
    at: usize,
    room: usize,
    recorder: &mut R,
) -> Result<Read, Stop>
    requires { at ≤ length tokens.now }
    ensures answered { Answered tokens.now (room + 1) at
        (reader.dotted_from room (nfkc (chars first.now)) (seen tokens.now at)) result }
    ensures placed { at ≡ from + 1 → (x : terminals.Spelled) → x.form ≡ nfkc (chars first.now)
        → IfOk result (λ r. (ps : List Stretch) × PlacedDotted x.form
        (terminals.Ident x ∷ seen tokens.now at) from (tree_of r.expr.value)
        (seen tokens.now r.next) r.next ps × Records R.after recorder.old ps recorder.new) }
{
    recorder.node(from, at)?;
    let mut e = make_name(alloc, first, Context::Load, at)?;
    'points: while is_op(tokens, e.next, Exact::Dot) {
        let place = e.next + 1;
        match name_at(tokens, place) {
            Some(name) => {
                recorder.node(from, place + 1)?;
                e = make_attribute(alloc, e, name, place + 1, room)?;
            }
            None => return Err(Stop::NoForm),
        }
    }
    Ok(e)
}
