//! The targets of a `with`.

ghost use Rattle.std.specs.Prelude.{◌≡◌, ◌+◌, ◌≤◌, length};
ghost use Rattle.pytree_node.specs.TreeOf.{tree_of};
ghost use Rattle.pygrammar.specs.LineReader as line_reader;
ghost use Rattle.pyparse_nodes.specs.Answers.{PartAnswered};
ghost use Rattle.pyparse_reads.specs.Readings.{reads};
ghost use Rattle.pyparse_nodes.specs.Views.{seen};
ghost use Rattle.std.specs.Prelude.{IfOk};
ghost use Rattle.pyparse_statement.specs.PlacedParts.{TargetPlaced};

use pygrammar::Level;
use pylex_listing::Exact;
use pyparse_nodes::{Read, Stop, is_op, starred, stored};
use pyparse_reads::{Depth, ReadsExpressions};
use pyplaces::Recorder;
use pytoken::Terminal;
use std::alloc::Global;

/// What stands after the `as` of an item.
pub(crate) fn item_target<E: ReadsExpressions, R: Recorder>(
    alloc: Global,
    tokens: &[Terminal],
    at: usize,
    depth: Depth,
    recorder: &mut R,
) -> Result<Read, Stop>
    requires { at ≤ length tokens.now }
    ensures answered { PartAnswered tokens.now (at + 1)
        (line_reader.item_target (reads depth) (seen tokens.now at)) (λ r. tree_of r.expr.value)
        (λ r. r.next) result }
    ensures placed { IfOk result (TargetPlaced R.after tokens.now at recorder.old recorder.new) }
{
    if is_op(tokens, at, Exact::Star) {
        let e = E::read_at(alloc, tokens, Level::Expression, at + 1, depth, recorder)?;
        recorder.node(at, e.next)?;
        let e = starred(alloc, e)?;
        stored(e)
    } else {
        let e = E::read_at(alloc, tokens, Level::Expression, at, depth, recorder)?;
        stored(e)
    }
}
