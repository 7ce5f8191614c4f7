//! The contract of the reader of expressions.

ghost use Rattle.std.specs.Prelude.{◌+◌, ◌≤◌, List, IfOk, length, map};
ghost use Rattle.pytree_node.specs.TreeOf.{arguments_of, keyword_of, tree_of};
ghost use Rattle.pytree_node.specs.Trees as plain;
ghost use Rattle.pytree_node.specs.Trees.{exprs};
ghost use Rattle.pygrammar.specs.Reader as reader;
ghost use Rattle.pyparse_nodes.specs.Answers.{Answered, PartAnswered};
ghost use Rattle.pyparse_reads.specs.PlacedParts.{BasesPlaced, ParametersPlaced};
ghost use Rattle.pyparse_reads.specs.Readings.{read_arguments, read_parameters, reads};
ghost use Rattle.pyparse_nodes.specs.Views.{seen};
ghost use Rattle.pyplaces.specs.Placed.{Placed};
ghost use Rattle.pyplaces.specs.Recording.{Records};
ghost use Rattle.pyplaces.specs.Stretches.{Stretch};

use crate::depth::Depth;
use crate::parts::{ReadArguments, ReadParameters};
use pygrammar::Level;
use pyparse_nodes::{Read, Stop};
use pyplaces::Recorder;
use pytoken::Terminal;
use std::alloc::Global;

/// What reads the expressions of a line.
pub trait ReadsExpressions {
    /// An expression of a level at a place of some terminals.
    fn read_at<R: Recorder>(
        alloc: Global,
        tokens: &[Terminal],
        level: Level,
        at: usize,
        depth: Depth,
        recorder: &mut R,
    ) -> Result<Read, Stop>
        requires { at ≤ length tokens.now }
        ensures answered { Answered tokens.now depth.room (at + 1)
            (reads depth level (seen tokens.now at)) result }
        ensures placed { IfOk result (λ r. (ps : List Stretch) ×
            Placed level (seen tokens.now at) at (tree_of r.expr.value)
            (seen tokens.now r.next) r.next ps × Records R.after recorder.old ps recorder.new) };

    /// A target in front of `in`.
    fn target_at<R: Recorder>(
        alloc: Global,
        tokens: &[Terminal],
        at: usize,
        depth: Depth,
        recorder: &mut R,
    ) -> Result<Read, Stop>
        requires { at ≤ length tokens.now }
        ensures answered { Answered tokens.now (depth.room + 2) (at + 1)
            (reader.read_target (reads depth) (seen tokens.now at)) result }
        ensures placed { IfOk result (λ r. (ps : List Stretch) ×
            Placed Level.Stars (seen tokens.now at) at (tree_of r.expr.value)
            (seen tokens.now r.next) r.next ps × Records R.after recorder.old ps recorder.new) };

    /// Parameters with commas between them, with annotations, in their order.
    fn parameters_at<R: Recorder>(
        alloc: Global,
        tokens: &[Terminal],
        at: usize,
        depth: Depth,
        recorder: &mut R,
    ) -> Result<ReadParameters, Stop>
        requires { at ≤ length tokens.now }
        ensures answered { PartAnswered tokens.now at (read_parameters depth (seen tokens.now at))
            (λ r. arguments_of r.arguments) (λ r. r.next) result }
        ensures placed { IfOk result (λ r. ParametersPlaced R.after tokens.now at
            (arguments_of r.arguments) r.next recorder.old recorder.new) };

    /// Arguments with commas between them, in their order.
    fn arguments_at<R: Recorder>(
        alloc: Global,
        tokens: &[Terminal],
        at: usize,
        depth: Depth,
        recorder: &mut R,
    ) -> Result<ReadArguments, Stop>
        requires { at ≤ length tokens.now }
        ensures answered { PartAnswered tokens.now at (read_arguments depth (seen tokens.now at))
            (λ r. (exprs (map tree_of r.args.items), plain.keywords (map keyword_of r.keywords.items)))
            (λ r. r.next) result }
        ensures placed { IfOk result (λ r. BasesPlaced R.after tokens.now at
            (exprs (map tree_of r.args.items)) (plain.keywords (map keyword_of r.keywords.items))
            r.next recorder.old recorder.new) };
}
