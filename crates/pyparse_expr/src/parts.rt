//! Targets, parameters and arguments, as the headers of blocks have them.
//!
//! Python language reference, 8.3 "The `for` statement", 8.7 "Function definitions" and 8.8 "Class
//! definitions".

ghost use Rattle.std.specs.Prelude.{◌+◌, ◌≤◌, List, IfOk, length, map};
ghost use Rattle.pytree_node.specs.TreeOf.{arguments_of, keyword_of, tree_of};
ghost use Rattle.pytree_node.specs.Trees as plain;
ghost use Rattle.pytree_node.specs.Trees.{exprs};
ghost use Rattle.pygrammar.specs.Reader as reader;
ghost use Rattle.pyparse_nodes.specs.Answers.{Answered, PartAnswered};
ghost use Rattle.pyparse_reads.specs.PlacedParts.{BasesPlaced, ParametersPlaced};
ghost use Rattle.pyparse_reads.specs.Readings.{read_arguments, read_parameters, reads};
ghost use Rattle.pyparse_nodes.specs.Views.{seen};
ghost use Rattle.pyplaces.specs.Placed.{Placed};
ghost use Rattle.pyplaces.specs.Recording.{Records};
ghost use Rattle.pyplaces.specs.Stretches.{Stretch};

use crate::arguments::arguments;
use crate::comprehensions::read_target;
use crate::expressions::read_at;
use crate::signatures::parameters;
use pygrammar::Level;
use pyparse_nodes::{Read, Stop, arranged};
use pyparse_reads::{Depth, ReadArguments, ReadParameters, ReadsExpressions};
use pyplaces::Recorder;
use pytoken::Terminal;
use std::alloc::Global;

/// A target in front of `in`.
#[tactic(auto, using(crate::proofs::Reader::PartSteps::outer_open, crate::proofs::Reader::PartSteps::target_outer))]
fn target_at<R: Recorder>(
    alloc: Global,
    tokens: &[Terminal],
    at: usize,
    depth: Depth,
    recorder: &mut R,
) -> Result<Read, Stop>
    requires { at ≤ length tokens.now }
    ensures answered { Answered tokens.now (depth.room + 2) (at + 1)
        (reader.read_target (reads depth) (seen tokens.now at)) result }
    ensures placed { IfOk result (λ r. (ps : List Stretch) ×
        Placed Level.Stars (seen tokens.now at) at (tree_of r.expr.value)
        (seen tokens.now r.next) r.next ps × Records R.after recorder.old ps recorder.new) }
{
    let outer = depth.outer()?;
    read_target(alloc, tokens, at, outer, recorder)
}

/// Parameters with commas between them, with annotations, in their order.
#[tactic(auto, using(crate::proofs::Reader::PartSteps::outer_open))]
fn parameters_at<R: Recorder>(
    alloc: Global,
    tokens: &[Terminal],
    at: usize,
    depth: Depth,
    recorder: &mut R,
) -> Result<ReadParameters, Stop>
    requires { at ≤ length tokens.now }
    ensures answered { PartAnswered tokens.now at (read_parameters depth (seen tokens.now at))
        (λ r. arguments_of r.arguments) (λ r. r.next) result }
    ensures placed { IfOk result (λ r. ParametersPlaced R.after tokens.now at
        (arguments_of r.arguments) r.next recorder.old recorder.new) }
{
    let outer = depth.outer()?;
    let signature = parameters(alloc, tokens, true, at, outer, recorder)?;
    let height = signature.height;
    let next = signature.next;
    let arguments = arranged(signature.formal)?;
    Ok(ReadParameters {
        arguments,
        height,
        next,
    })
}

/// Arguments with commas between them, in their order.
#[tactic(auto, using(crate::proofs::Reader::PartSteps::outer_open))]
fn arguments_at<R: Recorder>(
    alloc: Global,
    tokens: &[Terminal],
    at: usize,
    depth: Depth,
    recorder: &mut R,
) -> Result<ReadArguments, Stop>
    requires { at ≤ length tokens.now }
    ensures answered { PartAnswered tokens.now at (read_arguments depth (seen tokens.now at))
        (λ r. (exprs (map tree_of r.args.items), plain.keywords (map keyword_of r.keywords.items)))
        (λ r. r.next) result }
    ensures placed { IfOk result (λ r. BasesPlaced R.after tokens.now at
        (exprs (map tree_of r.args.items)) (plain.keywords (map keyword_of r.keywords.items))
        r.next recorder.old recorder.new) }
{
    let outer = depth.outer()?;
    let actual = arguments(alloc, tokens, at, outer, recorder)?;
    if actual.wrong {
        return Err(Stop::NoForm);
    }
    Ok(ReadArguments {
        args: actual.args,
        keywords: actual.keywords,
        height: actual.height,
        next: actual.next,
    })
}

/// The reader of expressions, for the readers of statements, patterns and lines.
pub struct Expressions;

impl ReadsExpressions for Expressions {
    #[inline(always)]
    fn read_at<R: Recorder>(
        alloc: Global,
        tokens: &[Terminal],
        level: Level,
        at: usize,
        depth: Depth,
        recorder: &mut R,
    ) -> Result<Read, Stop> {
        read_at(alloc, tokens, level, at, depth, recorder)
    }

    #[inline(always)]
    fn target_at<R: Recorder>(
        alloc: Global,
        tokens: &[Terminal],
        at: usize,
        depth: Depth,
        recorder: &mut R,
    ) -> Result<Read, Stop> {
        target_at(alloc, tokens, at, depth, recorder)
    }

    #[inline(always)]
    fn parameters_at<R: Recorder>(
        alloc: Global,
        tokens: &[Terminal],
        at: usize,
        depth: Depth,
        recorder: &mut R,
    ) -> Result<ReadParameters, Stop> {
        parameters_at(alloc, tokens, at, depth, recorder)
    }

    #[inline(always)]
    fn arguments_at<R: Recorder>(
        alloc: Global,
        tokens: &[Terminal],
        at: usize,
        depth: Depth,
        recorder: &mut R,
    ) -> Result<ReadArguments, Stop> {
        arguments_at(alloc, tokens, at, depth, recorder)
    }
}
