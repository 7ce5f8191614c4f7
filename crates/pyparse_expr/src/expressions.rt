//! An expression of a list of terminals.

ghost use Rattle.std.specs.Prelude.{◌≡◌, ◌+◌, ◌≤◌, [], IfOk, List, MatchResult, length, map};
ghost use Rattle.pytree_node.specs.TreeOf.{tree_of};
ghost use Rattle.pytoken.specs.TerminalOf.{terminal};
ghost use Rattle.pyparse_expr.specs.Expressions.{IsExpression, Refused};
ghost use Rattle.pyparse_nodes.specs.Answers.{Answered};
ghost use Rattle.pyparse_reads.specs.Readings.{reads};
ghost use Rattle.pyparse_nodes.specs.Views.{seen};
ghost use Rattle.pyplaces.specs.Placed.{Placed};
ghost use Rattle.pyplaces.specs.Recording.{Records};
ghost use Rattle.pyplaces.specs.Stretches.{Stretch};

use crate::atoms::read_atom;
use crate::climbing::climb;
use crate::levels::{
    read_elem, read_expression, read_named, read_star_item, read_stars, read_subject, read_value,
};
use crate::primaries::read_primary;
use crate::slices::{read_part, read_slice, read_slices};
use pygrammar::Level;
use pyparse_nodes::{Read, Stop};
use pyparse_reads::{Depth, MOST_HEIGHT};
use pyplaces::Recorder;
use pytoken::Terminal;
use pytree_node::Expr;
use std::alloc::Global;

/// Reads an expression of a level at a place of some terminals.
#[inline(always)]
pub(crate) fn read_at<R: Recorder>(
    alloc: Global,
    tokens: &[Terminal],
    level: Level,
    at: usize,
    depth: Depth,
    recorder: &mut R,
) -> Result<Read, Stop>
    requires { at ≤ length tokens.now }
    ensures answered { Answered tokens.now depth.room (at + 1)
        (reads depth level (seen tokens.now at)) result }
    ensures placed { IfOk result (λ r. (ps : List Stretch) ×
        Placed level (seen tokens.now at) at (tree_of r.expr.value)
        (seen tokens.now r.next) r.next ps × Records R.after recorder.old ps recorder.new) }
{
    match level {
        Level::Value => read_value(alloc, tokens, at, depth, recorder),
        Level::Stars => read_stars(alloc, tokens, at, depth, recorder),
        Level::StarItem => read_star_item(alloc, tokens, at, depth, recorder),
        Level::Elem => read_elem(alloc, tokens, at, depth, recorder),
        Level::Named => read_named(alloc, tokens, at, depth, recorder),
        Level::Expression => read_expression(alloc, tokens, at, depth, recorder),
        Level::Or => climb(alloc, tokens, Level::Or, at, depth, recorder),
        Level::And => climb(alloc, tokens, Level::And, at, depth, recorder),
        Level::Not => climb(alloc, tokens, Level::Not, at, depth, recorder),
        Level::Compare => climb(alloc, tokens, Level::Compare, at, depth, recorder),
        Level::BitOr => climb(alloc, tokens, Level::BitOr, at, depth, recorder),
        Level::BitXor => climb(alloc, tokens, Level::BitXor, at, depth, recorder),
        Level::BitAnd => climb(alloc, tokens, Level::BitAnd, at, depth, recorder),
        Level::Shift => climb(alloc, tokens, Level::Shift, at, depth, recorder),
        Level::Sum => climb(alloc, tokens, Level::Sum, at, depth, recorder),
        Level::Term => climb(alloc, tokens, Level::Term, at, depth, recorder),
        Level::Factor => climb(alloc, tokens, Level::Factor, at, depth, recorder),
        Level::Power => climb(alloc, tokens, Level::Power, at, depth, recorder),
        Level::Await => climb(alloc, tokens, Level::Await, at, depth, recorder),
        Level::Primary => read_primary(alloc, tokens, at, depth, recorder),
        Level::Atom => read_atom(alloc, tokens, at, depth, recorder),
        Level::Slices => read_slices(alloc, tokens, at, depth, recorder),
        Level::Part => read_part(alloc, tokens, at, depth, recorder),
        Level::Slice => read_slice(alloc, tokens, at, depth, recorder),
        Level::Subject => read_subject(alloc, tokens, at, depth, recorder),
    }
}

/// The expression of a level that some terminals are, as the grammar of the language reference,
/// section 6, derives it. At most [`MOST_HEIGHT`] nodes are nested.
///
/// # Errors
///
/// [`Stop::NoForm`]: they are none. [`Stop::TooDeep`]: they are none of this height; where they are
/// none at all, there are more of them than [`MOST_HEIGHT`]. [`Stop::Memory`].
#[tactic(auto, using(crate::proofs::Reader::Wholes::whole_failed, crate::proofs::Reader::Wholes::whole_high, crate::proofs::Reader::Wholes::whole_more, crate::proofs::Reader::Wholes::whole_found))]
pub fn read_whole<R: Recorder>(
    alloc: Global,
    tokens: &[Terminal],
    level: Level,
    recorder: &mut R,
) -> Result<Box<Expr>, Stop>
    ensures answered { MatchResult result
        (λ e. IsExpression level (map terminal tokens.now) (tree_of e.value))
        (λ s. Refused s level (map terminal tokens.now)) }
    ensures placed { IfOk result (λ e. (ps : List Stretch) ×
        Placed level (map terminal tokens.now) 0 (tree_of e.value) [] (length tokens.now) ps ×
        Records R.after recorder.old ps recorder.new) }
{
    let read = read_at(alloc, tokens, level, 0, Depth::of(tokens), recorder)?;
    if read.height > MOST_HEIGHT {
        return Err(Stop::TooDeep);
    }
    if read.next != tokens.len() {
        return Err(Stop::NoForm);
    }
    Ok(read.expr)
}
