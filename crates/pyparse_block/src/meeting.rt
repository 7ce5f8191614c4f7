//! What a line finds of the level that it stands in.

ghost use Rattle.std.specs.Prelude.{◌≡◌, ◌++◌, ◌∷◌, [], map, IfOk, IfErr, OnOk};
ghost use Rattle.pytree_node.specs.TreeOf.{stmt_of, tree_of};
ghost use Rattle.pygrammar.specs.Reading.{Fine};
ghost use Rattle.pygrammar.specs.FormOf.{header_of};
ghost use Rattle.pyparse_block.specs.Faults.{Tells};
ghost use Rattle.pyparse_block.specs.Inner.Meeting.{begins, continues, is_matching, marked, met};
ghost use Rattle.pyparse_block.specs.Values.{group_of, part_of};

use crate::closing::{close, end_group};
use crate::groups::{Group, PartialBlock, open_group};
use crate::outline::{BlockFault, BlockStop};
use crate::room::append;
use pygrammar::Header;
use pytree_node::Expr;
use std::alloc::{AllocError, Global};
use std::mem;

/// Whether a group has the cases of a `match`.
pub(crate) fn is_matching(group: &Group) -> bool
    ensures { result ≡ is_matching (group_of group.now) }
{
    matches!(group, Group::Matching { .. })
}

/// Whether a header is a clause of a group.
fn continues(header: &Header, group: &Group) -> bool
    ensures { result ≡ continues (header_of header.now) (group_of group.now) }
{
    match header {
        Header::Elif { .. } => matches!(group, Group::Choice { .. }),
        Header::Else => matches!(
            group,
            Group::Choice { .. } | Group::Loop { .. } | Group::Caught { .. }
        ),
        Header::Except { star, .. } => match group {
            Group::Trial { .. } => true,
            Group::Caught { star: first, .. } => *star == *first,
            _ => false,
        },
        Header::Finally => matches!(
            group,
            Group::Trial { .. } | Group::Caught { .. } | Group::Settled { .. }
        ),
        Header::Def { .. } => matches!(group, Group::Marked { .. }),
        Header::Case { .. } => is_matching(group),
        _ => false,
    }
}

/// Whether a header begins a statement.
fn begins(header: &Header) -> bool
    ensures { result ≡ begins (header_of header.now) }
{
    matches!(
        header,
        Header::If { .. }
            | Header::Loop { .. }
            | Header::With { .. }
            | Header::Try
            | Header::Def { .. }
            | Header::Match { .. }
    )
}

/// What a header finds: it goes on with the group of its level, or that ends before it.
#[tactic(auto, using(crate::proofs::MeetingLemmas::met_is))]
pub(crate) fn meet(alloc: Global, part: &mut PartialBlock, header: &Header) -> Result<(), BlockStop>
    ensures met { OnOk result (met (map stmt_of part.old.done.items) (group_of part.old.group)
        (header_of header.now) ≡ Fine (part_of part.new)) }
    ensures refused { IfErr result
        (Tells (met (map stmt_of part.old.done.items) (group_of part.old.group)
        (header_of header.now))) }
{
    if continues(header, &part.group) {
        return Ok(());
    }
    if begins(header) {
        return close(alloc, part);
    }
    Err(BlockStop::Faulty(BlockFault::MisplacedClause))
}

/// Expressions, and one more.
fn with_expr(expressions: Vec<Expr>, one: Box<Expr>) -> Result<Vec<Expr>, AllocError>
    ensures { IfOk result
        (λ v. map tree_of v.items ≡ map tree_of expressions.items ++ tree_of one.value ∷ []) }
{
    let mut expressions = expressions;
    append(&mut expressions, Box::into_inner(one))?;
    Ok(expressions)
}

/// What a decorator makes of its level: it goes on with decorators, or the group ends before it.
#[inline(never)]
pub(crate) fn mark(
    alloc: Global,
    part: &mut PartialBlock,
    value: Box<Expr>,
) -> Result<(), BlockStop>
    ensures marked { OnOk result (marked (map stmt_of part.old.done.items)
        (group_of part.old.group) (tree_of value.value) ≡ Fine (part_of part.new)) }
    ensures refused { IfErr result
        (Tells (marked (map stmt_of part.old.done.items) (group_of part.old.group)
        (tree_of value.value))) }
{
    let group = mem::replace(&mut part.group, Group::Idle);
    match group {
        Group::Marked { decorators } => {
            let decorators = with_expr(decorators, value)?;
            open_group(part, Group::Marked { decorators });
        }
        group => {
            end_group(alloc, &mut part.done, group)?;
            let decorators = with_expr(Vec::new(alloc), value)?;
            open_group(part, Group::Marked { decorators });
        }
    }
    Ok(())
}
