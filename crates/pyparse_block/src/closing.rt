//! The statements of a level that comes to its end.

ghost use Rattle.std.specs.Prelude.{◌≡◌, ◌++◌, ◌∷◌, [], map, OnOk, IfErr};
ghost use Rattle.pytree_node.specs.TreeOf.{stmt_of};
ghost use Rattle.pygrammar.specs.Reading.{Fine, Idle};
ghost use Rattle.pyparse_block.specs.Faults.{Tells};
ghost use Rattle.pyparse_block.specs.Inner.Meeting.{closed};
ghost use Rattle.pyparse_block.specs.Values.{group_of};

use crate::groups::{Group, PartialBlock};
use crate::outline::{BlockFault, BlockStop};
use crate::room::{append, append_all};
use crate::statements::{choice_statement, loop_statement, try_statement};
use pytree_node::Stmt;
use std::alloc::{AllocError, Global};
use std::mem;

/// Statements, and one more.
pub(crate) fn put(statements: &mut Vec<Stmt>, one: Stmt) -> Result<(), AllocError>
    ensures { OnOk result
        (map stmt_of statements.new.items
        ≡ map stmt_of statements.old.items ++ stmt_of one ∷ []) }
{
    append(statements, one)
}

/// Lets go of what isn't kept. It is never inlined, since a function pays at entry for the locals of
/// what it may drop.
#[inline(never)]
pub(crate) fn let_go<T: Drop>(value: T) {
    drop(value);
}

/// Statements, and more of them.
pub(crate) fn put_all(statements: &mut Vec<Stmt>, more: Vec<Stmt>) -> Result<(), AllocError>
    ensures { OnOk result
        (map stmt_of statements.new.items
        ≡ map stmt_of statements.old.items ++ map stmt_of more.items) }
{
    let mut more = more;
    let put = if statements.is_empty() {
        mem::swap(statements, &mut more);
        Ok(())
    } else {
        append_all(statements, &mut more)
    };
    let_go(more);
    put
}

/// Puts to the statements of a level those of a group that ends.
#[inline(never)]
pub(crate) fn end_group(alloc: Global, done: &mut Vec<Stmt>, group: Group) -> Result<(), BlockStop>
    ensures closed { OnOk result
        (closed (map stmt_of done.old.items) (group_of group)
        ≡ Fine (map stmt_of done.new.items)) }
    ensures refused { IfErr result
        (Tells (closed (map stmt_of done.old.items) (group_of group))) }
{
    let one = match group {
        Group::Idle => return Ok(()),
        Group::Marked { .. } | Group::Trial { .. } | Group::Matching { .. } => {
            return Err(BlockStop::Faulty(BlockFault::MisplacedClause));
        }
        Group::Choice { first, elifs } => choice_statement(alloc, first, elifs, Vec::new(alloc))?,
        Group::Loop { head, body } => loop_statement(head, body, Vec::new(alloc)),
        Group::Caught {
            star,
            body,
            handlers,
        } => try_statement(
            alloc,
            star,
            body,
            handlers,
            Vec::new(alloc),
            Vec::new(alloc),
        )?,
        Group::Settled {
            star,
            body,
            handlers,
            orelse,
        } => try_statement(alloc, star, body, handlers, orelse, Vec::new(alloc))?,
    };
    Ok(put(done, one)?)
}

/// Ends the group of a level.
pub(crate) fn close(alloc: Global, part: &mut PartialBlock) -> Result<(), BlockStop>
    ensures closed { OnOk result
        (closed (map stmt_of part.old.done.items) (group_of part.old.group)
        ≡ Fine (map stmt_of part.new.done.items)) }
    ensures idle { OnOk result (group_of part.new.group ≡ Idle) }
    ensures refused { IfErr result
        (Tells (closed (map stmt_of part.old.done.items) (group_of part.old.group))) }
{
    // Most levels have none open.
    if matches!(part.group, Group::Idle) {
        return Ok(());
    }
    let group = mem::replace(&mut part.group, Group::Idle);
    end_group(alloc, &mut part.done, group)
}
