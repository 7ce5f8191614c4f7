//! What a header and its block make of a level.

ghost use Rattle.std.specs.Prelude.{◌≡◌, ◌++◌, ◌∷◌, [], map, IfOk, OnOk};
ghost use Rattle.pytree_node.specs.TreeOf.{boxed_of, case_of, handler_of, pattern_of, stmt_of};
ghost use Rattle.pytree_node.specs.TreeOf.{tree_of};
ghost use Rattle.pygrammar.specs.Lines.{case_header, def_header, elif_header, else_header};
ghost use Rattle.pygrammar.specs.Lines.{except_header, finally_header};
ghost use Rattle.pygrammar.specs.Reading.{Idle, joined, matched};
ghost use Rattle.pygrammar.specs.FormOf.{def_head_of, header_of};
ghost use Rattle.pyparse_block.specs.Values.{arm_of, group_of};

use crate::closing::put;
use crate::groups::{Arm, Group, PartialBlock, open_group};
use crate::room::append;
use crate::statements::{
    choice_statement, definition_statement, handler, loop_statement, match_case, match_statement,
    try_statement, with_statement,
};
use pygrammar::{DefHead, Header};
use pytree_node::{Case, Expr, Handler, Identifier, Pattern, Stmt};
use std::alloc::{AllocError, Global};
use std::mem;

/// Arms, and one more.
fn with_arm(arms: Vec<Arm>, arm: Arm) -> Result<Vec<Arm>, AllocError>
    ensures { IfOk result (λ v. map arm_of v.items ≡ map arm_of arms.items ++ arm_of arm ∷ []) }
{
    let mut arms = arms;
    append(&mut arms, arm)?;
    Ok(arms)
}

/// Handlers, and one more.
fn with_handler(handlers: Vec<Handler>, handler: Handler) -> Result<Vec<Handler>, AllocError>
    ensures { IfOk result (λ v. map handler_of v.items
        ≡ map handler_of handlers.items ++ handler_of handler ∷ []) }
{
    let mut handlers = handlers;
    append(&mut handlers, handler)?;
    Ok(handlers)
}

/// Cases, and one more.
fn with_case(cases: Vec<Case>, case: Case) -> Result<Vec<Case>, AllocError>
    ensures { IfOk result
        (λ v. map case_of v.items ≡ map case_of cases.items ++ case_of case ∷ []) }
{
    let mut cases = cases;
    append(&mut cases, case)?;
    Ok(cases)
}

/// An `elif` with its block.
fn grow_elif(part: &mut PartialBlock, arm: Arm) -> Result<(), AllocError>
    ensures done { OnOk result (map stmt_of part.new.done.items
        ≡ (joined (map stmt_of part.old.done.items) (group_of part.old.group)
        (elif_header (tree_of arm.test.value)) (map stmt_of arm.body.items)).done) }
    ensures group { OnOk result (group_of part.new.group
        ≡ (joined (map stmt_of part.old.done.items) (group_of part.old.group)
        (elif_header (tree_of arm.test.value)) (map stmt_of arm.body.items)).group) }
{
    let group = mem::replace(&mut part.group, Group::Idle);
    if let Group::Choice { first, elifs } = group {
        let elifs = with_arm(elifs, arm)?;
        open_group(part, Group::Choice { first, elifs });
    }
    Ok(())
}

/// An `else` with its block.
fn grow_else(alloc: Global, part: &mut PartialBlock, body: Vec<Stmt>) -> Result<(), AllocError>
    ensures done { OnOk result (map stmt_of part.new.done.items
        ≡ (joined (map stmt_of part.old.done.items) (group_of part.old.group)
        else_header (map stmt_of body.items)).done) }
    ensures group { OnOk result (group_of part.new.group
        ≡ (joined (map stmt_of part.old.done.items) (group_of part.old.group)
        else_header (map stmt_of body.items)).group) }
{
    let group = mem::replace(&mut part.group, Group::Idle);
    match group {
        Group::Choice { first, elifs } => {
            let one = choice_statement(alloc, first, elifs, body)?;
            put(&mut part.done, one)?;
        }
        Group::Loop { head, body: first } => {
            put(&mut part.done, loop_statement(head, first, body))?;
        }
        Group::Caught {
            star,
            body: first,
            handlers,
        } => {
            open_group(
                part,
                Group::Settled {
                    star,
                    body: first,
                    handlers,
                    orelse: body,
                },
            );
        }
        _ => {}
    }
    Ok(())
}

/// An `except` with its block.
fn grow_except(
    alloc: Global,
    part: &mut PartialBlock,
    star: bool,
    class: Option<Box<Expr>>,
    name: Option<Identifier>,
    body: Vec<Stmt>,
) -> Result<(), AllocError>
    ensures done { OnOk result (map stmt_of part.new.done.items
        ≡ (joined (map stmt_of part.old.done.items) (group_of part.old.group)
        (except_header star (boxed_of class) name) (map stmt_of body.items)).done) }
    ensures group { OnOk result (group_of part.new.group
        ≡ (joined (map stmt_of part.old.done.items) (group_of part.old.group)
        (except_header star (boxed_of class) name) (map stmt_of body.items)).group) }
{
    let group = mem::replace(&mut part.group, Group::Idle);
    match group {
        Group::Trial { body: first } => {
            let handlers = with_handler(Vec::new(alloc), handler(class, name, body))?;
            open_group(
                part,
                Group::Caught {
                    star,
                    body: first,
                    handlers,
                },
            );
        }
        Group::Caught {
            star: first_star,
            body: first,
            handlers,
        } => {
            let handlers = with_handler(handlers, handler(class, name, body))?;
            open_group(
                part,
                Group::Caught {
                    star: first_star,
                    body: first,
                    handlers,
                },
            );
        }
        _ => {}
    }
    Ok(())
}

/// A `finally` with its block.
fn grow_finally(alloc: Global, part: &mut PartialBlock, body: Vec<Stmt>) -> Result<(), AllocError>
    ensures done { OnOk result (map stmt_of part.new.done.items
        ≡ (joined (map stmt_of part.old.done.items) (group_of part.old.group)
        finally_header (map stmt_of body.items)).done) }
    ensures group { OnOk result (group_of part.new.group
        ≡ (joined (map stmt_of part.old.done.items) (group_of part.old.group)
        finally_header (map stmt_of body.items)).group) }
{
    let group = mem::replace(&mut part.group, Group::Idle);
    match group {
        Group::Trial { body: first } => {
            let one = try_statement(alloc, false, first, Vec::new(alloc), Vec::new(alloc), body)?;
            put(&mut part.done, one)
        }
        Group::Caught {
            star,
            body: first,
            handlers,
        } => {
            let one = try_statement(alloc, star, first, handlers, Vec::new(alloc), body)?;
            put(&mut part.done, one)
        }
        Group::Settled {
            star,
            body: first,
            handlers,
            orelse,
        } => {
            let one = try_statement(alloc, star, first, handlers, orelse, body)?;
            put(&mut part.done, one)
        }
        _ => Ok(()),
    }
}

/// A `def` or `class` with its block.
fn grow_def(
    alloc: Global,
    part: &mut PartialBlock,
    head: DefHead,
    body: Vec<Stmt>,
) -> Result<(), AllocError>
    ensures done { OnOk result (map stmt_of part.new.done.items
        ≡ (joined (map stmt_of part.old.done.items) (group_of part.old.group)
        (def_header (def_head_of head)) (map stmt_of body.items)).done) }
    ensures group { OnOk result (group_of part.new.group
        ≡ (joined (map stmt_of part.old.done.items) (group_of part.old.group)
        (def_header (def_head_of head)) (map stmt_of body.items)).group) }
{
    let group = mem::replace(&mut part.group, Group::Idle);
    let decorators = match group {
        Group::Marked { decorators } => decorators,
        _ => Vec::new(alloc),
    };
    let one = definition_statement(alloc, decorators, head, body)?;
    put(&mut part.done, one)
}

/// A `case` with its block.
fn grow_case(
    part: &mut PartialBlock,
    pattern: Box<Pattern>,
    guard: Option<Box<Expr>>,
    body: Vec<Stmt>,
) -> Result<(), AllocError>
    ensures done { OnOk result (map stmt_of part.new.done.items
        ≡ (joined (map stmt_of part.old.done.items) (group_of part.old.group)
        (case_header (pattern_of pattern.value) (boxed_of guard)) (map stmt_of body.items)).done) }
    ensures group { OnOk result (group_of part.new.group
        ≡ (joined (map stmt_of part.old.done.items) (group_of part.old.group)
        (case_header (pattern_of pattern.value) (boxed_of guard)) (map stmt_of body.items)).group) }
{
    let group = mem::replace(&mut part.group, Group::Idle);
    if let Group::Matching { cases } = group {
        let cases = with_case(cases, match_case(pattern, guard, body))?;
        open_group(part, Group::Matching { cases });
    }
    Ok(())
}

/// A header with its block.
#[inline(never)]
pub(crate) fn grow(
    alloc: Global,
    part: &mut PartialBlock,
    header: Header,
    body: Vec<Stmt>,
) -> Result<(), AllocError>
    ensures done { OnOk result (map stmt_of part.new.done.items
        ≡ (joined (map stmt_of part.old.done.items) (group_of part.old.group)
        (header_of header) (map stmt_of body.items)).done) }
    ensures group { OnOk result (group_of part.new.group
        ≡ (joined (map stmt_of part.old.done.items) (group_of part.old.group)
        (header_of header) (map stmt_of body.items)).group) }
{
    match header {
        Header::If { test } => {
            open_group(
                part,
                Group::Choice {
                    first: Arm { test, body },
                    elifs: Vec::new(alloc),
                },
            );
            Ok(())
        }
        Header::Elif { test } => grow_elif(part, Arm { test, body }),
        Header::Else => grow_else(alloc, part, body),
        Header::Loop { head } => {
            open_group(part, Group::Loop { head, body });
            Ok(())
        }
        Header::With { is_async, items } => {
            open_group(part, Group::Idle);
            put(&mut part.done, with_statement(is_async, items, body))
        }
        Header::Try => {
            open_group(part, Group::Trial { body });
            Ok(())
        }
        Header::Except { star, class, name } => grow_except(alloc, part, star, class, name, body),
        Header::Finally => grow_finally(alloc, part, body),
        Header::Def { head } => grow_def(alloc, part, head, body),
        // With an inline suite alone, which no line of terminals has after this header.
        Header::Match { subject } => {
            drop((subject, body));
            open_group(part, Group::Idle);
            Ok(())
        }
        Header::Case { pattern, guard } => grow_case(part, pattern, guard, body),
    }
}

/// A `match` with its cases.
pub(crate) fn grow_match(
    part: &mut PartialBlock,
    header: Header,
    cases: Vec<Case>,
) -> Result<(), AllocError>
    ensures done { OnOk result (map stmt_of part.new.done.items
        ≡ map stmt_of part.old.done.items ++ matched (header_of header) (map case_of cases.items)) }
    ensures group { OnOk result (group_of part.new.group ≡ Idle) }
{
    open_group(part, Group::Idle);
    match header {
        Header::Match { subject } => put(&mut part.done, match_statement(subject, cases)),
        // No other header has cases for its block.
        header => {
            drop((header, cases));
            Ok(())
        }
    }
}
