//! Simple statements that begin with a keyword, after it.
//!
//! Python language reference, 7.3 "The `assert` statement", 7.5 to 7.10, 7.12 and 7.13.

ghost use Rattle.std.specs.Prelude.{◌≡◌, ◌+◌, ◌≤◌, None, length, map};
ghost use Rattle.pytree_node.specs.TreeOf.{stmt_of};
ghost use Rattle.pytree_node.specs.Trees as plain;
ghost use Rattle.pytoken.specs.Terminals as terminals;
ghost use Rattle.pygrammar.specs.Entries as entries;
ghost use Rattle.pygrammar.specs.LineReader as line;
ghost use Rattle.pygrammar.specs.Precedence as precedence;
ghost use Rattle.pygrammar.specs.Reader as reader;
ghost use Rattle.pyparse_nodes.specs.Answers.{PartAnswered};
ghost use Rattle.pyparse_reads.specs.Readings.{reads};
ghost use Rattle.pyparse_nodes.specs.Views.{seen};
ghost use Rattle.pytree_node.specs.TreeOf.{tree_of};
ghost use Rattle.pyparse_statement.specs.Inner.Simple.{asserts, deletes, globals, nonlocals, raises};
ghost use Rattle.pyparse_statement.specs.Inner.Simple.{returns};
ghost use Rattle.std.specs.Prelude.{IfOk};
ghost use Rattle.pyparse_statement.specs.PlacedParts.{AllDeletedPlaced, DeletedPlaced};
ghost use Rattle.pyparse_statement.specs.PlacedStatements.{WordPlaced};

use crate::statements::found::ReadStatement;
use crate::statements::names::read_names;
use crate::statements::optional::{
    after_sign, after_word, stars_or_none, starts_expression, unboxed,
};
use pygrammar::Level;
use pylex_listing::Exact;
use pyparse_nodes::{Items, Read, Stop, deleted, is_op};
use pyparse_reads::{Depth, ReadsExpressions, no_items, push};
use pyplaces::Recorder;
use pytoken::{Keyword, Terminal};
use pytree_node::Stmt;
use std::alloc::Global;

/// A `pass`.
#[tactic(auto, using(pytree_node::proofs::Callers::StmtShapes::pass_tree))]
pub(crate) fn pass_at(next: usize) -> ReadStatement
    ensures statement { stmt_of result.statement ≡ plain.Pass }
    ensures next { result.next ≡ next }
{
    ReadStatement {
        statement: Stmt::Pass,
        height: 0,
        next,
    }
}

/// A `break`.
#[tactic(auto, using(pytree_node::proofs::Callers::StmtShapes::break_tree))]
pub(crate) fn break_at(next: usize) -> ReadStatement
    ensures statement { stmt_of result.statement ≡ plain.Break }
    ensures next { result.next ≡ next }
{
    ReadStatement {
        statement: Stmt::Break,
        height: 0,
        next,
    }
}

/// A `continue`.
#[tactic(auto, using(pytree_node::proofs::Callers::StmtShapes::continue_tree))]
pub(crate) fn continue_at(next: usize) -> ReadStatement
    ensures statement { stmt_of result.statement ≡ plain.Continue }
    ensures next { result.next ≡ next }
{
    ReadStatement {
        statement: Stmt::Continue,
        height: 0,
        next,
    }
}

/// After a `global`.
#[tactic(auto, using(pytree_node::proofs::Callers::StmtShapes::global_tree))]
pub(crate) fn global(alloc: Global, tokens: &[Terminal], at: usize) -> Result<ReadStatement, Stop>
    requires { at ≤ length tokens.now }
    ensures { PartAnswered tokens.now at (globals (seen tokens.now at)) (λ r. stmt_of r.statement)
        (λ r. r.next) result }
{
    let names = read_names(alloc, tokens, at)?;
    Ok(ReadStatement {
        statement: Stmt::Global { names: names.names },
        height: 0,
        next: names.next,
    })
}

/// After a `nonlocal`.
#[tactic(auto, using(pytree_node::proofs::Callers::StmtShapes::nonlocal_tree))]
pub(crate) fn nonlocal(alloc: Global, tokens: &[Terminal], at: usize) -> Result<ReadStatement, Stop>
    requires { at ≤ length tokens.now }
    ensures { PartAnswered tokens.now at (nonlocals (seen tokens.now at)) (λ r. stmt_of r.statement)
        (λ r. r.next) result }
{
    let names = read_names(alloc, tokens, at)?;
    Ok(ReadStatement {
        statement: Stmt::Nonlocal { names: names.names },
        height: 0,
        next: names.next,
    })
}

/// After a `return`.
#[tactic(auto, using(pytree_node::proofs::Callers::StmtShapes::return_tree))]
pub(crate) fn return_value<E: ReadsExpressions, R: Recorder>(
    alloc: Global,
    tokens: &[Terminal],
    at: usize,
    depth: Depth,
    recorder: &mut R,
) -> Result<ReadStatement, Stop>
    requires { at ≤ length tokens.now }
    ensures answered { PartAnswered tokens.now at (returns (reads depth) (seen tokens.now at))
        (λ r. stmt_of r.statement) (λ r. r.next) result }
    ensures placed { WordPlaced R.after Keyword.Return tokens.now at recorder.old recorder.new
        result }
{
    let value = stars_or_none::<E, R>(alloc, tokens, at, depth, recorder)?;
    Ok(ReadStatement {
        height: value.height,
        next: value.next,
        statement: Stmt::Return {
            value: unboxed(value.expr),
        },
    })
}

/// A `raise` of nothing.
#[tactic(auto, using(pytree_node::proofs::Callers::StmtShapes::raise_tree))]
fn raise_at(next: usize) -> ReadStatement
    ensures statement { stmt_of result.statement ≡ plain.Raise None None }
    ensures next { result.next ≡ next }
{
    ReadStatement {
        statement: Stmt::Raise {
            exc: None,
            cause: None,
        },
        height: 0,
        next,
    }
}

/// After a `raise`.
#[tactic(auto, using(pytree_node::proofs::Callers::StmtShapes::raise_tree))]
pub(crate) fn raise<E: ReadsExpressions, R: Recorder>(
    alloc: Global,
    tokens: &[Terminal],
    at: usize,
    depth: Depth,
    recorder: &mut R,
) -> Result<ReadStatement, Stop>
    requires { at ≤ length tokens.now }
    ensures answered { PartAnswered tokens.now at (raises (reads depth) (seen tokens.now at))
        (λ r. stmt_of r.statement) (λ r. r.next) result }
    ensures placed { WordPlaced R.after Keyword.Raise tokens.now at recorder.old recorder.new result }
{
    if !starts_expression(tokens, at) {
        return Ok(raise_at(at));
    }
    let exc = E::read_at(alloc, tokens, Level::Expression, at, depth, recorder)?;
    let cause = after_word::<E, R>(
        alloc,
        tokens,
        Keyword::From,
        Level::Expression,
        exc.next,
        depth,
        recorder,
    )?;
    Ok(ReadStatement {
        height: exc.height.max(cause.height),
        next: cause.next,
        statement: Stmt::Raise {
            exc: Some(exc.expr),
            cause: cause.expr,
        },
    })
}

/// After an `assert`.
#[tactic(auto, using(pytree_node::proofs::Callers::StmtShapes::assert_tree))]
pub(crate) fn assert<E: ReadsExpressions, R: Recorder>(
    alloc: Global,
    tokens: &[Terminal],
    at: usize,
    depth: Depth,
    recorder: &mut R,
) -> Result<ReadStatement, Stop>
    requires { at ≤ length tokens.now }
    ensures answered { PartAnswered tokens.now at (asserts (reads depth) (seen tokens.now at))
        (λ r. stmt_of r.statement) (λ r. r.next) result }
    ensures placed { WordPlaced R.after Keyword.Assert tokens.now at recorder.old recorder.new
        result }
{
    let test = E::read_at(alloc, tokens, Level::Expression, at, depth, recorder)?;
    let msg = after_sign::<E, R>(
        alloc,
        tokens,
        Exact::Comma,
        Level::Expression,
        test.next,
        depth,
        recorder,
    )?;
    Ok(ReadStatement {
        height: test.height.max(msg.height),
        next: msg.next,
        statement: Stmt::Assert {
            test: Box::into_inner(test.expr),
            msg: msg.expr,
        },
    })
}

/// An expression that is deleted.
fn deleted_one<E: ReadsExpressions, R: Recorder>(
    alloc: Global,
    tokens: &[Terminal],
    at: usize,
    depth: Depth,
    recorder: &mut R,
) -> Result<Read, Stop>
    requires { at ≤ length tokens.now }
    ensures answered { PartAnswered tokens.now at (line.deleted_one (reads depth) (seen tokens.now
        at))
        (λ r. tree_of r.expr.value) (λ r. r.next) result }
    ensures placed { IfOk result (DeletedPlaced R.after tokens.now at recorder.old recorder.new) }
{
    let e = E::read_at(alloc, tokens, Level::Expression, at, depth, recorder)?;
    deleted(e)
}

/// The same targets, with another place after them.
fn placed(targets: Items, next: usize) -> Items
    ensures items { map tree_of result.exprs.items ≡ map tree_of targets.exprs.items }
    ensures next { result.next ≡ next }
{
    Items {
        exprs: targets.exprs,
        height: targets.height,
        next,
    }
}

/// Expressions that are deleted, with commas between them.
fn deleted_all<E: ReadsExpressions, R: Recorder>(
    alloc: Global,
    tokens: &[Terminal],
    at: usize,
    depth: Depth,
    recorder: &mut R,
) -> Result<Items, Stop>
    requires { at ≤ length tokens.now }
    ensures answered { PartAnswered tokens.now at
        (line.commas_of (line.deleted_one (reads depth))
        (precedence.starts (entries.Of Level.Expression)) (seen tokens.now at))
        (λ r. map tree_of r.exprs.items) (λ r. r.next) result }
    ensures placed { IfOk result (AllDeletedPlaced R.after tokens.now at recorder.old recorder.new) }
{
    let mut targets = no_items(alloc, at);
    'more: loop {
        let one = deleted_one::<E, R>(alloc, tokens, targets.next, depth, recorder)?;
        let grown = push(targets, one)?;
        if !is_op(tokens, grown.next, Exact::Comma) {
            return Ok(grown);
        }
        let next = grown.next + 1;
        targets = placed(grown, next);
        if !starts_expression(tokens, next) {
            return Ok(targets);
        }
    }
}

/// After a `del`.
#[tactic(auto, using(pytree_node::proofs::Callers::StmtShapes::delete_tree))]
pub(crate) fn delete<E: ReadsExpressions, R: Recorder>(
    alloc: Global,
    tokens: &[Terminal],
    at: usize,
    depth: Depth,
    recorder: &mut R,
) -> Result<ReadStatement, Stop>
    requires { at ≤ length tokens.now }
    ensures answered { PartAnswered tokens.now at (deletes (reads depth) (seen tokens.now at))
        (λ r. stmt_of r.statement) (λ r. r.next) result }
    ensures placed { WordPlaced R.after Keyword.Del tokens.now at recorder.old recorder.new result }
{
    let targets = deleted_all::<E, R>(alloc, tokens, at, depth, recorder)?;
    Ok(ReadStatement {
        height: targets.height,
        next: targets.next,
        statement: Stmt::Delete {
            targets: targets.exprs,
        },
    })
}
