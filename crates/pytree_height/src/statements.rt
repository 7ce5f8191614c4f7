//! The heights of statements.

ghost use Rattle.std.specs.Prelude.{◌≡◌, map};
ghost use Rattle.pytree_height.specs.Heights.{capped, case_heights, handler_heights, stmt_height};
ghost use Rattle.pytree_height.specs.Heights.{stmt_heights};
ghost use Rattle.pytree_node.specs.TreeOf.{case_of, handler_of, stmt_of, try_of};
ghost use Rattle.pytree_node.specs.Trees.{cases, handlers, stmts, try_block};

use crate::modules::one_more;
use pytree_node::{Case, Handler, Stmt, Try};

/// The height of a statement.
#[cycle(statement_height)]
#[tactic(auto, using(pytree_node::proofs::Callers::StmtShapes::stmt_shapes, crate::proofs::CapLemmas::caps))]
pub(crate) fn statement_height(s: &Stmt) -> u64
    ensures { result ≡ capped (stmt_height (stmt_of s.now)) }
{
    match s {
        Stmt::FunctionDef(def) => one_more(statements_height(&def.body)),
        Stmt::AsyncFunctionDef(def) => one_more(statements_height(&def.body)),
        Stmt::ClassDef(class) => one_more(statements_height(&class.body)),
        Stmt::For { body, orelse, .. } => {
            one_more(statements_height(body).max(statements_height(orelse)))
        }
        Stmt::AsyncFor { body, orelse, .. } => {
            one_more(statements_height(body).max(statements_height(orelse)))
        }
        Stmt::While { body, orelse, .. } => {
            one_more(statements_height(body).max(statements_height(orelse)))
        }
        Stmt::If { body, orelse, .. } => {
            one_more(statements_height(body).max(statements_height(orelse)))
        }
        Stmt::With { body, .. } => one_more(statements_height(body)),
        Stmt::AsyncWith { body, .. } => one_more(statements_height(body)),
        Stmt::Match { cases, .. } => one_more(cases_height(cases)),
        Stmt::Try(parts) => try_height(parts),
        Stmt::TryStar(parts) => try_height(parts),
        Stmt::Return { .. } => 1,
        Stmt::Delete { .. } => 1,
        Stmt::Assign { .. } => 1,
        Stmt::TypeAlias { .. } => 1,
        Stmt::AugAssign { .. } => 1,
        Stmt::AnnAssign { .. } => 1,
        Stmt::Raise { .. } => 1,
        Stmt::Assert { .. } => 1,
        Stmt::Import { .. } => 1,
        Stmt::ImportFrom { .. } => 1,
        Stmt::Global { .. } => 1,
        Stmt::Nonlocal { .. } => 1,
        Stmt::Expr { .. } => 1,
        Stmt::Pass => 1,
        Stmt::Break => 1,
        Stmt::Continue => 1,
    }
}

/// The height of a `try`.
#[cycle(statement_height)]
#[tactic(auto, using(pytree_node::proofs::Callers::StmtShapes::stmt_shapes, crate::proofs::CapLemmas::caps))]
fn try_height(parts: &Try) -> u64
    ensures { result ≡ capped (stmt_height (try_block (try_of parts.now))) }
{
    let ends = statements_height(&parts.orelse).max(statements_height(&parts.finalbody));
    one_more(statements_height(&parts.body).max(handlers_height(&parts.handlers).max(ends)))
}

/// The height of the highest of some statements, or 0.
#[cycle(statement_height)]
#[tactic(auto, using(pytree_node::proofs::Callers::StmtShapes::stmt_shapes, crate::proofs::CapLemmas::caps))]
pub(crate) fn statements_height(body: &[Stmt]) -> u64
    ensures { result ≡ capped (stmt_heights (stmts (map stmt_of body.now))) }
{
    let mut most: u64 = 0;
    for s in body {
        most = most.max(statement_height(s));
    }
    most
}

/// The height of the highest statement in some `case`s.
#[cycle(statement_height)]
#[tactic(auto, using(pytree_node::proofs::Callers::StmtShapes::stmt_shapes, crate::proofs::CapLemmas::caps))]
fn cases_height(all: &[Case]) -> u64
    ensures { result ≡ capped (case_heights (cases (map case_of all.now))) }
{
    let mut most: u64 = 0;
    for c in all {
        most = most.max(statements_height(&c.body));
    }
    most
}

/// The height of the highest statement in some handlers.
#[cycle(statement_height)]
#[tactic(auto, using(pytree_node::proofs::Callers::StmtShapes::stmt_shapes, crate::proofs::CapLemmas::caps))]
fn handlers_height(all: &[Handler]) -> u64
    ensures { result ≡ capped (handler_heights (handlers (map handler_of all.now))) }
{
    let mut most: u64 = 0;
    for h in all {
        most = most.max(statements_height(&h.body));
    }
    most
}
