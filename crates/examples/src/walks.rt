//! A walk over a tree.

ghost use Rattle.std.specs.Prelude.{◌≡◌, ◌++◌, map, IfOk, OnOk};
ghost use Rattle.pytree_node.specs.TreeOf.{case_of, function_def_of, handler_of, module_of};
ghost use Rattle.pytree_node.specs.TreeOf.{stmt_of, try_of};
ghost use Rattle.pytree_node.specs.Trees.{cases, function_def, handlers, stmts, try_block};
ghost use Rattle.examples.specs.Functions.{function_of, functions_in, functions_in_all};
ghost use Rattle.examples.specs.Functions.{functions_in_cases, functions_in_handlers, functions_of};

use pytree::{Case, Handler, Module, Stmt};
use pytree_node::{FunctionDef, Try};
use std::alloc::{AllocError, Global};

/// Appends the functions in a statement: itself if it is one, and after it those inside.
#[cycle(functions)]
#[tactic(auto, using(pytree_node::proofs::Callers::StmtShapes::stmt_shapes, crate::proofs::WalkLemmas::appending))]
fn collect<'a>(s: &'a Stmt, found: &mut Vec<&'a FunctionDef>) -> Result<(), AllocError>
    ensures { OnOk result (map function_of found.new.items ≡ map function_of found.old.items
        ++ functions_in (stmt_of s.now)) }
{
    match s {
        Stmt::FunctionDef(def) | Stmt::AsyncFunctionDef(def) => collect_function(def, found),
        Stmt::ClassDef(class) => collect_all(&class.body, found),
        Stmt::For { body, orelse, .. }
        | Stmt::AsyncFor { body, orelse, .. }
        | Stmt::While { body, orelse, .. }
        | Stmt::If { body, orelse, .. } => {
            collect_all(body, found)?;
            collect_all(orelse, found)
        }
        Stmt::With { body, .. } | Stmt::AsyncWith { body, .. } => collect_all(body, found),
        Stmt::Match { cases, .. } => collect_in_cases(cases, found),
        Stmt::Try(parts) | Stmt::TryStar(parts) => collect_in_try(parts, found),
        Stmt::Return { .. } => Ok(()),
        Stmt::Delete { .. } => Ok(()),
        Stmt::Assign { .. } => Ok(()),
        Stmt::TypeAlias { .. } => Ok(()),
        Stmt::AugAssign { .. } => Ok(()),
        Stmt::AnnAssign { .. } => Ok(()),
        Stmt::Raise { .. } => Ok(()),
        Stmt::Assert { .. } => Ok(()),
        Stmt::Import { .. } => Ok(()),
        Stmt::ImportFrom { .. } => Ok(()),
        Stmt::Global { .. } => Ok(()),
        Stmt::Nonlocal { .. } => Ok(()),
        Stmt::Expr { .. } => Ok(()),
        Stmt::Pass => Ok(()),
        Stmt::Break => Ok(()),
        Stmt::Continue => Ok(()),
    }
}

/// Appends the functions in some statements.
#[cycle(functions)]
#[tactic(auto, using(pytree_node::proofs::Callers::StmtShapes::stmt_shapes, crate::proofs::WalkLemmas::appending))]
fn collect_all<'a>(body: &'a [Stmt], found: &mut Vec<&'a FunctionDef>) -> Result<(), AllocError>
    ensures { OnOk result (map function_of found.new.items ≡ map function_of found.old.items
        ++ functions_in_all (stmts (map stmt_of body.now))) }
{
    for s in body {
        collect(s, found)?;
    }
    Ok(())
}

/// Appends a function, and after it those inside.
#[cycle(functions)]
#[tactic(auto, using(pytree_node::proofs::Callers::StmtShapes::stmt_shapes, crate::proofs::WalkLemmas::appending))]
fn collect_function<'a>(
    def: &'a FunctionDef,
    found: &mut Vec<&'a FunctionDef>,
) -> Result<(), AllocError>
    ensures { OnOk result (map function_of found.new.items ≡ map function_of found.old.items
        ++ functions_in (function_def (function_def_of def.now))) }
{
    found.push(def)?;
    collect_all(&def.body, found)
}

/// Appends the functions in a `try`.
#[cycle(functions)]
#[tactic(auto, using(pytree_node::proofs::Callers::StmtShapes::stmt_shapes, crate::proofs::WalkLemmas::appending))]
fn collect_in_try<'a>(parts: &'a Try, found: &mut Vec<&'a FunctionDef>) -> Result<(), AllocError>
    ensures { OnOk result (map function_of found.new.items ≡ map function_of found.old.items
        ++ functions_in (try_block (try_of parts.now))) }
{
    collect_all(&parts.body, found)?;
    collect_in_handlers(&parts.handlers, found)?;
    collect_all(&parts.orelse, found)?;
    collect_all(&parts.finalbody, found)
}

/// Appends the functions in the blocks of some `case`s.
#[cycle(functions)]
#[tactic(auto, using(pytree_node::proofs::Callers::StmtShapes::stmt_shapes, crate::proofs::WalkLemmas::appending))]
fn collect_in_cases<'a>(all: &'a [Case], found: &mut Vec<&'a FunctionDef>) -> Result<(), AllocError>
    ensures { OnOk result (map function_of found.new.items ≡ map function_of found.old.items
        ++ functions_in_cases (cases (map case_of all.now))) }
{
    for case in all {
        collect_all(&case.body, found)?;
    }
    Ok(())
}

/// Appends the functions in the blocks of some handlers.
#[cycle(functions)]
#[tactic(auto, using(pytree_node::proofs::Callers::StmtShapes::stmt_shapes, crate::proofs::WalkLemmas::appending))]
fn collect_in_handlers<'a>(
    all: &'a [Handler],
    found: &mut Vec<&'a FunctionDef>,
) -> Result<(), AllocError>
    ensures { OnOk result (map function_of found.new.items ≡ map function_of found.old.items
        ++ functions_in_handlers (handlers (map handler_of all.now))) }
{
    for handler in all {
        collect_all(&handler.body, found)?;
    }
    Ok(())
}

/// The functions that a module defines, at any depth, in the order of the source.
pub fn functions(alloc: Global, tree: &Module) -> Result<Vec<&FunctionDef>, AllocError>
    ensures { IfOk result
        (λ found. map function_of found.items ≡ functions_of (module_of tree.now)) }
{
    let mut found = Vec::new(alloc);
    collect_all(&tree.body, &mut found)?;
    Ok(found)
}
