//! Copies of statements.
//!
//! An expression that is a field of its statement, not boxed, is copied after the lists: so it need
//! not be dropped where one of these runs out of memory, which is long to prove.

ghost use Rattle.std.specs.Prelude.{◌≡◌, IfOk, map};
ghost use Rattle.pytree_node.specs.TreeOf.{case_of, class_def_of, function_def_of, handler_of};
ghost use Rattle.pytree_node.specs.TreeOf.{stmt_of, try_of};

use crate::expressions::{
    copy_box, copy_boxed_arguments, copy_expr, copy_exprs, copy_keywords, copy_optional_box,
};
use crate::leaves::{both, copy_names, copy_optional_name};
use crate::parts::{copy_aliases, copy_items, copy_optional_expr, copy_type_params};
use crate::patterns::copy_pattern;
use pytree_node::{Case, ClassDef, FunctionDef, Handler, Stmt, Try};
use std::alloc::{AllocError, Global};

/// A copy of a statement.
#[cycle(copying)]
#[tactic(auto, using(pytree_node::proofs::Callers::StmtShapes::stmt_shapes))]
fn copy_stmt(alloc: Global, s: &Stmt) -> Result<Stmt, AllocError>
    ensures { IfOk result (λ made. stmt_of made ≡ stmt_of s.now) }
{
    match s {
        Stmt::FunctionDef(def) => Ok(Stmt::FunctionDef(copy_function(alloc, def)?)),
        Stmt::AsyncFunctionDef(def) => Ok(Stmt::AsyncFunctionDef(copy_function(alloc, def)?)),
        Stmt::ClassDef(class) => Ok(Stmt::ClassDef(copy_class(alloc, class)?)),
        Stmt::Return { value } => Ok(Stmt::Return {
            value: copy_optional_expr(alloc, value)?,
        }),
        Stmt::Delete { targets } => Ok(Stmt::Delete {
            targets: copy_exprs(alloc, targets)?,
        }),
        Stmt::Assign { targets, value } => Ok(Stmt::Assign {
            targets: copy_exprs(alloc, targets)?,
            value: copy_expr(alloc, value)?,
        }),
        Stmt::TypeAlias {
            name,
            type_params,
            value,
        } => Ok(Stmt::TypeAlias {
            type_params: copy_type_params(alloc, type_params)?,
            name: copy_box(alloc, name)?,
            value: copy_box(alloc, value)?,
        }),
        Stmt::AugAssign { target, op, value } => Ok(Stmt::AugAssign {
            target: copy_box(alloc, target)?,
            op: *op,
            value: copy_expr(alloc, value)?,
        }),
        Stmt::AnnAssign {
            target,
            annotation,
            value,
            simple,
        } => Ok(Stmt::AnnAssign {
            target: copy_box(alloc, target)?,
            annotation: copy_box(alloc, annotation)?,
            value: copy_optional_box(alloc, value)?,
            simple: *simple,
        }),
        Stmt::For {
            target,
            iter,
            body,
            orelse,
        } => Ok(Stmt::For {
            target: copy_box(alloc, target)?,
            iter: copy_box(alloc, iter)?,
            body: copy_stmts(alloc, body)?,
            orelse: copy_stmts(alloc, orelse)?,
        }),
        Stmt::AsyncFor {
            target,
            iter,
            body,
            orelse,
        } => Ok(Stmt::AsyncFor {
            target: copy_box(alloc, target)?,
            iter: copy_box(alloc, iter)?,
            body: copy_stmts(alloc, body)?,
            orelse: copy_stmts(alloc, orelse)?,
        }),
        Stmt::While { test, body, orelse } => Ok(Stmt::While {
            body: copy_stmts(alloc, body)?,
            orelse: copy_stmts(alloc, orelse)?,
            test: copy_box(alloc, test)?,
        }),
        Stmt::If { test, body, orelse } => Ok(Stmt::If {
            body: copy_stmts(alloc, body)?,
            orelse: copy_stmts(alloc, orelse)?,
            test: copy_box(alloc, test)?,
        }),
        Stmt::With { items, body } => Ok(Stmt::With {
            items: copy_items(alloc, items)?,
            body: copy_stmts(alloc, body)?,
        }),
        Stmt::AsyncWith { items, body } => Ok(Stmt::AsyncWith {
            items: copy_items(alloc, items)?,
            body: copy_stmts(alloc, body)?,
        }),
        Stmt::Match { subject, cases } => Ok(Stmt::Match {
            cases: copy_cases(alloc, cases)?,
            subject: copy_expr(alloc, subject)?,
        }),
        Stmt::Raise { exc, cause } => Ok(Stmt::Raise {
            exc: copy_optional_box(alloc, exc)?,
            cause: copy_optional_box(alloc, cause)?,
        }),
        Stmt::Try(parts) => Ok(Stmt::Try(copy_try(alloc, parts)?)),
        Stmt::TryStar(parts) => Ok(Stmt::TryStar(copy_try(alloc, parts)?)),
        Stmt::Assert { test, msg } => Ok(Stmt::Assert {
            msg: copy_optional_box(alloc, msg)?,
            test: copy_expr(alloc, test)?,
        }),
        Stmt::Import { names } => Ok(Stmt::Import {
            names: copy_aliases(alloc, names)?,
        }),
        Stmt::ImportFrom {
            module,
            names,
            level,
        } => Ok(Stmt::ImportFrom {
            module: copy_optional_name(module)?,
            names: copy_aliases(alloc, names)?,
            level: *level,
        }),
        Stmt::Global { names } => Ok(Stmt::Global {
            names: copy_names(alloc, names)?,
        }),
        Stmt::Nonlocal { names } => Ok(Stmt::Nonlocal {
            names: copy_names(alloc, names)?,
        }),
        Stmt::Expr { value } => Ok(Stmt::Expr {
            value: copy_expr(alloc, value)?,
        }),
        Stmt::Pass => Ok(Stmt::Pass),
        Stmt::Break => Ok(Stmt::Break),
        Stmt::Continue => Ok(Stmt::Continue),
    }
}

/// A copy of the definition of a function.
#[cycle(copying)]
#[tactic(auto, using(pytree_node::proofs::Callers::StmtShapes::stmt_shapes))]
fn copy_function(alloc: Global, def: &FunctionDef) -> Result<Box<FunctionDef>, AllocError>
    ensures { IfOk result (λ made. function_def_of made.value ≡ function_def_of def.now) }
{
    let copy = FunctionDef {
        name: def.name.clone()?,
        args: copy_boxed_arguments(alloc, &def.args)?,
        body: copy_stmts(alloc, &def.body)?,
        decorator_list: copy_exprs(alloc, &def.decorator_list)?,
        returns: copy_optional_box(alloc, &def.returns)?,
        type_params: copy_type_params(alloc, &def.type_params)?,
    };
    Ok(Box::new(alloc, copy)?)
}

/// A copy of the definition of a class.
#[cycle(copying)]
#[tactic(auto, using(pytree_node::proofs::Callers::StmtShapes::stmt_shapes))]
fn copy_class(alloc: Global, class: &ClassDef) -> Result<Box<ClassDef>, AllocError>
    ensures { IfOk result (λ made. class_def_of made.value ≡ class_def_of class.now) }
{
    let copy = ClassDef {
        name: class.name.clone()?,
        bases: copy_exprs(alloc, &class.bases)?,
        keywords: copy_keywords(alloc, &class.keywords)?,
        body: copy_stmts(alloc, &class.body)?,
        decorator_list: copy_exprs(alloc, &class.decorator_list)?,
        type_params: copy_type_params(alloc, &class.type_params)?,
    };
    Ok(Box::new(alloc, copy)?)
}

/// A copy of a `try`.
#[cycle(copying)]
#[tactic(auto, using(pytree_node::proofs::Callers::StmtShapes::stmt_shapes))]
fn copy_try(alloc: Global, parts: &Try) -> Result<Box<Try>, AllocError>
    ensures { IfOk result (λ made. try_of made.value ≡ try_of parts.now) }
{
    let copy = Try {
        body: copy_stmts(alloc, &parts.body)?,
        handlers: copy_handlers(alloc, &parts.handlers)?,
        orelse: copy_stmts(alloc, &parts.orelse)?,
        finalbody: copy_stmts(alloc, &parts.finalbody)?,
    };
    Ok(Box::new(alloc, copy)?)
}

/// Statements that are equal to these. If memory runs out, what was made of them is dropped.
#[cycle(copying)]
pub fn copy_stmts(alloc: Global, body: &[Stmt]) -> Result<Vec<Stmt>, AllocError>
    ensures { IfOk result (λ made. map stmt_of made.items ≡ map stmt_of body.now) }
{
    let mut made = Vec::new(alloc);
    for s in body {
        made.push(copy_stmt(alloc, s)?)?;
    }
    Ok(made)
}

/// A copy of a `case` with its block.
#[cycle(copying)]
#[tactic(auto, using(pytree_node::proofs::Callers::StmtShapes::case_tree))]
fn copy_case(alloc: Global, c: &Case) -> Result<Case, AllocError>
    ensures { IfOk result (λ made. case_of made ≡ case_of c.now) }
{
    let body = copy_stmts(alloc, &c.body)?;
    let (pattern, guard) = both(
        copy_pattern(alloc, &c.pattern)?,
        copy_optional_expr(alloc, &c.guard),
    )?;
    Ok(Case {
        pattern,
        guard,
        body,
    })
}

/// A copy of some `case`s.
#[cycle(copying)]
fn copy_cases(alloc: Global, all: &[Case]) -> Result<Vec<Case>, AllocError>
    ensures { IfOk result (λ made. map case_of made.items ≡ map case_of all.now) }
{
    let mut made = Vec::new(alloc);
    for c in all {
        made.push(copy_case(alloc, c)?)?;
    }
    Ok(made)
}

/// A copy of an `except` with its block.
#[cycle(copying)]
#[tactic(auto, using(pytree_node::proofs::Callers::StmtShapes::handler_tree))]
fn copy_handler(alloc: Global, h: &Handler) -> Result<Handler, AllocError>
    ensures { IfOk result (λ made. handler_of made ≡ handler_of h.now) }
{
    Ok(Handler {
        name: copy_optional_name(&h.name)?,
        body: copy_stmts(alloc, &h.body)?,
        class: copy_optional_expr(alloc, &h.class)?,
    })
}

/// A copy of some `except`s.
#[cycle(copying)]
fn copy_handlers(alloc: Global, all: &[Handler]) -> Result<Vec<Handler>, AllocError>
    ensures { IfOk result (λ made. map handler_of made.items ≡ map handler_of all.now) }
{
    let mut made = Vec::new(alloc);
    for h in all {
        made.push(copy_handler(alloc, h)?)?;
    }
    Ok(made)
}
