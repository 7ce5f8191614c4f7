//! The highest expressions and patterns of statements.

ghost use Rattle.std.specs.Prelude.{◌≡◌, map};
ghost use Rattle.pytree_node.specs.TreeOf.{case_of, handler_of, item_of, option_of, stmt_of};
ghost use Rattle.pytree_node.specs.TreeOf.{class_def_of, function_def_of, try_of, type_param_of};
ghost use Rattle.pytree_node.specs.Trees.{cases, function_def, handlers, stmts, try_block};
ghost use Rattle.pytree_height.specs.Heights.{capped, highest_in, highest_in_all, highest_in_cases};
ghost use Rattle.pytree_height.specs.Heights.{highest_in_handlers};
ghost use Rattle.pytree_height.specs.Heights.{item_heights, option_height, type_param_height};
ghost use Rattle.pytree_height.specs.Heights.{type_param_heights};

use crate::expressions::{
    boxed_height, expr_height, exprs_height, keywords_height, parameters_height,
};
use crate::patterns::pattern_height;
use pytree_node::{Case, ClassDef, Expr, FunctionDef, Handler, Item, Stmt, Try, TypeParam};

/// The height of an expression that may be absent.
#[tactic(auto, using(crate::proofs::CapLemmas::caps))]
fn option_height(e: &Option<Expr>) -> u64
    ensures { result ≡ capped (option_height (option_of e.now)) }
{
    match e {
        None => 0,
        Some(e) => expr_height(e),
    }
}

/// The height of the highest expression of the items of a `with`, or 0.
#[tactic(auto, using(crate::proofs::CapLemmas::caps))]
fn items_height(items: &[Item]) -> u64
    ensures { result ≡ capped (item_heights (map item_of items.now)) }
{
    let mut most: u64 = 0;
    for item in items {
        let here = expr_height(&item.context_expr).max(option_height(&item.optional_vars));
        most = most.max(here);
    }
    most
}

/// The height of a type parameter: of its bound, or 0.
#[tactic(auto, using(crate::proofs::CapLemmas::caps))]
fn type_param_height(parameter: &TypeParam) -> u64
    ensures { result ≡ capped (type_param_height (type_param_of parameter.now)) }
{
    match parameter {
        TypeParam::TypeVar { bound, .. } => option_height(bound),
        TypeParam::ParamSpec { .. } => 0,
        TypeParam::TypeVarTuple { .. } => 0,
    }
}

/// The height of the highest expression of some type parameters, or 0.
#[tactic(auto, using(crate::proofs::CapLemmas::caps))]
fn type_params_height(parameters: &[TypeParam]) -> u64
    ensures { result ≡ capped (type_param_heights (map type_param_of parameters.now)) }
{
    let mut most: u64 = 0;
    for parameter in parameters {
        most = most.max(type_param_height(parameter));
    }
    most
}

/// The height of the highest expression or pattern of a statement, or 0.
#[cycle(highest_in)]
#[tactic(auto, using(pytree_node::proofs::Callers::StmtShapes::stmt_shapes, crate::proofs::CapLemmas::caps))]
fn highest_in(s: &Stmt) -> u64
    ensures { result ≡ capped (highest_in (stmt_of s.now)) }
{
    match s {
        Stmt::FunctionDef(def) => highest_in_function(def),
        Stmt::AsyncFunctionDef(def) => highest_in_function(def),
        Stmt::ClassDef(class) => highest_in_class(class),
        Stmt::Return { value } => option_height(value),
        Stmt::Delete { targets } => exprs_height(targets),
        Stmt::Assign { targets, value } => exprs_height(targets).max(expr_height(value)),
        Stmt::TypeAlias {
            name,
            type_params,
            value,
        } => { expr_height(name).max(type_params_height(type_params).max(expr_height(value))) }
        Stmt::AugAssign { target, value, .. } => expr_height(target).max(expr_height(value)),
        Stmt::AnnAssign {
            target,
            annotation,
            value,
            ..
        } => { expr_height(target).max(expr_height(annotation).max(boxed_height(value))) }
        Stmt::For {
            target,
            iter,
            body,
            orelse,
        } => {
            let inner = highest_in_all(body).max(highest_in_all(orelse));
            expr_height(target).max(expr_height(iter).max(inner))
        }
        Stmt::AsyncFor {
            target,
            iter,
            body,
            orelse,
        } => {
            let inner = highest_in_all(body).max(highest_in_all(orelse));
            expr_height(target).max(expr_height(iter).max(inner))
        }
        Stmt::While { test, body, orelse } => {
            expr_height(test).max(highest_in_all(body).max(highest_in_all(orelse)))
        }
        Stmt::If { test, body, orelse } => {
            expr_height(test).max(highest_in_all(body).max(highest_in_all(orelse)))
        }
        Stmt::With { items, body } => items_height(items).max(highest_in_all(body)),
        Stmt::AsyncWith { items, body } => items_height(items).max(highest_in_all(body)),
        Stmt::Match { subject, cases } => expr_height(subject).max(highest_in_cases(cases)),
        Stmt::Raise { exc, cause } => boxed_height(exc).max(boxed_height(cause)),
        Stmt::Try(parts) => highest_in_try(parts),
        Stmt::TryStar(parts) => highest_in_try(parts),
        Stmt::Assert { test, msg } => expr_height(test).max(boxed_height(msg)),
        Stmt::Import { .. } => 0,
        Stmt::ImportFrom { .. } => 0,
        Stmt::Global { .. } => 0,
        Stmt::Nonlocal { .. } => 0,
        Stmt::Expr { value } => expr_height(value),
        Stmt::Pass => 0,
        Stmt::Break => 0,
        Stmt::Continue => 0,
    }
}

/// The height of the highest expression or pattern of the definition of a function.
#[cycle(highest_in)]
#[tactic(auto, using(pytree_node::proofs::Callers::StmtShapes::stmt_shapes, crate::proofs::CapLemmas::caps))]
fn highest_in_function(def: &FunctionDef) -> u64
    ensures { result ≡ capped (highest_in (function_def (function_def_of def.now))) }
{
    let ends = boxed_height(&def.returns).max(type_params_height(&def.type_params));
    let inner = highest_in_all(&def.body).max(exprs_height(&def.decorator_list).max(ends));
    parameters_height(&def.args).max(inner)
}

/// The height of the highest expression or pattern of a class, or 0.
#[cycle(highest_in)]
#[tactic(auto, using(pytree_node::proofs::Callers::StmtShapes::stmt_shapes, crate::proofs::CapLemmas::caps))]
fn highest_in_class(class: &ClassDef) -> u64
    ensures { result ≡ capped (highest_in (class_def_of class.now)) }
{
    let ends = exprs_height(&class.decorator_list).max(type_params_height(&class.type_params));
    let inner = keywords_height(&class.keywords).max(highest_in_all(&class.body).max(ends));
    exprs_height(&class.bases).max(inner)
}

/// The height of the highest expression or pattern of a `try`, or 0.
#[cycle(highest_in)]
#[tactic(auto, using(pytree_node::proofs::Callers::StmtShapes::stmt_shapes, crate::proofs::CapLemmas::caps))]
fn highest_in_try(parts: &Try) -> u64
    ensures { result ≡ capped (highest_in (try_block (try_of parts.now))) }
{
    let ends = highest_in_all(&parts.orelse).max(highest_in_all(&parts.finalbody));
    highest_in_all(&parts.body).max(highest_in_handlers(&parts.handlers).max(ends))
}

/// The height of the highest expression or pattern of some statements, or 0.
#[cycle(highest_in)]
#[tactic(auto, using(crate::proofs::CapLemmas::caps))]
pub(crate) fn highest_in_all(body: &[Stmt]) -> u64
    ensures { result ≡ capped (highest_in_all (stmts (map stmt_of body.now))) }
{
    let mut most: u64 = 0;
    for s in body {
        most = most.max(highest_in(s));
    }
    most
}

/// The height of the highest expression or pattern of some `case`s, or 0.
#[cycle(highest_in)]
#[tactic(auto, using(pytree_node::proofs::Callers::StmtShapes::stmt_shapes, crate::proofs::CapLemmas::caps))]
fn highest_in_cases(all: &[Case]) -> u64
    ensures { result ≡ capped (highest_in_cases (cases (map case_of all.now))) }
{
    let mut most: u64 = 0;
    for c in all {
        let inner = option_height(&c.guard).max(highest_in_all(&c.body));
        most = most.max(pattern_height(&c.pattern).max(inner));
    }
    most
}

/// The height of the highest expression or pattern of some handlers, or 0.
#[cycle(highest_in)]
#[tactic(auto, using(pytree_node::proofs::Callers::StmtShapes::stmt_shapes, crate::proofs::CapLemmas::caps))]
fn highest_in_handlers(all: &[Handler]) -> u64
    ensures { result ≡ capped (highest_in_handlers (handlers (map handler_of all.now))) }
{
    let mut most: u64 = 0;
    for h in all {
        most = most.max(option_height(&h.class).max(highest_in_all(&h.body)));
    }
    most
}
