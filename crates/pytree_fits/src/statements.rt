//! Whether statements fit, with those inside.

ghost use Rattle.std.specs.Prelude.{◌≡◌, ◌&&◌, IfOk, map};
ghost use Rattle.pytree_node.specs.TreeOf.{case_of, class_def_of, function_def_of, handler_of};
ghost use Rattle.pytree_node.specs.TreeOf.{stmt_of, try_of};
ghost use Rattle.pytree_node.specs.Trees.{cases, function_def, handlers, optional, stmts};
ghost use Rattle.pygrammar.specs.declared.levels.Level.TheVariants as levels;
ghost use Rattle.pygrammar.specs.declared.pattern_levels.PatternLevel.TheVariants as pattern_levels;
ghost use Rattle.pytree_fits.specs.PatternSlots.{pattern_fits_at};
ghost use Rattle.pytree_fits.specs.Slots.{perhaps_fits};
ghost use Rattle.pytree_fits.specs.Statements.{cases_fit, caught_fits, handlers_fit};
ghost use Rattle.pytree_fits.specs.Statements.{statement_fits, statements_fit, suite_fits, try_fits};
ghost use Rattle.pytree_fits.specs.Tests.{tests_in};

use crate::asking::Asked;
use crate::expressions::expr_fits;
use crate::headers::{
    case_head_fits, class_head_fits, clauses_fit, except_fits, for_head_fits, function_head_fits,
    items_fit, match_head_fits,
};
use crate::imports::{import_from_fits, modules_fit};
use crate::simple::{
    ann_assign_fits, assert_fits, assign_fits, aug_assign_fits, names_fit, option_fits, raise_fits,
    some_targets_fit, type_alias_fits,
};
use pygrammar::Level;
use pytree_node::{Case, ClassDef, Context, FunctionDef, Handler, Profile, Stmt, Try};
use std::alloc::{AllocError, Global};

/// Whether a statement fits.
#[cycle(statements)]
#[tactic(auto, using(pytree_node::proofs::Callers::StmtShapes::stmt_shapes))]
fn statement_fits(alloc: Global, profile: Profile, s: &Stmt) -> Result<bool, AllocError>
    ensures { IfOk result
        (λ told. told ≡ statement_fits profile (tests_in profile.extent) (stmt_of s.now)) }
{
    let extent = profile.extent;
    let asked = Asked {
        alloc,
        extent,
        fields: 0,
    };
    match s {
        Stmt::FunctionDef(def) => function_fits(alloc, profile, def),
        Stmt::AsyncFunctionDef(def) => function_fits(alloc, profile, def),
        Stmt::ClassDef(class) => class_fits(alloc, profile, class),
        Stmt::Return { value } => option_fits(asked, value, Level::Stars),
        Stmt::Delete { targets } => some_targets_fit(asked, targets, Context::Del),
        Stmt::Assign { targets, value } => assign_fits(asked, targets, value),
        Stmt::TypeAlias {
            name,
            type_params,
            value,
        } => type_alias_fits(asked, profile, name, type_params, value),
        Stmt::AugAssign { target, value, .. } => aug_assign_fits(asked, target, value),
        Stmt::AnnAssign {
            target,
            annotation,
            value,
            simple,
        } => ann_assign_fits(asked, target, annotation, value, *simple),
        Stmt::For {
            target,
            iter,
            body,
            orelse,
        } => {
            if !for_head_fits(asked, target, iter)? {
                return Ok(false);
            }
            if !suite_fits(alloc, profile, body)? {
                return Ok(false);
            }
            statements_fit(alloc, profile, orelse)
        }
        Stmt::AsyncFor {
            target,
            iter,
            body,
            orelse,
        } => {
            if !for_head_fits(asked, target, iter)? {
                return Ok(false);
            }
            if !suite_fits(alloc, profile, body)? {
                return Ok(false);
            }
            statements_fit(alloc, profile, orelse)
        }
        Stmt::While { test, body, orelse } => {
            if !expr_fits(asked, test, Level::Expression)? {
                return Ok(false);
            }
            if !suite_fits(alloc, profile, body)? {
                return Ok(false);
            }
            statements_fit(alloc, profile, orelse)
        }
        Stmt::If { test, body, orelse } => {
            if !expr_fits(asked, test, Level::Expression)? {
                return Ok(false);
            }
            if !suite_fits(alloc, profile, body)? {
                return Ok(false);
            }
            statements_fit(alloc, profile, orelse)
        }
        Stmt::With { items, body } => {
            let suite = suite_fits(alloc, profile, body)?;
            Ok(items_fit(asked, items)? && suite)
        }
        Stmt::AsyncWith { items, body } => {
            let suite = suite_fits(alloc, profile, body)?;
            Ok(items_fit(asked, items)? && suite)
        }
        Stmt::Match { subject, cases } => {
            if !match_head_fits(asked, subject, cases)? {
                return Ok(false);
            }
            cases_fit(alloc, profile, cases)
        }
        Stmt::Raise { exc, cause } => raise_fits(asked, exc, cause),
        Stmt::Try(parts) => try_fits(alloc, profile, false, parts),
        Stmt::TryStar(parts) => try_fits(alloc, profile, true, parts),
        Stmt::Assert { test, msg } => assert_fits(asked, test, msg),
        Stmt::Import { names } => modules_fit(alloc, names),
        Stmt::ImportFrom {
            module,
            names,
            level,
        } => import_from_fits(alloc, module, names, *level),
        Stmt::Global { names } => names_fit(alloc, names),
        Stmt::Nonlocal { names } => names_fit(alloc, names),
        Stmt::Expr { value } => expr_fits(asked, value, Level::Value),
        Stmt::Pass => Ok(true),
        Stmt::Break => Ok(true),
        Stmt::Continue => Ok(true),
    }
}

/// Whether the definition of a function fits.
#[cycle(statements)]
#[tactic(auto, using(pytree_node::proofs::Callers::StmtShapes::stmt_shapes))]
fn function_fits(alloc: Global, profile: Profile, def: &FunctionDef) -> Result<bool, AllocError>
    ensures { IfOk result (λ told. told
        ≡ statement_fits profile (tests_in profile.extent) (function_def (function_def_of def.now))) }
{
    let extent = profile.extent;
    let asked = Asked {
        alloc,
        extent,
        fields: 0,
    };
    let head = function_head_fits(
        asked,
        profile,
        &def.name,
        &def.args,
        &def.decorator_list,
        &def.returns,
        &def.type_params,
    )?;
    if !head {
        return Ok(false);
    }
    suite_fits(alloc, profile, &def.body)
}

/// Whether the definition of a class fits.
#[cycle(statements)]
#[tactic(auto, using(pytree_node::proofs::Callers::StmtShapes::stmt_shapes))]
fn class_fits(alloc: Global, profile: Profile, class: &ClassDef) -> Result<bool, AllocError>
    ensures { IfOk result (λ told. told
        ≡ statement_fits profile (tests_in profile.extent) (class_def_of class.now)) }
{
    let extent = profile.extent;
    let asked = Asked {
        alloc,
        extent,
        fields: 0,
    };
    let head = class_head_fits(
        asked,
        profile,
        &class.name,
        &class.bases,
        &class.keywords,
        &class.decorator_list,
        &class.type_params,
    )?;
    if !head {
        return Ok(false);
    }
    suite_fits(alloc, profile, &class.body)
}

/// Whether a `try` fits, with `except*` or with `except`.
#[cycle(statements)]
#[tactic(auto, using(pytree_node::proofs::Callers::StmtShapes::stmt_shapes))]
fn try_fits(alloc: Global, profile: Profile, star: bool, parts: &Try) -> Result<bool, AllocError>
    ensures { IfOk result
        (λ told. told ≡ try_fits profile (tests_in profile.extent) star (try_of parts.now)) }
{
    if !clauses_fit(star, &parts.handlers, &parts.orelse, &parts.finalbody) {
        return Ok(false);
    }
    if !suite_fits(alloc, profile, &parts.body)? {
        return Ok(false);
    }
    if !handlers_fit(alloc, profile, star, &parts.handlers)? {
        return Ok(false);
    }
    if !statements_fit(alloc, profile, &parts.orelse)? {
        return Ok(false);
    }
    statements_fit(alloc, profile, &parts.finalbody)
}

/// Whether the block of a header fits: there are statements, and each fits.
#[cycle(statements)]
#[tactic(auto, using(crate::proofs::Suites::suites))]
fn suite_fits(alloc: Global, profile: Profile, body: &[Stmt]) -> Result<bool, AllocError>
    ensures { IfOk result
        (λ told. told ≡ suite_fits profile (tests_in profile.extent) (stmts (map stmt_of body.now))) }
{
    if body.is_empty() {
        return Ok(false);
    }
    statements_fit(alloc, profile, body)
}

/// Whether each of some statements fits in a version of Python: whether each of its fields has what
/// may stand there. `Err` means out of memory alone.
#[cycle(statements)]
#[tactic(auto, using(pytree_node::proofs::Callers::StmtShapes::stmt_shapes))]
pub fn statements_fit(alloc: Global, profile: Profile, body: &[Stmt]) -> Result<bool, AllocError>
    ensures { IfOk result
        (λ told. told
        ≡ statements_fit profile (tests_in profile.extent) (stmts (map stmt_of body.now))) }
{
    for s in body {
        if !statement_fits(alloc, profile, s)? {
            return Ok(false);
        }
    }
    Ok(true)
}

/// Whether the pattern of a case fits, and its guard.
#[tactic(auto, using(pytree_node::proofs::Callers::StmtShapes::stmt_shapes))]
fn case_begin_fits(alloc: Global, profile: Profile, c: &Case) -> Result<bool, AllocError>
    ensures { IfOk result
        (λ told. told
        ≡ (pattern_fits_at (tests_in profile.extent) pattern_levels.AsPattern
        (case_of c.now).pattern && perhaps_fits (tests_in profile.extent) levels.Expression
        (optional (case_of c.now).guard))) }
{
    let extent = profile.extent;
    let asked = Asked {
        alloc,
        extent,
        fields: 0,
    };
    case_head_fits(asked, &c.pattern, &c.guard)
}

/// Whether a case fits.
#[cycle(statements)]
#[tactic(auto, using(pytree_node::proofs::Callers::StmtShapes::stmt_shapes))]
fn case_fits(alloc: Global, profile: Profile, c: &Case) -> Result<bool, AllocError>
    ensures { IfOk result
        (λ told. told
        ≡ (pattern_fits_at (tests_in profile.extent) pattern_levels.AsPattern
        (case_of c.now).pattern && perhaps_fits (tests_in profile.extent) levels.Expression
        (optional (case_of c.now).guard) && suite_fits profile (tests_in profile.extent)
        (stmts (case_of c.now).body))) }
{
    Ok(case_begin_fits(alloc, profile, c)? && suite_fits(alloc, profile, &c.body)?)
}

/// Whether each of some cases fits.
#[cycle(statements)]
#[tactic(auto, using(pytree_node::proofs::Callers::StmtShapes::stmt_shapes))]
fn cases_fit(alloc: Global, profile: Profile, all: &[Case]) -> Result<bool, AllocError>
    ensures { IfOk result
        (λ told. told
        ≡ cases_fit profile (tests_in profile.extent) (cases (map case_of all.now))) }
{
    for c in all {
        if !case_fits(alloc, profile, c)? {
            return Ok(false);
        }
    }
    Ok(true)
}

/// Whether a handler fits.
#[cycle(statements)]
#[tactic(auto, using(pytree_node::proofs::Callers::StmtShapes::stmt_shapes))]
fn handler_fits(
    alloc: Global,
    profile: Profile,
    star: bool,
    h: &Handler,
) -> Result<bool, AllocError>
    ensures { IfOk result
        (λ told. told
        ≡ (caught_fits (tests_in profile.extent) star (handler_of h.now).class
        (handler_of h.now).name && suite_fits profile (tests_in profile.extent)
        (stmts (handler_of h.now).body))) }
{
    let extent = profile.extent;
    let asked = Asked {
        alloc,
        extent,
        fields: 0,
    };
    Ok(except_fits(asked, star, &h.class, &h.name)? && suite_fits(alloc, profile, &h.body)?)
}

/// Whether each of some handlers fits.
#[cycle(statements)]
#[tactic(auto, using(pytree_node::proofs::Callers::StmtShapes::stmt_shapes))]
fn handlers_fit(
    alloc: Global,
    profile: Profile,
    star: bool,
    all: &[Handler],
) -> Result<bool, AllocError>
    ensures { IfOk result
        (λ told. told
        ≡ handlers_fit profile (tests_in profile.extent) star (handlers (map handler_of all.now))) }
{
    for h in all {
        if !handler_fits(alloc, profile, star, h)? {
            return Ok(false);
        }
    }
    Ok(true)
}
