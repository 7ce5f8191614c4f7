//! Counts of statements.

ghost use Rattle.std.specs.Prelude.{◌≡◌, ◌+◌, map};
ghost use Rattle.pytree_marked.specs.MarkedOptions.{marked_option};
ghost use Rattle.pytree_marked.specs.Counts.{capped};
ghost use Rattle.pytree_dump_text.specs.Shows.{shown_aliases, shown_cases, shown_handlers};
ghost use Rattle.pytree_dump_text.specs.Shows.{shown_items, shown_stmt, shown_stmts, shown_type_param};
ghost use Rattle.pytree_dump_text.specs.Shows.{shown_type_params, type_params_field};
ghost use Rattle.pytree_marked.specs.MarkedNodes.{marked, marked_fields, marked_rows};
ghost use Rattle.pytree_node.specs.TreeOf.{alias_of, case_of, handler_of, item_of, option_of, stmt_of};
ghost use Rattle.pytree_node.specs.TreeOf.{class_def_of, function_def_of, try_of, type_param_of};
ghost use Rattle.pytree_node.specs.Trees.{cases, function_def, handlers, stmts, try_block};

use crate::counts::one_more;
use crate::expressions::{
    boxed_marked, expr_marked, exprs_marked, keywords_marked, parameters_marked,
};
use crate::patterns::pattern_marked;
use pytree_node::{
    Alias, Case, ClassDef, Expr, FunctionDef, Handler, Item, Profile, Stmt, Try, TypeParam, Version,
};

/// The nodes of an expression that may be absent that have a place, counted on.
#[tactic(auto, using(pytree_node::proofs::Callers::StmtShapes::stmt_shapes, crate::proofs::CountLemmas::counting))]
fn option_marked(e: &Option<Expr>, before: u64) -> u64
    ensures { result ≡ capped (before + marked_option (option_of e.now)) }
{
    match e {
        None => before,
        Some(e) => expr_marked(e, before),
    }
}

/// Those of the items of a `with`.
#[tactic(auto, using(pytree_node::proofs::Callers::StmtShapes::stmt_shapes, crate::proofs::CountLemmas::counting))]
fn items_marked(items: &[Item], before: u64) -> u64
    ensures { result ≡ capped (before + marked_rows (shown_items (map item_of items.now))) }
{
    let mut count = before;
    for item in items {
        count = option_marked(&item.optional_vars, expr_marked(&item.context_expr, count));
    }
    count
}

/// Those of the names of an import.
#[tactic(auto, using(pytree_node::proofs::Callers::StmtShapes::stmt_shapes, crate::proofs::CountLemmas::counting))]
fn aliases_marked(names: &[Alias], before: u64) -> u64
    ensures { result ≡ capped (before + marked_rows (shown_aliases (map alias_of names.now))) }
{
    let mut count = before;
    for _name in names {
        count = one_more(count);
    }
    count
}

/// Those of a parameter of a type.
#[tactic(auto, using(pytree_node::proofs::Callers::StmtShapes::stmt_shapes, crate::proofs::CountLemmas::counting))]
fn type_param_marked(p: &TypeParam, before: u64) -> u64
    ensures { result ≡ capped (before + marked (shown_type_param (type_param_of p.now))) }
{
    let count = one_more(before);
    match p {
        TypeParam::TypeVar { bound, .. } => option_marked(bound, count),
        TypeParam::ParamSpec { .. } => count,
        TypeParam::TypeVarTuple { .. } => count,
    }
}

/// Those of the parameters of a type.
#[tactic(auto, using(pytree_node::proofs::Callers::StmtShapes::stmt_shapes, crate::proofs::CountLemmas::counting))]
fn type_params_marked(all: &[TypeParam], before: u64) -> u64
    ensures { result ≡ capped (before + marked_rows (shown_type_params (map type_param_of all.now))) }
{
    let mut count = before;
    for p in all {
        count = type_param_marked(p, count);
    }
    count
}

/// Those of the parameters of a type of a definition, where its Python shows them.
#[tactic(auto, using(crate::proofs::CountLemmas::counting))]
fn own_params_marked(profile: Profile, all: &[TypeParam], before: u64) -> u64
    ensures { result ≡ capped (before + marked_fields (type_params_field profile (map type_param_of all.now))) }
{
    match profile.version {
        Version::Py311 => before,
        Version::Py312 => type_params_marked(all, before),
    }
}

/// The nodes of a statement that have a place, counted on.
#[cycle(statement_counts)]
#[tactic(auto, using(pytree_node::proofs::Callers::StmtShapes::stmt_shapes, crate::proofs::CountLemmas::counting))]
fn stmt_marked(profile: Profile, s: &Stmt, before: u64) -> u64
    ensures { result ≡ capped (before + marked (shown_stmt profile (stmt_of s.now))) }
{
    let count = one_more(before);
    match s {
        Stmt::FunctionDef(def) => function_marked(profile, def, before),
        Stmt::AsyncFunctionDef(def) => function_marked(profile, def, before),
        Stmt::ClassDef(class) => class_marked(profile, class, before),
        Stmt::Return { value } => option_marked(value, count),
        Stmt::Delete { targets } => exprs_marked(targets, count),
        Stmt::Assign { targets, value } => expr_marked(value, exprs_marked(targets, count)),
        Stmt::TypeAlias {
            name,
            type_params,
            value,
        } => {
            expr_marked(
                value,
                type_params_marked(type_params, expr_marked(name, count)),
            )
        }
        Stmt::AugAssign { target, value, .. } => expr_marked(value, expr_marked(target, count)),
        Stmt::AnnAssign {
            target,
            annotation,
            value,
            ..
        } => { boxed_marked(value, expr_marked(annotation, expr_marked(target, count))) }
        Stmt::For {
            target,
            iter,
            body,
            orelse,
        } => {
            let count = expr_marked(iter, expr_marked(target, count));
            block_marked(profile, orelse, block_marked(profile, body, count))
        }
        Stmt::AsyncFor {
            target,
            iter,
            body,
            orelse,
        } => {
            let count = expr_marked(iter, expr_marked(target, count));
            block_marked(profile, orelse, block_marked(profile, body, count))
        }
        Stmt::While { test, body, orelse } => {
            block_marked(
                profile,
                orelse,
                block_marked(profile, body, expr_marked(test, count)),
            )
        }
        Stmt::If { test, body, orelse } => {
            block_marked(
                profile,
                orelse,
                block_marked(profile, body, expr_marked(test, count)),
            )
        }
        Stmt::With { items, body } => block_marked(profile, body, items_marked(items, count)),
        Stmt::AsyncWith { items, body } => block_marked(profile, body, items_marked(items, count)),
        Stmt::Match { subject, cases } => cases_marked(profile, cases, expr_marked(subject, count)),
        Stmt::Raise { exc, cause } => boxed_marked(cause, boxed_marked(exc, count)),
        Stmt::Try(parts) => try_marked(profile, parts, before),
        Stmt::TryStar(parts) => try_marked(profile, parts, before),
        Stmt::Assert { test, msg } => boxed_marked(msg, expr_marked(test, count)),
        Stmt::Import { names } => aliases_marked(names, count),
        Stmt::ImportFrom { names, .. } => aliases_marked(names, count),
        Stmt::Global { .. } => count,
        Stmt::Nonlocal { .. } => count,
        Stmt::Expr { value } => expr_marked(value, count),
        Stmt::Pass => count,
        Stmt::Break => count,
        Stmt::Continue => count,
    }
}

/// Those of the definition of a function.
#[cycle(statement_counts)]
#[tactic(auto, using(pytree_node::proofs::Callers::StmtShapes::stmt_shapes, crate::proofs::CountLemmas::counting))]
fn function_marked(profile: Profile, def: &FunctionDef, before: u64) -> u64
    ensures { result ≡ capped (before
        + marked (shown_stmt profile (function_def (function_def_of def.now)))) }
{
    let count = parameters_marked(&def.args, one_more(before));
    let count = block_marked(profile, &def.body, count);
    let count = boxed_marked(&def.returns, exprs_marked(&def.decorator_list, count));
    own_params_marked(profile, &def.type_params, count)
}

/// Those of the definition of a class.
#[cycle(statement_counts)]
#[tactic(auto, using(pytree_node::proofs::Callers::StmtShapes::stmt_shapes, crate::proofs::CountLemmas::counting))]
fn class_marked(profile: Profile, class: &ClassDef, before: u64) -> u64
    ensures { result ≡ capped (before + marked (shown_stmt profile (class_def_of class.now))) }
{
    let count = exprs_marked(&class.bases, one_more(before));
    let count = keywords_marked(&class.keywords, count);
    let count = block_marked(profile, &class.body, count);
    own_params_marked(
        profile,
        &class.type_params,
        exprs_marked(&class.decorator_list, count),
    )
}

/// Those of a `try`.
#[cycle(statement_counts)]
#[tactic(auto, using(pytree_node::proofs::Callers::StmtShapes::stmt_shapes, crate::proofs::CountLemmas::counting))]
fn try_marked(profile: Profile, parts: &Try, before: u64) -> u64
    ensures { result ≡ capped (before + marked (shown_stmt profile (try_block (try_of parts.now)))) }
{
    let count = block_marked(profile, &parts.body, one_more(before));
    let count = handlers_marked(profile, &parts.handlers, count);
    block_marked(
        profile,
        &parts.finalbody,
        block_marked(profile, &parts.orelse, count),
    )
}

/// Those of a block.
#[cycle(statement_counts)]
#[tactic(auto, using(pytree_node::proofs::Callers::StmtShapes::stmt_shapes, crate::proofs::CountLemmas::counting))]
pub(crate) fn block_marked(profile: Profile, body: &[Stmt], before: u64) -> u64
    ensures { result ≡ capped (before + marked_rows (shown_stmts profile (stmts (map stmt_of body.now)))) }
{
    let mut count = before;
    for s in body {
        count = stmt_marked(profile, s, count);
    }
    count
}

/// Those of the handlers of a `try`.
#[cycle(statement_counts)]
#[tactic(auto, using(pytree_node::proofs::Callers::StmtShapes::stmt_shapes, crate::proofs::CountLemmas::counting))]
fn handlers_marked(profile: Profile, all: &[Handler], before: u64) -> u64
    ensures { result ≡ capped (before + marked_rows (shown_handlers profile (handlers (map handler_of all.now)))) }
{
    let mut count = before;
    for h in all {
        count = block_marked(profile, &h.body, option_marked(&h.class, one_more(count)));
    }
    count
}

/// Those of the cases of a `match`.
#[cycle(statement_counts)]
#[tactic(auto, using(pytree_node::proofs::Callers::StmtShapes::stmt_shapes, crate::proofs::CountLemmas::counting))]
fn cases_marked(profile: Profile, all: &[Case], before: u64) -> u64
    ensures { result ≡ capped (before + marked_rows (shown_cases profile (cases (map case_of all.now)))) }
{
    let mut count = before;
    for case in all {
        count = block_marked(
            profile,
            &case.body,
            option_marked(&case.guard, pattern_marked(&case.pattern, count)),
        );
    }
    count
}
