//! The nodes of statements.

ghost use Rattle.std.specs.Prelude.{◌≡◌, ◌≤◌, map};
ghost use Rattle.pytree_node.specs.declared.profiles.Version.{Version as AnyVersion};
ghost use Rattle.pytree_node.specs.Trees.{async_function_def, function_def, try_block, try_star_block};
ghost use Rattle.pytree_node.specs.TreeOf.{boxed_of, class_def_of, function_def_of, stmt_of, try_of, type_param_of};
ghost use Rattle.pytree_fields.specs.Classes.{field_count};
ghost use Rattle.pytree_fields.specs.LentThings.{node_thing, with_held};
ghost use Rattle.pytree_fields.specs.Things.{Things, expr_field, no_thing, stmt_thing, type_params_field};

use crate::classes::Class;
use crate::held::Held;
use crate::leaves::Leaf;
use crate::members::{name_held, option_held};
use crate::nodes::Node;
use crate::rows::Row;
use pytree_node::{ClassDef, Expr, FunctionDef, Stmt, Try, TypeParam, Version};

/// The node of a statement.
#[tactic(auto, using(pytree_node::proofs::Callers::StmtShapes::stmt_shapes))]
pub(crate) fn stmt_node<'a>(version: Version, s: &'a Stmt) -> Node<'a>
    ensures thing { node_thing version result ≡ stmt_thing version (stmt_of s.now) }
    ensures len { result.len ≡ field_count result.class }
    ensures room { result.len ≤ 7 }
{
    match s {
        Stmt::FunctionDef(def) => function_node(version, def),
        Stmt::AsyncFunctionDef(def) => async_function_node(version, def),
        Stmt::ClassDef(class) => class_node(version, class),
        Stmt::Return { value } => Node::one(Class::Return, option_held(value)),
        Stmt::Delete { targets } => Node::one(Class::Delete, Held::Row(Row::Exprs(targets))),
        Stmt::Assign { targets, value } => Node::three(
            Class::Assign,
            Held::Row(Row::Exprs(targets)),
            Held::Expr(value),
            Held::LeftOut,
        ),
        Stmt::TypeAlias {
            name,
            type_params,
            value,
        } => Node::three(
            Class::TypeAlias,
            Held::Expr(name),
            Held::Row(Row::TypeParams(type_params)),
            Held::Expr(value),
        ),
        Stmt::AugAssign { target, op, value } => Node::three(
            Class::AugAssign,
            Held::Expr(target),
            Held::Leaf(Leaf::Operator(*op)),
            Held::Expr(value),
        ),
        Stmt::AnnAssign {
            target,
            annotation,
            value,
            simple,
        } => Node::four(
            Class::AnnAssign,
            Held::Expr(target),
            Held::Expr(annotation),
            boxed_held(value),
            Held::Leaf(Leaf::Flag(*simple)),
        ),
        Stmt::For {
            target,
            iter,
            body,
            orelse,
        } => Node::five(
            Class::For,
            Held::Expr(target),
            Held::Expr(iter),
            Held::Row(Row::Stmts(body)),
            Held::Row(Row::Stmts(orelse)),
            Held::LeftOut,
        ),
        Stmt::AsyncFor {
            target,
            iter,
            body,
            orelse,
        } => Node::five(
            Class::AsyncFor,
            Held::Expr(target),
            Held::Expr(iter),
            Held::Row(Row::Stmts(body)),
            Held::Row(Row::Stmts(orelse)),
            Held::LeftOut,
        ),
        Stmt::While { test, body, orelse } => Node::three(
            Class::While,
            Held::Expr(test),
            Held::Row(Row::Stmts(body)),
            Held::Row(Row::Stmts(orelse)),
        ),
        Stmt::If { test, body, orelse } => Node::three(
            Class::If,
            Held::Expr(test),
            Held::Row(Row::Stmts(body)),
            Held::Row(Row::Stmts(orelse)),
        ),
        Stmt::With { items, body } => Node::three(
            Class::With,
            Held::Row(Row::Items(items)),
            Held::Row(Row::Stmts(body)),
            Held::LeftOut,
        ),
        Stmt::AsyncWith { items, body } => Node::three(
            Class::AsyncWith,
            Held::Row(Row::Items(items)),
            Held::Row(Row::Stmts(body)),
            Held::LeftOut,
        ),
        Stmt::Match { subject, cases } => Node::two(
            Class::Match,
            Held::Expr(subject),
            Held::Row(Row::Cases(cases)),
        ),
        Stmt::Raise { exc, cause } => Node::two(Class::Raise, boxed_held(exc), boxed_held(cause)),
        Stmt::Try(held) => try_node(held),
        Stmt::TryStar(held) => try_star_node(held),
        Stmt::Assert { test, msg } => Node::two(Class::Assert, Held::Expr(test), boxed_held(msg)),
        Stmt::Import { names } => Node::one(Class::Import, Held::Row(Row::Aliases(names))),
        Stmt::ImportFrom {
            module,
            names,
            level,
        } => Node::three(
            Class::ImportFrom,
            name_held(module),
            Held::Row(Row::Aliases(names)),
            Held::Leaf(Leaf::Number(*level)),
        ),
        Stmt::Global { names } => Node::one(Class::Global, Held::Row(Row::Names(names))),
        Stmt::Nonlocal { names } => Node::one(Class::Nonlocal, Held::Row(Row::Names(names))),
        Stmt::Expr { value } => Node::one(Class::Expr, Held::Expr(value)),
        Stmt::Pass => Node::none(Class::Pass),
        Stmt::Break => Node::none(Class::Break),
        Stmt::Continue => Node::none(Class::Continue),
    }
}

/// The field of an expression of a statement that may be absent.
fn boxed_held<'a>(e: &'a Option<Box<Expr>>) -> Held<'a>
    ensures { (version : AnyVersion) → (rest : Things)
        → with_held version result rest ≡ expr_field (boxed_of e.now) rest }
{
    match e {
        None => Held::LeftOut,
        Some(e) => Held::Expr(e),
    }
}

/// The field of the parameters of a definition's type, which is left out in 3.11.
fn type_params_held<'a>(version: Version, all: &'a [TypeParam]) -> Held<'a>
    ensures { with_held version result no_thing
        ≡ type_params_field version (map type_param_of all.now) }
{
    match version {
        Version::Py311 => Held::LeftOut,
        Version::Py312 => Held::Row(Row::TypeParams(all)),
    }
}

/// The node of a function.
#[tactic(auto, using(pytree_node::proofs::Callers::StmtShapes::stmt_shapes))]
fn function_node<'a>(version: Version, def: &'a FunctionDef) -> Node<'a>
    ensures thing { node_thing version result ≡ stmt_thing version (function_def (function_def_of def.now)) }
    ensures len { result.len ≡ field_count result.class }
    ensures room { result.len ≤ 7 }
{
    Node::seven(
        Class::FunctionDef,
        Held::Leaf(Leaf::Name(&def.name)),
        Held::Arguments(&def.args),
        Held::Row(Row::Stmts(&def.body)),
        Held::Row(Row::Exprs(&def.decorator_list)),
        boxed_held(&def.returns),
        Held::LeftOut,
        type_params_held(version, &def.type_params),
    )
}

/// The node of an asynchronous function.
#[tactic(auto, using(pytree_node::proofs::Callers::StmtShapes::stmt_shapes))]
fn async_function_node<'a>(version: Version, def: &'a FunctionDef) -> Node<'a>
    ensures thing { node_thing version result ≡ stmt_thing version (async_function_def (function_def_of def.now)) }
    ensures len { result.len ≡ field_count result.class }
    ensures room { result.len ≤ 7 }
{
    Node::seven(
        Class::AsyncFunctionDef,
        Held::Leaf(Leaf::Name(&def.name)),
        Held::Arguments(&def.args),
        Held::Row(Row::Stmts(&def.body)),
        Held::Row(Row::Exprs(&def.decorator_list)),
        boxed_held(&def.returns),
        Held::LeftOut,
        type_params_held(version, &def.type_params),
    )
}

/// The node of a class.
#[tactic(auto, using(pytree_node::proofs::Callers::StmtShapes::stmt_shapes))]
fn class_node<'a>(version: Version, class: &'a ClassDef) -> Node<'a>
    ensures thing { node_thing version result ≡ stmt_thing version (class_def_of class.now) }
    ensures len { result.len ≡ field_count result.class }
    ensures room { result.len ≤ 7 }
{
    Node::six(
        Class::ClassDef,
        Held::Leaf(Leaf::Name(&class.name)),
        Held::Row(Row::Exprs(&class.bases)),
        Held::Row(Row::Keywords(&class.keywords)),
        Held::Row(Row::Stmts(&class.body)),
        Held::Row(Row::Exprs(&class.decorator_list)),
        type_params_held(version, &class.type_params),
    )
}

/// The node of a `try`.
#[tactic(auto, using(pytree_node::proofs::Callers::StmtShapes::stmt_shapes))]
fn try_node<'a>(held: &'a Try) -> Node<'a>
    ensures thing { (version : AnyVersion) → node_thing version result ≡ stmt_thing version (try_block (try_of held.now)) }
    ensures len { result.len ≡ field_count result.class }
    ensures room { result.len ≤ 7 }
{
    Node::four(
        Class::Try,
        Held::Row(Row::Stmts(&held.body)),
        Held::Row(Row::Handlers(&held.handlers)),
        Held::Row(Row::Stmts(&held.orelse)),
        Held::Row(Row::Stmts(&held.finalbody)),
    )
}

/// The node of a `try` with `except*`s.
#[tactic(auto, using(pytree_node::proofs::Callers::StmtShapes::stmt_shapes))]
fn try_star_node<'a>(held: &'a Try) -> Node<'a>
    ensures thing { (version : AnyVersion) → node_thing version result ≡ stmt_thing version (try_star_block (try_of held.now)) }
    ensures len { result.len ≡ field_count result.class }
    ensures room { result.len ≤ 7 }
{
    Node::four(
        Class::TryStar,
        Held::Row(Row::Stmts(&held.body)),
        Held::Row(Row::Handlers(&held.handlers)),
        Held::Row(Row::Stmts(&held.orelse)),
        Held::Row(Row::Stmts(&held.finalbody)),
    )
}
