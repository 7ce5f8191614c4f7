//! The statement of a head and its blocks.

ghost use Rattle.std.specs.Prelude.{◌≡◌, ◌∷◌, [], map, IfOk};
ghost use Rattle.pytree_node.specs.Trees as plain;
ghost use Rattle.pytree_node.specs.TreeOf.{boxed_of, case_of, handler_of, item_of, option_of};
ghost use Rattle.pytree_node.specs.TreeOf.{pattern_of, stmt_of, tree_of};
ghost use Rattle.pygrammar.specs.Blocks as blocks;
ghost use Rattle.pygrammar.specs.Blocks.{handler};
ghost use Rattle.pygrammar.specs.Lines.{definition, loop, try_of, with_of};
ghost use Rattle.pygrammar.specs.Reading.{choice};
ghost use Rattle.pygrammar.specs.FormOf.{def_head_of, loop_head_of};
ghost use Rattle.pyparse_block.specs.Values.{arm_of};

use crate::groups::Arm;
use pygrammar::{DefHead, LoopHead};
use pytree_node::{
    Case, ClassDef, Expr, FunctionDef, Handler, Identifier, Item, Pattern, Stmt, Try,
};
use std::alloc::{AllocError, Global};

/// A loop with its blocks.
#[tactic(auto, using(pytree_node::proofs::Callers::StmtShapes::stmt_shapes))]
pub(crate) fn loop_statement(head: LoopHead, body: Vec<Stmt>, orelse: Vec<Stmt>) -> Stmt
    ensures { stmt_of result
        ≡ loop (loop_head_of head) (map stmt_of body.items) (map stmt_of orelse.items) }
{
    match head {
        LoopHead::While { test } => Stmt::While { test, body, orelse },
        LoopHead::For {
            is_async,
            target,
            iter,
        } => {
            if is_async {
                Stmt::AsyncFor {
                    target,
                    iter,
                    body,
                    orelse,
                }
            } else {
                Stmt::For {
                    target,
                    iter,
                    body,
                    orelse,
                }
            }
        }
    }
}

/// A `with` with its block.
#[tactic(auto, using(pytree_node::proofs::Callers::StmtShapes::stmt_shapes))]
pub(crate) fn with_statement(is_async: bool, items: Vec<Item>, body: Vec<Stmt>) -> Stmt
    ensures { stmt_of result ≡ with_of is_async (map item_of items.items) (map stmt_of body.items) }
{
    if is_async {
        Stmt::AsyncWith { items, body }
    } else {
        Stmt::With { items, body }
    }
}

/// A `try` with its clauses.
#[tactic(auto, using(pytree_node::proofs::Callers::StmtShapes::stmt_shapes))]
pub(crate) fn try_statement(
    alloc: Global,
    star: bool,
    body: Vec<Stmt>,
    handlers: Vec<Handler>,
    orelse: Vec<Stmt>,
    finalbody: Vec<Stmt>,
) -> Result<Stmt, AllocError>
    ensures { IfOk result (λ s. stmt_of s
        ≡ try_of star (map stmt_of body.items) (map handler_of handlers.items)
        (map stmt_of orelse.items) (map stmt_of finalbody.items)) }
{
    let parts = Try {
        body,
        handlers,
        orelse,
        finalbody,
    };
    let parts = Box::new(alloc, parts)?;
    if star {
        Ok(Stmt::TryStar(parts))
    } else {
        Ok(Stmt::Try(parts))
    }
}

/// The expression in a box, if there is one.
fn unboxed(expression: Option<Box<Expr>>) -> Option<Expr>
    ensures { option_of result ≡ boxed_of expression }
{
    match expression {
        Some(expression) => Some(Box::into_inner(expression)),
        None => None,
    }
}

/// An `except` with its block.
#[tactic(auto, using(pytree_node::proofs::Callers::StmtShapes::handler_tree))]
pub(crate) fn handler(
    class: Option<Box<Expr>>,
    name: Option<Identifier>,
    body: Vec<Stmt>,
) -> Handler
    ensures { handler_of result ≡ handler (boxed_of class) name (map stmt_of body.items) }
{
    Handler {
        class: unboxed(class),
        name,
        body,
    }
}

/// A `case` with its block.
#[tactic(auto, using(pytree_node::proofs::Callers::StmtShapes::case_tree))]
pub(crate) fn match_case(pattern: Box<Pattern>, guard: Option<Box<Expr>>, body: Vec<Stmt>) -> Case
    ensures { case_of result
        ≡ blocks.case_of (pattern_of pattern.value) (boxed_of guard) (map stmt_of body.items) }
{
    Case {
        pattern: Box::into_inner(pattern),
        guard: unboxed(guard),
        body,
    }
}

/// A `match` with its cases.
#[tactic(auto, using(pytree_node::proofs::Callers::StmtShapes::match_tree))]
pub(crate) fn match_statement(subject: Box<Expr>, cases: Vec<Case>) -> Stmt
    ensures { stmt_of result
        ≡ plain.Match (tree_of subject.value) (plain.cases (map case_of cases.items)) }
{
    Stmt::Match {
        subject: Box::into_inner(subject),
        cases,
    }
}

/// A `def` or a `class` with its decorators and its block.
#[tactic(auto, using(pytree_node::proofs::Callers::StmtShapes::stmt_shapes))]
pub(crate) fn definition_statement(
    alloc: Global,
    decorator_list: Vec<Expr>,
    head: DefHead,
    body: Vec<Stmt>,
) -> Result<Stmt, AllocError>
    ensures { IfOk result (λ s. stmt_of s
        ≡ definition (map tree_of decorator_list.items) (def_head_of head)
        (map stmt_of body.items)) }
{
    match head {
        DefHead::Function {
            is_async,
            name,
            type_params,
            args,
            returns,
        } => {
            let def = FunctionDef {
                name,
                args,
                body,
                decorator_list,
                returns,
                type_params,
            };
            let def = Box::new(alloc, def)?;
            if is_async {
                Ok(Stmt::AsyncFunctionDef(def))
            } else {
                Ok(Stmt::FunctionDef(def))
            }
        }
        DefHead::Class {
            name,
            type_params,
            bases,
            keywords,
        } => {
            let class = ClassDef {
                name,
                bases,
                keywords,
                body,
                decorator_list,
                type_params,
            };
            Ok(Stmt::ClassDef(Box::new(alloc, class)?))
        }
    }
}

/// An `if`, or an `elif`, with the statements of its `else`.
#[tactic(auto, using(pytree_node::proofs::Callers::StmtShapes::if_tree))]
fn if_statement(arm: Arm, orelse: Vec<Stmt>) -> Stmt
    ensures { stmt_of result ∷ [] ≡ choice (arm_of arm ∷ []) (map stmt_of orelse.items) }
{
    let Arm { test, body } = arm;
    Stmt::If { test, body, orelse }
}

/// The statements that `elif`s and an `else` are: each `elif` is an `if` alone in the `else` of the
/// one before.
fn nested(alloc: Global, elifs: Vec<Arm>, orelse: Vec<Stmt>) -> Result<Vec<Stmt>, AllocError>
    ensures { IfOk result
        (λ v. map stmt_of v.items ≡ choice (map arm_of elifs.items) (map stmt_of orelse.items)) }
{
    let mut elifs = elifs;
    let mut inner = orelse;
    while let Some(arm) = elifs.pop() {
        let mut outer = Vec::new(alloc);
        outer.push(if_statement(arm, inner))?;
        inner = outer;
    }
    Ok(inner)
}

/// An `if` with its `elif`s and its `else`.
#[tactic(auto, using(crate::proofs::StatementLemmas::choice_first))]
pub(crate) fn choice_statement(
    alloc: Global,
    first: Arm,
    elifs: Vec<Arm>,
    orelse: Vec<Stmt>,
) -> Result<Stmt, AllocError>
    ensures { IfOk result (λ s. stmt_of s ∷ []
        ≡ choice (arm_of first ∷ map arm_of elifs.items) (map stmt_of orelse.items)) }
{
    let orelse = nested(alloc, elifs, orelse)?;
    Ok(if_statement(first, orelse))
}
