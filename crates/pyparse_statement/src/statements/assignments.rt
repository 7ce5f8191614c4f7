//! Statements of values that were read.
//!
//! Python language reference, 7.1 "Expression statements" and 7.2 "Assignment statements".

ghost use Rattle.std.specs.Prelude.{◌≡◌, map};
ghost use Rattle.pytree_node.specs.TreeOf.{boxed_of, stmt_of, tree_of};
ghost use Rattle.pytree_node.specs.Trees as plain;

use crate::statements::found::ReadStatement;
use pyparse_nodes::{Items, Optional, Read};
use pytree_node::{Operator, Stmt};

/// An annotation.
#[tactic(auto, using(pytree_node::proofs::Callers::StmtShapes::ann_assign_tree))]
pub(crate) fn annotation_of(
    target: Read,
    annotation: Read,
    value: Optional,
    simple: bool,
) -> ReadStatement
    ensures statement { stmt_of result.statement
        ≡ plain.AnnAssign (tree_of target.expr.value) (tree_of annotation.expr.value)
        (boxed_of value.expr) simple }
    ensures next { result.next ≡ value.next }
{
    ReadStatement {
        height: target.height.max(annotation.height.max(value.height)),
        next: value.next,
        statement: Stmt::AnnAssign {
            target: target.expr,
            annotation: annotation.expr,
            value: value.expr,
            simple,
        },
    }
}

/// An augmented assignment.
#[tactic(auto, using(pytree_node::proofs::Callers::StmtShapes::aug_assign_tree))]
pub(crate) fn augmented_of(target: Read, op: Operator, value: Read) -> ReadStatement
    ensures statement { stmt_of result.statement
        ≡ plain.AugAssign (tree_of target.expr.value) op (tree_of value.expr.value) }
    ensures next { result.next ≡ value.next }
{
    ReadStatement {
        height: target.height.max(value.height),
        next: value.next,
        statement: Stmt::AugAssign {
            target: target.expr,
            op,
            value: Box::into_inner(value.expr),
        },
    }
}

/// An assignment.
#[tactic(auto, using(pytree_node::proofs::Callers::StmtShapes::assign_tree))]
pub(crate) fn assignment_of(targets: Items, value: Read) -> ReadStatement
    ensures statement { stmt_of result.statement
        ≡ plain.Assign (map tree_of targets.exprs.items) (tree_of value.expr.value) }
    ensures next { result.next ≡ value.next }
{
    ReadStatement {
        height: targets.height.max(value.height),
        next: value.next,
        statement: Stmt::Assign {
            targets: targets.exprs,
            value: Box::into_inner(value.expr),
        },
    }
}

/// An expression that stands as a statement.
#[tactic(auto, using(pytree_node::proofs::Callers::StmtShapes::expr_stmt_tree))]
pub(crate) fn expression_of(value: Read) -> ReadStatement
    ensures statement { stmt_of result.statement ≡ plain.ExprOf (tree_of value.expr.value) }
    ensures next { result.next ≡ value.next }
{
    ReadStatement {
        height: value.height,
        next: value.next,
        statement: Stmt::Expr {
            value: Box::into_inner(value.expr),
        },
    }
}
