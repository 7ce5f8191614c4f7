//! The nodes of statements.

ghost use Rattle.pytree_dump_text.specs.Shows.{shown_stmt};
ghost use Rattle.pytree_node.specs.TreeOf.{stmt_of};
ghost use Rattle.pytree_dump.specs.Inner.Branches.{BranchShows};

use crate::branches::BranchNode;
use crate::compounds::{
    class_node, for_node, function_node, match_node, test_node, try_node, with_node,
};
use pytree_dump_text::{Field, Part, Style, boxed_part, name_part, option_part};
use pytree_node::Stmt;

/// The node of a statement.
pub(crate) fn stmt_node<'a>(style: Style, s: &'a Stmt) -> BranchNode<'a>
    ensures { BranchShows style result (shown_stmt style.profile (stmt_of s.now)) }
{
    match s {
        Stmt::FunctionDef(def) => function_node(style, "FunctionDef(", def),
        Stmt::AsyncFunctionDef(def) => function_node(style, "AsyncFunctionDef(", def),
        Stmt::ClassDef(class) => class_node(style, class),
        Stmt::Return { value } => BranchNode::one(
            style,
            "Return(",
            option_part(Field::Value, value),
        ),
        Stmt::Delete { targets } => BranchNode::one(
            style,
            "Delete(",
            Part::Exprs(Field::Targets, targets),
        ),
        Stmt::Assign { targets, value } => BranchNode::three(
            style,
            "Assign(",
            Part::Exprs(Field::Targets, targets),
            Part::Expr(Field::Value, value),
            Part::LeftOut,
        ),
        Stmt::TypeAlias {
            name,
            type_params,
            value,
        } => BranchNode::three(
            style,
            "TypeAlias(",
            Part::Expr(Field::Name, name),
            Part::TypeParams(Field::TypeParams, type_params),
            Part::Expr(Field::Value, value),
        ),
        Stmt::AugAssign { target, op, value } => BranchNode::three(
            style,
            "AugAssign(",
            Part::Expr(Field::Target, target),
            Part::Operator(*op),
            Part::Expr(Field::Value, value),
        ),
        Stmt::AnnAssign {
            target,
            annotation,
            value,
            simple,
        } => BranchNode::four(
            style,
            "AnnAssign(",
            Part::Expr(Field::Target, target),
            Part::Expr(Field::Annotation, annotation),
            boxed_part(Field::Value, value),
            Part::Flag(Field::Simple, *simple),
        ),
        Stmt::For {
            target,
            iter,
            body,
            orelse,
        } => for_node(style, "For(", target, iter, body, orelse),
        Stmt::AsyncFor {
            target,
            iter,
            body,
            orelse,
        } => for_node(style, "AsyncFor(", target, iter, body, orelse),
        Stmt::While { test, body, orelse } => test_node(style, "While(", test, body, orelse),
        Stmt::If { test, body, orelse } => test_node(style, "If(", test, body, orelse),
        Stmt::With { items, body } => with_node(style, "With(", items, body),
        Stmt::AsyncWith { items, body } => with_node(style, "AsyncWith(", items, body),
        Stmt::Match { subject, cases } => match_node(style, subject, cases),
        Stmt::Raise { exc, cause } => BranchNode::two(
            style,
            "Raise(",
            boxed_part(Field::Exc, exc),
            boxed_part(Field::Cause, cause),
        ),
        Stmt::Try(parts) => try_node(style, "Try(", parts),
        Stmt::TryStar(parts) => try_node(style, "TryStar(", parts),
        Stmt::Assert { test, msg } => BranchNode::two(
            style,
            "Assert(",
            Part::Expr(Field::Test, test),
            boxed_part(Field::Msg, msg),
        ),
        Stmt::Import { names } => BranchNode::one(
            style,
            "Import(",
            Part::Aliases(Field::Names, names),
        ),
        Stmt::ImportFrom {
            module,
            names,
            level,
        } => BranchNode::three(
            style,
            "ImportFrom(",
            name_part(Field::Module, module),
            Part::Aliases(Field::Names, names),
            Part::Number(Field::Level, *level),
        ),
        Stmt::Global { names } => BranchNode::one(
            style,
            "Global(",
            Part::Names(Field::Names, names),
        ),
        Stmt::Nonlocal { names } => BranchNode::one(
            style,
            "Nonlocal(",
            Part::Names(Field::Names, names),
        ),
        Stmt::Expr { value } => BranchNode::one(style, "Expr(", Part::Expr(Field::Value, value)),
        Stmt::Pass => BranchNode::none("Pass("),
        Stmt::Break => BranchNode::none("Break("),
        Stmt::Continue => BranchNode::none("Continue("),
    }
}
