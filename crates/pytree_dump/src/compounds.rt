//! The nodes of statements with blocks, and of their handlers and cases.

ghost use Rattle.std.specs.Prelude.{◌≡◌, ◌-◌, ◌≤◌, codes, if◌then◌else◌, true};
ghost use Rattle.pytree_dump_text.specs.Blocks.{listed, shown_block, shown_case, shown_handler, shown_matched};
ghost use Rattle.pytree_dump_text.specs.Shows.{a_field, left_out, no_field, shown, shown_item, shown_stmt};
ghost use Rattle.pytree_node.specs.Profiles.{has_types};
ghost use Rattle.pytree_node.specs.TreeOf.{case_of, class_def_of, function_def_of, handler_of, item_of, tree_of, try_of};
ghost use Rattle.pytree_dump.specs.Inner.Branches.{BranchShows, DescribesBranch};
ghost use Rattle.pytree_dump.specs.Inner.Definitions.{function_def_fields, try_fields};

use crate::branches::{BranchNode, BranchPart, Branches, LEFT_OUT};
use crate::nodes::AnyPart;
use pytree_dump_text::{
    Field, Part, Style, boxed_part, is_flat, is_short_case, is_short_handler, is_short_match,
    is_short_test, is_short_with, name_part, option_part,
};
use pytree_node::{Case, ClassDef, Expr, FunctionDef, Handler, Item, Stmt, Try, Version};

/// The node of a `while` or an `if`.
pub(crate) fn test_node<'a>(
    style: Style,
    class: &'static str,
    test: &'a Expr,
    body: &'a [Stmt],
    orelse: &'a [Stmt],
) -> BranchNode<'a>
    ensures { DescribesBranch true style result class.now
        (a_field (codes "test") (shown (tree_of test.now))
        (a_field (codes "body") (shown_block style.profile body.now)
        (a_field (codes "orelse") (shown_block style.profile orelse.now) no_field))) }
{
    BranchNode {
        class,
        parts: [
            BranchPart::Any(AnyPart::Part(Part::Expr(Field::Test, test))),
            BranchPart::Branches(Field::Body, Branches::Stmts(body)),
            BranchPart::Branches(Field::Orelse, Branches::Stmts(orelse)),
            LEFT_OUT,
            LEFT_OUT,
            LEFT_OUT,
            LEFT_OUT,
        ],
        len: 3,
        is_short: is_short_test(style, test, body, orelse),
        is_marked: true,
    }
}

/// The node of a `for`, which shows four fields.
pub(crate) fn for_node<'a>(
    style: Style,
    class: &'static str,
    target: &'a Expr,
    iter: &'a Expr,
    body: &'a [Stmt],
    orelse: &'a [Stmt],
) -> BranchNode<'a>
    ensures { DescribesBranch true style result class.now
        (a_field (codes "target") (shown (tree_of target.now))
        (a_field (codes "iter") (shown (tree_of iter.now))
        (a_field (codes "body") (shown_block style.profile body.now)
        (a_field (codes "orelse") (shown_block style.profile orelse.now) (left_out no_field))))) }
{
    BranchNode {
        class,
        parts: [
            BranchPart::Any(AnyPart::Part(Part::Expr(Field::Target, target))),
            BranchPart::Any(AnyPart::Part(Part::Expr(Field::Iter, iter))),
            BranchPart::Branches(Field::Body, Branches::Stmts(body)),
            BranchPart::Branches(Field::Orelse, Branches::Stmts(orelse)),
            // The field `type_comment`.
            LEFT_OUT,
            LEFT_OUT,
            LEFT_OUT,
        ],
        len: 5,
        is_short: is_flat(style),
        is_marked: true,
    }
}

/// The node of a `with`.
pub(crate) fn with_node<'a>(
    style: Style,
    class: &'static str,
    items: &'a [Item],
    body: &'a [Stmt],
) -> BranchNode<'a>
    ensures { DescribesBranch true style result class.now
        (a_field (codes "items") (listed (λ item. shown_item (item_of item)) items.now)
        (a_field (codes "body") (shown_block style.profile body.now) (left_out no_field))) }
{
    BranchNode {
        class,
        parts: [
            BranchPart::Any(AnyPart::Part(Part::Items(Field::Items, items))),
            BranchPart::Branches(Field::Body, Branches::Stmts(body)),
            // The field `type_comment`.
            LEFT_OUT,
            LEFT_OUT,
            LEFT_OUT,
            LEFT_OUT,
            LEFT_OUT,
        ],
        len: 3,
        is_short: is_short_with(style, items, body),
        is_marked: true,
    }
}

/// The node of a `match`.
pub(crate) fn match_node<'a>(style: Style, subject: &'a Expr, cases: &'a [Case]) -> BranchNode<'a>
    ensures { DescribesBranch true style result (codes "Match(")
        (a_field (codes "subject") (shown (tree_of subject.now))
        (a_field (codes "cases") (shown_matched style.profile cases.now) no_field)) }
{
    BranchNode {
        class: "Match(",
        parts: [
            BranchPart::Any(AnyPart::Part(Part::Expr(Field::Subject, subject))),
            BranchPart::Branches(Field::Cases, Branches::Cases(cases)),
            LEFT_OUT,
            LEFT_OUT,
            LEFT_OUT,
            LEFT_OUT,
            LEFT_OUT,
        ],
        len: 2,
        is_short: is_short_match(style, subject, cases),
        is_marked: true,
    }
}

/// The node of a `try`, which shows four fields.
pub(crate) fn try_node<'a>(style: Style, class: &'static str, parts: &'a Try) -> BranchNode<'a>
    ensures { DescribesBranch true style result class.now
        (try_fields style.profile (try_of parts.now)) }
{
    BranchNode {
        class,
        parts: [
            BranchPart::Branches(Field::Body, Branches::Stmts(&parts.body)),
            BranchPart::Branches(Field::Handlers, Branches::Handlers(&parts.handlers)),
            BranchPart::Branches(Field::Orelse, Branches::Stmts(&parts.orelse)),
            BranchPart::Branches(Field::Finalbody, Branches::Stmts(&parts.finalbody)),
            LEFT_OUT,
            LEFT_OUT,
            LEFT_OUT,
        ],
        len: 4,
        is_short: is_flat(style),
        is_marked: true,
    }
}

/// The node of a `def`, which shows four fields or more.
pub(crate) fn function_node<'a>(
    style: Style,
    class: &'static str,
    def: &'a FunctionDef,
) -> BranchNode<'a>
    ensures { DescribesBranch true style result class.now
        (function_def_fields style.profile (function_def_of def.now)) }
{
    BranchNode {
        class,
        parts: [
            BranchPart::Any(AnyPart::Part(Part::Name(Field::Name, &def.name))),
            BranchPart::Any(AnyPart::Part(Part::Arguments(Field::Args, &def.args))),
            BranchPart::Branches(Field::Body, Branches::Stmts(&def.body)),
            BranchPart::Any(AnyPart::Part(Part::Exprs(Field::DecoratorList, &def.decorator_list))),
            BranchPart::Any(AnyPart::Part(boxed_part(Field::Returns, &def.returns))),
            // The field `type_comment`.
            LEFT_OUT,
            BranchPart::Any(AnyPart::Part(Part::TypeParams(Field::TypeParams, &def.type_params))),
        ],
        len: with_types(style, 7),
        is_short: is_flat(style),
        is_marked: true,
    }
}

/// The node of a `class`, which shows five fields or more.
pub(crate) fn class_node<'a>(style: Style, class: &'a ClassDef) -> BranchNode<'a>
    ensures { BranchShows style result (shown_stmt style.profile (class_def_of class.now)) }
{
    BranchNode {
        class: "ClassDef(",
        parts: [
            BranchPart::Any(AnyPart::Part(Part::Name(Field::Name, &class.name))),
            BranchPart::Any(AnyPart::Part(Part::Exprs(Field::Bases, &class.bases))),
            BranchPart::Any(AnyPart::Part(Part::Keywords(Field::Keywords, &class.keywords))),
            BranchPart::Branches(Field::Body, Branches::Stmts(&class.body)),
            BranchPart::Any(AnyPart::Part(Part::Exprs(
                Field::DecoratorList,
                &class.decorator_list,
            ))),
            BranchPart::Any(AnyPart::Part(Part::TypeParams(Field::TypeParams, &class.type_params))),
            LEFT_OUT,
        ],
        len: with_types(style, 6),
        is_short: is_flat(style),
        is_marked: true,
    }
}

/// How many fields a definition has, of which the parameters of a type are the last: one less where
/// its Python hasn't that field.
fn with_types(style: Style, all: usize) -> usize
    requires { 1 ≤ all }
    ensures within { result ≤ all }
    ensures len { result ≡ (if has_types style.profile then all else all - 1) }
{
    match style.profile.version {
        Version::Py311 => all - 1,
        Version::Py312 => all,
    }
}

/// The node of a handler.
pub(crate) fn handler_node<'a>(style: Style, h: &'a Handler) -> BranchNode<'a>
    ensures { BranchShows style result (shown_handler style.profile (handler_of h.now)) }
{
    let body: &'a [Stmt] = &h.body;
    BranchNode {
        class: "ExceptHandler(",
        parts: [
            BranchPart::Any(AnyPart::Part(option_part(Field::Type, &h.class))),
            BranchPart::Any(AnyPart::Part(name_part(Field::Name, &h.name))),
            BranchPart::Branches(Field::Body, Branches::Stmts(body)),
            LEFT_OUT,
            LEFT_OUT,
            LEFT_OUT,
            LEFT_OUT,
        ],
        len: 3,
        is_short: is_short_handler(style, &h.class, body),
        is_marked: true,
    }
}

/// The node of a case, which has no place.
pub(crate) fn case_node<'a>(style: Style, case: &'a Case) -> BranchNode<'a>
    ensures { BranchShows style result (shown_case style.profile (case_of case.now)) }
{
    let body: &'a [Stmt] = &case.body;
    BranchNode {
        class: "match_case(",
        parts: [
            BranchPart::Any(AnyPart::Pattern(Field::Pattern, &case.pattern)),
            BranchPart::Any(AnyPart::Part(option_part(Field::Guard, &case.guard))),
            BranchPart::Branches(Field::Body, Branches::Stmts(body)),
            LEFT_OUT,
            LEFT_OUT,
            LEFT_OUT,
            LEFT_OUT,
        ],
        len: 3,
        is_short: is_short_case(style, &case.pattern, &case.guard, body),
        is_marked: false,
    }
}
