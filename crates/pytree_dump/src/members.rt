//! The nodes of the parts of a tree that are no expressions, as arguments and parameters.

ghost use Rattle.pytree_node.specs.TreeOf.{alias_of, comprehension_of, item_of, keyword_of, type_param_of};
ghost use Rattle.pytree_dump_text.specs.Shows.{shown_alias, shown_comprehension, shown_item, shown_keyword, shown_type_param};
ghost use Rattle.pytree_dump.specs.Inner.Nodes.{DescribesShown};

use crate::nodes::{AnyPart, Node};
use pytree_dump_text::{Field, Part, Style, is_flat, is_short_two, name_part, option_part};
use pytree_node::{Alias, Comprehension, Item, Keyword, TypeParam};

/// A clause of a comprehension, which has no place and shows four fields.
pub(crate) fn comprehension_node<'a>(style: Style, c: &'a Comprehension) -> Node<'a>
    ensures { DescribesShown style result (shown_comprehension (comprehension_of c.now)) }
{
    Node {
        class: "comprehension(",
        parts: [
            AnyPart::Part(Part::Expr(Field::Target, &c.target)),
            AnyPart::Part(Part::Expr(Field::Iter, &c.iter)),
            AnyPart::Part(Part::Exprs(Field::Ifs, &c.ifs)),
            AnyPart::Part(Part::Flag(Field::IsAsync, c.is_async)),
        ],
        len: 4,
        is_short: is_flat(style),
        is_marked: false,
    }
}

/// An argument by name.
pub(crate) fn keyword_node<'a>(style: Style, k: &'a Keyword) -> Node<'a>
    ensures { DescribesShown style result (shown_keyword (keyword_of k.now)) }
{
    Node::two(
        style,
        "keyword(",
        name_part(Field::Arg, &k.arg),
        Part::Expr(Field::Value, &k.value),
    )
}

/// A name of an import.
pub(crate) fn alias_node<'a>(style: Style, a: &'a Alias) -> Node<'a>
    ensures { DescribesShown style result (shown_alias (alias_of a.now)) }
{
    Node::two(
        style,
        "alias(",
        Part::Name(Field::Name, &a.name),
        name_part(Field::Asname, &a.asname),
    )
}

/// An item of a `with`, which has no place.
pub(crate) fn item_node<'a>(style: Style, item: &'a Item) -> Node<'a>
    ensures { DescribesShown style result (shown_item (item_of item.now)) }
{
    let context_expr = Part::Expr(Field::ContextExpr, &item.context_expr);
    let optional_vars = option_part(Field::OptionalVars, &item.optional_vars);
    Node {
        class: "withitem(",
        parts: [
            AnyPart::Part(context_expr),
            AnyPart::Part(optional_vars),
            AnyPart::Part(Part::LeftOut),
            AnyPart::Part(Part::LeftOut),
        ],
        len: 2,
        is_short: is_short_two(style, context_expr, optional_vars),
        is_marked: false,
    }
}

/// A parameter of a type.
pub(crate) fn type_param_node<'a>(style: Style, p: &'a TypeParam) -> Node<'a>
    ensures { DescribesShown style result (shown_type_param (type_param_of p.now)) }
{
    match p {
        TypeParam::TypeVar { name, bound } => Node::two(
            style,
            "TypeVar(",
            Part::Name(Field::Name, name),
            option_part(Field::Bound, bound),
        ),
        TypeParam::ParamSpec { name } => {
            Node::one(style, "ParamSpec(", Part::Name(Field::Name, name))
        }
        TypeParam::TypeVarTuple { name } => {
            Node::one(style, "TypeVarTuple(", Part::Name(Field::Name, name))
        }
    }
}
