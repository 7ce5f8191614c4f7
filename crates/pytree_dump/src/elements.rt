//! What a dump shows by itself: nodes, and lists of them.

ghost use Rattle.std.specs.Prelude.{◌≡◌};
ghost use Rattle.pytree_dump.specs.Inner.Nodes.{DescribesShown, Splits, element_shown, is_no_shown, elements_shown};

use crate::expressions::expr_node;
use crate::members::{alias_node, comprehension_node, item_node, keyword_node, type_param_node};
use crate::nodes::Node;
use crate::patterns::pattern_node;
use pytree_dump_text::Style;
use pytree_node::{Alias, Comprehension, Expr, Item, Keyword, Pattern, TypeParam};

/// A part of a tree that is a node of a dump.
#[derive(Clone, Copy)]
pub(crate) enum Element<'a> {
    Expr(&'a Expr),
    Comprehension(&'a Comprehension),
    Keyword(&'a Keyword),
    Alias(&'a Alias),
    Item(&'a Item),
    TypeParam(&'a TypeParam),
    Pattern(&'a Pattern),
}

impl<'a> Element<'a> {
    /// The node.
    #[inline(always)]
    pub fn node(self, style: Style) -> Node<'a>
        ensures { DescribesShown style result (element_shown self.entry) }
    {
        match self {
            Element::Expr(e) => expr_node(style, e),
            Element::Comprehension(c) => comprehension_node(style, c),
            Element::Keyword(k) => keyword_node(style, k),
            Element::Alias(a) => alias_node(style, a),
            Element::Item(item) => item_node(style, item),
            Element::TypeParam(p) => type_param_node(style, p),
            Element::Pattern(p) => pattern_node(style, p),
        }
    }
}

/// A list of a tree whose elements are nodes, or absent.
#[derive(Clone, Copy)]
pub(crate) enum Elements<'a> {
    Options(&'a [Option<Expr>]),
    Comprehensions(&'a [Comprehension]),
    Keywords(&'a [Keyword]),
    Aliases(&'a [Alias]),
    Items(&'a [Item]),
    TypeParams(&'a [TypeParam]),
    Patterns(&'a [Pattern]),
}

impl<'a> Elements<'a> {
    /// Whether it has no element.
    #[inline(always)]
    pub fn is_empty(self) -> bool
        ensures { result ≡ is_no_shown (elements_shown self.entry) }
    {
        match self {
            Elements::Options(all) => all.is_empty(),
            Elements::Comprehensions(all) => all.is_empty(),
            Elements::Keywords(all) => all.is_empty(),
            Elements::Aliases(all) => all.is_empty(),
            Elements::Items(all) => all.is_empty(),
            Elements::TypeParams(all) => all.is_empty(),
            Elements::Patterns(all) => all.is_empty(),
        }
    }

    /// Its first element, absent or not, and the rest of the list.
    #[inline(always)]
    pub fn split_first(self) -> Option<(Option<Element<'a>>, Elements<'a>)>
        ensures { Splits self.entry result }
    {
        match self {
            Elements::Options(all) => {
                let (e, rest) = all.split_first()?;
                match e {
                    None => Some((None, Elements::Options(rest))),
                    Some(e) => Some((Some(Element::Expr(e)), Elements::Options(rest))),
                }
            }
            Elements::Comprehensions(all) => {
                let (c, rest) = all.split_first()?;
                Some((
                    Some(Element::Comprehension(c)),
                    Elements::Comprehensions(rest),
                ))
            }
            Elements::Keywords(all) => {
                let (k, rest) = all.split_first()?;
                Some((Some(Element::Keyword(k)), Elements::Keywords(rest)))
            }
            Elements::Aliases(all) => {
                let (a, rest) = all.split_first()?;
                Some((Some(Element::Alias(a)), Elements::Aliases(rest)))
            }
            Elements::Items(all) => {
                let (item, rest) = all.split_first()?;
                Some((Some(Element::Item(item)), Elements::Items(rest)))
            }
            Elements::TypeParams(all) => {
                let (p, rest) = all.split_first()?;
                Some((Some(Element::TypeParam(p)), Elements::TypeParams(rest)))
            }
            Elements::Patterns(all) => {
                let (p, rest) = all.split_first()?;
                Some((Some(Element::Pattern(p)), Elements::Patterns(rest)))
            }
        }
    }
}
