//! The leaves and the nodes of a tree.

ghost use Rattle.pytree_fields.specs.LentThings.{Describes, IsNode, LeafOf, child_thing};

use crate::classes::Class;
use crate::expressions::expr_node;
use crate::leaves::Leaf;
use crate::members::{
    alias_node, arg_node, arguments_node, case_node, comprehension_node, handler_node, item_node,
    keyword_node, type_param_node,
};
use crate::nodes::Node;
use crate::patterns::pattern_node;
use crate::statements::stmt_node;
use pytree_node::{
    Alias, Arg, Arguments, Case, Comprehension, Expr, Handler, Item, Keyword, Pattern, Stmt,
    TypeParam, Version,
};

/// A leaf or a node of a tree.
#[derive(Clone, Copy)]
pub enum Child<'a> {
    Leaf(Leaf<'a>),
    Expr(&'a Expr),
    Pattern(&'a Pattern),
    Stmt(&'a Stmt),
    Handler(&'a Handler),
    Case(&'a Case),
    Comprehension(&'a Comprehension),
    Arguments(&'a Arguments),
    Arg(&'a Arg),
    Keyword(&'a Keyword),
    Alias(&'a Alias),
    Item(&'a Item),
    TypeParam(&'a TypeParam),
}

impl<'a> Child<'a> {
    /// The leaf that it is, if it is no node.
    pub fn leaf(self) -> Option<Leaf<'a>>
        ensures { LeafOf result self.entry }
    {
        match self {
            Child::Leaf(leaf) => Some(leaf),
            Child::Expr(_) => None,
            Child::Pattern(_) => None,
            Child::Stmt(_) => None,
            Child::Handler(_) => None,
            Child::Case(_) => None,
            Child::Comprehension(_) => None,
            Child::Arguments(_) => None,
            Child::Arg(_) => None,
            Child::Keyword(_) => None,
            Child::Alias(_) => None,
            Child::Item(_) => None,
            Child::TypeParam(_) => None,
        }
    }

    /// What it is as a node, in a version of Python.
    pub fn node(self, version: Version) -> Node<'a>
        requires { IsNode self }
        ensures { Describes version result (child_thing version self.entry) }
    {
        match self {
            // Not asked for.
            Child::Leaf(_) => Node::none(Class::Pass),
            Child::Expr(e) => expr_node(e),
            Child::Pattern(p) => pattern_node(p),
            Child::Stmt(s) => stmt_node(version, s),
            Child::Handler(h) => handler_node(h),
            Child::Case(c) => case_node(c),
            Child::Comprehension(c) => comprehension_node(c),
            Child::Arguments(a) => arguments_node(a),
            Child::Arg(a) => arg_node(a),
            Child::Keyword(k) => keyword_node(k),
            Child::Alias(a) => alias_node(a),
            Child::Item(item) => item_node(item),
            Child::TypeParam(p) => type_param_node(p),
        }
    }
}
