//! What a field of a node holds.

ghost use Rattle.pytree_node.specs.declared.profiles.Version.{Version as AnyVersion};
ghost use Rattle.pytree_fields.specs.LentThings.{ChildOf, RowOf};

use crate::children::Child;
use crate::leaves::Leaf;
use crate::rows::Row;
use pytree_node::{Arg, Arguments, Expr, Pattern};

/// What a field of a node holds.
#[derive(Clone, Copy)]
pub enum Held<'a> {
    Leaf(Leaf<'a>),
    Expr(&'a Expr),
    Pattern(&'a Pattern),
    Arg(&'a Arg),
    Arguments(&'a Arguments),
    Row(Row<'a>),
    /// Nothing: a field that is left out.
    LeftOut,
}

impl<'a> Held<'a> {
    /// The list that it is, if it is one.
    #[tactic(auto, using(crate::proofs::NodeLemmas::no_rows))]
    pub fn row(self) -> Option<Row<'a>>
        ensures { (version : AnyVersion) → RowOf version result self.entry }
    {
        match self {
            Held::Leaf(_) => None,
            Held::Expr(_) => None,
            Held::Pattern(_) => None,
            Held::Arg(_) => None,
            Held::Arguments(_) => None,
            Held::Row(row) => Some(row),
            Held::LeftOut => None,
        }
    }

    /// The leaf or the node that it is, if it is one.
    pub fn child(self) -> Option<Child<'a>>
        ensures { (version : AnyVersion) → ChildOf version result self.entry }
    {
        match self {
            Held::Leaf(leaf) => Some(Child::Leaf(leaf)),
            Held::Expr(e) => Some(Child::Expr(e)),
            Held::Pattern(p) => Some(Child::Pattern(p)),
            Held::Arg(a) => Some(Child::Arg(a)),
            Held::Arguments(a) => Some(Child::Arguments(a)),
            Held::Row(_) => None,
            Held::LeftOut => None,
        }
    }
}
