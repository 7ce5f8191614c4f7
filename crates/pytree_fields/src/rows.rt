//! The lists of a tree.

ghost use Rattle.std.specs.Prelude.{◌≡◌, ◌<◌, Some};
ghost use Rattle.pytree_node.specs.declared.profiles.Version.{Version as AnyVersion};
ghost use Rattle.pytree_fields.specs.LentThings.{child_thing, row_things, row_len};
ghost use Rattle.pytree_fields.specs.Things.{thing_at};

use crate::children::Child;
use crate::leaves::Leaf;
use pytree_node::{
    Alias, Arg, Case, Comparison, Comprehension, Expr, Handler, Identifier, Item, Keyword, Pattern,
    Stmt, TypeParam,
};

/// A list of a tree.
#[derive(Clone, Copy)]
pub enum Row<'a> {
    Exprs(&'a [Expr]),
    /// Expressions of which some may be absent.
    Options(&'a [Option<Expr>]),
    Patterns(&'a [Pattern]),
    Stmts(&'a [Stmt]),
    Handlers(&'a [Handler]),
    Cases(&'a [Case]),
    Comprehensions(&'a [Comprehension]),
    Args(&'a [Arg]),
    Keywords(&'a [Keyword]),
    Aliases(&'a [Alias]),
    Items(&'a [Item]),
    TypeParams(&'a [TypeParam]),
    Comparisons(&'a [Comparison]),
    Names(&'a [Identifier]),
    /// The comments on types of a module, of which there are none.
    TypeIgnores,
}

impl<'a> Row<'a> {
    /// How many elements it has.
    pub fn len(self) -> usize
        ensures { result ≡ row_len self.entry }
    {
        match self {
            Row::Exprs(all) => all.len(),
            Row::Options(all) => all.len(),
            Row::Patterns(all) => all.len(),
            Row::Stmts(all) => all.len(),
            Row::Handlers(all) => all.len(),
            Row::Cases(all) => all.len(),
            Row::Comprehensions(all) => all.len(),
            Row::Args(all) => all.len(),
            Row::Keywords(all) => all.len(),
            Row::Aliases(all) => all.len(),
            Row::Items(all) => all.len(),
            Row::TypeParams(all) => all.len(),
            Row::Comparisons(all) => all.len(),
            Row::Names(all) => all.len(),
            Row::TypeIgnores => 0,
        }
    }

    /// One of its elements.
    #[tactic(auto, using(crate::proofs::RowLemmas::rows))]
    pub fn get(self, index: usize) -> Child<'a>
        requires { index < row_len self }
        ensures { (version : AnyVersion)
            → Some (child_thing version result) ≡ thing_at (row_things version self.entry) index }
    {
        match self {
            Row::Exprs(all) => Child::Expr(&all[index]),
            Row::Options(all) => match &all[index] {
                None => Child::Leaf(Leaf::None),
                Some(e) => Child::Expr(e),
            },
            Row::Patterns(all) => Child::Pattern(&all[index]),
            Row::Stmts(all) => Child::Stmt(&all[index]),
            Row::Handlers(all) => Child::Handler(&all[index]),
            Row::Cases(all) => Child::Case(&all[index]),
            Row::Comprehensions(all) => Child::Comprehension(&all[index]),
            Row::Args(all) => Child::Arg(&all[index]),
            Row::Keywords(all) => Child::Keyword(&all[index]),
            Row::Aliases(all) => Child::Alias(&all[index]),
            Row::Items(all) => Child::Item(&all[index]),
            Row::TypeParams(all) => Child::TypeParam(&all[index]),
            Row::Comparisons(all) => Child::Leaf(Leaf::Comparison(all[index])),
            Row::Names(all) => Child::Leaf(Leaf::Name(&all[index])),
            // Not asked for, as it has no element.
            Row::TypeIgnores => Child::Leaf(Leaf::None),
        }
    }
}
