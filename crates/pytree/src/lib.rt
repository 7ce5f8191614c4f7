//! The tree of a Python module, and what can be asked of a tree alone.
//!
//! The types are those of `pytree_node`, and come from here too. So do [`height`], which gives how high
//! a tree is, [`copy`], which makes an equal one, [`same`], which says whether two are equal, and
//! [`dump`], which gives the text that Python's `ast.dump` gives, and [`Pieces`], which gives it in
//! pieces; [`dump_placed`] and [`PlacedPieces`] give it with where the nodes stand, of which
//! [`marked`] says how many have a place: the walks of each are a crate of their own.
//!
//! What the tokens of a source are to the grammar, and what they say, comes from `pytoken`:
//! [`Refusal`], [`TokenError`], [`Meaning`]. Its `Keyword` is named there alone, since [`Keyword`]
//! here is the one of calls and classes, `name=value`.
//!
//! Whether a tree is well formed, and so has source text, is answered by [`well_formed`], [`well_formed_at`]
//! and [`well_formed_pattern_at`]: in terms of the levels of the grammars of expressions and of
//! patterns ([`Level`], [`PatternLevel`]) and of names ([`is_name`], [`is_identifier`],
//! [`is_keyword`]). One with an f-string that is higher than 500 is well formed as far as its parts
//! show, and may have no text.
//!
//! The words of contracts are in `specs/`: `Names` defines names. Those of the crates below come
//! from here too: `Trees` has the trees as values with no addresses, `TreeOf` the value of each
//! node, `Heights` the heights of a tree, `Shows` what it shows, `Layout` the text of that. So do
//! those of `pytoken`: `Tokens` has the tokens of a source, `Terminals` what each is to the
//! grammar, `Refusals` why a source has none, and `Laws` what holds of the values of tokens.
//! Which trees the grammar gives, which are low, and what fits each field, say those of
//! `pytree_fits`: `Given`, `Low`, `Slots`, `PatternSlots` and `Statements`.
#![tactic(auto)]

mod fits;
mod modules;

pub use fits::{well_formed, well_formed_at, well_formed_pattern_at};
pub use modules::{copy, same};
pub use pygrammar::{Level, PatternLevel};
pub use pytoken::{Meaning, Refusal, TokenError, is_identifier};
pub use pytree_dump::{Pieces, PlacedPieces, Shown, Style, dump, dump_expr, dump_placed};
pub use pytree_fits::{is_keyword, is_name};
pub use pytree_height::{Heights, height};
pub use pytree_marked::marked;
pub use pytree_node::{
    Alias, Arg, Arguments, BoolOperator, Case, Comparison, Comprehension, Constant, Context,
    Conversion, Expr, Extent, Handler, Identifier, Integer, Item, Keyword, Module, Operator,
    Pattern, Points, Profile, Stmt, TypeParam, UnaryOperator, Version,
};
