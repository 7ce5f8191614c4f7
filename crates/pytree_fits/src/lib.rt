//! Whether a tree has in each field what may stand there, by the grammar, with no regard to
//! heights.
//!
//! `pytree_fits` defines that, slot by slot, and has the laws that tie the slots to the grammar. The
//! walks here ask the same in the same order, and build nothing: [`expr_fits`] of an expression at
//! a level, [`pattern_fits`] of a pattern at a level of its own grammar, [`statements_fit`] of the
//! statements of a module, in an extent of the language ([`Asked`]). They serve `pytree`, which
//! says by them whether a module is well formed. [`is_name`] and [`is_keyword`] say which texts are
//! names of such a tree.
#![tactic(auto)]

mod asking;
mod expressions;
mod headers;
mod imports;
mod leaves;
mod names;
mod parameters;
mod pattern_values;
mod patterns;
mod places;
mod simple;
mod statements;
mod strings;
mod targets;
mod texts;

pub use asking::Asked;
pub use expressions::expr_fits;
pub use names::{is_keyword, is_name};
pub use patterns::pattern_fits;
pub use statements::statements_fit;
