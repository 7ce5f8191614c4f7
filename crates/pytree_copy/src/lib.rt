//! Copies of trees: [`copy_stmts`] makes statements whose values (`pytree_node`'s `TreeOf`) are those of
//! others.
#![tactic(auto)]

mod expressions;
mod leaves;
mod parts;
mod patterns;
mod statements;

pub use statements::copy_stmts;
