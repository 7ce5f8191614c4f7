//! The first difference of two trees.
//!
//! `specs/Differences` says what it is. [`same_modules`] says whether two modules are equal, and
//! [`first_difference`] where they differ, by one walk over what `pytree_fields` lends of a tree.
#![tactic(auto)]

mod difference;
mod leaves;
mod trails;
mod walk;

pub use difference::{first_difference, same_modules};
