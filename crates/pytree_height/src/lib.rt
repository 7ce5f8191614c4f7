//! How high a tree is.
//!
//! [`height`] gives the heights of a module's expressions and of its statements. `specs/Heights`
//! defines heights.
#![tactic(auto)]

mod expressions;
mod highest;
mod modules;
mod patterns;
mod statements;

pub use modules::{Heights, height};
