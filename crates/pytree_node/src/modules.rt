//! The root of a tree.

use crate::statements::Stmt;

/// A module: the class `Module`.
#[derive(Drop)]
pub struct Module {
    pub body: Vec<Stmt>,
}
