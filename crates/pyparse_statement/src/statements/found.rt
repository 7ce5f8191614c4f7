//! What was read.

ghost use Rattle.std.specs.Prelude.{◌≡◌, map};
ghost use Rattle.pytree_node.specs.TreeOf.{stmt_of, type_param_of};
ghost use Rattle.pytree_node.specs.Trees.{stmts};
ghost use Rattle.pytree_height.specs.Heights as Heights;

use pytree_node::{Alias, Identifier, Stmt, TypeParam};

/// A name, and the place after it.
#[derive(Drop)]
pub(crate) struct ReadName {
    pub name: Identifier,
    pub next: usize,
}

/// The name after an `as`, if there is one, and the place after it.
#[derive(Drop)]
pub struct ReadAs {
    pub name: Option<Identifier>,
    pub next: usize,
}

/// Names, and the place after them.
#[derive(Drop)]
pub(crate) struct ReadNames {
    pub names: Vec<Identifier>,
    pub next: usize,
}

/// A name of an import, and the place after it.
#[derive(Drop)]
pub(crate) struct ReadAlias {
    pub alias: Alias,
    pub next: usize,
}

/// The names of an import, and the place after them.
#[derive(Drop)]
pub(crate) struct ReadAliases {
    pub aliases: Vec<Alias>,
    pub next: usize,
}

/// How many dots stood, and the place after them.
#[derive(Clone, Copy)]
pub(crate) struct ReadDots {
    pub count: u64,
    pub next: usize,
}

/// A type parameter, the height of its bound, and the place after it.
#[derive(Drop)]
pub(crate) struct ReadTypeParam {
    pub param: TypeParam,
    pub height: usize,
    pub next: usize,
    pub ghost is_height: { height ≡ Heights.type_param_height (type_param_of param) },
}

/// Type parameters, the height of the highest bound, and the place after them.
#[derive(Drop)]
pub struct ReadTypeParams {
    pub params: Vec<TypeParam>,
    pub height: usize,
    pub next: usize,
    pub ghost is_height: { height
        ≡ Heights.type_param_heights (map type_param_of params.items) },
}

/// A statement, the height of the highest expression in it, and the place after it.
#[derive(Drop)]
pub(crate) struct ReadStatement {
    pub statement: Stmt,
    pub height: usize,
    pub next: usize,
    pub ghost is_height: { height ≡ Heights.highest_in (stmt_of statement) },
}

/// Statements, the height of the highest expression in them, and the place after them.
#[derive(Drop)]
pub struct ReadStatements {
    pub statements: Vec<Stmt>,
    pub height: usize,
    pub next: usize,
    pub ghost is_height: { height
        ≡ Heights.highest_in_all (stmts (map stmt_of statements.items)) },
}
