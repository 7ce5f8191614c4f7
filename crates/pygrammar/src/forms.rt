//! The forms of logical lines.
//!
//! Python language reference, 7 "Simple statements" and 8 "Compound statements".

use crate::headers::Header;
use pytree_node::{Expr, Stmt};

/// The form of a logical line.
#[derive(Drop)]
pub enum Form {
    /// Simple statements, with `;` between them: 7, and 8 (`stmt_list`).
    Simple {
        statements: Vec<Stmt>,
    },
    /// `@value`: 8.7 "Function definitions" (`decorator`).
    Decorator {
        value: Box<Expr>,
    },
    /// A header and its colon, with the simple statements after the colon, if there are any: 8
    /// (`suite`). Else its block is the lines that follow.
    Headed {
        header: Header,
        suite: Option<Vec<Stmt>>,
    },
}
