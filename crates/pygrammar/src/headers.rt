//! The headers of compound statements, up to their colons.
//!
//! Python language reference, 8 "Compound statements".

use pytree_node::{Arguments, Expr, Identifier, Item, Keyword, Pattern, TypeParam};

/// The head of a loop: 8.2 "The `while` statement", 8.3 "The `for` statement".
#[derive(Drop)]
pub enum LoopHead {
    /// `while test`: 8.2.
    While {
        test: Box<Expr>,
    },
    /// `for target in iter`: 8.3; `async for target in iter`: 8.9.2 "The `async for` statement".
    For {
        is_async: bool,
        target: Box<Expr>,
        iter: Box<Expr>,
    },
}

/// The head of a definition: 8.7 "Function definitions", 8.8 "Class definitions".
#[derive(Drop)]
pub enum DefHead {
    /// `def name[T](args) -> returns`: 8.7; `async def`: 8.9.1 "Coroutine function definition".
    Function {
        is_async: bool,
        name: Identifier,
        type_params: Vec<TypeParam>,
        args: Box<Arguments>,
        returns: Option<Box<Expr>>,
    },
    /// `class name[T](bases, keywords)`: 8.8.
    Class {
        name: Identifier,
        type_params: Vec<TypeParam>,
        bases: Vec<Expr>,
        keywords: Vec<Keyword>,
    },
}

/// A header, up to its colon: of a compound statement, or of a clause of one.
#[derive(Drop)]
pub enum Header {
    /// `if test`: 8.1 "The `if` statement".
    If {
        test: Box<Expr>,
    },
    /// `elif test`: 8.1.
    Elif {
        test: Box<Expr>,
    },
    /// `else`: 8.1, 8.2 "The `while` statement", 8.3 "The `for` statement", 8.4 "The `try`
    /// statement".
    Else,
    /// `while`, `for`, `async for`: 8.2, 8.3.
    Loop {
        head: LoopHead,
    },
    /// `with items`: 8.5 "The `with` statement"; `async with`: 8.9.3 "The `async with` statement".
    With {
        is_async: bool,
        items: Vec<Item>,
    },
    /// `try`: 8.4.
    Try,
    /// `except`, `except class`, `except class as name`: 8.4.1 "`except` clause"; with a star
    /// `except* class`: 8.4.2 "`except*` clause".
    Except {
        star: bool,
        class: Option<Box<Expr>>,
        name: Option<Identifier>,
    },
    /// `finally`: 8.4.4 "`finally` clause".
    Finally,
    /// `def`, `async def`, `class`: 8.7, 8.8.
    Def {
        head: DefHead,
    },
    /// `match subject`: 8.6 "The `match` statement".
    Match {
        subject: Box<Expr>,
    },
    /// `case pattern`, `case pattern if guard`: 8.6.
    Case {
        pattern: Box<Pattern>,
        guard: Option<Box<Expr>>,
    },
}
