//! The statements of a tree, and the parts that they hold.
//!
//! Python library reference, `ast`: "Abstract grammar", `stmt`.

use crate::expressions::{Arguments, Expr, Keyword};
use crate::identifiers::Identifier;
use crate::operators::Operator;
use crate::patterns::Pattern;

/// A statement: the class `stmt`. It takes 72 bytes.
///
/// An expression is a field of its statement; it is boxed, or the whole class is, where the
/// statement would be larger.
#[cycle(statements)]
pub enum Stmt {
    /// `def`.
    FunctionDef(Box<FunctionDef>),
    /// `async def`.
    AsyncFunctionDef(Box<FunctionDef>),
    /// `class`.
    ClassDef(Box<ClassDef>),
    /// `return`, `return a`.
    Return {
        value: Option<Expr>,
    },
    /// `del a, b`.
    Delete {
        targets: Vec<Expr>,
    },
    /// `a = b = c`: the targets are `a` and `b`.
    Assign {
        targets: Vec<Expr>,
        value: Expr,
    },
    /// `type a = b`, of Python 3.12.
    TypeAlias {
        name: Box<Expr>,
        type_params: Vec<TypeParam>,
        value: Box<Expr>,
    },
    /// `a += b`.
    AugAssign {
        target: Box<Expr>,
        op: Operator,
        value: Expr,
    },
    /// `a: b`, `a: b = c`. It is simple where the target is a name without brackets.
    AnnAssign {
        target: Box<Expr>,
        annotation: Box<Expr>,
        value: Option<Box<Expr>>,
        simple: bool,
    },
    /// `for`.
    For {
        target: Box<Expr>,
        iter: Box<Expr>,
        body: Vec<Stmt>,
        orelse: Vec<Stmt>,
    },
    /// `async for`.
    AsyncFor {
        target: Box<Expr>,
        iter: Box<Expr>,
        body: Vec<Stmt>,
        orelse: Vec<Stmt>,
    },
    /// `while`.
    While {
        test: Box<Expr>,
        body: Vec<Stmt>,
        orelse: Vec<Stmt>,
    },
    /// `if`. An `elif` is an `if` alone in `orelse`.
    If {
        test: Box<Expr>,
        body: Vec<Stmt>,
        orelse: Vec<Stmt>,
    },
    /// `with`.
    With {
        items: Vec<Item>,
        body: Vec<Stmt>,
    },
    /// `async with`.
    AsyncWith {
        items: Vec<Item>,
        body: Vec<Stmt>,
    },
    /// `match`, of the whole language.
    Match {
        subject: Expr,
        cases: Vec<Case>,
    },
    /// `raise`, `raise a`, `raise a from b`.
    Raise {
        exc: Option<Box<Expr>>,
        cause: Option<Box<Expr>>,
    },
    /// `try` with `except`s, or with `finally` alone.
    Try(Box<Try>),
    /// `try` with `except*`s.
    TryStar(Box<Try>),
    /// `assert a`, `assert a, b`.
    Assert {
        test: Expr,
        msg: Option<Box<Expr>>,
    },
    /// `import a.b as c, d`.
    Import {
        names: Vec<Alias>,
    },
    /// `from ..a import b as c, d`: its level is the number of leading dots, and it has no
    /// module where nothing follows them.
    ImportFrom {
        module: Option<Identifier>,
        names: Vec<Alias>,
        level: u64,
    },
    /// `global a, b`.
    Global {
        names: Vec<Identifier>,
    },
    /// `nonlocal a, b`.
    Nonlocal {
        names: Vec<Identifier>,
    },
    /// An expression as a statement.
    Expr {
        value: Expr,
    },
    /// `pass`.
    Pass,
    /// `break`.
    Break,
    /// `continue`.
    Continue,
}

impl Drop for Stmt {
    /// Lets a statement go. By hand, so that it is proved here, and not once more in each crate
    /// that drops one.
    #[cycle(statement_drops)]
    fn drop(self) {
        match self {
            Stmt::FunctionDef(_node) => {}
            Stmt::AsyncFunctionDef(_node) => {}
            Stmt::ClassDef(_node) => {}
            Stmt::Return { value: _value } => {}
            Stmt::Delete { targets: _targets } => {}
            Stmt::Assign {
                targets: _targets,
                value: _value,
            } => {}
            Stmt::TypeAlias {
                name: _name,
                type_params: _type_params,
                value: _value,
            } => {}
            Stmt::AugAssign {
                target: _target,
                op: _op,
                value: _value,
            } => {}
            Stmt::AnnAssign {
                target: _target,
                annotation: _annotation,
                value: _value,
                simple: _simple,
            } => {}
            Stmt::For {
                target: _target,
                iter: _iter,
                body: _body,
                orelse: _orelse,
            } => {}
            Stmt::AsyncFor {
                target: _target,
                iter: _iter,
                body: _body,
                orelse: _orelse,
            } => {}
            Stmt::While {
                test: _test,
                body: _body,
                orelse: _orelse,
            } => {}
            Stmt::If {
                test: _test,
                body: _body,
                orelse: _orelse,
            } => {}
            Stmt::With {
                items: _items,
                body: _body,
            } => {}
            Stmt::AsyncWith {
                items: _items,
                body: _body,
            } => {}
            Stmt::Match {
                subject: _subject,
                cases: _cases,
            } => {}
            Stmt::Raise {
                exc: _exc,
                cause: _cause,
            } => {}
            Stmt::Try(_node) => {}
            Stmt::TryStar(_node) => {}
            Stmt::Assert {
                test: _test,
                msg: _msg,
            } => {}
            Stmt::Import { names: _names } => {}
            Stmt::ImportFrom {
                module: _module,
                names: _names,
                level: _level,
            } => {}
            Stmt::Global { names: _names } => {}
            Stmt::Nonlocal { names: _names } => {}
            Stmt::Expr { value: _value } => {}
            Stmt::Pass => {}
            Stmt::Break => {}
            Stmt::Continue => {}
        }
    }
}

/// The classes `FunctionDef` and `AsyncFunctionDef`.
#[cycle(statements)]
pub struct FunctionDef {
    pub name: Identifier,
    pub args: Box<Arguments>,
    pub body: Vec<Stmt>,
    pub decorator_list: Vec<Expr>,
    pub returns: Option<Box<Expr>>,
    pub type_params: Vec<TypeParam>,
}

impl Drop for FunctionDef {
    /// Lets it go.
    #[cycle(statement_drops)]
    fn drop(self) {
        let FunctionDef {
            name: _name,
            args: _args,
            body: _body,
            decorator_list: _decorator_list,
            returns: _returns,
            type_params: _type_params,
        } = self;
    }
}

/// The class `ClassDef`.
#[cycle(statements)]
pub struct ClassDef {
    pub name: Identifier,
    pub bases: Vec<Expr>,
    pub keywords: Vec<Keyword>,
    pub body: Vec<Stmt>,
    pub decorator_list: Vec<Expr>,
    pub type_params: Vec<TypeParam>,
}

impl Drop for ClassDef {
    /// Lets it go.
    #[cycle(statement_drops)]
    fn drop(self) {
        let ClassDef {
            name: _name,
            bases: _bases,
            keywords: _keywords,
            body: _body,
            decorator_list: _decorator_list,
            type_params: _type_params,
        } = self;
    }
}

/// The classes `Try` and `TryStar`.
#[cycle(statements)]
pub struct Try {
    pub body: Vec<Stmt>,
    pub handlers: Vec<Handler>,
    pub orelse: Vec<Stmt>,
    pub finalbody: Vec<Stmt>,
}

impl Drop for Try {
    /// Lets it go.
    #[cycle(statement_drops)]
    fn drop(self) {
        let Try {
            body: _body,
            handlers: _handlers,
            orelse: _orelse,
            finalbody: _finalbody,
        } = self;
    }
}

/// A `case` with its block: the class `match_case`.
#[cycle(statements)]
pub struct Case {
    pub pattern: Pattern,
    pub guard: Option<Expr>,
    pub body: Vec<Stmt>,
}

impl Drop for Case {
    /// Lets it go.
    #[cycle(statement_drops)]
    fn drop(self) {
        let Case {
            pattern: _pattern,
            guard: _guard,
            body: _body,
        } = self;
    }
}

/// An `except` with its block: the class `ExceptHandler`. `class` is its field `type`.
#[cycle(statements)]
pub struct Handler {
    pub class: Option<Expr>,
    pub name: Option<Identifier>,
    pub body: Vec<Stmt>,
}

impl Drop for Handler {
    /// Lets it go.
    #[cycle(statement_drops)]
    fn drop(self) {
        let Handler {
            class: _class,
            name: _name,
            body: _body,
        } = self;
    }
}

/// A name of an import: the class `alias`. The name may hold dots, and is `*` in
/// `from a import *`.
#[derive(Drop)]
pub struct Alias {
    pub name: Identifier,
    pub asname: Option<Identifier>,
}

/// An item of a `with`: the class `withitem`.
#[derive(Drop)]
pub struct Item {
    pub context_expr: Expr,
    pub optional_vars: Option<Expr>,
}

/// A type parameter, of Python 3.12: the class `type_param`.
#[derive(Drop)]
pub enum TypeParam {
    /// `T`, `T: int`.
    TypeVar {
        name: Identifier,
        bound: Option<Expr>,
    },
    /// `**P`.
    ParamSpec {
        name: Identifier,
    },
    /// `*Ts`.
    TypeVarTuple {
        name: Identifier,
    },
}
