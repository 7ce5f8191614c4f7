//! The expressions of a tree, and the parts that they hold.
//!
//! Python library reference, `ast`: "Abstract grammar", `expr`.

use crate::constants::Constant;
use crate::identifiers::Identifier;
use crate::operators::{BoolOperator, Comparison, Context, Operator, UnaryOperator};
use pyfstring::Conversion;

/// An expression: the class `expr`. It takes 40 bytes: the classes
/// that would need more are boxed.
#[cycle(expressions)]
pub enum Expr {
    /// `a and b and c`.
    BoolOp {
        op: BoolOperator,
        values: Vec<Expr>,
    },
    /// `a := b`.
    NamedExpr {
        target: Box<Expr>,
        value: Box<Expr>,
    },
    /// `a + b`.
    BinOp {
        left: Box<Expr>,
        op: Operator,
        right: Box<Expr>,
    },
    /// `-a`, `not a`.
    UnaryOp {
        op: UnaryOperator,
        operand: Box<Expr>,
    },
    /// `lambda a: b`.
    Lambda {
        args: Box<Arguments>,
        body: Box<Expr>,
    },
    /// `body if test else orelse`.
    IfExp {
        test: Box<Expr>,
        body: Box<Expr>,
        orelse: Box<Expr>,
    },
    /// `{a: b, **c}`.
    Dict(Box<Dict>),
    /// `{a, b}`.
    Set {
        elts: Vec<Expr>,
    },
    /// `[a for b in c]`.
    ListComp {
        elt: Box<Expr>,
        generators: Vec<Comprehension>,
    },
    /// `{a for b in c}`.
    SetComp {
        elt: Box<Expr>,
        generators: Vec<Comprehension>,
    },
    /// `{a: b for c in d}`.
    DictComp(Box<DictComp>),
    /// `(a for b in c)`.
    GeneratorExp {
        elt: Box<Expr>,
        generators: Vec<Comprehension>,
    },
    /// `await a`.
    Await {
        value: Box<Expr>,
    },
    /// `yield`, `yield a`.
    Yield {
        value: Option<Box<Expr>>,
    },
    /// `yield from a`.
    YieldFrom {
        value: Box<Expr>,
    },
    /// `a < b == c`.
    Compare(Box<Compare>),
    /// `f(a, *b, c=d, **e)`.
    Call(Box<Call>),
    /// A field of an f-string, `{value!r:format_spec}`. It stands in a `JoinedStr` alone, and its
    /// format spec is one.
    FormattedValue {
        value: Box<Expr>,
        conversion: Conversion,
        format_spec: Option<Box<Expr>>,
    },
    /// `f'a{b}'`: texts, which are constants, and fields.
    JoinedStr {
        values: Vec<Expr>,
    },
    /// `1`, `'a'`, `b'a'`, `None`, `...`.
    Constant {
        value: Constant,
    },
    /// `value.attr`.
    Attribute {
        value: Box<Expr>,
        attr: Identifier,
        ctx: Context,
    },
    /// `value[slice]`.
    Subscript {
        value: Box<Expr>,
        slice: Box<Expr>,
        ctx: Context,
    },
    /// `*value`.
    Starred {
        value: Box<Expr>,
        ctx: Context,
    },
    /// A name.
    Name {
        id: Identifier,
        ctx: Context,
    },
    /// `[a, b]`.
    List {
        elts: Vec<Expr>,
        ctx: Context,
    },
    /// `(a, b)`, `a, b`.
    Tuple {
        elts: Vec<Expr>,
        ctx: Context,
    },
    /// `lower:upper:step`, in a subscript.
    Slice(Box<Slice>),
}

impl Drop for Expr {
    /// Lets an expression go. By hand, so that it is proved here, and not once more in each crate
    /// that drops one.
    #[cycle(expression_drops)]
    fn drop(self) {
        match self {
            Expr::BoolOp {
                op: _op,
                values: _values,
            } => {}
            Expr::NamedExpr {
                target: _target,
                value: _value,
            } => {}
            Expr::BinOp {
                left: _left,
                op: _op,
                right: _right,
            } => {}
            Expr::UnaryOp {
                op: _op,
                operand: _operand,
            } => {}
            Expr::Lambda {
                args: _args,
                body: _body,
            } => {}
            Expr::IfExp {
                test: _test,
                body: _body,
                orelse: _orelse,
            } => {}
            Expr::Dict(_node) => {}
            Expr::Set { elts: _elts } => {}
            Expr::ListComp {
                elt: _elt,
                generators: _generators,
            } => {}
            Expr::SetComp {
                elt: _elt,
                generators: _generators,
            } => {}
            Expr::DictComp(_node) => {}
            Expr::GeneratorExp {
                elt: _elt,
                generators: _generators,
            } => {}
            Expr::Await { value: _value } => {}
            Expr::Yield { value: _value } => {}
            Expr::YieldFrom { value: _value } => {}
            Expr::Compare(_node) => {}
            Expr::Call(_node) => {}
            Expr::FormattedValue {
                value: _value,
                conversion: _conversion,
                format_spec: _format_spec,
            } => {}
            Expr::JoinedStr { values: _values } => {}
            Expr::Constant { value: _value } => {}
            Expr::Attribute {
                value: _value,
                attr: _attr,
                ctx: _ctx,
            } => {}
            Expr::Subscript {
                value: _value,
                slice: _slice,
                ctx: _ctx,
            } => {}
            Expr::Starred {
                value: _value,
                ctx: _ctx,
            } => {}
            Expr::Name { id: _id, ctx: _ctx } => {}
            Expr::List {
                elts: _elts,
                ctx: _ctx,
            } => {}
            Expr::Tuple {
                elts: _elts,
                ctx: _ctx,
            } => {}
            Expr::Slice(_node) => {}
        }
    }
}

/// The class `Dict`. A `**c` has no key, and the value `c`.
#[cycle(expressions)]
pub struct Dict {
    pub keys: Vec<Option<Expr>>,
    pub values: Vec<Expr>,
}

impl Drop for Dict {
    /// Lets it go.
    #[cycle(expression_drops)]
    fn drop(self) {
        let Dict {
            keys: _keys,
            values: _values,
        } = self;
    }
}

/// The class `DictComp`.
#[cycle(expressions)]
pub struct DictComp {
    pub key: Expr,
    pub value: Expr,
    pub generators: Vec<Comprehension>,
}

impl Drop for DictComp {
    /// Lets it go.
    #[cycle(expression_drops)]
    fn drop(self) {
        let DictComp {
            key: _key,
            value: _value,
            generators: _generators,
        } = self;
    }
}

/// The class `Compare`: as many operators as comparators.
#[cycle(expressions)]
pub struct Compare {
    pub left: Expr,
    pub ops: Vec<Comparison>,
    pub comparators: Vec<Expr>,
}

impl Drop for Compare {
    /// Lets it go.
    #[cycle(expression_drops)]
    fn drop(self) {
        let Compare {
            left: _left,
            ops: _ops,
            comparators: _comparators,
        } = self;
    }
}

/// The class `Call`.
#[cycle(expressions)]
pub struct Call {
    pub func: Expr,
    pub args: Vec<Expr>,
    pub keywords: Vec<Keyword>,
}

impl Drop for Call {
    /// Lets it go.
    #[cycle(expression_drops)]
    fn drop(self) {
        let Call {
            func: _func,
            args: _args,
            keywords: _keywords,
        } = self;
    }
}

/// The class `Slice`.
#[cycle(expressions)]
pub struct Slice {
    pub lower: Option<Box<Expr>>,
    pub upper: Option<Box<Expr>>,
    pub step: Option<Box<Expr>>,
}

impl Drop for Slice {
    /// Lets it go.
    #[cycle(expression_drops)]
    fn drop(self) {
        let Slice {
            lower: _lower,
            upper: _upper,
            step: _step,
        } = self;
    }
}

/// A `for` with its `if`s: the class `comprehension`.
#[cycle(expressions)]
pub struct Comprehension {
    pub target: Expr,
    pub iter: Expr,
    pub ifs: Vec<Expr>,
    pub is_async: bool,
}

impl Drop for Comprehension {
    /// Lets it go.
    #[cycle(expression_drops)]
    fn drop(self) {
        let Comprehension {
            target: _target,
            iter: _iter,
            ifs: _ifs,
            is_async: _is_async,
        } = self;
    }
}

/// A keyword argument, or one of `**`, which has no name: the class `keyword`.
#[cycle(expressions)]
pub struct Keyword {
    pub arg: Option<Identifier>,
    pub value: Expr,
}

impl Drop for Keyword {
    /// Lets it go.
    #[cycle(expression_drops)]
    fn drop(self) {
        let Keyword {
            arg: _arg,
            value: _value,
        } = self;
    }
}

/// A parameter: the class `arg`.
#[cycle(expressions)]
pub struct Arg {
    pub arg: Identifier,
    pub annotation: Option<Box<Expr>>,
}

impl Drop for Arg {
    /// Lets it go.
    #[cycle(expression_drops)]
    fn drop(self) {
        let Arg {
            arg: _arg,
            annotation: _annotation,
        } = self;
    }
}

/// The parameters of a function: the class `arguments`.
///
/// `kw_defaults` has an element for each of `kwonlyargs`, none for one without a default;
/// `defaults` are those of the last of `posonlyargs` and `args`.
#[cycle(expressions)]
pub struct Arguments {
    pub posonlyargs: Vec<Arg>,
    pub args: Vec<Arg>,
    pub vararg: Option<Arg>,
    pub kwonlyargs: Vec<Arg>,
    pub kw_defaults: Vec<Option<Expr>>,
    pub kwarg: Option<Arg>,
    pub defaults: Vec<Expr>,
}

impl Drop for Arguments {
    /// Lets it go.
    #[cycle(expression_drops)]
    fn drop(self) {
        let Arguments {
            posonlyargs: _posonlyargs,
            args: _args,
            vararg: _vararg,
            kwonlyargs: _kwonlyargs,
            kw_defaults: _kw_defaults,
            kwarg: _kwarg,
            defaults: _defaults,
        } = self;
    }
}
