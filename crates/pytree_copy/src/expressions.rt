//! Copies of expressions.

ghost use Rattle.std.specs.Prelude.{◌≡◌, IfOk, map};
ghost use Rattle.pytree_node.specs.TreeOf.{arg_of, arg_option_of, arguments_of, boxed_of, call_of};
ghost use Rattle.pytree_node.specs.TreeOf.{compare_of, comprehension_of, dict_comp_of, dict_of};
ghost use Rattle.pytree_node.specs.TreeOf.{keyword_of, option_of, slice_of, tree_of};

use crate::leaves::{both, copy_comparisons, copy_constant, copy_optional_name};
use pytree_node::{
    Arg, Arguments, Call, Compare, Comprehension, Dict, DictComp, Expr, Keyword, Slice,
};
use std::alloc::{AllocError, Global};

/// A copy of an expression.
#[cycle(copying)]
#[tactic(auto, using(pytree_node::proofs::Callers::ExprShapes::expr_shapes))]
pub(crate) fn copy_expr(alloc: Global, e: &Expr) -> Result<Expr, AllocError>
    ensures { IfOk result (λ made. tree_of made ≡ tree_of e.now) }
{
    match e {
        Expr::BoolOp { op, values } => Ok(Expr::BoolOp {
            op: *op,
            values: copy_exprs(alloc, values)?,
        }),
        Expr::NamedExpr { target, value } => Ok(Expr::NamedExpr {
            target: copy_box(alloc, target)?,
            value: copy_box(alloc, value)?,
        }),
        Expr::BinOp { left, op, right } => Ok(Expr::BinOp {
            left: copy_box(alloc, left)?,
            op: *op,
            right: copy_box(alloc, right)?,
        }),
        Expr::UnaryOp { op, operand } => Ok(Expr::UnaryOp {
            op: *op,
            operand: copy_box(alloc, operand)?,
        }),
        Expr::Lambda { args, body } => Ok(Expr::Lambda {
            args: copy_boxed_arguments(alloc, args)?,
            body: copy_box(alloc, body)?,
        }),
        Expr::IfExp { test, body, orelse } => Ok(Expr::IfExp {
            test: copy_box(alloc, test)?,
            body: copy_box(alloc, body)?,
            orelse: copy_box(alloc, orelse)?,
        }),
        Expr::Dict(dict) => Ok(Expr::Dict(copy_dict(alloc, dict)?)),
        Expr::Set { elts } => Ok(Expr::Set {
            elts: copy_exprs(alloc, elts)?,
        }),
        Expr::ListComp { elt, generators } => Ok(Expr::ListComp {
            elt: copy_box(alloc, elt)?,
            generators: copy_comprehensions(alloc, generators)?,
        }),
        Expr::SetComp { elt, generators } => Ok(Expr::SetComp {
            elt: copy_box(alloc, elt)?,
            generators: copy_comprehensions(alloc, generators)?,
        }),
        Expr::DictComp(comp) => Ok(Expr::DictComp(copy_dict_comp(alloc, comp)?)),
        Expr::GeneratorExp { elt, generators } => Ok(Expr::GeneratorExp {
            elt: copy_box(alloc, elt)?,
            generators: copy_comprehensions(alloc, generators)?,
        }),
        Expr::Await { value } => Ok(Expr::Await {
            value: copy_box(alloc, value)?,
        }),
        Expr::Yield { value } => Ok(Expr::Yield {
            value: copy_optional_box(alloc, value)?,
        }),
        Expr::YieldFrom { value } => Ok(Expr::YieldFrom {
            value: copy_box(alloc, value)?,
        }),
        Expr::Compare(compare) => Ok(Expr::Compare(copy_compare(alloc, compare)?)),
        Expr::Call(call) => Ok(Expr::Call(copy_call(alloc, call)?)),
        Expr::FormattedValue {
            value,
            conversion,
            format_spec,
        } => Ok(Expr::FormattedValue {
            value: copy_box(alloc, value)?,
            conversion: *conversion,
            format_spec: copy_optional_box(alloc, format_spec)?,
        }),
        Expr::JoinedStr { values } => Ok(Expr::JoinedStr {
            values: copy_exprs(alloc, values)?,
        }),
        Expr::Constant { value } => Ok(Expr::Constant {
            value: copy_constant(alloc, value)?,
        }),
        Expr::Attribute { value, attr, ctx } => Ok(Expr::Attribute {
            value: copy_box(alloc, value)?,
            attr: attr.clone()?,
            ctx: *ctx,
        }),
        Expr::Subscript { value, slice, ctx } => Ok(Expr::Subscript {
            value: copy_box(alloc, value)?,
            slice: copy_box(alloc, slice)?,
            ctx: *ctx,
        }),
        Expr::Starred { value, ctx } => Ok(Expr::Starred {
            value: copy_box(alloc, value)?,
            ctx: *ctx,
        }),
        Expr::Name { id, ctx } => Ok(Expr::Name {
            id: id.clone()?,
            ctx: *ctx,
        }),
        Expr::List { elts, ctx } => Ok(Expr::List {
            elts: copy_exprs(alloc, elts)?,
            ctx: *ctx,
        }),
        Expr::Tuple { elts, ctx } => Ok(Expr::Tuple {
            elts: copy_exprs(alloc, elts)?,
            ctx: *ctx,
        }),
        Expr::Slice(slice) => Ok(Expr::Slice(copy_slice(alloc, slice)?)),
    }
}

/// A copy of a dictionary.
#[cycle(copying)]
#[tactic(auto, using(pytree_node::proofs::Callers::ExprShapes::expr_shapes))]
fn copy_dict(alloc: Global, dict: &Dict) -> Result<Box<Dict>, AllocError>
    ensures { IfOk result (λ made. dict_of made.value ≡ dict_of dict.now) }
{
    let copy = Dict {
        keys: copy_optional_exprs(alloc, &dict.keys)?,
        values: copy_exprs(alloc, &dict.values)?,
    };
    Ok(Box::new(alloc, copy)?)
}

/// A copy of a dictionary's comprehension.
#[cycle(copying)]
#[tactic(auto, using(pytree_node::proofs::Callers::ExprShapes::expr_shapes))]
fn copy_dict_comp(alloc: Global, comp: &DictComp) -> Result<Box<DictComp>, AllocError>
    ensures { IfOk result (λ made. dict_comp_of made.value ≡ dict_comp_of comp.now) }
{
    let generators = copy_comprehensions(alloc, &comp.generators)?;
    let (key, value) = both(copy_expr(alloc, &comp.key)?, copy_expr(alloc, &comp.value))?;
    let copy = DictComp {
        key,
        value,
        generators,
    };
    Ok(Box::new(alloc, copy)?)
}

/// A copy of a comparison.
#[cycle(copying)]
#[tactic(auto, using(pytree_node::proofs::Callers::ExprShapes::expr_shapes))]
fn copy_compare(alloc: Global, compare: &Compare) -> Result<Box<Compare>, AllocError>
    ensures { IfOk result (λ made. compare_of made.value ≡ compare_of compare.now) }
{
    let copy = Compare {
        ops: copy_comparisons(alloc, &compare.ops)?,
        comparators: copy_exprs(alloc, &compare.comparators)?,
        left: copy_expr(alloc, &compare.left)?,
    };
    Ok(Box::new(alloc, copy)?)
}

/// A copy of a call.
#[cycle(copying)]
#[tactic(auto, using(pytree_node::proofs::Callers::ExprShapes::expr_shapes))]
fn copy_call(alloc: Global, call: &Call) -> Result<Box<Call>, AllocError>
    ensures { IfOk result (λ made. call_of made.value ≡ call_of call.now) }
{
    let copy = Call {
        args: copy_exprs(alloc, &call.args)?,
        keywords: copy_keywords(alloc, &call.keywords)?,
        func: copy_expr(alloc, &call.func)?,
    };
    Ok(Box::new(alloc, copy)?)
}

/// A copy of a slice.
#[cycle(copying)]
#[tactic(auto, using(pytree_node::proofs::Callers::ExprShapes::expr_shapes))]
fn copy_slice(alloc: Global, slice: &Slice) -> Result<Box<Slice>, AllocError>
    ensures { IfOk result (λ made. slice_of made.value ≡ slice_of slice.now) }
{
    let copy = Slice {
        lower: copy_optional_box(alloc, &slice.lower)?,
        upper: copy_optional_box(alloc, &slice.upper)?,
        step: copy_optional_box(alloc, &slice.step)?,
    };
    Ok(Box::new(alloc, copy)?)
}

/// A copy of an expression, in a box.
#[cycle(copying)]
pub(crate) fn copy_box(alloc: Global, e: &Expr) -> Result<Box<Expr>, AllocError>
    ensures { IfOk result (λ made. tree_of made.value ≡ tree_of e.now) }
{
    Ok(Box::new(alloc, copy_expr(alloc, e)?)?)
}

/// A copy of an expression that may be absent, in a box.
#[cycle(copying)]
pub(crate) fn copy_optional_box(
    alloc: Global,
    e: &Option<Box<Expr>>,
) -> Result<Option<Box<Expr>>, AllocError>
    ensures { IfOk result (λ made. boxed_of made ≡ boxed_of e.now) }
{
    match e {
        None => Ok(None),
        Some(e) => Ok(Some(copy_box(alloc, e)?)),
    }
}

/// A copy of some expressions.
#[cycle(copying)]
pub(crate) fn copy_exprs(alloc: Global, es: &[Expr]) -> Result<Vec<Expr>, AllocError>
    ensures { IfOk result (λ made. map tree_of made.items ≡ map tree_of es.now) }
{
    let mut made = Vec::new(alloc);
    for e in es {
        made.push(copy_expr(alloc, e)?)?;
    }
    Ok(made)
}

/// A copy of some expressions, of which each may be absent.
#[cycle(copying)]
fn copy_optional_exprs(alloc: Global, es: &[Option<Expr>]) -> Result<Vec<Option<Expr>>, AllocError>
    ensures { IfOk result (λ made. map option_of made.items ≡ map option_of es.now) }
{
    let mut made = Vec::new(alloc);
    for e in es {
        let here = match e {
            None => None,
            Some(e) => Some(copy_expr(alloc, e)?),
        };
        made.push(here)?;
    }
    Ok(made)
}

/// A copy of a `for` clause.
#[cycle(copying)]
#[tactic(auto, using(pytree_node::proofs::Callers::ExprShapes::comprehension_tree))]
fn copy_comprehension(alloc: Global, c: &Comprehension) -> Result<Comprehension, AllocError>
    ensures { IfOk result (λ made. comprehension_of made ≡ comprehension_of c.now) }
{
    let ifs = copy_exprs(alloc, &c.ifs)?;
    let (target, iter) = both(copy_expr(alloc, &c.target)?, copy_expr(alloc, &c.iter))?;
    Ok(Comprehension {
        target,
        iter,
        ifs,
        is_async: c.is_async,
    })
}

/// A copy of some `for` clauses.
#[cycle(copying)]
fn copy_comprehensions(
    alloc: Global,
    cs: &[Comprehension],
) -> Result<Vec<Comprehension>, AllocError>
    ensures { IfOk result (λ made. map comprehension_of made.items ≡ map comprehension_of cs.now) }
{
    let mut made = Vec::new(alloc);
    for c in cs {
        made.push(copy_comprehension(alloc, c)?)?;
    }
    Ok(made)
}

/// A copy of a keyword argument.
#[cycle(copying)]
#[tactic(auto, using(pytree_node::proofs::Callers::ExprShapes::keyword_tree))]
fn copy_keyword(alloc: Global, k: &Keyword) -> Result<Keyword, AllocError>
    ensures { IfOk result (λ made. keyword_of made ≡ keyword_of k.now) }
{
    Ok(Keyword {
        arg: copy_optional_name(&k.arg)?,
        value: copy_expr(alloc, &k.value)?,
    })
}

/// A copy of some keyword arguments.
#[cycle(copying)]
pub(crate) fn copy_keywords(alloc: Global, ks: &[Keyword]) -> Result<Vec<Keyword>, AllocError>
    ensures { IfOk result (λ made. map keyword_of made.items ≡ map keyword_of ks.now) }
{
    let mut made = Vec::new(alloc);
    for k in ks {
        made.push(copy_keyword(alloc, k)?)?;
    }
    Ok(made)
}

/// A copy of a parameter.
#[cycle(copying)]
#[tactic(auto, using(pytree_node::proofs::Callers::ExprShapes::arg_tree))]
fn copy_arg(alloc: Global, a: &Arg) -> Result<Arg, AllocError>
    ensures { IfOk result (λ made. arg_of made ≡ arg_of a.now) }
{
    Ok(Arg {
        arg: a.arg.clone()?,
        annotation: copy_optional_box(alloc, &a.annotation)?,
    })
}

/// A copy of some parameters.
#[cycle(copying)]
fn copy_args(alloc: Global, all: &[Arg]) -> Result<Vec<Arg>, AllocError>
    ensures { IfOk result (λ made. map arg_of made.items ≡ map arg_of all.now) }
{
    let mut made = Vec::new(alloc);
    for a in all {
        made.push(copy_arg(alloc, a)?)?;
    }
    Ok(made)
}

/// A copy of a parameter that may be absent.
#[cycle(copying)]
fn copy_optional_arg(alloc: Global, a: &Option<Arg>) -> Result<Option<Arg>, AllocError>
    ensures { IfOk result (λ made. arg_option_of made ≡ arg_option_of a.now) }
{
    match a {
        None => Ok(None),
        Some(a) => Ok(Some(copy_arg(alloc, a)?)),
    }
}

/// A copy of the parameters of a function.
#[cycle(copying)]
fn copy_arguments(alloc: Global, a: &Arguments) -> Result<Arguments, AllocError>
    ensures { IfOk result (λ made. arguments_of made ≡ arguments_of a.now) }
{
    Ok(Arguments {
        posonlyargs: copy_args(alloc, &a.posonlyargs)?,
        args: copy_args(alloc, &a.args)?,
        kwonlyargs: copy_args(alloc, &a.kwonlyargs)?,
        kw_defaults: copy_optional_exprs(alloc, &a.kw_defaults)?,
        defaults: copy_exprs(alloc, &a.defaults)?,
        vararg: copy_optional_arg(alloc, &a.vararg)?,
        kwarg: copy_optional_arg(alloc, &a.kwarg)?,
    })
}

/// A copy of the parameters of a function, in a box.
#[cycle(copying)]
pub(crate) fn copy_boxed_arguments(
    alloc: Global,
    a: &Arguments,
) -> Result<Box<Arguments>, AllocError>
    ensures { IfOk result (λ made. arguments_of made.value ≡ arguments_of a.now) }
{
    Ok(Box::new(alloc, copy_arguments(alloc, a)?)?)
}
