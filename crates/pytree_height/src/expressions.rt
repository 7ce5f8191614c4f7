//! The heights of expressions.

ghost use Rattle.std.specs.Prelude.{◌≡◌, map};
ghost use Rattle.pytree_height.specs.Heights.{capped, arg_height, arg_heights, arguments_height};
ghost use Rattle.pytree_height.specs.Heights.{comprehension_heights, height, heights, keyword_heights};
ghost use Rattle.pytree_height.specs.Heights.{optional_arg_height, optional_height, optional_heights};
ghost use Rattle.pytree_node.specs.TreeOf.{arg_of, arg_option_of, arguments_of, boxed_of};
ghost use Rattle.pytree_node.specs.TreeOf.{call_of, comprehension_of, dict_comp_of, keyword_of};
ghost use Rattle.pytree_node.specs.TreeOf.{option_of, slice_of, tree_of};
ghost use Rattle.pytree_node.specs.Trees.{args, comprehensions, exprs, keywords, optional, optional_arg};
ghost use Rattle.pytree_node.specs.Trees.{optionals};

use crate::modules::one_more;
use pytree_node::{Arg, Arguments, Call, Comprehension, DictComp, Expr, Keyword, Slice};

/// The height of an expression.
#[cycle(expression_height)]
#[tactic(auto, using(pytree_node::proofs::Callers::ExprShapes::expr_shapes, crate::proofs::CapLemmas::caps))]
pub(crate) fn expr_height(e: &Expr) -> u64
    ensures { result ≡ capped (height (tree_of e.now)) }
{
    match e {
        Expr::BoolOp { values, .. } => one_more(exprs_height(values)),
        Expr::NamedExpr { target, value } => one_more(expr_height(target).max(expr_height(value))),
        Expr::BinOp { left, right, .. } => one_more(expr_height(left).max(expr_height(right))),
        Expr::UnaryOp { operand, .. } => one_more(expr_height(operand)),
        Expr::Lambda { args, body } => one_more(parameters_height(args).max(expr_height(body))),
        Expr::IfExp { test, body, orelse } => {
            one_more(expr_height(test).max(expr_height(body).max(expr_height(orelse))))
        }
        Expr::Dict(dict) => { one_more(options_height(&dict.keys).max(exprs_height(&dict.values))) }
        Expr::Set { elts } => one_more(exprs_height(elts)),
        Expr::ListComp { elt, generators } => {
            one_more(expr_height(elt).max(generators_height(generators)))
        }
        Expr::SetComp { elt, generators } => {
            one_more(expr_height(elt).max(generators_height(generators)))
        }
        Expr::DictComp(comp) => dict_comp_height(comp),
        Expr::GeneratorExp { elt, generators } => {
            one_more(expr_height(elt).max(generators_height(generators)))
        }
        Expr::Await { value } => one_more(expr_height(value)),
        Expr::Yield { value } => one_more(boxed_height(value)),
        Expr::YieldFrom { value } => one_more(expr_height(value)),
        Expr::Compare(compare) => {
            one_more(expr_height(&compare.left).max(exprs_height(&compare.comparators)))
        }
        Expr::Call(call) => call_height(call),
        Expr::FormattedValue {
            value,
            format_spec,
            ..
        } => one_more(expr_height(value).max(boxed_height(format_spec))),
        Expr::JoinedStr { values } => one_more(exprs_height(values)),
        Expr::Constant { .. } => 1,
        Expr::Attribute { value, .. } => one_more(expr_height(value)),
        Expr::Subscript { value, slice, .. } => {
            one_more(expr_height(value).max(expr_height(slice)))
        }
        Expr::Starred { value, .. } => one_more(expr_height(value)),
        Expr::Name { .. } => 1,
        Expr::List { elts, .. } => one_more(exprs_height(elts)),
        Expr::Tuple { elts, .. } => one_more(exprs_height(elts)),
        Expr::Slice(slice) => slice_height(slice),
    }
}

/// The height of a dictionary's comprehension.
#[cycle(expression_height)]
#[tactic(auto, using(pytree_node::proofs::Callers::ExprShapes::expr_shapes, crate::proofs::CapLemmas::caps))]
fn dict_comp_height(comp: &DictComp) -> u64
    ensures { result ≡ capped (height (dict_comp_of comp.now)) }
{
    let inner = expr_height(&comp.value).max(generators_height(&comp.generators));
    one_more(expr_height(&comp.key).max(inner))
}

/// The height of a call.
#[cycle(expression_height)]
#[tactic(auto, using(pytree_node::proofs::Callers::ExprShapes::expr_shapes, crate::proofs::CapLemmas::caps))]
fn call_height(call: &Call) -> u64
    ensures { result ≡ capped (height (call_of call.now)) }
{
    let inner = exprs_height(&call.args).max(keywords_height(&call.keywords));
    one_more(expr_height(&call.func).max(inner))
}

/// The height of a slice.
#[cycle(expression_height)]
#[tactic(auto, using(pytree_node::proofs::Callers::ExprShapes::expr_shapes, crate::proofs::CapLemmas::caps))]
fn slice_height(slice: &Slice) -> u64
    ensures { result ≡ capped (height (slice_of slice.now)) }
{
    let inner = boxed_height(&slice.upper).max(boxed_height(&slice.step));
    one_more(boxed_height(&slice.lower).max(inner))
}

/// The height of an expression that may be absent.
#[cycle(expression_height)]
#[tactic(auto, using(pytree_node::proofs::Callers::ExprShapes::expr_shapes, crate::proofs::CapLemmas::caps))]
pub(crate) fn boxed_height(e: &Option<Box<Expr>>) -> u64
    ensures { result ≡ capped (optional_height (optional (boxed_of e.now))) }
{
    match e {
        None => 0,
        Some(e) => expr_height(e),
    }
}

/// The height of the highest of some expressions, or 0.
#[cycle(expression_height)]
#[tactic(auto, using(pytree_node::proofs::Callers::ExprShapes::expr_shapes, crate::proofs::CapLemmas::caps))]
pub(crate) fn exprs_height(es: &[Expr]) -> u64
    ensures { result ≡ capped (heights (exprs (map tree_of es.now))) }
{
    let mut most: u64 = 0;
    for e in es {
        most = most.max(expr_height(e));
    }
    most
}

/// The height of the highest of some expressions that may be missing.
#[cycle(expression_height)]
#[tactic(auto, using(pytree_node::proofs::Callers::ExprShapes::expr_shapes, crate::proofs::CapLemmas::caps))]
fn options_height(es: &[Option<Expr>]) -> u64
    ensures { result ≡ capped (optional_heights (optionals (map option_of es.now))) }
{
    let mut most: u64 = 0;
    for e in es {
        let here = match e {
            None => 0,
            Some(e) => expr_height(e),
        };
        most = most.max(here);
    }
    most
}

/// The height of the highest expression in some `for`s.
#[cycle(expression_height)]
#[tactic(auto, using(pytree_node::proofs::Callers::ExprShapes::expr_shapes, crate::proofs::CapLemmas::caps))]
fn generators_height(cs: &[Comprehension]) -> u64
    ensures { result
        ≡ capped (comprehension_heights (comprehensions (map comprehension_of cs.now))) }
{
    let mut most: u64 = 0;
    for c in cs {
        most = most.max(expr_height(&c.target).max(expr_height(&c.iter).max(exprs_height(&c.ifs))));
    }
    most
}

/// The height of the highest of some keyword arguments.
#[cycle(expression_height)]
#[tactic(auto, using(pytree_node::proofs::Callers::ExprShapes::expr_shapes, crate::proofs::CapLemmas::caps))]
pub(crate) fn keywords_height(ks: &[Keyword]) -> u64
    ensures { result ≡ capped (keyword_heights (keywords (map keyword_of ks.now))) }
{
    let mut most: u64 = 0;
    for k in ks {
        most = most.max(expr_height(&k.value));
    }
    most
}

/// The height of a parameter's annotation.
#[cycle(expression_height)]
#[tactic(auto, using(pytree_node::proofs::Callers::ExprShapes::expr_shapes, crate::proofs::CapLemmas::caps))]
fn parameter_height(a: &Arg) -> u64
    ensures { result ≡ capped (arg_height (arg_of a.now)) }
{
    boxed_height(&a.annotation)
}

/// The height of the highest annotation of some parameters.
#[cycle(expression_height)]
#[tactic(auto, using(pytree_node::proofs::Callers::ExprShapes::expr_shapes, crate::proofs::CapLemmas::caps))]
fn each_parameter_height(all: &[Arg]) -> u64
    ensures { result ≡ capped (arg_heights (args (map arg_of all.now))) }
{
    let mut most: u64 = 0;
    for a in all {
        most = most.max(parameter_height(a));
    }
    most
}

/// The height of the annotation of a parameter that may be missing.
#[cycle(expression_height)]
#[tactic(auto, using(pytree_node::proofs::Callers::ExprShapes::expr_shapes, crate::proofs::CapLemmas::caps))]
fn optional_parameter_height(a: &Option<Arg>) -> u64
    ensures { result ≡ capped (optional_arg_height (optional_arg (arg_option_of a.now))) }
{
    match a {
        None => 0,
        Some(a) => parameter_height(a),
    }
}

/// The height of the highest expression of some parameters, or 0.
#[cycle(expression_height)]
#[tactic(auto, using(pytree_node::proofs::Callers::ExprShapes::expr_shapes, crate::proofs::CapLemmas::caps))]
pub(crate) fn parameters_height(a: &Arguments) -> u64
    ensures { result ≡ capped (arguments_height (arguments_of a.now)) }
{
    let ends = optional_parameter_height(&a.kwarg).max(exprs_height(&a.defaults));
    let named = each_parameter_height(&a.kwonlyargs).max(options_height(&a.kw_defaults).max(ends));
    let listed = each_parameter_height(&a.args).max(optional_parameter_height(&a.vararg).max(
        named,
    ));
    each_parameter_height(&a.posonlyargs).max(listed)
}
