//! Counts of expressions.

ghost use Rattle.std.specs.Prelude.{◌≡◌, ◌+◌, map};
ghost use Rattle.pytree_marked.specs.MarkedOptions.{marked_optional, marked_optional_arg};
ghost use Rattle.pytree_marked.specs.Counts.{capped};
ghost use Rattle.pytree_dump_text.specs.Shows.{shown, shown_arg, shown_args, shown_arguments};
ghost use Rattle.pytree_dump_text.specs.Shows.{shown_comprehensions, shown_exprs, shown_keywords};
ghost use Rattle.pytree_dump_text.specs.Shows.{shown_optionals};
ghost use Rattle.pytree_marked.specs.MarkedNodes.{marked, marked_rows};
ghost use Rattle.pytree_node.specs.TreeOf.{arg_of, arg_option_of, arguments_of, boxed_of};
ghost use Rattle.pytree_node.specs.TreeOf.{call_of, comprehension_of, dict_comp_of, keyword_of};
ghost use Rattle.pytree_node.specs.TreeOf.{option_of, slice_of, tree_of};
ghost use Rattle.pytree_node.specs.Trees.{args, comprehensions, exprs, keywords, optional, optional_arg};
ghost use Rattle.pytree_node.specs.Trees.{optionals};

use crate::counts::one_more;
use pytree_node::{Arg, Arguments, Call, Comprehension, DictComp, Expr, Keyword, Slice};

/// The nodes of an expression that have a place, counted on.
#[cycle(expression_counts)]
#[tactic(auto, using(pytree_node::proofs::Callers::ExprShapes::expr_shapes, crate::proofs::CountLemmas::counting))]
pub(crate) fn expr_marked(e: &Expr, before: u64) -> u64
    ensures { result ≡ capped (before + marked (shown (tree_of e.now))) }
{
    let count = one_more(before);
    match e {
        Expr::BoolOp { values, .. } => exprs_marked(values, count),
        Expr::NamedExpr { target, value } => expr_marked(value, expr_marked(target, count)),
        Expr::BinOp { left, right, .. } => expr_marked(right, expr_marked(left, count)),
        Expr::UnaryOp { operand, .. } => expr_marked(operand, count),
        Expr::Lambda { args, body } => expr_marked(body, parameters_marked(args, count)),
        Expr::IfExp { test, body, orelse } => {
            expr_marked(orelse, expr_marked(body, expr_marked(test, count)))
        }
        Expr::Dict(dict) => exprs_marked(&dict.values, options_marked(&dict.keys, count)),
        Expr::Set { elts } => exprs_marked(elts, count),
        Expr::ListComp { elt, generators } => generators_marked(
            generators,
            expr_marked(elt, count),
        ),
        Expr::SetComp { elt, generators } => generators_marked(generators, expr_marked(elt, count)),
        Expr::DictComp(comp) => dict_comp_marked(comp, before),
        Expr::GeneratorExp { elt, generators } => {
            generators_marked(generators, expr_marked(elt, count))
        }
        Expr::Await { value } => expr_marked(value, count),
        Expr::Yield { value } => boxed_marked(value, count),
        Expr::YieldFrom { value } => expr_marked(value, count),
        Expr::Compare(compare) => {
            exprs_marked(&compare.comparators, expr_marked(&compare.left, count))
        }
        Expr::Call(call) => call_marked(call, before),
        Expr::FormattedValue {
            value,
            format_spec,
            ..
        } => { boxed_marked(format_spec, expr_marked(value, count)) }
        Expr::JoinedStr { values } => exprs_marked(values, count),
        Expr::Constant { .. } => count,
        Expr::Attribute { value, .. } => expr_marked(value, count),
        Expr::Subscript { value, slice, .. } => expr_marked(slice, expr_marked(value, count)),
        Expr::Starred { value, .. } => expr_marked(value, count),
        Expr::Name { .. } => count,
        Expr::List { elts, .. } => exprs_marked(elts, count),
        Expr::Tuple { elts, .. } => exprs_marked(elts, count),
        Expr::Slice(slice) => slice_marked(slice, before),
    }
}

/// Those of a dictionary's comprehension.
#[cycle(expression_counts)]
#[tactic(auto, using(pytree_node::proofs::Callers::ExprShapes::expr_shapes, crate::proofs::CountLemmas::counting))]
fn dict_comp_marked(comp: &DictComp, before: u64) -> u64
    ensures { result ≡ capped (before + marked (shown (dict_comp_of comp.now))) }
{
    let count = expr_marked(&comp.value, expr_marked(&comp.key, one_more(before)));
    generators_marked(&comp.generators, count)
}

/// Those of a call.
#[cycle(expression_counts)]
#[tactic(auto, using(pytree_node::proofs::Callers::ExprShapes::expr_shapes, crate::proofs::CountLemmas::counting))]
fn call_marked(call: &Call, before: u64) -> u64
    ensures { result ≡ capped (before + marked (shown (call_of call.now))) }
{
    let count = exprs_marked(&call.args, expr_marked(&call.func, one_more(before)));
    keywords_marked(&call.keywords, count)
}

/// Those of a slice.
#[cycle(expression_counts)]
#[tactic(auto, using(pytree_node::proofs::Callers::ExprShapes::expr_shapes, crate::proofs::CountLemmas::counting))]
fn slice_marked(slice: &Slice, before: u64) -> u64
    ensures { result ≡ capped (before + marked (shown (slice_of slice.now))) }
{
    let count = boxed_marked(&slice.upper, boxed_marked(&slice.lower, one_more(before)));
    boxed_marked(&slice.step, count)
}

/// Those of an expression that may be absent.
#[cycle(expression_counts)]
#[tactic(auto, using(pytree_node::proofs::Callers::ExprShapes::expr_shapes, crate::proofs::CountLemmas::counting))]
pub(crate) fn boxed_marked(e: &Option<Box<Expr>>, before: u64) -> u64
    ensures { result ≡ capped (before + marked_optional (optional (boxed_of e.now))) }
{
    match e {
        None => before,
        Some(e) => expr_marked(e, before),
    }
}

/// Those of some expressions.
#[cycle(expression_counts)]
#[tactic(auto, using(pytree_node::proofs::Callers::ExprShapes::expr_shapes, crate::proofs::CountLemmas::counting))]
pub(crate) fn exprs_marked(es: &[Expr], before: u64) -> u64
    ensures { result ≡ capped (before + marked_rows (shown_exprs (exprs (map tree_of es.now)))) }
{
    let mut count = before;
    for e in es {
        count = expr_marked(e, count);
    }
    count
}

/// Those of some expressions, some of them absent.
#[cycle(expression_counts)]
#[tactic(auto, using(pytree_node::proofs::Callers::ExprShapes::expr_shapes, crate::proofs::CountLemmas::counting))]
fn options_marked(es: &[Option<Expr>], before: u64) -> u64
    ensures { result ≡ capped (before + marked_rows (shown_optionals (optionals (map option_of es.now)))) }
{
    let mut count = before;
    for e in es {
        count = match e {
            None => count,
            Some(e) => expr_marked(e, count),
        };
    }
    count
}

/// Those of the clauses of a comprehension.
#[cycle(expression_counts)]
#[tactic(auto, using(pytree_node::proofs::Callers::ExprShapes::expr_shapes, crate::proofs::CountLemmas::counting))]
fn generators_marked(cs: &[Comprehension], before: u64) -> u64
    ensures { result ≡ capped (before + marked_rows (shown_comprehensions (comprehensions (map comprehension_of cs.now)))) }
{
    let mut count = before;
    for c in cs {
        count = exprs_marked(&c.ifs, expr_marked(&c.iter, expr_marked(&c.target, count)));
    }
    count
}

/// Those of some arguments by name.
#[cycle(expression_counts)]
#[tactic(auto, using(pytree_node::proofs::Callers::ExprShapes::expr_shapes, crate::proofs::CountLemmas::counting))]
pub(crate) fn keywords_marked(ks: &[Keyword], before: u64) -> u64
    ensures { result ≡ capped (before + marked_rows (shown_keywords (keywords (map keyword_of ks.now)))) }
{
    let mut count = before;
    for k in ks {
        count = expr_marked(&k.value, one_more(count));
    }
    count
}

/// Those of a parameter.
#[cycle(expression_counts)]
#[tactic(auto, using(pytree_node::proofs::Callers::ExprShapes::expr_shapes, crate::proofs::CountLemmas::counting))]
fn parameter_marked(a: &Arg, before: u64) -> u64
    ensures { result ≡ capped (before + marked (shown_arg (arg_of a.now))) }
{
    boxed_marked(&a.annotation, one_more(before))
}

/// Those of some parameters.
#[cycle(expression_counts)]
#[tactic(auto, using(pytree_node::proofs::Callers::ExprShapes::expr_shapes, crate::proofs::CountLemmas::counting))]
fn each_parameter_marked(all: &[Arg], before: u64) -> u64
    ensures { result ≡ capped (before + marked_rows (shown_args (args (map arg_of all.now)))) }
{
    let mut count = before;
    for a in all {
        count = parameter_marked(a, count);
    }
    count
}

/// Those of a parameter that may be absent.
#[cycle(expression_counts)]
#[tactic(auto, using(pytree_node::proofs::Callers::ExprShapes::expr_shapes, crate::proofs::CountLemmas::counting))]
fn optional_parameter_marked(a: &Option<Arg>, before: u64) -> u64
    ensures { result ≡ capped (before + marked_optional_arg (optional_arg (arg_option_of a.now))) }
{
    match a {
        None => before,
        Some(a) => parameter_marked(a, before),
    }
}

/// Those of the parameters of a function.
#[cycle(expression_counts)]
#[tactic(auto, using(pytree_node::proofs::Callers::ExprShapes::expr_shapes, crate::proofs::CountLemmas::counting))]
pub(crate) fn parameters_marked(a: &Arguments, before: u64) -> u64
    ensures { result ≡ capped (before + marked (shown_arguments (arguments_of a.now))) }
{
    let count = each_parameter_marked(&a.posonlyargs, before);
    let count = each_parameter_marked(&a.args, count);
    let count = optional_parameter_marked(&a.vararg, count);
    let count = each_parameter_marked(&a.kwonlyargs, count);
    let count = options_marked(&a.kw_defaults, count);
    let count = optional_parameter_marked(&a.kwarg, count);
    exprs_marked(&a.defaults, count)
}
