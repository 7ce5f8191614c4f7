//! A node of lists, or of parts that may be left out, where it is not too high.

ghost use Rattle.std.specs.Prelude.{◌≡◌, max, map};
ghost use Rattle.pytree_node.specs.TreeOf.{arguments_of, boxed_of, call_of, comprehension_of};
ghost use Rattle.pytree_node.specs.TreeOf.{dict_comp_of, keyword_of, option_of, tree_of};
ghost use Rattle.pytree_node.specs.Trees as plain;
ghost use Rattle.pytree_node.specs.Trees.{comprehensions, exprs, optional, optionals};
ghost use Rattle.pytree_height.specs.Heights as Heights;
ghost use Rattle.pyparse_nodes.specs.Answers.{Makes};

use crate::found::Read;
use crate::makers::boxed;
use crate::{Stop, above};
use pytree_node::{Arguments, Call, Comprehension, Context, Dict, DictComp, Expr, Keyword, Slice};
use std::alloc::Global;

/// A tuple, of elements of this height.
#[tactic(auto, using(pytree_node::proofs::Callers::ExprShapes::expr_shapes))]
#[inline(never)]
pub fn make_tuple(
    alloc: Global,
    elts: Vec<Expr>,
    under: usize,
    next: usize,
    room: usize,
) -> Result<Read, Stop>
    requires { under ≡ Heights.list_height (map tree_of elts.items) }
    ensures { Makes room (plain.Tuple (exprs (map tree_of elts.items)) Context.Load) next result }
{
    let height = above(under, room)?;
    boxed(
        alloc,
        Expr::Tuple {
            elts,
            ctx: Context::Load,
        },
        height,
        next,
    )
}

/// A list, of elements of this height.
#[tactic(auto, using(pytree_node::proofs::Callers::ExprShapes::expr_shapes))]
#[inline(never)]
pub fn make_list(
    alloc: Global,
    elts: Vec<Expr>,
    under: usize,
    next: usize,
    room: usize,
) -> Result<Read, Stop>
    requires { under ≡ Heights.list_height (map tree_of elts.items) }
    ensures { Makes room (plain.ListOf (exprs (map tree_of elts.items)) Context.Load) next result }
{
    let height = above(under, room)?;
    boxed(
        alloc,
        Expr::List {
            elts,
            ctx: Context::Load,
        },
        height,
        next,
    )
}

/// A set, of elements of this height.
#[tactic(auto, using(pytree_node::proofs::Callers::ExprShapes::expr_shapes))]
pub fn make_set(
    alloc: Global,
    elts: Vec<Expr>,
    under: usize,
    next: usize,
    room: usize,
) -> Result<Read, Stop>
    requires { under ≡ Heights.list_height (map tree_of elts.items) }
    ensures { Makes room (plain.Set (exprs (map tree_of elts.items))) next result }
{
    let height = above(under, room)?;
    boxed(alloc, Expr::Set { elts }, height, next)
}

/// A dict, of keys and values of this height.
#[tactic(auto, using(pytree_node::proofs::Callers::ExprShapes::expr_shapes))]
pub fn make_dict(
    alloc: Global,
    keys: Vec<Option<Expr>>,
    values: Vec<Expr>,
    under: usize,
    next: usize,
    room: usize,
) -> Result<Read, Stop>
    requires { under ≡ max (Heights.optional_heights (optionals (map option_of keys.items)))
        (Heights.list_height (map tree_of values.items)) }
    ensures { Makes room
        (plain.Dict (optionals (map option_of keys.items))
        (exprs (map tree_of values.items))) next result }
{
    let height = above(under, room)?;
    let dict = Box::new(alloc, Dict { keys, values })?;
    boxed(alloc, Expr::Dict(dict), height, next)
}

/// A call of these parts.
#[inline(always)]
fn call_of_parts(func: Box<Expr>, args: Vec<Expr>, keywords: Vec<Keyword>) -> Call
    ensures { call_of result ≡ plain.Call (tree_of func.value) (exprs (map tree_of args.items))
        (plain.keywords (map keyword_of keywords.items)) }
{
    Call {
        func: Box::into_inner(func),
        args,
        keywords,
    }
}

/// A call, of parts of this height.
#[tactic(auto, using(pytree_node::proofs::Callers::ExprShapes::expr_shapes))]
#[inline(always)]
pub fn make_call(
    alloc: Global,
    func: Box<Expr>,
    args: Vec<Expr>,
    keywords: Vec<Keyword>,
    under: usize,
    next: usize,
    room: usize,
) -> Result<Read, Stop>
    requires { under ≡ max (Heights.height (tree_of func.value))
        (max (Heights.list_height (map tree_of args.items))
        (Heights.keyword_heights (plain.keywords (map keyword_of keywords.items)))) }
    ensures { Makes room
        (plain.Call (tree_of func.value) (exprs (map tree_of args.items))
        (plain.keywords (map keyword_of keywords.items))) next result }
{
    let height = above(under, room)?;
    let call = Box::new(alloc, call_of_parts(func, args, keywords))?;
    boxed(alloc, Expr::Call(call), height, next)
}

/// A generator expression, of parts of this height.
#[tactic(auto, using(pytree_node::proofs::Callers::ExprShapes::expr_shapes))]
pub fn make_generator(
    alloc: Global,
    elt: Box<Expr>,
    generators: Vec<Comprehension>,
    under: usize,
    next: usize,
    room: usize,
) -> Result<Read, Stop>
    requires { under ≡ max (Heights.height (tree_of elt.value))
        (Heights.comprehension_heights (comprehensions (map comprehension_of generators.items))) }
    ensures { Makes room
        (plain.GeneratorExp (tree_of elt.value)
        (comprehensions (map comprehension_of generators.items))) next result }
{
    let height = above(under, room)?;
    boxed(alloc, Expr::GeneratorExp { elt, generators }, height, next)
}

/// A list comprehension, of parts of this height.
#[tactic(auto, using(pytree_node::proofs::Callers::ExprShapes::expr_shapes))]
pub fn make_list_comp(
    alloc: Global,
    elt: Box<Expr>,
    generators: Vec<Comprehension>,
    under: usize,
    next: usize,
    room: usize,
) -> Result<Read, Stop>
    requires { under ≡ max (Heights.height (tree_of elt.value))
        (Heights.comprehension_heights (comprehensions (map comprehension_of generators.items))) }
    ensures { Makes room
        (plain.ListComp (tree_of elt.value)
        (comprehensions (map comprehension_of generators.items))) next result }
{
    let height = above(under, room)?;
    boxed(alloc, Expr::ListComp { elt, generators }, height, next)
}

/// A set comprehension, of parts of this height.
#[tactic(auto, using(pytree_node::proofs::Callers::ExprShapes::expr_shapes))]
pub fn make_set_comp(
    alloc: Global,
    elt: Box<Expr>,
    generators: Vec<Comprehension>,
    under: usize,
    next: usize,
    room: usize,
) -> Result<Read, Stop>
    requires { under ≡ max (Heights.height (tree_of elt.value))
        (Heights.comprehension_heights (comprehensions (map comprehension_of generators.items))) }
    ensures { Makes room
        (plain.SetComp (tree_of elt.value)
        (comprehensions (map comprehension_of generators.items))) next result }
{
    let height = above(under, room)?;
    boxed(alloc, Expr::SetComp { elt, generators }, height, next)
}

/// A dict comprehension of these parts.
#[inline(always)]
fn dict_comp_of_parts(key: Box<Expr>, value: Box<Expr>, generators: Vec<Comprehension>) -> DictComp
    ensures { dict_comp_of result ≡ plain.DictComp (tree_of key.value) (tree_of value.value)
        (comprehensions (map comprehension_of generators.items)) }
{
    DictComp {
        key: Box::into_inner(key),
        value: Box::into_inner(value),
        generators,
    }
}

/// A dict comprehension, of parts of this height.
#[tactic(auto, using(pytree_node::proofs::Callers::ExprShapes::expr_shapes))]
pub fn make_dict_comp(
    alloc: Global,
    key: Box<Expr>,
    value: Box<Expr>,
    generators: Vec<Comprehension>,
    under: usize,
    next: usize,
    room: usize,
) -> Result<Read, Stop>
    requires { under ≡ max (Heights.height (tree_of key.value))
        (max (Heights.height (tree_of value.value))
        (Heights.comprehension_heights (comprehensions (map comprehension_of generators.items)))) }
    ensures { Makes room
        (plain.DictComp (tree_of key.value) (tree_of value.value)
        (comprehensions (map comprehension_of generators.items))) next result }
{
    let height = above(under, room)?;
    let comp = Box::new(alloc, dict_comp_of_parts(key, value, generators))?;
    boxed(alloc, Expr::DictComp(comp), height, next)
}

/// A lambda, of parameters of this height.
#[tactic(auto, using(pytree_node::proofs::Callers::ExprShapes::expr_shapes))]
#[inline(never)]
pub fn make_lambda(
    alloc: Global,
    args: Arguments,
    under: usize,
    body: Read,
    room: usize,
) -> Result<Read, Stop>
    requires { under ≡ Heights.arguments_height (arguments_of args) }
    ensures { Makes room
        (plain.Lambda (arguments_of args) (tree_of body.expr.value)) body.next result }
{
    let height = above(under.max(body.height), room)?;
    let args = Box::new(alloc, args)?;
    boxed(
        alloc,
        Expr::Lambda {
            args,
            body: body.expr,
        },
        height,
        body.next,
    )
}

/// A `yield`, of a value of this height.
#[tactic(auto, using(pytree_node::proofs::Callers::ExprShapes::expr_shapes))]
#[inline(never)]
pub fn make_yield(
    alloc: Global,
    value: Option<Box<Expr>>,
    under: usize,
    next: usize,
    room: usize,
) -> Result<Read, Stop>
    requires { under ≡ Heights.optional_height (optional (boxed_of value)) }
    ensures { Makes room (plain.Yield (optional (boxed_of value))) next result }
{
    let height = above(under, room)?;
    boxed(alloc, Expr::Yield { value }, height, next)
}

/// A slice, of parts of this height.
#[tactic(auto, using(pytree_node::proofs::Callers::ExprShapes::expr_shapes))]
pub fn make_slice(
    alloc: Global,
    lower: Option<Box<Expr>>,
    upper: Option<Box<Expr>>,
    step: Option<Box<Expr>>,
    under: usize,
    next: usize,
    room: usize,
) -> Result<Read, Stop>
    requires { under ≡ max (Heights.optional_height (optional (boxed_of lower)))
        (max (Heights.optional_height (optional (boxed_of upper)))
        (Heights.optional_height (optional (boxed_of step)))) }
    ensures { Makes room
        (plain.Slice (optional (boxed_of lower)) (optional (boxed_of upper))
        (optional (boxed_of step))) next result }
{
    let height = above(under, room)?;
    let slice = Box::new(alloc, Slice { lower, upper, step })?;
    boxed(alloc, Expr::Slice(slice), height, next)
}
