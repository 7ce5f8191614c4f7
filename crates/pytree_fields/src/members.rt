//! The nodes of what expressions and statements hold, and of a module.

ghost use Rattle.std.specs.Prelude.{◌≡◌, ◌≤◌};
ghost use Rattle.pytree_node.specs.declared.profiles.Version.{Version as AnyVersion};
ghost use Rattle.pytree_node.specs.Trees.{optional_arg};
ghost use Rattle.pytree_node.specs.TreeOf.{alias_of, arg_of, arg_option_of, arguments_of, case_of, comprehension_of};
ghost use Rattle.pytree_node.specs.TreeOf.{handler_of, item_of, keyword_of, module_of, option_of, type_param_of};
ghost use Rattle.pytree_fields.specs.Classes.{field_count};
ghost use Rattle.pytree_fields.specs.LentThings.{node_thing, with_held};
ghost use Rattle.pytree_fields.specs.Things.{Things, alias_thing, arg_field, arg_thing, arguments_thing, case_thing};
ghost use Rattle.pytree_fields.specs.Things.{comprehension_thing, expr_field, handler_thing, item_thing, keyword_thing};
ghost use Rattle.pytree_fields.specs.Things.{module_thing, name_field, type_param_thing};

use crate::classes::Class;
use crate::expressions::boxed_held;
use crate::held::Held;
use crate::leaves::Leaf;
use crate::nodes::Node;
use crate::rows::Row;
use pytree_node::{
    Alias, Arg, Arguments, Case, Comprehension, Expr, Handler, Identifier, Item, Keyword, Module,
    TypeParam,
};

/// The field of an expression that may be absent, where it is in no box.
pub(crate) fn option_held<'a>(e: &'a Option<Expr>) -> Held<'a>
    ensures { (version : AnyVersion) → (rest : Things)
        → with_held version result rest ≡ expr_field (option_of e.now) rest }
{
    match e {
        None => Held::LeftOut,
        Some(e) => Held::Expr(e),
    }
}

/// The field of a name that may be absent.
pub(crate) fn name_held<'a>(name: &'a Option<Identifier>) -> Held<'a>
    ensures { (version : AnyVersion) → (rest : Things)
        → with_held version result rest ≡ name_field name.now rest }
{
    match name {
        None => Held::LeftOut,
        Some(name) => Held::Leaf(Leaf::Name(name)),
    }
}

/// The field of a parameter that may be absent.
fn arg_held<'a>(a: &'a Option<Arg>) -> Held<'a>
    ensures { (version : AnyVersion) → (rest : Things)
        → with_held version result rest ≡ arg_field (optional_arg (arg_option_of a.now)) rest }
{
    match a {
        None => Held::LeftOut,
        Some(a) => Held::Arg(a),
    }
}

/// The node of a `for` of a comprehension.
#[tactic(auto, using(pytree_node::proofs::Callers::ExprShapes::expr_shapes))]
pub(crate) fn comprehension_node<'a>(c: &'a Comprehension) -> Node<'a>
    ensures thing { (version : AnyVersion) → node_thing version result ≡ comprehension_thing (comprehension_of c.now) }
    ensures len { result.len ≡ field_count result.class }
    ensures room { result.len ≤ 7 }
{
    Node::four(
        Class::Comprehension,
        Held::Expr(&c.target),
        Held::Expr(&c.iter),
        Held::Row(Row::Exprs(&c.ifs)),
        Held::Leaf(Leaf::Flag(c.is_async)),
    )
}

/// The node of an argument by name.
#[tactic(auto, using(pytree_node::proofs::Callers::ExprShapes::expr_shapes))]
pub(crate) fn keyword_node<'a>(k: &'a Keyword) -> Node<'a>
    ensures thing { (version : AnyVersion) → node_thing version result ≡ keyword_thing (keyword_of k.now) }
    ensures len { result.len ≡ field_count result.class }
    ensures room { result.len ≤ 7 }
{
    Node::two(Class::Keyword, name_held(&k.arg), Held::Expr(&k.value))
}

/// The node of a parameter.
#[tactic(auto, using(pytree_node::proofs::Callers::ExprShapes::expr_shapes))]
pub(crate) fn arg_node<'a>(a: &'a Arg) -> Node<'a>
    ensures thing { (version : AnyVersion) → node_thing version result ≡ arg_thing (arg_of a.now) }
    ensures len { result.len ≡ field_count result.class }
    ensures room { result.len ≤ 7 }
{
    Node::three(
        Class::Arg,
        Held::Leaf(Leaf::Name(&a.arg)),
        boxed_held(&a.annotation),
        Held::LeftOut,
    )
}

/// The node of some parameters.
#[tactic(auto, using(pytree_node::proofs::Callers::ExprShapes::expr_shapes))]
pub(crate) fn arguments_node<'a>(a: &'a Arguments) -> Node<'a>
    ensures thing { (version : AnyVersion) → node_thing version result ≡ arguments_thing (arguments_of a.now) }
    ensures len { result.len ≡ field_count result.class }
    ensures room { result.len ≤ 7 }
{
    Node::seven(
        Class::Arguments,
        Held::Row(Row::Args(&a.posonlyargs)),
        Held::Row(Row::Args(&a.args)),
        arg_held(&a.vararg),
        Held::Row(Row::Args(&a.kwonlyargs)),
        Held::Row(Row::Options(&a.kw_defaults)),
        arg_held(&a.kwarg),
        Held::Row(Row::Exprs(&a.defaults)),
    )
}

/// The node of a name of an import.
pub(crate) fn alias_node<'a>(a: &'a Alias) -> Node<'a>
    ensures thing { (version : AnyVersion) → node_thing version result ≡ alias_thing (alias_of a.now) }
    ensures len { result.len ≡ field_count result.class }
    ensures room { result.len ≤ 7 }
{
    Node::two(
        Class::Alias,
        Held::Leaf(Leaf::Name(&a.name)),
        name_held(&a.asname),
    )
}

/// The node of an item of a `with`.
pub(crate) fn item_node<'a>(item: &'a Item) -> Node<'a>
    ensures thing { (version : AnyVersion) → node_thing version result ≡ item_thing (item_of item.now) }
    ensures len { result.len ≡ field_count result.class }
    ensures room { result.len ≤ 7 }
{
    Node::two(
        Class::WithItem,
        Held::Expr(&item.context_expr),
        option_held(&item.optional_vars),
    )
}

/// The node of a type's parameter.
pub(crate) fn type_param_node<'a>(p: &'a TypeParam) -> Node<'a>
    ensures thing { (version : AnyVersion) → node_thing version result ≡ type_param_thing (type_param_of p.now) }
    ensures len { result.len ≡ field_count result.class }
    ensures room { result.len ≤ 7 }
{
    match p {
        TypeParam::TypeVar { name, bound } => Node::two(
            Class::TypeVar,
            Held::Leaf(Leaf::Name(name)),
            option_held(bound),
        ),
        TypeParam::ParamSpec { name } => Node::one(Class::ParamSpec, Held::Leaf(Leaf::Name(name))),
        TypeParam::TypeVarTuple { name } => Node::one(
            Class::TypeVarTuple,
            Held::Leaf(Leaf::Name(name)),
        ),
    }
}

/// The node of an `except` with its block.
#[tactic(auto, using(pytree_node::proofs::Callers::StmtShapes::stmt_shapes))]
pub(crate) fn handler_node<'a>(h: &'a Handler) -> Node<'a>
    ensures thing { (version : AnyVersion) → node_thing version result ≡ handler_thing version (handler_of h.now) }
    ensures len { result.len ≡ field_count result.class }
    ensures room { result.len ≤ 7 }
{
    Node::three(
        Class::ExceptHandler,
        option_held(&h.class),
        name_held(&h.name),
        Held::Row(Row::Stmts(&h.body)),
    )
}

/// The node of a `case` with its block.
#[tactic(auto, using(pytree_node::proofs::Callers::StmtShapes::stmt_shapes))]
pub(crate) fn case_node<'a>(c: &'a Case) -> Node<'a>
    ensures thing { (version : AnyVersion) → node_thing version result ≡ case_thing version (case_of c.now) }
    ensures len { result.len ≡ field_count result.class }
    ensures room { result.len ≤ 7 }
{
    Node::three(
        Class::MatchCase,
        Held::Pattern(&c.pattern),
        option_held(&c.guard),
        Held::Row(Row::Stmts(&c.body)),
    )
}

/// The node of a module.
pub fn module_node<'a>(m: &'a Module) -> Node<'a>
    ensures thing { (version : AnyVersion) → node_thing version result ≡ module_thing version (module_of m.now) }
    ensures len { result.len ≡ field_count result.class }
    ensures room { result.len ≤ 7 }
{
    Node::two(
        Class::Module,
        Held::Row(Row::Stmts(&m.body)),
        Held::Row(Row::TypeIgnores),
    )
}
