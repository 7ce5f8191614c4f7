//! A tree that is made by hand.

ghost use Rattle.std.specs.Prelude.{◌≡◌, IfOk};
ghost use Rattle.std.specs.Str.{chars};
ghost use Rattle.pytree_node.specs.TreeOf.{module_of};
ghost use Rattle.examples.specs.Trees.{assignment, Tells};

use pytree::{Constant, Context, Expr, Identifier, Integer, Module, Profile, Stmt, well_formed};
use pyunparse::unparse;
use std::alloc::{AllocError, Global};

/// The module of one statement, `name = value`.
#[tactic(auto, using(pytree_node::proofs::Callers::ExprShapes::name_tree, pytree_node::proofs::Callers::ExprShapes::constant_tree, pytree_node::proofs::Callers::StmtShapes::assign_tree))]
pub fn assignment(alloc: Global, name: &str, value: u128) -> Result<Module, AllocError>
    ensures { IfOk result (λ made. module_of made ≡ assignment (chars name.now) value) }
{
    let mut targets = Vec::new(alloc);
    targets.push(Expr::Name {
        id: Identifier::new(alloc, name)?,
        ctx: Context::Store,
    })?;
    let value = Expr::Constant {
        value: Constant::Int(Integer::new(alloc, value)?),
    };
    let mut body = Vec::new(alloc);
    body.push(Stmt::Assign { targets, value })?;
    Ok(Module { body })
}

/// The statement `name = value` as source text, or none where the grammar gives no such tree, as
/// where the name is a keyword. The text is accepted as this tree, and as no other.
pub fn assignment_text(alloc: Global, name: &str, value: u128) -> Result<Option<String>, AllocError>
    ensures { IfOk result (Tells (assignment (chars name.now) value)) }
{
    let tree = assignment(alloc, name, value)?;
    if !well_formed(alloc, &tree, Profile::PLAIN_311)? {
        return Ok(None);
    }
    Ok(Some(unparse(alloc, &tree)?))
}
