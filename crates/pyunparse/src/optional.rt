//! Expressions that may be absent.

ghost use Rattle.std.specs.Prelude.{◌≡◌, OnOk};
ghost use Rattle.pytree_node.specs.TreeOf.{boxed_of};
ghost use Rattle.pytree_node.specs.Trees.{optional};
ghost use Rattle.pyunparse_text.specs.Folds.{puts};
ghost use Rattle.pyunparse_text.specs.Marks.{in_role};
ghost use Rattle.pyunparse_text.specs.Pieces.{piece};
ghost use Rattle.pyunparse_text.specs.Written.{perhaps, suffixed};

use crate::expressions::write_expr;
use pygrammar::Level;
use pylex_listing::Exact;
use pytree_node::Expr;
use pyunparse_text::marks::Role;
use pyunparse_text::tokens::put_sign;
use pyunparse_text::writers::Writer;
use std::alloc::AllocError;

/// Writes an expression that may be absent.
#[cycle(writing)]
pub(crate) fn write_perhaps<W: Writer>(
    out: &mut W,
    level: Level,
    e: &Option<Box<Expr>>,
) -> Result<(), AllocError>
    ensures { OnOk result
        (out.new ≡ puts W.after out.old (perhaps piece level (optional (boxed_of e.now)))) }
{
    match e {
        None => Ok(()),
        Some(e) => write_expr(out, level, e),
    }
}

/// Writes a sign and an expression, or nothing.
#[cycle(writing)]
pub(crate) fn write_suffix<W: Writer>(
    out: &mut W,
    sign: Exact,
    role: Role,
    e: &Option<Box<Expr>>,
) -> Result<(), AllocError>
    ensures { OnOk result
        (out.new ≡ puts W.after out.old
        (suffixed piece (in_role role sign) (optional (boxed_of e.now)))) }
{
    match e {
        None => Ok(()),
        Some(e) => {
            put_sign(out, sign, role)?;
            write_expr(out, Level::Expression, e)
        }
    }
}
