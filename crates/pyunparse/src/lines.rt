//! Lines without a block.

ghost use Rattle.std.specs.Prelude.{◌≡◌, ◌∷◌, [], OnOk, map};
ghost use Rattle.pylex_lexeme.specs.declared.kinds.Exact.TheVariants.{At};
ghost use Rattle.pygrammar.specs.declared.levels.Level.TheVariants as Level;
ghost use Rattle.pytree_node.specs.TreeOf.{stmt_of, tree_of};
ghost use Rattle.pyunparse.specs.Inner.Lines.{Wrote};
ghost use Rattle.pyunparse_text.specs.Modules as modules;
ghost use Rattle.pyunparse_text.specs.Modules.{written_line};
ghost use Rattle.pyunparse_text.specs.Pieces.{piece, pieces};
ghost use Rattle.pyunparse_text.specs.Statements.{simple_tokens};
ghost use Rattle.pyunparse_text.specs.Written.{leading};

use crate::expressions::write_expr;
use crate::statements::write_simple;
use pygrammar::Level;
use pylex_listing::Exact;
use pytree_node::{Expr, Stmt};
use pyunparse_text::marks::Role;
use pyunparse_text::text_writer::TextWriter;
use pyunparse_text::tokens::put_sign;
use std::alloc::AllocError;

/// Writes a simple statement on a line of its own.
pub(crate) fn write_line(out: &mut TextWriter, s: &Stmt) -> Result<(), AllocError>
    ensures { OnOk result
        (Wrote out.old out.new
        (written_line out.old.level (simple_tokens piece (stmt_of s.now)) ∷ [])) }
{
    out.begin_line()?;
    write_simple(out, s)?;
    out.end_line()
}

/// Writes a decorator on a line of its own.
fn write_decorator(out: &mut TextWriter, e: &Expr) -> Result<(), AllocError>
    ensures { OnOk result
        (Wrote out.old out.new
        (written_line out.old.level (leading piece At ∷ pieces Level.Named (tree_of e.now)) ∷ [])) }
{
    out.begin_line()?;
    put_sign(out, Exact::At, Role::Leading)?;
    write_expr(out, Level::Named, e)?;
    out.end_line()
}

/// Writes decorators, each on a line of its own.
pub(crate) fn write_decorators(out: &mut TextWriter, decorators: &[Expr]) -> Result<(), AllocError>
    ensures { OnOk result
        (Wrote out.old out.new
        (modules.decorators piece out.old.level (map tree_of decorators.now))) }
{
    for e in decorators {
        write_decorator(out, e)?;
    }
    Ok(())
}
