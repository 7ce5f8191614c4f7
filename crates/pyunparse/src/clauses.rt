//! Comprehensions.

ghost use Rattle.std.specs.Prelude.{◌≡◌, ◌++◌, ◌∷◌, [], OnOk, map};
ghost use Rattle.pylex_lexeme.specs.declared.kinds.Exact.TheVariants.{Colon, LBrace, RBrace};
ghost use Rattle.pytree_node.specs.TreeOf.{comprehension_of, dict_comp_of, tree_of};
ghost use Rattle.pytree_node.specs.Trees.{comprehensions, exprs};
ghost use Rattle.pygrammar.specs.declared.levels.Level.TheVariants as Level;
ghost use Rattle.pyunparse.specs.Inner.Clauses.{clause, condition};
ghost use Rattle.pyunparse_text.specs.Folds.{puts};
ghost use Rattle.pyunparse_text.specs.Pieces.{piece, pieces};
ghost use Rattle.pyunparse_text.specs.Written.{clauses, conditions, enclosed, for_in, leading, trailing};

use crate::expressions::write_expr;
use pygrammar::Level;
use pylex_listing::Exact;
use pytoken::Keyword;
use pytree_node::{Comprehension, DictComp, Expr};
use pyunparse_text::marks::Role;
use pyunparse_text::tokens::{put_sign, put_word};
use pyunparse_text::writers::Writer;
use std::alloc::AllocError;

/// Writes a comprehension in its brackets.
#[cycle(writing)]
pub(crate) fn write_comprehension<W: Writer>(
    out: &mut W,
    opener: Exact,
    closer: Exact,
    elt: &Expr,
    generators: &[Comprehension],
) -> Result<(), AllocError>
    ensures { OnOk result
        (out.new ≡ puts W.after out.old
        (enclosed piece (leading piece opener) closer
        (pieces Level.Named (tree_of elt.now)
        ++ clauses piece (comprehensions (map comprehension_of generators.now))))) }
{
    put_sign(out, opener, Role::Leading)?;
    write_generator(out, elt, generators)?;
    put_sign(out, closer, Role::Trailing)
}

/// Writes a comprehension without brackets.
#[cycle(writing)]
pub(crate) fn write_generator<W: Writer>(
    out: &mut W,
    elt: &Expr,
    generators: &[Comprehension],
) -> Result<(), AllocError>
    ensures { OnOk result
        (out.new ≡ puts W.after out.old
        (pieces Level.Named (tree_of elt.now)
        ++ clauses piece (comprehensions (map comprehension_of generators.now)))) }
{
    write_expr(out, Level::Named, elt)?;
    write_clauses(out, generators)
}

/// Writes the comprehension of a dictionary.
#[cycle(writing)]
pub(crate) fn write_dict_comprehension<W: Writer>(
    out: &mut W,
    comp: &DictComp,
) -> Result<(), AllocError>
    ensures { (level : Level) → OnOk result
        (out.new ≡ puts W.after out.old (pieces level (dict_comp_of comp.now))) }
{
    put_sign(out, Exact::LBrace, Role::Leading)?;
    write_expr(out, Level::Expression, &comp.key)?;
    put_sign(out, Exact::Colon, Role::Trailing)?;
    write_expr(out, Level::Expression, &comp.value)?;
    write_clauses(out, &comp.generators)?;
    put_sign(out, Exact::RBrace, Role::Trailing)
}

/// Writes the clauses of a comprehension.
#[cycle(writing)]
fn write_clauses<W: Writer>(out: &mut W, generators: &[Comprehension]) -> Result<(), AllocError>
    ensures { OnOk result
        (out.new ≡ puts W.after out.old
        (clauses piece (comprehensions (map comprehension_of generators.now)))) }
{
    for generator in generators {
        write_clause(out, generator)?;
    }
    Ok(())
}

/// Writes `for`, or `async for`.
fn put_for<W: Writer>(out: &mut W, is_async: bool) -> Result<(), AllocError>
    ensures { OnOk result (out.new ≡ puts W.after out.old (for_in piece is_async [])) }
{
    if is_async {
        put_word(out, Keyword::Async)?;
    }
    put_word(out, Keyword::For)
}

/// Writes a clause of a comprehension.
#[cycle(writing)]
fn write_clause<W: Writer>(out: &mut W, generator: &Comprehension) -> Result<(), AllocError>
    ensures { OnOk result
        (out.new ≡ puts W.after out.old (clause (comprehension_of generator.now))) }
{
    put_for(out, generator.is_async)?;
    write_expr(out, Level::Stars, &generator.target)?;
    put_word(out, Keyword::In)?;
    write_expr(out, Level::Or, &generator.iter)?;
    write_conditions(out, &generator.ifs)
}

/// Writes the conditions of a clause.
#[cycle(writing)]
fn write_conditions<W: Writer>(out: &mut W, ifs: &[Expr]) -> Result<(), AllocError>
    ensures { OnOk result
        (out.new ≡ puts W.after out.old (conditions piece (exprs (map tree_of ifs.now)))) }
{
    for test in ifs {
        write_condition(out, test)?;
    }
    Ok(())
}

/// Writes a condition of a clause.
#[cycle(writing)]
fn write_condition<W: Writer>(out: &mut W, test: &Expr) -> Result<(), AllocError>
    ensures { OnOk result (out.new ≡ puts W.after out.old (condition (tree_of test.now))) }
{
    put_word(out, Keyword::If)?;
    write_expr(out, Level::Or, test)
}
