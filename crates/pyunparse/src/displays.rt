//! Lists of expressions, and the displays of sets, lists and dictionaries.

ghost use Rattle.std.specs.Prelude.{◌≡◌, Option, OnOk, map, true};
ghost use Rattle.pylex_lexeme.specs.declared.kinds.Exact.TheVariants.{LBrace, RBrace, Comma};
ghost use Rattle.pytree_node.specs.TreeOf.{dict_of, option_of, tree_of};
ghost use Rattle.pytree_node.specs.Trees.{exprs, optionals};
ghost use Rattle.pygrammar.specs.declared.levels.Level.TheVariants as Level;
ghost use Rattle.pyunparse_text.specs.Folds.{puts};
ghost use Rattle.pyunparse.specs.Inner.Members.{members};
ghost use Rattle.pyunparse_text.specs.Marks.{mark};
ghost use Rattle.pyunparse.specs.Inner.Pairs.{pair};
ghost use Rattle.pyunparse_text.specs.Pieces.{piece, pieces};
ghost use Rattle.pyunparse_text.specs.Written.{each, enclosed, leading, listed, pairs, written_keys};

use crate::expressions::write_expr;
use pygrammar::Level;
use pylex_listing::Exact;
use pytree_node::{Dict, Expr};
use pyunparse_text::marks::{Between, Role};
use pyunparse_text::tokens::{put_between, put_sign};
use pyunparse_text::writers::Writer;
use std::alloc::AllocError;

/// Writes expressions with a token between each two, and before the first where it isn't the
/// first of its list.
#[cycle(writing)]
pub(crate) fn write_members<W: Writer>(
    out: &mut W,
    is_first: bool,
    between: Between,
    level: Level,
    es: &[Expr],
) -> Result<(), AllocError>
    ensures { OnOk result
        (out.new ≡ puts W.after out.old
        (members is_first (mark between) (each piece level (exprs (map tree_of es.now))))) }
{
    let mut first = is_first;
    for e in es {
        put_between(out, first, between)?;
        write_expr(out, level, e)?;
        first = false;
    }
    Ok(())
}

/// Writes members in brackets.
#[cycle(writing)]
pub(crate) fn write_display<W: Writer>(
    out: &mut W,
    opener: Exact,
    closer: Exact,
    elts: &[Expr],
) -> Result<(), AllocError>
    ensures { OnOk result
        (out.new ≡ puts W.after out.old
        (enclosed piece (leading piece opener) closer
        (listed piece (each piece Level.Elem (exprs (map tree_of elts.now)))))) }
{
    put_sign(out, opener, Role::Leading)?;
    write_members(out, true, Between::Comma, Level::Elem, elts)?;
    put_sign(out, closer, Role::Trailing)
}

/// Writes a dictionary. What has no key stands after `**`.
#[cycle(writing)]
pub(crate) fn write_dict<W: Writer>(out: &mut W, dict: &Dict) -> Result<(), AllocError>
    ensures { (level : Level) → OnOk result
        (out.new ≡ puts W.after out.old (pieces level (dict_of dict.now))) }
{
    put_sign(out, Exact::LBrace, Role::Leading)?;
    write_pairs(out, &dict.keys, &dict.values)?;
    put_sign(out, Exact::RBrace, Role::Trailing)
}

/// Writes the pairs of a dictionary.
#[cycle(writing)]
fn write_pairs<W: Writer>(
    out: &mut W,
    keys: &[Option<Expr>],
    values: &[Expr],
) -> Result<(), AllocError>
    ensures { OnOk result
        (out.new ≡ puts W.after out.old
        (listed piece
        (pairs piece (written_keys piece (optionals (map option_of keys.now)))
        (exprs (map tree_of values.now))))) }
{
    let mut first = true;
    for i in 0..keys.len().min(values.len()) {
        put_between(out, first, Between::Comma)?;
        write_pair(out, &keys[i], &values[i])?;
        first = false;
    }
    Ok(())
}

/// Writes a key and its value, or `**` and a value.
#[cycle(writing)]
fn write_pair<W: Writer>(out: &mut W, key: &Option<Expr>, value: &Expr) -> Result<(), AllocError>
    ensures { OnOk result
        (out.new ≡ puts W.after out.old (pair (option_of key.now) (tree_of value.now))) }
{
    match key {
        None => {
            put_sign(out, Exact::DoubleStar, Role::Leading)?;
            write_expr(out, Level::BitOr, value)
        }
        Some(key) => {
            write_expr(out, Level::Expression, key)?;
            put_sign(out, Exact::Colon, Role::Trailing)?;
            write_expr(out, Level::Expression, value)
        }
    }
}
