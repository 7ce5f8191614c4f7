//! The parameters of functions.

ghost use Rattle.std.specs.Prelude.{◌≡◌, ℕ, OnOk, length, map, false};
ghost use Rattle.pylex_lexeme.specs.declared.kinds.Exact.TheVariants.{Comma, DoubleStar, Equal, Star};
ghost use Rattle.pytree_node.specs.TreeOf.{arg_of, arg_option_of, arguments_of, option_of, tree_of};
ghost use Rattle.pytree_node.specs.Trees.{args, exprs, optional, optionals, optional_arg};
ghost use Rattle.pygrammar.specs.declared.levels.Level.TheVariants as Level;
ghost use Rattle.pyunparse_text.specs.Folds.{puts};
ghost use Rattle.pyunparse.specs.Inner.Members.{members, padded};
ghost use Rattle.pyunparse.specs.Inner.Parameters.{by_places, default_at, named, positional};
ghost use Rattle.pyunparse.specs.Inner.Parameters.{slash_following};
ghost use Rattle.pyunparse_text.specs.Pieces.{piece};
ghost use Rattle.pyunparse_text.specs.Written.{after_equal, beside, defaults, each, gathered, listed};
ghost use Rattle.pyunparse_text.specs.Written.{names, parameters, suffixed, tight, trailing, with_star};

use crate::expressions::write_expr;
use crate::optional::write_suffix;
use pygrammar::Level;
use pylex_listing::Exact;
use pytree_node::{Arg, Arguments, Expr};
use pyunparse_text::marks::{Between, Role};
use pyunparse_text::tokens::{put_between, put_name, put_sign};
use pyunparse_text::writers::Writer;
use std::alloc::AllocError;

/// Writes parameters, without brackets.
#[cycle(writing)]
pub(crate) fn write_parameters<W: Writer>(out: &mut W, a: &Arguments) -> Result<(), AllocError>
    ensures { OnOk result
        (out.new ≡ puts W.after out.old (listed piece (parameters piece (arguments_of a.now)))) }
{
    let first = a.posonlyargs.is_empty() & a.args.is_empty();
    let none = first & a.vararg.is_none() & a.kwonlyargs.is_empty();
    write_positional(out, a)?;
    write_star(out, first, &a.vararg, &a.kwonlyargs)?;
    write_keyword_only(out, &a.kwonlyargs, &a.kw_defaults)?;
    write_gathered(out, none, Exact::DoubleStar, &a.kwarg)
}

/// Writes the parameters that may be given by their places, of which the last ones have the
/// defaults, with `/` after those that may only be given so.
#[cycle(writing)]
fn write_positional<W: Writer>(out: &mut W, a: &Arguments) -> Result<(), AllocError>
    ensures { OnOk result
        (out.new ≡ puts W.after out.old (listed piece (positional (arguments_of a.now)))) }
{
    write_both(out, &a.posonlyargs, &a.args, &a.defaults)
}

/// Writes parameters that may only be given by their places, `/` after them if there are any, and
/// others, of which the last ones have the defaults.
#[cycle(writing)]
fn write_both<W: Writer>(
    out: &mut W,
    only: &[Arg],
    others: &[Arg],
    given: &[Expr],
) -> Result<(), AllocError>
    ensures { OnOk result
        (out.new ≡ puts W.after out.old
        (listed piece
        (by_places (args (map arg_of only.now)) (args (map arg_of others.now))
        (exprs (map tree_of given.now))))) }
{
    let count = only.len();
    let bare = (count + others.len()).saturating_sub(given.len());
    write_plain(out, true, only, bare, given)?;
    put_slash(out, count)?;
    let rest = &given[count.saturating_sub(bare)..];
    write_plain(out, count == 0, others, bare.saturating_sub(count), rest)
}

/// Writes the `/` after parameters that may only be given by their places, if there are any.
fn put_slash<W: Writer>(out: &mut W, count: usize) -> Result<(), AllocError>
    ensures { OnOk result (out.new ≡ puts W.after out.old (slash_following count)) }
{
    if count == 0 {
        return Ok(());
    }
    put_between(out, false, Between::Comma)?;
    put_sign(out, Exact::Slash, Role::Free)
}

/// Writes parameters of which so many have no default, and the others these.
#[cycle(writing)]
fn write_plain<W: Writer>(
    out: &mut W,
    is_first: bool,
    params: &[Arg],
    bare: usize,
    given: &[Expr],
) -> Result<(), AllocError>
    ensures { OnOk result (out.new ≡ puts W.after out.old (members is_first (trailing piece Comma)
        (padded (names piece (args (map arg_of params.now))) bare
        (map (after_equal piece)
        (each piece Level.Expression (exprs (map tree_of given.now))))))) }
{
    let mut first = is_first;
    for i in 0..params.len() {
        put_between(out, first, Between::Comma)?;
        write_named_arg(out, &params[i])?;
        write_default(out, bare, i, given)?;
        first = false;
    }
    Ok(())
}

/// Writes the default of the parameter at a place, of parameters of which so many have none.
#[cycle(writing)]
fn write_default<W: Writer>(
    out: &mut W,
    bare: usize,
    i: usize,
    given: &[Expr],
) -> Result<(), AllocError>
    ensures { OnOk result
        (out.new ≡ puts W.after out.old (default_at bare i (map tree_of given.now))) }
{
    if i < bare {
        return Ok(());
    }
    let at = i - bare;
    if at >= given.len() {
        return Ok(());
    }
    put_sign(out, Exact::Equal, Role::Tight)?;
    write_expr(out, Level::Expression, &given[at])
}

/// Writes the parameter that takes all other arguments by their places, or the `*` that stands
/// before keyword-only parameters where there is none.
#[cycle(writing)]
fn write_star<W: Writer>(
    out: &mut W,
    is_first: bool,
    vararg: &Option<Arg>,
    kwonlyargs: &[Arg],
) -> Result<(), AllocError>
    ensures { OnOk result (out.new ≡ puts W.after out.old (members is_first (trailing piece Comma)
        (with_star piece (gathered piece Star (optional_arg (arg_option_of vararg.now)))
        (names piece (args (map arg_of kwonlyargs.now)))))) }
{
    if vararg.is_some() | kwonlyargs.is_empty() {
        return write_gathered(out, is_first, Exact::Star, vararg);
    }
    put_between(out, is_first, Between::Comma)?;
    put_sign(out, Exact::Star, Role::Leading)
}

/// Writes a parameter that takes all other arguments, if there is one.
#[cycle(writing)]
fn write_gathered<W: Writer>(
    out: &mut W,
    is_first: bool,
    sign: Exact,
    arg: &Option<Arg>,
) -> Result<(), AllocError>
    ensures { OnOk result
        (out.new ≡ puts W.after out.old
        (members is_first (trailing piece Comma)
        (gathered piece sign (optional_arg (arg_option_of arg.now))))) }
{
    match arg {
        None => Ok(()),
        Some(arg) => {
            put_between(out, is_first, Between::Comma)?;
            put_sign(out, sign, Role::Leading)?;
            write_named_arg(out, arg)
        }
    }
}

/// Writes keyword-only parameters after others.
#[cycle(writing)]
fn write_keyword_only<W: Writer>(
    out: &mut W,
    params: &[Arg],
    given: &[Option<Expr>],
) -> Result<(), AllocError>
    ensures { OnOk result (out.new ≡ puts W.after out.old (members false (trailing piece Comma)
        (beside (names piece (args (map arg_of params.now)))
        (defaults piece (optionals (map option_of given.now)))))) }
{
    for i in 0..params.len().min(given.len()) {
        put_between(out, false, Between::Comma)?;
        write_named_arg(out, &params[i])?;
        write_own_default(out, &given[i])?;
    }
    Ok(())
}

/// Writes the default of a keyword-only parameter, if it has one.
#[cycle(writing)]
fn write_own_default<W: Writer>(out: &mut W, given: &Option<Expr>) -> Result<(), AllocError>
    ensures { OnOk result
        (out.new ≡ puts W.after out.old
        (suffixed piece (tight piece Equal) (optional (option_of given.now)))) }
{
    match given {
        None => Ok(()),
        Some(e) => {
            put_sign(out, Exact::Equal, Role::Tight)?;
            write_expr(out, Level::Expression, e)
        }
    }
}

/// Writes a parameter's name, with its annotation.
#[cycle(writing)]
fn write_named_arg<W: Writer>(out: &mut W, arg: &Arg) -> Result<(), AllocError>
    ensures { OnOk result (out.new ≡ puts W.after out.old (named (arg_of arg.now))) }
{
    put_name(out, &arg.arg)?;
    write_suffix(out, Exact::Colon, Role::Trailing, &arg.annotation)
}
