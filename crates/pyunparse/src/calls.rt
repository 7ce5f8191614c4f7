//! Primaries: attributes, subscripts and calls.

ghost use Rattle.std.specs.Prelude.{◌≡◌, ◌++◌, OnOk, map, false, true, if◌then◌else◌};
ghost use Rattle.pylex_lexeme.specs.declared.kinds.Exact.TheVariants.{Comma};
ghost use Rattle.pytree_node.specs.declared.operators.Context.{Context};
ghost use Rattle.pytree_node.specs.TreeOf.{call_of, keyword_of, tree_of};
ghost use Rattle.pytree_node.specs.Trees as plain;
ghost use Rattle.pytree_node.specs.Trees.{an_expr, exprs, keywords, no_exprs};
ghost use Rattle.pygrammar.specs.declared.levels.Level.TheVariants as Level;
ghost use Rattle.pyunparse.specs.Inner.Arguments.{argument, argument_name};
ghost use Rattle.pyunparse_text.specs.Folds.{puts};
ghost use Rattle.pyunparse.specs.Inner.Members.{members};
ghost use Rattle.pyunparse_text.specs.Sorts.{is_generator};
ghost use Rattle.pyunparse_text.specs.Pieces.{piece, pieces};
ghost use Rattle.pyunparse_text.specs.Written.{alone, by_name, each, listed, lone_generator, trailing};

use crate::clauses::write_generator;
use crate::displays::write_members;
use crate::expressions::write_expr;
use pygrammar::Level;
use pylex_listing::Exact;
use pytree_node::{Call, Expr, Identifier, Keyword};
use pyunparse_text::levels::reaches;
use pyunparse_text::marks::{Between, Role};
use pyunparse_text::tokens::{close, open, put_between, put_name, put_sign};
use pyunparse_text::writers::Writer;
use std::alloc::AllocError;

/// Writes `value.attr`.
#[cycle(writing)]
pub(crate) fn write_attribute<W: Writer>(
    out: &mut W,
    level: Level,
    value: &Expr,
    attr: &Identifier,
) -> Result<(), AllocError>
    ensures { (c : Context)
        → OnOk result
        (out.new ≡ puts W.after out.old
        (pieces level (plain.Attribute (tree_of value.now) attr.now c))) }
{
    let bare = reaches(level, Level::Primary);
    open(out, bare)?;
    write_expr(out, Level::Primary, value)?;
    put_sign(out, Exact::Dot, Role::Tight)?;
    put_name(out, attr)?;
    close(out, bare)
}

/// Writes `value[slice]`.
#[cycle(writing)]
pub(crate) fn write_subscript<W: Writer>(
    out: &mut W,
    level: Level,
    value: &Expr,
    slice: &Expr,
) -> Result<(), AllocError>
    ensures { (c : Context)
        → OnOk result
        (out.new ≡ puts W.after out.old
        (pieces level (plain.Subscript (tree_of value.now) (tree_of slice.now) c))) }
{
    let bare = reaches(level, Level::Primary);
    open(out, bare)?;
    write_expr(out, Level::Primary, value)?;
    put_sign(out, Exact::LSqb, Role::Tight)?;
    write_expr(out, Level::Slices, slice)?;
    put_sign(out, Exact::RSqb, Role::Trailing)?;
    close(out, bare)
}

/// Writes a call.
#[cycle(writing)]
pub(crate) fn write_call<W: Writer>(
    out: &mut W,
    level: Level,
    call: &Call,
) -> Result<(), AllocError>
    ensures { OnOk result (out.new ≡ puts W.after out.old (pieces level (call_of call.now))) }
{
    let bare = reaches(level, Level::Primary);
    open(out, bare)?;
    write_expr(out, Level::Primary, &call.func)?;
    put_sign(out, Exact::LPar, Role::Tight)?;
    write_arguments(out, &call.args, &call.keywords)?;
    put_sign(out, Exact::RPar, Role::Trailing)?;
    close(out, bare)
}

/// Whether an expression is a generator.
fn is_generator(e: &Expr) -> bool
    ensures { result ≡ is_generator (tree_of e.now) }
{
    matches!(e, Expr::GeneratorExp { .. })
}

/// Whether the arguments of a call are a generator that stands alone.
fn is_lone(args: &[Expr], words: &[Keyword]) -> bool
    ensures { result
        ≡ lone_generator (exprs (map tree_of args.now)) (keywords (map keyword_of words.now)) }
{
    if !words.is_empty() {
        return false;
    }
    let count = args.len();
    if count != 1 {
        return false;
    }
    is_generator(&args[0])
}

/// Writes a generator without brackets, and any other expression not at all.
#[cycle(writing)]
fn write_alone<W: Writer>(out: &mut W, e: &Expr) -> Result<(), AllocError>
    ensures { OnOk result
        (out.new ≡ puts W.after out.old (alone piece (an_expr (tree_of e.now) no_exprs))) }
{
    match e {
        Expr::GeneratorExp { elt, generators } => write_generator(out, elt, generators),
        _ => Ok(()),
    }
}

/// Writes the arguments of a call: a generator that stands alone has the brackets of the call.
#[cycle(writing)]
fn write_arguments<W: Writer>(
    out: &mut W,
    args: &[Expr],
    words: &[Keyword],
) -> Result<(), AllocError>
    ensures { OnOk result
        (out.new ≡ puts W.after out.old
        (if lone_generator (exprs (map tree_of args.now)) (keywords (map keyword_of words.now))
        then alone piece (exprs (map tree_of args.now))
        else listed piece
        (each piece Level.Named (exprs (map tree_of args.now))
        ++ by_name piece (keywords (map keyword_of words.now))))) }
{
    if is_lone(args, words) {
        return write_alone(out, &args[0]);
    }
    write_members(out, true, Between::Comma, Level::Named, args)?;
    write_keywords(out, args.is_empty(), words)
}

/// Writes keyword arguments, and those of `**`, after others or not.
#[cycle(writing)]
pub(crate) fn write_keywords<W: Writer>(
    out: &mut W,
    is_first: bool,
    words: &[Keyword],
) -> Result<(), AllocError>
    ensures { OnOk result
        (out.new ≡ puts W.after out.old
        (members is_first (trailing piece Comma)
        (by_name piece (keywords (map keyword_of words.now))))) }
{
    let mut first = is_first;
    for word in words {
        put_between(out, first, Between::Comma)?;
        write_keyword(out, word)?;
        first = false;
    }
    Ok(())
}

/// Writes an argument by name, or one of `**`.
#[cycle(writing)]
fn write_keyword<W: Writer>(out: &mut W, word: &Keyword) -> Result<(), AllocError>
    ensures { OnOk result (out.new ≡ puts W.after out.old (argument (keyword_of word.now))) }
{
    put_argument_name(out, &word.arg)?;
    write_expr(out, Level::Expression, &word.value)
}

/// Writes the name of an argument with its `=`, or `**`.
fn put_argument_name<W: Writer>(out: &mut W, name: &Option<Identifier>) -> Result<(), AllocError>
    ensures { OnOk result (out.new ≡ puts W.after out.old (argument_name name.now)) }
{
    match name {
        None => put_sign(out, Exact::DoubleStar, Role::Leading),
        Some(name) => {
            put_name(out, name)?;
            put_sign(out, Exact::Equal, Role::Tight)
        }
    }
}
