//! Headers, up to their colons and with them.

#![tactic(auto, using(crate::proofs::Sequences::FoldLemmas::puts_append))]

ghost use Rattle.std.specs.Prelude.{◌≡◌, ◌++◌, ◌∷◌, [], OnOk, map};
ghost use Rattle.pylex_lexeme.specs.declared.kinds.Exact.TheVariants.{Colon};
ghost use Rattle.pygrammar.specs.Lines as lines;
ghost use Rattle.pytree_node.specs.TreeOf.{arguments_of, boxed_of, item_of, keyword_of, option_of};
ghost use Rattle.pytree_node.specs.TreeOf.{pattern_of, tree_of, type_param_of};
ghost use Rattle.pytree_node.specs.Trees.{exprs, keywords};
ghost use Rattle.pyunparse_text.specs.Folds.{puts};
ghost use Rattle.pyunparse.specs.Inner.Lines.{with_colon};
ghost use Rattle.pyunparse_text.specs.Pieces.{piece, pieces};
ghost use Rattle.pygrammar.specs.declared.levels.Level.TheVariants as Level;
ghost use Rattle.pytoken.specs.declared.keywords.Keyword.TheVariants as Key;
ghost use Rattle.pyunparse_text.specs.Statements as written;
ghost use Rattle.pyunparse_text.specs.Written.{listed, trailing, word as written_word};

use crate::calls::write_keywords;
use crate::displays::write_members;
use crate::expressions::write_expr;
use crate::imports::write_as;
use crate::parameters::write_parameters;
use crate::patterns::write_pattern;
use crate::statements::{write_after, write_option};
use crate::types::write_type_params;
use pygrammar::{Level, PatternLevel};
use pylex_listing::Exact;
use pytoken::Keyword;
use pytree_node::{Arguments, Expr, Identifier, Item, Keyword as Word, Pattern, TypeParam};
use pyunparse_text::line_brackets::need_brackets;
use pyunparse_text::marks::{Between, Role};
use pyunparse_text::tokens::{close, open, put_between, put_name, put_sign, put_text, put_word};
use pyunparse_text::writers::Writer;
use std::alloc::AllocError;

/// Writes the colon of a header.
fn put_colon<W: Writer>(out: &mut W) -> Result<(), AllocError>
    ensures { OnOk result (out.new ≡ puts W.after out.old (trailing piece Colon ∷ [])) }
{
    put_sign(out, Exact::Colon, Role::Trailing)
}

/// Writes a header that is a keyword alone.
pub(crate) fn write_word_header<W: Writer>(out: &mut W, word: Keyword) -> Result<(), AllocError>
    ensures { OnOk result
        (out.new ≡ puts W.after out.old (written_word piece word ∷ (trailing piece Colon ∷ []))) }
{
    put_word(out, word)?;
    put_colon(out)
}

/// Writes a header of a keyword and a test.
pub(crate) fn write_test_header<W: Writer>(
    out: &mut W,
    word: Keyword,
    test: &Expr,
) -> Result<(), AllocError>
    ensures { OnOk result
        (out.new ≡ puts W.after out.old
        (written_word piece word
        ∷ (pieces Level.Named (tree_of test.now) ++ trailing piece Colon ∷ []))) }
{
    put_word(out, word)?;
    write_expr(out, Level::Named, test)?;
    put_colon(out)
}

/// Writes `async`, or nothing.
fn put_async<W: Writer>(out: &mut W, is_async: bool) -> Result<(), AllocError>
    ensures { OnOk result (out.new ≡ puts W.after out.old (written.async piece is_async)) }
{
    if is_async {
        return put_word(out, Keyword::Async);
    }
    Ok(())
}

/// Writes the header of a `for`.
pub(crate) fn write_for_header<W: Writer>(
    out: &mut W,
    is_async: bool,
    target: &Expr,
    iter: &Expr,
) -> Result<(), AllocError>
    ensures { OnOk result
        (out.new ≡ puts W.after out.old
        (with_colon (lines.loop_header
        (lines.for_head is_async (tree_of target.now) (tree_of iter.now))))) }
{
    put_async(out, is_async)?;
    put_word(out, Keyword::For)?;
    write_expr(out, Level::Stars, target)?;
    put_word(out, Keyword::In)?;
    write_expr(out, Level::Stars, iter)?;
    put_colon(out)
}

/// Writes the target of an item, which may be starred.
fn write_item_target<W: Writer>(out: &mut W, target: &Expr) -> Result<(), AllocError>
    ensures { OnOk result
        (out.new ≡ puts W.after out.old (written.item_target piece (tree_of target.now))) }
{
    match target {
        Expr::Starred { value, .. } => {
            put_sign(out, Exact::Star, Role::Leading)?;
            write_expr(out, Level::Expression, value)
        }
        _ => write_expr(out, Level::Expression, target),
    }
}

/// Writes the items of a `with`.
fn write_items<W: Writer>(out: &mut W, items: &[Item]) -> Result<(), AllocError>
    ensures { OnOk result
        (out.new ≡ puts W.after out.old
        (listed piece (map (written.item piece) (map item_of items.now)))) }
{
    let mut first = true;
    for item in items {
        put_between(out, first, Between::Comma)?;
        write_item(out, item)?;
        first = false;
    }
    Ok(())
}

/// Writes an item of a `with`.
fn write_item<W: Writer>(out: &mut W, item: &Item) -> Result<(), AllocError>
    ensures { OnOk result (out.new ≡ puts W.after out.old (written.item piece (item_of item.now))) }
{
    write_expr(out, Level::Expression, &item.context_expr)?;
    write_target(out, &item.optional_vars)
}

/// Writes what an item of a `with` is given to, if it is given to something.
fn write_target<W: Writer>(out: &mut W, target: &Option<Expr>) -> Result<(), AllocError>
    ensures { OnOk result
        (out.new ≡ puts W.after out.old (written.as_target piece (option_of target.now))) }
{
    match target {
        None => Ok(()),
        Some(target) => {
            put_word(out, Keyword::As)?;
            write_item_target(out, target)
        }
    }
}

/// Writes the header of a `with`.
pub(crate) fn write_with_header<W: Writer>(
    out: &mut W,
    is_async: bool,
    items: &[Item],
) -> Result<(), AllocError>
    ensures { OnOk result
        (out.new ≡ puts W.after out.old
        (with_colon (lines.with_header is_async (map item_of items.now)))) }
{
    put_async(out, is_async)?;
    put_word(out, Keyword::With)?;
    let bare = !need_brackets(items);
    open(out, bare)?;
    write_items(out, items)?;
    close(out, bare)?;
    put_colon(out)
}

/// Writes the `*` of an `except *`, or nothing.
fn put_star<W: Writer>(out: &mut W, is_star: bool) -> Result<(), AllocError>
    ensures { OnOk result (out.new ≡ puts W.after out.old (written.starred piece is_star)) }
{
    if is_star {
        return put_sign(out, Exact::Star, Role::Leading);
    }
    Ok(())
}

/// Writes the header of an `except`, or of an `except *`.
pub(crate) fn write_except_header<W: Writer>(
    out: &mut W,
    is_star: bool,
    class: &Option<Expr>,
    name: &Option<Identifier>,
) -> Result<(), AllocError>
    ensures { OnOk result
        (out.new ≡ puts W.after out.old
        (with_colon (lines.except_header is_star (option_of class.now) name.now))) }
{
    put_word(out, Keyword::Except)?;
    put_star(out, is_star)?;
    write_option(out, Level::Expression, class)?;
    write_as(out, name)?;
    put_colon(out)
}

/// Writes the header of a function.
pub(crate) fn write_function_header<W: Writer>(
    out: &mut W,
    is_async: bool,
    name: &Identifier,
    type_params: &[TypeParam],
    args: &Arguments,
    returns: &Option<Box<Expr>>,
) -> Result<(), AllocError>
    ensures { OnOk result
        (out.new ≡ puts W.after out.old
        (with_colon (lines.def_header
        (lines.function_head is_async name.now (map type_param_of type_params.now)
        (arguments_of args.now) (boxed_of returns.now))))) }
{
    put_async(out, is_async)?;
    put_word(out, Keyword::Def)?;
    put_name(out, name)?;
    write_type_params(out, type_params)?;
    put_sign(out, Exact::LPar, Role::Tight)?;
    write_parameters(out, args)?;
    put_sign(out, Exact::RPar, Role::Trailing)?;
    write_after(out, Exact::RArrow, Level::Expression, returns)?;
    put_colon(out)
}

/// Writes the bases and keywords of a class in their brackets, if there are any.
fn write_bases<W: Writer>(out: &mut W, bases: &[Expr], words: &[Word]) -> Result<(), AllocError>
    ensures { OnOk result
        (out.new ≡ puts W.after out.old
        (written.bases piece (map tree_of bases.now) (keywords (map keyword_of words.now)))) }
{
    let first = bases.is_empty();
    let none = first & words.is_empty();
    if none {
        return Ok(());
    }
    put_sign(out, Exact::LPar, Role::Tight)?;
    write_members(out, true, Between::Comma, Level::Named, bases)?;
    write_keywords(out, first, words)?;
    put_sign(out, Exact::RPar, Role::Trailing)
}

/// Writes the header of a class.
pub(crate) fn write_class_header<W: Writer>(
    out: &mut W,
    name: &Identifier,
    type_params: &[TypeParam],
    bases: &[Expr],
    words: &[Word],
) -> Result<(), AllocError>
    ensures { OnOk result
        (out.new ≡ puts W.after out.old
        (with_colon (lines.def_header
        (lines.class_head name.now (map type_param_of type_params.now) (map tree_of bases.now)
        (keywords (map keyword_of words.now)))))) }
{
    put_word(out, Keyword::Class)?;
    put_name(out, name)?;
    write_type_params(out, type_params)?;
    write_bases(out, bases, words)?;
    put_colon(out)
}

/// Writes the header of a `match`.
pub(crate) fn write_match_header<W: Writer>(out: &mut W, subject: &Expr) -> Result<(), AllocError>
    ensures { OnOk result
        (out.new ≡ puts W.after out.old
        (with_colon (lines.match_header (tree_of subject.now)))) }
{
    put_text(out, "match", false)?;
    write_expr(out, Level::Subject, subject)?;
    put_colon(out)
}

/// Writes the condition of a `case`, if it has one.
fn write_guard<W: Writer>(out: &mut W, guard: &Option<Expr>) -> Result<(), AllocError>
    ensures { OnOk result
        (out.new ≡ puts W.after out.old
        (written.following piece (written_word piece Key.If) Level.Named (option_of guard.now))) }
{
    match guard {
        None => Ok(()),
        Some(test) => {
            put_word(out, Keyword::If)?;
            write_expr(out, Level::Named, test)
        }
    }
}

/// Writes the header of a `case`.
pub(crate) fn write_case_header<W: Writer>(
    out: &mut W,
    pattern: &Pattern,
    guard: &Option<Expr>,
) -> Result<(), AllocError>
    ensures { OnOk result
        (out.new ≡ puts W.after out.old
        (with_colon (lines.case_header (pattern_of pattern.now) (option_of guard.now)))) }
{
    put_text(out, "case", false)?;
    write_pattern(out, PatternLevel::Patterns, pattern)?;
    write_guard(out, guard)?;
    put_colon(out)
}
