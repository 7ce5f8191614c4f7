//! Simple statements.

#![tactic(auto, using(crate::proofs::Sequences::FoldLemmas::puts_append))]

ghost use Rattle.std.specs.Prelude.{◌≡◌, ◌∷◌, [], OnOk, map, false};
ghost use Rattle.pytree_node.specs.TreeOf.{alias_of, boxed_of, option_of, stmt_of, tree_of};
ghost use Rattle.pytree_node.specs.Trees as plain;
ghost use Rattle.pytoken.specs.Terminals.{Op};
ghost use Rattle.pylex_lexeme.specs.declared.kinds.Exact.TheVariants.{Comma};
ghost use Rattle.pytoken.specs.declared.keywords.Keyword.TheVariants as Key;
ghost use Rattle.pygrammar.specs.declared.levels.Level.TheVariants as Level;
ghost use Rattle.pyunparse.specs.Inner.Assigned.{assigned};
ghost use Rattle.pyunparse_text.specs.Folds.{puts};
ghost use Rattle.pyunparse_text.specs.Pieces.{piece, sited};
ghost use Rattle.pyunparse_text.specs.Written.{listed, trailing, word};
ghost use Rattle.pyunparse_text.specs.Statements as written;

use crate::displays::write_members;
use crate::expressions::write_expr;
use crate::imports::{write_dotted, write_imported, write_modules, write_points};
use crate::types::write_type_params;
use pygrammar::Level;
use pylex_listing::Exact;
use pytoken::Keyword;
use pytree_node::{Alias, Expr, Identifier, Stmt};
use pyunparse_text::line_brackets::annotated_in_brackets;
use pyunparse_text::marks::{Between, Role};
use pyunparse_text::signs::augmented_sign;
use pyunparse_text::tokens::{close, open, put_between, put_name, put_sign, put_text, put_word};
use pyunparse_text::writers::Writer;
use std::alloc::AllocError;

/// Writes an expression that may be absent.
pub(crate) fn write_option<W: Writer>(
    out: &mut W,
    level: Level,
    e: &Option<Expr>,
) -> Result<(), AllocError>
    ensures { OnOk result
        (out.new ≡ puts W.after out.old (written.perhaps_written piece level (option_of e.now))) }
{
    match e {
        None => Ok(()),
        Some(e) => write_expr(out, level, e),
    }
}

/// Writes an expression in a box that may be absent.
fn write_boxed<W: Writer>(
    out: &mut W,
    level: Level,
    e: &Option<Box<Expr>>,
) -> Result<(), AllocError>
    ensures { OnOk result
        (out.new ≡ puts W.after out.old (written.perhaps_written piece level (boxed_of e.now))) }
{
    match e {
        None => Ok(()),
        Some(e) => write_expr(out, level, e),
    }
}

/// Writes a sign and an expression, or nothing.
pub(crate) fn write_after<W: Writer>(
    out: &mut W,
    sign: Exact,
    level: Level,
    e: &Option<Box<Expr>>,
) -> Result<(), AllocError>
    ensures { OnOk result
        (out.new ≡ puts W.after out.old
        (written.following piece (sited (Op sign) false false) level (boxed_of e.now))) }
{
    match e {
        None => Ok(()),
        Some(e) => {
            put_sign(out, sign, Role::Free)?;
            write_expr(out, level, e)
        }
    }
}

/// Writes some names.
fn write_names<W: Writer>(out: &mut W, names: &[Identifier]) -> Result<(), AllocError>
    ensures { OnOk result
        (out.new ≡ puts W.after out.old (listed piece (map (written.one_name piece) names.now))) }
{
    let mut first = true;
    for name in names {
        put_between(out, first, Between::Comma)?;
        put_name(out, name)?;
        first = false;
    }
    Ok(())
}

/// Writes the targets of an assignment, each with its `=`.
fn write_targets<W: Writer>(out: &mut W, targets: &[Expr]) -> Result<(), AllocError>
    ensures { OnOk result
        (out.new ≡ puts W.after out.old (written.targets piece (map tree_of targets.now))) }
{
    for target in targets {
        write_assigned(out, target)?;
    }
    Ok(())
}

/// Writes a target of an assignment with its `=`.
fn write_assigned<W: Writer>(out: &mut W, target: &Expr) -> Result<(), AllocError>
    ensures { OnOk result (out.new ≡ puts W.after out.old (assigned (tree_of target.now))) }
{
    write_expr(out, Level::Stars, target)?;
    put_sign(out, Exact::Equal, Role::Free)
}

/// Writes the target of an annotation: in brackets where it is a name that isn't simple.
fn write_annotated<W: Writer>(out: &mut W, target: &Expr, simple: bool) -> Result<(), AllocError>
    ensures { OnOk result
        (out.new ≡ puts W.after out.old (written.annotated piece (tree_of target.now) simple)) }
{
    let bare = !annotated_in_brackets(target, simple);
    open(out, bare)?;
    write_expr(out, Level::Primary, target)?;
    close(out, bare)
}

/// Writes a `raise`.
fn write_raise<W: Writer>(
    out: &mut W,
    exc: &Option<Box<Expr>>,
    cause: &Option<Box<Expr>>,
) -> Result<(), AllocError>
    ensures { OnOk result
        (out.new ≡ puts W.after out.old
        (written.simple_tokens piece (plain.Raise (boxed_of exc.now) (boxed_of cause.now)))) }
{
    put_word(out, Keyword::Raise)?;
    write_boxed(out, Level::Expression, exc)?;
    write_cause(out, cause)
}

/// Writes the cause of a `raise`, if there is one.
fn write_cause<W: Writer>(out: &mut W, cause: &Option<Box<Expr>>) -> Result<(), AllocError>
    ensures { OnOk result
        (out.new ≡ puts W.after out.old
        (written.following piece (word piece Key.From) Level.Expression (boxed_of cause.now))) }
{
    match cause {
        None => Ok(()),
        Some(e) => {
            put_word(out, Keyword::From)?;
            write_expr(out, Level::Expression, e)
        }
    }
}

/// Writes an `assert`.
fn write_assert<W: Writer>(
    out: &mut W,
    test: &Expr,
    msg: &Option<Box<Expr>>,
) -> Result<(), AllocError>
    ensures { OnOk result
        (out.new ≡ puts W.after out.old
        (written.simple_tokens piece (plain.Assert (tree_of test.now) (boxed_of msg.now)))) }
{
    put_word(out, Keyword::Assert)?;
    write_expr(out, Level::Expression, test)?;
    write_message(out, msg)
}

/// Writes the message of an `assert`, if there is one.
fn write_message<W: Writer>(out: &mut W, msg: &Option<Box<Expr>>) -> Result<(), AllocError>
    ensures { OnOk result
        (out.new ≡ puts W.after out.old
        (written.following piece (trailing piece Comma) Level.Expression (boxed_of msg.now))) }
{
    match msg {
        None => Ok(()),
        Some(e) => {
            put_sign(out, Exact::Comma, Role::Trailing)?;
            write_expr(out, Level::Expression, e)
        }
    }
}

/// Writes an import from a module, or from none that is named.
fn write_import_from<W: Writer>(
    out: &mut W,
    module: &Option<Identifier>,
    names: &[Alias],
    level: u64,
) -> Result<(), AllocError>
    ensures { OnOk result
        (out.new ≡ puts W.after out.old
        (written.simple_tokens piece
        (plain.ImportFrom «module».now (map alias_of names.now) level))) }
{
    put_word(out, Keyword::From)?;
    write_points(out, level)?;
    write_source(out, level > 0, module)?;
    put_word(out, Keyword::Import)?;
    write_imported(out, names)
}

/// Writes the module that an import is from, if one is named.
fn write_source<W: Writer>(
    out: &mut W,
    close: bool,
    module: &Option<Identifier>,
) -> Result<(), AllocError>
    ensures { OnOk result
        (out.new ≡ puts W.after out.old (written.module_name piece close «module».now)) }
{
    match module {
        None => Ok(()),
        Some(module) => write_dotted(out, close, module.as_str()),
    }
}

/// Writes a simple statement, and of one with a block nothing.
pub(crate) fn write_simple<W: Writer>(out: &mut W, s: &Stmt) -> Result<(), AllocError>
    ensures { OnOk result
        (out.new ≡ puts W.after out.old (written.simple_tokens piece (stmt_of s.now))) }
{
    match s {
        Stmt::Expr { value } => write_expr(out, Level::Value, value),
        Stmt::Assign { targets, value } => {
            write_targets(out, targets)?;
            write_expr(out, Level::Value, value)
        }
        Stmt::AugAssign { target, op, value } => {
            write_expr(out, Level::Primary, target)?;
            put_sign(out, augmented_sign(*op), Role::Free)?;
            write_expr(out, Level::Value, value)
        }
        Stmt::AnnAssign {
            target,
            annotation,
            value,
            simple,
        } => {
            write_annotated(out, target, *simple)?;
            put_sign(out, Exact::Colon, Role::Trailing)?;
            write_expr(out, Level::Expression, annotation)?;
            write_after(out, Exact::Equal, Level::Value, value)
        }
        Stmt::TypeAlias {
            name,
            type_params,
            value,
        } => {
            put_text(out, "type", false)?;
            write_expr(out, Level::Primary, name)?;
            write_type_params(out, type_params)?;
            put_sign(out, Exact::Equal, Role::Free)?;
            write_expr(out, Level::Expression, value)
        }
        Stmt::Return { value } => {
            put_word(out, Keyword::Return)?;
            write_option(out, Level::Stars, value)
        }
        Stmt::Raise { exc, cause } => write_raise(out, exc, cause),
        Stmt::Assert { test, msg } => write_assert(out, test, msg),
        Stmt::Delete { targets } => {
            put_word(out, Keyword::Del)?;
            write_members(out, true, Between::Comma, Level::Expression, targets)
        }
        Stmt::Global { names } => {
            put_word(out, Keyword::Global)?;
            write_names(out, names)
        }
        Stmt::Nonlocal { names } => {
            put_word(out, Keyword::Nonlocal)?;
            write_names(out, names)
        }
        Stmt::Pass => put_word(out, Keyword::Pass),
        Stmt::Break => put_word(out, Keyword::Break),
        Stmt::Continue => put_word(out, Keyword::Continue),
        Stmt::Import { names } => {
            put_word(out, Keyword::Import)?;
            write_modules(out, names)
        }
        Stmt::ImportFrom {
            module,
            names,
            level,
        } => write_import_from(out, module, names, *level),
        _ => Ok(()),
    }
}
