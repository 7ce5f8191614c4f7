//! Statements with their blocks, a line after another.

ghost use Rattle.std.specs.Prelude.{◌≡◌, ◌∷◌, [], suc, OnOk, map};
ghost use Rattle.pygrammar.specs.Lines.{Header, function_head};
ghost use Rattle.pytree_node.specs.TreeOf.{case_of, class_def_of, function_def_of, handler_of};
ghost use Rattle.pytree_node.specs.TreeOf.{item_of, stmt_of, tree_of, try_of};
ghost use Rattle.pytree_node.specs.Trees as plain;
ghost use Rattle.pytree_node.specs.Trees.{cases, handlers, stmts};
ghost use Rattle.pyunparse.specs.Inner.Lines.{Blocked, Wrote, class_def_lines, def_lines, elif_lines};
ghost use Rattle.pyunparse.specs.Inner.Lines.{for_lines, is_if, one_case, one_handler, try_lines, with_lines};
ghost use Rattle.pyunparse_text.specs.Modules as modules;
ghost use Rattle.pyunparse_text.specs.Pieces.{piece};
ghost use Rattle.pyunparse_text.specs.Statements.{header_tokens};
ghost use Rattle.pyunparse_text.specs.Written as written;

use crate::headers::{
    write_case_header, write_class_header, write_except_header, write_for_header,
    write_function_header, write_match_header, write_test_header, write_with_header,
    write_word_header,
};
use crate::lines::{write_decorators, write_line};
use pytoken::Keyword;
use pytree_node::{Case, ClassDef, Expr, FunctionDef, Handler, Item, Stmt, Try};
use pyunparse_text::text_writer::TextWriter;
use std::alloc::AllocError;

/// Writes statements, each on lines of its own.
#[cycle(blocks)]
pub(crate) fn write_stmts(out: &mut TextWriter, body: &[Stmt]) -> Result<(), AllocError>
    ensures { OnOk result
        (Wrote out.old out.new
        (modules.lines_of piece out.old.level (stmts (map stmt_of body.now)))) }
{
    for s in body {
        write_stmt(out, s)?;
    }
    Ok(())
}

/// Ends a header's line, and writes its block a level deeper.
#[cycle(blocks)]
fn write_block(out: &mut TextWriter, body: &[Stmt]) -> Result<(), AllocError>
    ensures { OnOk result
        (Blocked out.old out.new
        (modules.lines_of piece (suc out.old.level) (stmts (map stmt_of body.now)))) }
{
    out.end_line()?;
    out.indent()?;
    write_stmts(out, body)?;
    out.dedent();
    Ok(())
}

/// Writes a statement.
#[cycle(blocks)]
#[tactic(auto, using(pytree_node::proofs::Callers::StmtShapes::stmt_shapes))]
fn write_stmt(out: &mut TextWriter, s: &Stmt) -> Result<(), AllocError>
    ensures { OnOk result
        (Wrote out.old out.new (modules.statement_lines piece out.old.level (stmt_of s.now))) }
{
    match s {
        Stmt::If { test, body, orelse } => write_if(out, test, body, orelse),
        Stmt::While { test, body, orelse } => write_while(out, test, body, orelse),
        Stmt::For {
            target,
            iter,
            body,
            orelse,
        } => write_for(out, false, target, iter, body, orelse),
        Stmt::AsyncFor {
            target,
            iter,
            body,
            orelse,
        } => write_for(out, true, target, iter, body, orelse),
        Stmt::With { items, body } => write_with(out, false, items, body),
        Stmt::AsyncWith { items, body } => write_with(out, true, items, body),
        Stmt::Match { subject, cases } => write_match(out, subject, cases),
        Stmt::Try(parts) => write_try(out, false, parts),
        Stmt::TryStar(parts) => write_try(out, true, parts),
        Stmt::FunctionDef(def) => {
            write_decorators(out, &def.decorator_list)?;
            write_function(out, false, def)
        }
        Stmt::AsyncFunctionDef(def) => {
            write_decorators(out, &def.decorator_list)?;
            write_function(out, true, def)
        }
        Stmt::ClassDef(class) => {
            write_decorators(out, &class.decorator_list)?;
            write_class(out, class)
        }
        _ => write_line(out, s),
    }
}

/// Writes an `if` with what it has else.
#[cycle(blocks)]
fn write_if(
    out: &mut TextWriter,
    test: &Expr,
    body: &[Stmt],
    orelse: &[Stmt],
) -> Result<(), AllocError>
    ensures { OnOk result (Wrote out.old out.new (modules.statement_lines piece out.old.level
        (plain.If (tree_of test.now) (stmts (map stmt_of body.now))
        (stmts (map stmt_of orelse.now))))) }
{
    out.begin_line()?;
    write_test_header(out, Keyword::If, test)?;
    write_block(out, body)?;
    write_alternative(out, orelse)
}

/// Writes a `while` with its `else`.
#[cycle(blocks)]
fn write_while(
    out: &mut TextWriter,
    test: &Expr,
    body: &[Stmt],
    orelse: &[Stmt],
) -> Result<(), AllocError>
    ensures { OnOk result (Wrote out.old out.new (modules.statement_lines piece out.old.level
        (plain.While (tree_of test.now) (stmts (map stmt_of body.now))
        (stmts (map stmt_of orelse.now))))) }
{
    out.begin_line()?;
    write_test_header(out, Keyword::While, test)?;
    write_block(out, body)?;
    write_clause(out, Keyword::Else, orelse)
}

/// Writes a `for` with its `else`.
#[cycle(blocks)]
fn write_for(
    out: &mut TextWriter,
    is_async: bool,
    target: &Expr,
    iter: &Expr,
    body: &[Stmt],
    orelse: &[Stmt],
) -> Result<(), AllocError>
    ensures { OnOk result
        (Wrote out.old out.new
        (for_lines out.old.level is_async (tree_of target.now) (tree_of iter.now)
        (stmts (map stmt_of body.now)) (stmts (map stmt_of orelse.now)))) }
{
    out.begin_line()?;
    write_for_header(out, is_async, target, iter)?;
    write_block(out, body)?;
    write_clause(out, Keyword::Else, orelse)
}

/// Writes a `with`.
#[cycle(blocks)]
fn write_with(
    out: &mut TextWriter,
    is_async: bool,
    items: &[Item],
    body: &[Stmt],
) -> Result<(), AllocError>
    ensures { OnOk result
        (Wrote out.old out.new
        (with_lines out.old.level is_async (map item_of items.now)
        (stmts (map stmt_of body.now)))) }
{
    out.begin_line()?;
    write_with_header(out, is_async, items)?;
    write_block(out, body)
}

/// Writes a `def` after its decorators.
#[cycle(blocks)]
#[tactic(auto, using(pytree_node::proofs::Callers::StmtShapes::function_def_shape))]
fn write_function(out: &mut TextWriter, is_async: bool, def: &FunctionDef) -> Result<(), AllocError>
    ensures { OnOk result (Wrote out.old out.new (def_lines out.old.level
        (function_head is_async (function_def_of def.now).name (function_def_of def.now).type_params
        (function_def_of def.now).args (function_def_of def.now).returns)
        (stmts (function_def_of def.now).body))) }
{
    out.begin_line()?;
    write_function_header(
        out,
        is_async,
        &def.name,
        &def.type_params,
        &def.args,
        &def.returns,
    )?;
    write_block(out, &def.body)
}

/// Writes a `class` after its decorators.
#[cycle(blocks)]
fn write_class(out: &mut TextWriter, class: &ClassDef) -> Result<(), AllocError>
    ensures { OnOk result (Wrote out.old out.new (class_def_lines out.old.level (class_def_of class.now))) }
{
    out.begin_line()?;
    write_class_header(
        out,
        &class.name,
        &class.type_params,
        &class.bases,
        &class.keywords,
    )?;
    write_block(out, &class.body)
}

/// Writes a `try` with its clauses.
#[cycle(blocks)]
#[tactic(auto, using(pytree_node::proofs::Callers::StmtShapes::try_shape))]
fn write_try(out: &mut TextWriter, is_star: bool, parts: &Try) -> Result<(), AllocError>
    ensures { OnOk result
        (Wrote out.old out.new
        (try_lines out.old.level is_star (stmts (try_of parts.now).body)
        (handlers (try_of parts.now).handlers)
        (stmts (try_of parts.now).orelse) (stmts (try_of parts.now).finalbody))) }
{
    out.begin_line()?;
    write_word_header(out, Keyword::Try)?;
    write_block(out, &parts.body)?;
    write_handlers(out, is_star, &parts.handlers)?;
    write_clause(out, Keyword::Else, &parts.orelse)?;
    write_clause(out, Keyword::Finally, &parts.finalbody)
}

/// Writes the handlers of a `try`.
#[cycle(blocks)]
fn write_handlers(out: &mut TextWriter, is_star: bool, caught: &[Handler]) -> Result<(), AllocError>
    ensures { OnOk result
        (Wrote out.old out.new
        (modules.handler_lines piece out.old.level is_star
        (handlers (map handler_of caught.now)))) }
{
    for handler in caught {
        write_handler(out, is_star, handler)?;
    }
    Ok(())
}

/// Writes a handler of a `try`.
#[cycle(blocks)]
fn write_handler(out: &mut TextWriter, is_star: bool, handler: &Handler) -> Result<(), AllocError>
    ensures { OnOk result
        (Wrote out.old out.new (one_handler out.old.level is_star (handler_of handler.now))) }
{
    out.begin_line()?;
    write_except_header(out, is_star, &handler.class, &handler.name)?;
    write_block(out, &handler.body)
}

/// Writes a `match` with its cases.
#[cycle(blocks)]
fn write_match(out: &mut TextWriter, subject: &Expr, clauses: &[Case]) -> Result<(), AllocError>
    ensures { OnOk result
        (Wrote out.old out.new (modules.statement_lines piece out.old.level
        (plain.Match (tree_of subject.now) (cases (map case_of clauses.now))))) }
{
    out.begin_line()?;
    write_match_header(out, subject)?;
    write_case_block(out, clauses)
}

/// Ends the line of a `match`, and writes its cases a level deeper.
#[cycle(blocks)]
fn write_case_block(out: &mut TextWriter, clauses: &[Case]) -> Result<(), AllocError>
    ensures { OnOk result
        (Blocked out.old out.new
        (modules.case_lines piece (suc out.old.level) (cases (map case_of clauses.now)))) }
{
    out.end_line()?;
    out.indent()?;
    write_cases(out, clauses)?;
    out.dedent();
    Ok(())
}

/// Writes the cases of a `match`.
#[cycle(blocks)]
fn write_cases(out: &mut TextWriter, clauses: &[Case]) -> Result<(), AllocError>
    ensures { OnOk result
        (Wrote out.old out.new
        (modules.case_lines piece out.old.level (cases (map case_of clauses.now)))) }
{
    for case in clauses {
        write_case(out, case)?;
    }
    Ok(())
}

/// Writes a case of a `match`.
#[cycle(blocks)]
fn write_case(out: &mut TextWriter, case: &Case) -> Result<(), AllocError>
    ensures { OnOk result (Wrote out.old out.new (one_case out.old.level (case_of case.now))) }
{
    out.begin_line()?;
    write_case_header(out, &case.pattern, &case.guard)?;
    write_block(out, &case.body)
}

/// Writes a clause that is a keyword and a block, if the block isn't empty.
#[cycle(blocks)]
fn write_clause(out: &mut TextWriter, word: Keyword, body: &[Stmt]) -> Result<(), AllocError>
    ensures { (h : Header) → header_tokens piece h ≡ written.word piece word ∷ []
        → OnOk result
        (Wrote out.old out.new
        (modules.clause piece out.old.level h (stmts (map stmt_of body.now)))) }
{
    if body.is_empty() {
        return Ok(());
    }
    out.begin_line()?;
    write_word_header(out, word)?;
    write_block(out, body)
}

/// Whether a statement is an `if`.
fn is_if(s: &Stmt) -> bool
    ensures { result ≡ is_if (stmt_of s.now) }
{
    matches!(s, Stmt::If { .. })
}

/// Writes what an `if` has else: an `elif` where that is exactly one `if`.
#[cycle(blocks)]
fn write_alternative(out: &mut TextWriter, body: &[Stmt]) -> Result<(), AllocError>
    ensures { OnOk result
        (Wrote out.old out.new
        (modules.alternative piece out.old.level (stmts (map stmt_of body.now)))) }
{
    let count = body.len();
    if count != 1 {
        return write_clause(out, Keyword::Else, body);
    }
    let s = &body[0];
    if is_if(s) {
        return write_elif(out, s);
    }
    write_clause(out, Keyword::Else, body)
}

/// Writes an `if` as an `elif`, and any other statement not at all.
#[cycle(blocks)]
#[tactic(auto, using(pytree_node::proofs::Callers::StmtShapes::stmt_shapes))]
fn write_elif(out: &mut TextWriter, s: &Stmt) -> Result<(), AllocError>
    ensures { OnOk result (Wrote out.old out.new (elif_lines out.old.level (stmt_of s.now))) }
{
    match s {
        Stmt::If { test, body, orelse } => {
            out.begin_line()?;
            write_test_header(out, Keyword::Elif, test)?;
            write_block(out, body)?;
            write_alternative(out, orelse)
        }
        _ => Ok(()),
    }
}
