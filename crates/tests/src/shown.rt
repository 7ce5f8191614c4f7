//! Which function shows what of a row, and the test.

use crate::rows::{fields, push, rows};
use crate::{
    expressions, fstrings, lexemes, listings, modules, numbers, quoted, shapes, sources, tokens,
};
use std::alloc::Global;
use std::process::Abort;

/// Appends what is shown of bytes, lexemes and listings; false where it is nothing of these.
fn of_source(
    rt: &impl Abort,
    alloc: Global,
    out: &mut String,
    subject: &str,
    words: &str,
    text: &str,
) -> bool {
    match subject {
        "repr" => sources::repr(rt, alloc, out, text),
        "points" => sources::points(rt, alloc, out, text),
        "decoded" => sources::decoded(rt, alloc, out, text),
        "declared" => sources::declared(rt, out, text),
        "place" => sources::place(rt, out, words, text),
        "read-all" => sources::read(rt, alloc, out, text, words == "fails"),
        "write-all" => sources::written(rt, alloc, out, words, text, false),
        "write-all-or-none" => sources::written(rt, alloc, out, words, text, true),
        "lines" => sources::lines(rt, alloc, out, words, text, false),
        "lines-fail" => sources::lines(rt, alloc, out, words, text, true),
        "rows" => sources::line_rows(rt, alloc, out, text),
        "lexeme" => lexemes::lexeme(rt, out, text),
        "exact" => lexemes::exact(rt, out, text),
        "string" => lexemes::string(rt, out, text, words),
        "cursor" => lexemes::cursor(rt, alloc, out, text),
        "listed" => listings::listed(rt, alloc, out, text),
        "line" => listings::line(rt, out, words, text),
        "streamed" => listings::streamed(rt, alloc, out, text, words == "fails"),
        "resumed" => listings::resumed(rt, alloc, out, words, text, false),
        "resumed-fails" => listings::resumed(rt, alloc, out, words, text, true),
        _ => return false,
    }
    true
}

/// Appends what is shown of numbers, f-strings, tokens and names; false where it is nothing of
/// these.
fn of_token(
    rt: &impl Abort,
    alloc: Global,
    out: &mut String,
    subject: &str,
    words: &str,
    text: &str,
) -> bool {
    match subject {
        "natural" => numbers::natural(rt, alloc, out, words, text),
        "double" => numbers::double(rt, alloc, out, words, text),
        "cut" => fstrings::cut(rt, alloc, out, words, text),
        "braces" => fstrings::braces(rt, alloc, out, words, text),
        "field" => fstrings::field(rt, out, text),
        "terminal" => tokens::terminal(rt, alloc, out, words, text),
        "terminals" => tokens::terminals(rt, alloc, out, text),
        "number" => tokens::number(rt, alloc, out, words, text),
        "literal" => tokens::string(rt, alloc, out, text),
        "name" => tokens::name(rt, alloc, out, text),
        "tokens" => tokens::tokens(rt, alloc, out, words, text),
        "logical" => tokens::logical(rt, alloc, out, words, text),
        _ => return false,
    }
    true
}

/// Appends what is shown of trees.
fn of_tree(
    rt: &impl Abort,
    alloc: Global,
    out: &mut String,
    subject: &str,
    words: &str,
    text: &str,
) {
    match subject {
        "read" => expressions::read(rt, alloc, out, words, text, "bare"),
        "write" => expressions::write(rt, alloc, out, words, text),
        "pattern" => expressions::pattern(rt, alloc, out, words, text),
        "expression" => expressions::read(rt, alloc, out, "Value", text, words),
        "dump" => modules::dumped(rt, alloc, out, words, text),
        "refused" => modules::refused(rt, alloc, out, text),
        "unparse" => modules::written(rt, alloc, out, text),
        "heights" => modules::measured(rt, alloc, out, text),
        "same" => modules::compared(rt, alloc, out, text),
        "placed" => modules::placed(rt, alloc, out, words, text),
        "spans" => modules::spans(rt, alloc, out, text),
        "sizes" => shapes::sizes(rt, out),
        "fits" => shapes::fits(rt, alloc, out, words, text),
        "counted" => quoted::counted(rt, alloc, out, text),
        "gone-on" => quoted::gone_on(rt, alloc, out, words, text),
        "rewritten" => quoted::rewrote(rt, alloc, out, text),
        "around" => quoted::around(rt, alloc, out, text),
        "functions" => quoted::defined(rt, alloc, out, text),
        "assigned" => quoted::assigned(rt, alloc, out, text),
        "told" => quoted::told(rt, alloc, out, text),
        _ => panic!(rt; "no subject: {subject:?}"),
    }
}

/// Appends what is wrong with a row, if something is.
fn check(rt: &impl Abort, alloc: Global, row: &str, wrong: &mut String) {
    let (head, text, due) = fields(rt, row);
    let (subject, words) = head.split_once(' ').unwrap_or((head, ""));
    let mut out = String::new(alloc);
    if !of_source(rt, alloc, &mut out, subject, words, text)
        && !of_token(rt, alloc, &mut out, subject, words, text)
    {
        of_tree(rt, alloc, &mut out, subject, words, text);
    }
    let told = out.as_str().trim_start_matches(' ');
    if told != due {
        let line = format!(in alloc; "{head} of {text:?}: {told:?}, not {due:?}\n");
        push(rt, wrong, line.expect(rt, "memory").as_str());
    }
}

#[test]
fn shows_all(rt: HostRuntime) {
    let mut wrong = String::new(rt.alloc());
    for table in [
        sources::ROWS,
        lexemes::ROWS,
        listings::ROWS,
        numbers::ROWS,
        fstrings::ROWS,
        tokens::ROWS,
        expressions::ROWS,
        modules::ROWS,
        shapes::ROWS,
        quoted::ROWS,
    ] {
        for row in rows(&rt, table) {
            check(&rt, rt.alloc(), row, &mut wrong);
        }
    }
    if !wrong.is_empty() {
        panic!(rt; "{}", wrong.as_str());
    }
}
