//! Lexemes, string literals that run over several lines, and cursors: the calls of `pylex` on a
//! text.

use crate::rows::{push, push_shown, push_told};
use pylex::{
    Cursor, begins_significant, cut, exact_of, is_open_string, open_literal, opens_string,
};
use std::alloc::Global;
use std::process::Abort;

/// The rows.
pub(crate) const ROWS: &str = "
? lexeme => rb'x' + .5 => Some((String, \"rb'x'\", \" + .5\")) [false, false, false, true, true]
? lexeme => été**=1 => Some((Name, \"été\", \"**=1\")) [false, false, false, true, true]
? lexeme => **=1 \
  => Some((Operator(DoubleStarEqual), \"**=\", \"1\")) [false, false, false, true, true]
? lexeme => 1._5 => Some((Number, \"1.\", \"_5\")) [false, false, false, true, true]
? lexeme => # c\r\n => Some((Comment, \"# c\", \"\\r\\n\")) [false, false, false, false, false]
? lexeme =>  \t\x0cx => Some((Blanks, \" \\t\\u{c}\", \"x\")) [true, false, false, false, false]
? lexeme => \r\n\n => Some((LineEnd, \"\\r\\n\", \"\\n\")) [false, true, false, false, false]
? lexeme => \\\n x => Some((Join, \"\\\\\\n\", \" x\")) [false, false, true, true, true]
? lexeme =>  => None
? lexeme => $ => None
? lexeme => \r => None
? lexeme => \\ => None
? lexeme => \\x => None
? lexeme => 'a\n => None
? lexeme => ² => None
? exact => -> => RARROW [false, false]
? exact => //= => DOUBLESLASHEQUAL [false, false]
? exact => [ => LSQB [true, false]
? exact => ] => RSQB [false, true]
? exact => < => LESS [false, false]
? exact => <> => none
? string => ' => [true, false]
? string => f\" => [true, false]
? string =>  => [false, false]
? string => rx' => [false, false]
? string => ur' => [false, false]
? string =>  ' => [false, false]
? string ''' => ''' => [true, true] false
? string ' => 'a\\\n => [true, true] false
? string ' => '\\\na\\\r\n => [true, true] false
? string => 'a\\ => [true, false]
? string => 'a\\\n\n => [true, false]
? string => ''\\\n => [true, false]
? string a\n => '''\n => [true, true] true
? string \"\"\" '' \\'''\n => '''\n => [true, true] true
? string \"\" '''\\\n => \"\"\"\\\n => [true, true] true
? string a'''\n => '''\n => [true, true] false
? string \\\\\"\"\"\r\n => \"\"\"\r\n => [true, true] false
? string \\'\" \\\\\\\n => 'a\\\n => [true, true] true
? string a\\\\\n => '\\\n => [true, true] false
? string a\"\\\r\n => \"\\\r\n => [true, true] false
? cursor => pytok1 0 0 1 0 0 0 0 => pytok1 0 0 1 0 0 0 0
? cursor => pytok1 3 1 1 0 1 1 0 => pytok1 3 1 1 0 1 1 0
? cursor => pytok1 6 7 2 0 1 0 0,8 => pytok1 6 7 2 0 1 0 0,8
? cursor => pytok1 8 12 3 0 0 0 0,4 => pytok1 8 12 3 0 0 0 0,4
? cursor => pytok1 18446744073709551615 0 1 0 0 0 0 => pytok1 18446744073709551615 0 1 0 0 0 0
? cursor => pytok1 1 2 3 4 1 5 0,1,18446744073709551615 \
  => pytok1 1 2 3 4 1 5 0,1,18446744073709551615
? cursor => pytok1 0 0 0 0 0 0 0 => Text: malformed cursor
? cursor => pytok1 0 0 1 0 0 0 0,2,1 => Text: malformed cursor";

/// The lexeme at the front of a text with its class, what comes after it, and what its class is to
/// a line: blanks, a line end, a join, what makes the line logical; and the last once more, as it is
/// asked of a text.
pub(crate) fn lexeme(rt: &impl Abort, out: &mut String, text: &str) {
    let lexeme = cut(text);
    push_shown(rt, out, &lexeme);
    if let Some((class, _, _)) = lexeme {
        push_shown(
            rt,
            out,
            &[
                class.is_blanks(),
                class.is_line_end(),
                class.is_join(),
                class.is_significant(),
                begins_significant(text),
            ],
        );
    }
}

/// The exact type of an operator, and whether that opens or closes a bracket.
pub(crate) fn exact(rt: &impl Abort, out: &mut String, text: &str) {
    match exact_of(text) {
        Some(exact) => {
            push(rt, out, exact.name());
            push_shown(rt, out, &[exact.is_opener(), exact.is_closer()]);
        }
        None => push(rt, out, "none"),
    }
}

/// Whether a text begins with a string's quote, whether more text could end the string, and
/// whether it would be open after one more line, if it is open.
pub(crate) fn string(rt: &impl Abort, out: &mut String, text: &str, line: &str) {
    push_shown(rt, out, &[opens_string(text), is_open_string(text)]);
    if let Some(literal) = open_literal(text) {
        push_shown(rt, out, &literal.goes_on(line));
    }
}

/// What the cursor of a text writes, or why there is none.
pub(crate) fn cursor(rt: &impl Abort, alloc: Global, out: &mut String, text: &str) {
    match Cursor::from_text(alloc, text) {
        Ok(cursor) => push(rt, out, cursor.to_text().expect(rt, "memory").as_str()),
        Err(fault) => push_told(rt, out, &fault),
    }
}
