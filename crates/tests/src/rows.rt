//! How rows are read. A row begins on a line of its own with `? `, and ` => ` stands between its
//! three fields: what is shown, perhaps with words for it; a text; and what has to come out. A
//! field is what stands there, its blanks too. It has the escapes of a literal, so that a line feed
//! in it is written `\n`, and a blank at the end of a line `\x20`. Before its last field a long row
//! is broken by `\`.

use pysource::{Source, decode};
use std::alloc::Global;
use std::fmt::{Debug, Display, Write};
use std::process::Abort;
use std::str::Split;

/// What a row begins with.
const ROW: &str = "\n? ";

/// What stands between two fields.
const FIELD: &str = " => ";

/// The rows of a table.
pub(crate) fn rows<'a>(rt: &impl Abort, table: &'a str) -> Split<'a, &'static str> {
    table.strip_prefix(ROW).expect(rt, "a row").split(ROW)
}

/// The two parts of a text, before and after the first of these.
pub(crate) fn parts<'a>(rt: &impl Abort, text: &'a str, between: &str) -> (&'a str, &'a str) {
    text.split_once(between).expect(rt, "two parts")
}

/// The three fields of a row.
pub(crate) fn fields<'a>(rt: &impl Abort, row: &'a str) -> (&'a str, &'a str, &'a str) {
    let (head, rest) = parts(rt, row, FIELD);
    let (text, due) = parts(rt, rest, FIELD);
    (head, text, due)
}

/// The number that a word is.
pub(crate) fn number(rt: &impl Abort, word: &str) -> u32 {
    word.parse().expect(rt, "a number")
}

/// Appends a text.
pub(crate) fn push(rt: &impl Abort, out: &mut String, text: &str) {
    out.push_str(text).expect(rt, "memory");
}

/// Appends how a value is shown, after a blank.
pub(crate) fn push_shown<T: Debug>(rt: &impl Abort, out: &mut String, value: &T) {
    write!(out, " {value:?}").expect(rt, "memory");
}

/// Appends how a fault is shown and what it tells, after a blank.
pub(crate) fn push_told<T: Debug + Display>(rt: &impl Abort, out: &mut String, fault: &T) {
    write!(out, " {fault:?}: {fault}").expect(rt, "memory");
}

/// The bytes of a text, in which `¶` stands for the byte FF.
pub(crate) fn bytes_of(rt: &impl Abort, alloc: Global, text: &str) -> Vec<u8> {
    let mut bytes = Vec::new(alloc);
    for part in text.split_inclusive('¶') {
        let front = part.strip_suffix('¶');
        let part = front.unwrap_or(part);
        bytes
            .extend_from_slice(part.as_bytes())
            .expect(rt, "memory");
        if front.is_some() {
            bytes.push(0xFF).expect(rt, "memory");
        }
    }
    bytes
}

/// The source that a short text is.
pub(crate) fn source_of(rt: &impl Abort, alloc: Global, text: &str) -> Source {
    let bytes = text.as_bytes();
    assert!(rt; bytes.len() < 1_000);
    decode(alloc, bytes).expect(rt, "a source")
}
