//! The listers of a source that is held and of one that is read line by line, from the start and
//! from a cursor: the calls of `pylex` on a source.

use crate::rows::{bytes_of, number, parts, push, push_shown, push_told, source_of};
use pylex::{Cursor, Entry, Kind, Lister, Step, StreamLister, line_text, push_line, text};
use pysource::{ByteIn, Place, Source};
use pysource_fakes::FakeReader;
use std::alloc::Global;
use std::process::Abort;

/// The rows.
pub(crate) const ROWS: &str = "
? listed => if x:\n\ty //= 'é'  # c\nz\n \
  => 0,0-0,0:            ENCODING       'utf-8'        \n1,0-1,2:            NAME           'if'           \n1,3-1,4:            NAME           'x'            \n1,4-1,5:            COLON          ':'            \n1,5-1,6:            NEWLINE        '\\n'           \n2,0-2,1:            INDENT         '\\t'           \n2,1-2,2:            NAME           'y'            \n2,3-2,6:            DOUBLESLASHEQUAL'//='          \n2,7-2,10:           STRING         \"'é'\"          \n2,12-2,15:          COMMENT        '# c'          \n2,15-2,16:          NEWLINE        '\\n'           \n3,0-3,0:            DEDENT         ''             \n3,0-3,1:            NAME           'z'            \n3,1-3,2:            NEWLINE        '\\n'           \n4,0-4,0:            ENDMARKER      ''             \n End
? listed => x = '''a\nb'''\n\n \
  => 0,0-0,0:            ENCODING       'utf-8'        \n1,0-1,1:            NAME           'x'            \n1,2-1,3:            EQUAL          '='            \n1,4-2,4:            STRING         \"'''a\\nb'''\"   \n2,4-2,5:            NEWLINE        '\\n'           \n3,0-3,1:            NL             '\\n'           \n4,0-4,0:            ENDMARKER      ''             \n End
? listed => x $\n \
  => 0,0-0,0:            ENCODING       'utf-8'        \n1,0-1,1:            NAME           'x'            \n Fault(ListingFault { place: Place { row: 1, column: 2 }, code: BadCharacter })
? listed => x\n y\n  z\n w\nv\n)\n \
  => 0,0-0,0:            ENCODING       'utf-8'        \n1,0-1,1:            NAME           'x'            \n1,1-1,2:            NEWLINE        '\\n'           \n2,0-2,1:            INDENT         ' '            \n2,1-2,2:            NAME           'y'            \n2,2-2,3:            NEWLINE        '\\n'           \n3,0-3,2:            INDENT         '  '           \n3,2-3,3:            NAME           'z'            \n3,3-3,4:            NEWLINE        '\\n'           \n4,1-4,1:            DEDENT         ''             \n4,1-4,2:            NAME           'w'            \n4,2-4,3:            NEWLINE        '\\n'           \n5,0-5,0:            DEDENT         ''             \n5,0-5,1:            NAME           'v'            \n5,1-5,2:            NEWLINE        '\\n'           \n Fault(ListingFault { place: Place { row: 6, column: 0 }, code: UnmatchedCloser })
? line 1 4 => 1 => 1,4-1,5:            NUMBER         '1'            \n
? line 1000000 100000 => 1 \
  => 1000000,100000-1000000,100001:NUMBER         '1'            \n
? streamed => x\ny\n \
  => ENCODING \"utf-8\" \"\", NAME \"x\" \"x\\n\", NEWLINE \"\\n\" \"x\\n\", NAME \"y\" \"y\\n\", NEWLINE \"\\n\" \"y\\n\", ENDMARKER \"\",  End End \"pytok1 6 4 3 0 0 1 0\" 0
? streamed => x = '''a\nb\n'''\ny\nz\n \
  => ENCODING \"utf-8\" \"\", NAME \"x\" \"x = '''a\\n\", OP \"=\" \"x = '''a\\n\", STRING \"'''a\\nb\\n'''\" \"x = '''a\\nb\\n'''\\n\", NEWLINE \"\\n\" \"x = '''a\\nb\\n'''\\n\", NAME \"y\" \"y\\n\", NEWLINE \"\\n\" \"y\\n\", NAME \"z\" \"z\\n\", NEWLINE \"\\n\" \"z\\n\", ENDMARKER \"\",  End End \"pytok1 10 19 6 0 0 1 0\" 0
? streamed => (1,\n # c\n 2)\n \
  => ENCODING \"utf-8\" \"\", OP \"(\" \"(1,\\n\", NUMBER \"1\" \"(1,\\n\", OP \",\" \"(1,\\n\", NL \"\\n\" \"(1,\\n\", COMMENT \"# c\" \" # c\\n\", NL \"\\n\" \" # c\\n\", NUMBER \"2\" \" 2)\\n\", OP \")\" \" 2)\\n\", NEWLINE \"\\n\" \" 2)\\n\", ENDMARKER \"\",  End End \"pytok1 11 13 4 0 0 1 0\" 0
? streamed fails => x\ny \
  => ENCODING \"utf-8\" \"\", NAME \"x\" \"x\\n\", NEWLINE \"\\n\" \"x\\n\",  Fault(ListingFault { place: Place { row: 2, column: 0 }, code: Line(FailedRead) }) Fault(ListingFault { place: Place { row: 2, column: 0 }, code: Line(FailedRead) }) \"pytok1 3 2 2 0 0 0 0\" 1
? streamed fails => x = '''a\n \
  => ENCODING \"utf-8\" \"\", NAME \"x\" \"x = '''a\\n\", OP \"=\" \"x = '''a\\n\",  Fault(ListingFault { place: Place { row: 2, column: 0 }, code: Line(FailedRead) }) Fault(ListingFault { place: Place { row: 2, column: 0 }, code: Line(FailedRead) }) \"pytok1 3 3 1 0 1 0 0\" 1
? streamed fails => # c\n => Read: read failed
? streamed => # coding: latin-1\nx\n \
  => UnsupportedEncoding(Place { row: 1, column: 0 }): unsupported encoding
? resumed pytok1 0 0 1 0 0 0 0 => if a:\n if b:\n  c\nd\n \
  => None Entry(Entry { kind: Encoding, exact: None, start: Place { row: 0, column: 0 }, end: Place { row: 0, column: 0 }, from: 0, to: 0 }); Entry(Entry { kind: Encoding, exact: None, start: Place { row: 0, column: 0 }, end: Place { row: 0, column: 0 }, from: 0, to: 0 })
? resumed pytok1 3 4 1 0 1 0 0 => if a:\n if b:\n  c\nd\n \
  => Some((Operator(Colon), \":\", Place { row: 1, column: 4 }, Spot { given: 4, offset: 5, row: 1, depth: 0, begun: true })) Entry(Entry { kind: Op, exact: Some(Colon), start: Place { row: 1, column: 4 }, end: Place { row: 1, column: 5 }, from: 4, to: 5 }); Entry(Entry { kind: Op, exact: Some(Colon), start: Place { row: 1, column: 4 }, end: Place { row: 1, column: 5 }, from: 4, to: 5 })
? resumed pytok1 10 13 3 0 0 0 0,1 => if a:\n if b:\n  c\nd\n \
  => None Entry(Entry { kind: Indent, exact: None, start: Place { row: 3, column: 0 }, end: Place { row: 3, column: 2 }, from: 13, to: 15 }); Entry(Entry { kind: Indent, exact: None, start: Place { row: 3, column: 0 }, end: Place { row: 3, column: 2 }, from: 13, to: 15 })
? resumed pytok1 14 17 4 0 0 1 0,1,2 => if a:\n if b:\n  c\nd\n \
  => None Entry(Entry { kind: Dedent, exact: None, start: Place { row: 4, column: 0 }, end: Place { row: 4, column: 0 }, from: 17, to: 17 }); Entry(Entry { kind: Dedent, exact: None, start: Place { row: 4, column: 0 }, end: Place { row: 4, column: 0 }, from: 17, to: 17 })
? resumed pytok1 18 19 5 0 0 1 0 => if a:\n if b:\n  c\nd\n => None End; End
? resumed pytok1 0 0 1 0 0 0 0 => if x:\n    y\n    z\nw\n \
  => None Entry(Entry { kind: Encoding, exact: None, start: Place { row: 0, column: 0 }, end: Place { row: 0, column: 0 }, from: 0, to: 0 }); Entry(Entry { kind: Encoding, exact: None, start: Place { row: 0, column: 0 }, end: Place { row: 0, column: 0 }, from: 0, to: 0 })
? resumed pytok1 1 0 1 0 0 0 0 => if x:\n    y\n    z\nw\n \
  => Some((Name, \"if\", Place { row: 1, column: 0 }, Spot { given: 2, offset: 2, row: 1, depth: 0, begun: true })) Entry(Entry { kind: Name, exact: None, start: Place { row: 1, column: 0 }, end: Place { row: 1, column: 2 }, from: 0, to: 2 }); Entry(Entry { kind: Name, exact: None, start: Place { row: 1, column: 0 }, end: Place { row: 1, column: 2 }, from: 0, to: 2 })
? resumed pytok1 5 6 2 0 0 0 0 => if x:\n    y\n    z\nw\n \
  => None Entry(Entry { kind: Indent, exact: None, start: Place { row: 2, column: 0 }, end: Place { row: 2, column: 4 }, from: 6, to: 10 }); Entry(Entry { kind: Indent, exact: None, start: Place { row: 2, column: 0 }, end: Place { row: 2, column: 4 }, from: 6, to: 10 })
? resumed pytok1 6 10 2 0 1 0 0,4 => if x:\n    y\n    z\nw\n \
  => Some((Name, \"y\", Place { row: 2, column: 4 }, Spot { given: 7, offset: 11, row: 2, depth: 0, begun: true })) Entry(Entry { kind: Name, exact: None, start: Place { row: 2, column: 4 }, end: Place { row: 2, column: 5 }, from: 10, to: 11 }); Entry(Entry { kind: Name, exact: None, start: Place { row: 2, column: 4 }, end: Place { row: 2, column: 5 }, from: 10, to: 11 })
? resumed pytok1 8 12 3 0 0 0 0,4 => if x:\n    y\n    z\nw\n \
  => Some((Name, \"z\", Place { row: 3, column: 4 }, Spot { given: 9, offset: 17, row: 3, depth: 0, begun: true })) Entry(Entry { kind: Name, exact: None, start: Place { row: 3, column: 4 }, end: Place { row: 3, column: 5 }, from: 16, to: 17 }); Entry(Entry { kind: Name, exact: None, start: Place { row: 3, column: 4 }, end: Place { row: 3, column: 5 }, from: 16, to: 17 })
? resumed pytok1 10 18 4 0 0 0 0,4 => if x:\n    y\n    z\nw\n \
  => None Entry(Entry { kind: Dedent, exact: None, start: Place { row: 4, column: 0 }, end: Place { row: 4, column: 0 }, from: 18, to: 18 }); Entry(Entry { kind: Dedent, exact: None, start: Place { row: 4, column: 0 }, end: Place { row: 4, column: 0 }, from: 18, to: 18 })
? resumed pytok1 11 18 4 0 0 1 0,4 => if x:\n    y\n    z\nw\n \
  => None Entry(Entry { kind: Name, exact: None, start: Place { row: 4, column: 0 }, end: Place { row: 4, column: 1 }, from: 18, to: 19 }); Entry(Entry { kind: Name, exact: None, start: Place { row: 4, column: 0 }, end: Place { row: 4, column: 1 }, from: 18, to: 19 })
? resumed pytok1 3 5 1 0 1 0 0 => if a:\n if b:\n  c\nd\n \
  => AnotherSource: cursor of another source; AnotherSource: cursor of another source
? resumed pytok1 4 4 1 0 1 0 0 => if a:\n if b:\n  c\nd\n \
  => AnotherSource: cursor of another source; AnotherSource: cursor of another source
? resumed pytok1 10 13 3 0 0 0 0,2 => if a:\n if b:\n  c\nd\n \
  => AnotherSource: cursor of another source; AnotherSource: cursor of another source
? resumed pytok1 14 17 4 0 0 0 0,1 => if a:\n if b:\n  c\nd\n \
  => AnotherSource: cursor of another source; AnotherSource: cursor of another source
? resumed pytok1 19 19 5 0 0 1 0 => if a:\n if b:\n  c\nd\n \
  => AnotherSource: cursor of another source; AnotherSource: cursor of another source
? resumed pytok1 3 4 1 1 1 0 0 => if a:\n if b:\n  c\nd\n \
  => AnotherSource: cursor of another source; AnotherSource: cursor of another source
? resumed pytok1 7 8 2 0 1 0 0,8 => x\n \
  => AnotherSource: cursor of another source; AnotherSource: cursor of another source
? resumed pytok1 2 1 1 0 0 0 0 => x\n \
  => AnotherSource: cursor of another source; AnotherSource: cursor of another source
? resumed pytok1 5 2 2 0 0 1 0 => x\n \
  => AnotherSource: cursor of another source; AnotherSource: cursor of another source
? resumed-fails pytok1 1 0 1 0 0 0 0 => x\ny \
  => Some((Name, \"x\", Place { row: 1, column: 0 }, Spot { given: 2, offset: 1, row: 1, depth: 0, begun: true })) Entry(Entry { kind: Name, exact: None, start: Place { row: 1, column: 0 }, end: Place { row: 1, column: 1 }, from: 0, to: 1 }); Entry(Entry { kind: Name, exact: None, start: Place { row: 1, column: 0 }, end: Place { row: 1, column: 1 }, from: 0, to: 1 })
? resumed-fails pytok1 4 3 2 0 1 0 0 => x\ny \
  => None Entry(Entry { kind: Newline, exact: None, start: Place { row: 2, column: 1 }, end: Place { row: 2, column: 2 }, from: 3, to: 3 }); Stream(Read): read failed";

/// The text of an entry of a source.
fn text_of<'a>(rt: &impl Abort, source: &'a Source, entry: &Entry) -> &'a str {
    let whole = source.text();
    assert!(rt; whole.is_char_boundary(entry.from));
    assert!(rt; whole.is_char_boundary(entry.to));
    assert!(rt; entry.from <= entry.to);
    text(source, entry)
}

/// The lines of a source's entries, and the last step.
pub(crate) fn listed(rt: &impl Abort, alloc: Global, out: &mut String, whole: &str) {
    let source = source_of(rt, alloc, whole);
    let mut lister = Lister::new(alloc, &source);
    for _ in 0..100u64 {
        let step = lister.next().expect(rt, "memory");
        let Step::Entry(entry) = step else {
            return push_shown(rt, out, &step);
        };
        let shown = text_of(rt, &source, &entry);
        let line = line_text(alloc, &entry, shown, true).expect(rt, "memory");
        push(rt, out, line.as_str());
    }
}

/// The line of an entry of one character at a row and a column.
pub(crate) fn line(rt: &impl Abort, out: &mut String, words: &str, text: &str) {
    let (row, column) = parts(rt, words, " ");
    let (row, column) = (number(rt, row) as usize, number(rt, column) as usize);
    assert!(rt; column < 1_000_000);
    let entry = Entry {
        kind: Kind::Number,
        exact: None,
        start: Place { row, column },
        end: Place {
            row,
            column: column + 1,
        },
        from: 0,
        to: 0,
    };
    push_line(out, &entry, text, false).expect(rt, "memory");
}

/// Appends the type and the text of each entry that a lister still gives, with the lines that it
/// holds there, if it has a text; then the last step, twice.
fn push_entries(rt: &impl Abort, out: &mut String, lines: &mut StreamLister<FakeReader<'_>>) {
    for _ in 0..100u64 {
        let step = lines.next().expect(rt, "memory");
        let Step::Entry(entry) = step else {
            push_shown(rt, out, &step);
            return push_shown(rt, out, &lines.next().expect(rt, "memory"));
        };
        push(rt, out, entry.kind.name());
        let text = lines.text(&entry);
        push_shown(rt, out, &text);
        if !text.is_empty() {
            push_shown(rt, out, &lines.held());
        }
        push(rt, out, ", ");
    }
}

/// The same of a lister that reads a source a byte at a time, from its start on, with the cursor
/// after that and the failures that were counted; or why there is no lister.
pub(crate) fn streamed(rt: &impl Abort, alloc: Global, out: &mut String, text: &str, fails: bool) {
    let bytes = bytes_of(rt, alloc, text);
    match StreamLister::new(alloc, FakeReader::new(bytes.as_slice(), 1, fails)) {
        Ok(mut lines) => {
            push_entries(rt, out, &mut lines);
            let cursor = lines.cursor().expect(rt, "memory").to_text();
            push_shown(rt, out, &cursor.expect(rt, "memory").as_str());
            push_shown(rt, out, &lines.reader().failures());
        }
        Err(fault) => push_told(rt, out, &fault),
    }
}

/// What `begin_line` answers after a cursor, and the first step there by a lister of the whole
/// source, whether it is resumed with a look at the source before it or without; or why there is
/// none.
fn resumed_whole(rt: &impl Abort, alloc: Global, out: &mut String, cursor: &Cursor, text: &str) {
    let source = source_of(rt, alloc, text);
    match Lister::resume_checked(alloc, &source, cursor) {
        Ok(mut lister) => {
            push_shown(rt, out, &lister.begin_line());
            let step = lister.next().expect(rt, "memory");
            push_shown(rt, out, &step);
            let mut other = Lister::resume(alloc, &source, cursor).expect(rt, "memory");
            assert!(rt; step == other.next().expect(rt, "memory"));
        }
        Err(fault) => push_told(rt, out, &fault),
    }
}

/// The first step after a cursor, by a lister that reads line by line; or why there is none.
fn resumed_by_lines(
    rt: &impl Abort,
    alloc: Global,
    out: &mut String,
    cursor: &Cursor,
    text: &str,
    fails: bool,
) {
    match StreamLister::resume_checked(alloc, FakeReader::new(text.as_bytes(), 3, fails), cursor) {
        Ok(mut lines) => push_shown(rt, out, &lines.next().expect(rt, "memory")),
        Err(fault) => push_told(rt, out, &fault),
    }
}

/// What is shown of both listers after a cursor.
pub(crate) fn resumed(
    rt: &impl Abort,
    alloc: Global,
    out: &mut String,
    words: &str,
    text: &str,
    fails: bool,
) {
    let cursor = Cursor::from_text(alloc, words).expect(rt, "a cursor");
    resumed_whole(rt, alloc, out, &cursor, text);
    push(rt, out, ";");
    resumed_by_lines(rt, alloc, out, &cursor, text, fails);
}
