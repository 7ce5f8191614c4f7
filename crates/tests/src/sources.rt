//! Bytes and lines, and what is shown of texts: the calls of `pysource`.

use crate::rows::{bytes_of, number, parts, push, push_shown, push_told};
use pysource::{
    ByteIn, ByteOut, Chunks, LineReader, decode_vec, encoding_of, is_plain_text, place_of,
    push_repr, push_repr_bytes, push_repr_points, read_all, repr_bytes, repr_text, write_all,
};
use pysource_fakes::{FakeReader, FakeWriter};
use pytree::Points;
use std::alloc::Global;
use std::process::Abort;

/// The rows.
pub(crate) const ROWS: &str = "
? repr =>  => ''b''b'' true
? repr => a b~ => 'a b~'b'a b~'b'a b~' true
? repr => it's => \"it's\"b\"it's\"b\"it's\" false
? repr => \\ => '\\\\'b'\\\\'b'\\\\' false
? repr => '\"\n => '\\'\"\\n'b'\\'\"\\n'b'\\'\"\\n' false
? repr => é\u{E000} => 'é\\ue000'b'\\xc3\\xa9\\xee\\x80\\x80'b'\\xc3\\xa9\\xee\\x80\\x80' false
? repr => \t\n\r\x7f~ '\" \
  => '\\t\\n\\r\\x7f~ \\'\"'b'\\t\\n\\r\\x7f~ \\'\"'b'\\t\\n\\r\\x7f~ \\'\"' false
? points => 55296 39 => \"\\ud800'\" [55296, 39, 1114111, 97, 255] [55296, 39] false \"\\ud800'\"
? points => 55296 39 1114112 => \"\\ud800'\\U00110000\" None
? points => 97 55296 => 'a\\ud800' [97, 55296, 1114111, 97, 255] [97, 55296] false 'a\\ud800'
? decoded => \u{FEFF}x\r\ny => utf-8 Utf8 \"x\\r\\ny\" None
? decoded => a\nb¶\n \
  => utf-8 Utf8 \"a\\n\" Some(LineFault { code: NotUtf8, place: Place { row: 2, column: 1 } })
? decoded => x\r¶\n \
  => utf-8 Utf8 \"\" Some(LineFault { code: LoneReturn, place: Place { row: 1, column: 1 } })
? decoded => # coding: ascii\n# é\n \
  => ascii Ascii \"# coding: ascii\\n\" Some(LineFault { code: NotAscii, place: Place { row: 2, column: 2 } })
? decoded => # x\n# coding: latin-1\n \
  => UnsupportedEncoding(Place { row: 2, column: 0 }): unsupported encoding
? decoded => \u{FEFF}# coding: ascii\n \
  => BomConflict(Place { row: 1, column: 0 }): byte order mark with another encoding
? declared => | => utf-8 Utf8
? declared => # coding: US_ASCII\n| => US_ASCII Ascii
? declared => # -*- Coding: latin-1 -*- coding=Utf_8\n| => utf-8 Utf8
? declared => \t# vim: set fileencoding=utf8 :\n| => utf8 Utf8
? declared => # x\n|# coding: latin-1\n \
  => UnsupportedEncoding(Place { row: 2, column: 0 }): unsupported encoding
? declared => \u{FEFF}# coding: ascii\n| \
  => BomConflict(Place { row: 1, column: 0 }): byte order mark with another encoding
? place 0 =>  => Place { row: 1, column: 0 }
? place 2 => é\nx => Place { row: 1, column: 1 }
? place 3 => é\nx => Place { row: 2, column: 0 }
? place 4 => é\nx => Place { row: 2, column: 1 }
? place 8 => a\r\n\n😀b => Place { row: 3, column: 1 }
? read-all =>  => Ok([]) 0
? read-all fails =>  => Err(Read) 1
? read-all => a => Ok([97]) 0
? read-all fails => a => Err(Read) 1
? read-all => abcé => Ok([97, 98, 99, 195, 169]) 0
? write-all 0 1 => abcd => Err(WriteFailed) [] 1
? write-all 1 1 => abcd => Err(WriteFailed) [97] 1
? write-all 2 1 => abcd => Err(WriteFailed) [97, 98] 1
? write-all 3 1 => abcd => Err(WriteFailed) [97, 98, 99] 1
? write-all 4 1 => abcd => Ok(()) [97, 98, 99, 100] 0
? write-all 0 3 => abcd => Err(WriteFailed) [] 1
? write-all 1 3 => abcd => Err(WriteFailed) [97] 1
? write-all 2 3 => abcd => Err(WriteFailed) [97, 98] 1
? write-all 3 3 => abcd => Err(WriteFailed) [97, 98, 99] 1
? write-all 4 3 => abcd => Ok(()) [97, 98, 99, 100] 0
? write-all 0 8 => abcd => Err(WriteFailed) [] 1
? write-all 1 8 => abcd => Err(WriteFailed) [97] 1
? write-all 2 8 => abcd => Err(WriteFailed) [97, 98] 1
? write-all 3 8 => abcd => Err(WriteFailed) [97, 98, 99] 1
? write-all 4 8 => abcd => Ok(()) [97, 98, 99, 100] 0
? write-all-or-none 0 1 => abcd => Err(WriteFailed) [] 1
? write-all-or-none 1 1 => abcd => Err(WriteFailed) [97] 1
? write-all-or-none 2 1 => abcd => Err(WriteFailed) [97, 98] 1
? write-all-or-none 3 1 => abcd => Err(WriteFailed) [97, 98, 99] 1
? write-all-or-none 4 1 => abcd => Ok(()) [97, 98, 99, 100] 0
? write-all-or-none 0 3 => abcd => Err(WriteFailed) [] 1
? write-all-or-none 1 3 => abcd => Err(WriteFailed) [97] 1
? write-all-or-none 2 3 => abcd => Err(WriteFailed) [97, 98] 1
? write-all-or-none 3 3 => abcd => Err(WriteFailed) [97, 98, 99] 1
? write-all-or-none 4 3 => abcd => Ok(()) [97, 98, 99, 100] 0
? write-all-or-none 0 8 => abcd => Err(WriteFailed) [] 1
? write-all-or-none 1 8 => abcd => Err(WriteFailed) [97] 1
? write-all-or-none 2 8 => abcd => Err(WriteFailed) [97, 98] 1
? write-all-or-none 3 8 => abcd => Err(WriteFailed) [97, 98, 99] 1
? write-all-or-none 4 8 => abcd => Ok(()) [97, 98, 99, 100] 0
? lines 2 =>  => utf-8 End End 0 \"\"
? lines 1 => a\nb => utf-8 Text 0 \"a\\n\"
? lines 4 => a\nb => utf-8 Text Text End End 0 \"a\\nb\"
? lines 3 => a\nb\n => utf-8 Text Text End 0 \"a\\nb\\n\"
? lines-fail 3 => x\ny => utf-8 Text Read Read 1 \"x\\n\"
? lines-fail 3 => x\n => utf-8 Text Read Read 1 \"x\\n\"
? lines 3 => x\né¶\ny \
  => utf-8 Text Fault(LineFault { code: NotUtf8, place: Place { row: 2, column: 1 } }) Fault(LineFault { code: NotUtf8, place: Place { row: 2, column: 1 } }) 0 \"x\\n\"
? lines 3 => x\r\ny\rz\n \
  => utf-8 Text Fault(LineFault { code: LoneReturn, place: Place { row: 2, column: 1 } }) Fault(LineFault { code: LoneReturn, place: Place { row: 2, column: 1 } }) 0 \"x\\r\\n\"
? lines-fail 2 => x\ny¶ => utf-8 Text Read 1 \"x\\n\"
? lines 2 => \u{FEFF}x\n => utf-8 Text End 0 \"x\\n\"
? lines 2 => \u{FEFF} => utf-8 End End 0 \"\"
? lines 4 => #\n# coding: ascii\nx\né\n \
  => ascii Text Text Text Fault(LineFault { code: NotAscii, place: Place { row: 4, column: 0 } }) 0 \"#\\n# coding: ascii\\nx\\n\"
? lines 1 => #\n# coding: latin-1 \
  => UnsupportedEncoding(Place { row: 2, column: 0 }): unsupported encoding
? lines 3 => x\n# coding: latin-1 => utf-8 Text Text End 0 \"x\\n# coding: latin-1\"
? lines 1 => \u{FEFF}# coding: ascii\n \
  => BomConflict(Place { row: 1, column: 0 }): byte order mark with another encoding
? lines-fail 1 => x => Read: read failed
? lines-fail 1 =>  => Read: read failed
? lines-fail 1 => # c\n => Read: read failed
? lines-fail 1 => # c\n# coding: latin-1 => Read: read failed
? lines-fail 3 => # c\ny\n => utf-8 Text Text Read 1 \"# c\\ny\\n\"
? lines-fail 2 => # coding: ascii\n => ascii Text Read 1 \"# coding: ascii\\n\"
? rows => a\nb => 1 Text 2 Text 3 End 3 End \"a\\nb\"";

/// The repr of a text, that of its bytes twice, and whether the text needs no escapes.
pub(crate) fn repr(rt: &impl Abort, alloc: Global, out: &mut String, text: &str) {
    push_repr(out, text).expect(rt, "memory");
    push_repr_bytes(out, text.as_bytes()).expect(rt, "memory");
    let bytes = repr_bytes(alloc, text.as_bytes()).expect(rt, "memory");
    push(rt, out, bytes.as_str());
    push_shown(rt, out, &is_plain_text(text));
}

/// The repr of these numbers as code points. If a text may have each, the text with more of them
/// appended, a copy from before that, whether the two are equal, and the repr of the copy.
pub(crate) fn points(rt: &impl Abort, alloc: Global, out: &mut String, text: &str) {
    let mut all = Vec::new(alloc);
    for word in text.split(' ') {
        all.push(number(rt, word)).expect(rt, "memory");
    }
    push_repr_points(out, all.as_slice()).expect(rt, "memory");
    let Some(mut points) = Points::from_vec(all) else {
        return push(rt, out, " None");
    };
    let copy = points.clone().expect(rt, "memory");
    points.push(0x10_FFFF).expect(rt, "memory");
    points.push_bytes(b"a\xFF").expect(rt, "memory");
    push_shown(rt, out, &points);
    push_shown(rt, out, &copy);
    push_shown(rt, out, &(points == copy));
    push(rt, out, " ");
    let repr = repr_text(alloc, copy.as_slice()).expect(rt, "memory");
    push(rt, out, repr.as_str());
}

/// The source that bytes are: its encoding, its text and the fault after that.
pub(crate) fn decoded(rt: &impl Abort, alloc: Global, out: &mut String, text: &str) {
    let bytes = bytes_of(rt, alloc, text);
    assert!(rt; bytes.as_slice().len() < 100);
    match decode_vec(alloc, bytes) {
        Ok(source) => {
            push(rt, out, source.encoding().text());
            push_shown(rt, out, &source.encoding().charset());
            push_shown(rt, out, &source.text());
            push_shown(rt, out, &source.line_fault());
        }
        Err(fault) => push_told(rt, out, &fault),
    }
}

/// The encoding that two lines declare, with `|` between them.
pub(crate) fn declared(rt: &impl Abort, out: &mut String, text: &str) {
    let (first, second) = parts(rt, text, "|");
    match encoding_of(first.as_bytes(), second.as_bytes()) {
        Ok(encoding) => {
            push(rt, out, encoding.text());
            push_shown(rt, out, &encoding.charset());
        }
        Err(fault) => push_told(rt, out, &fault),
    }
}

/// The place of an offset.
pub(crate) fn place(rt: &impl Abort, out: &mut String, offset: &str, text: &str) {
    let offset = number(rt, offset) as usize;
    assert!(rt; text.is_char_boundary(offset));
    push_shown(rt, out, &place_of(text, offset));
}

/// All that a reader gives, a byte at a read, and the failures that it counts.
pub(crate) fn read(rt: &impl Abort, alloc: Global, out: &mut String, text: &str, fails: bool) {
    let mut reader = FakeReader::new(text.as_bytes(), 1, fails);
    push_shown(rt, out, &read_all(alloc, &mut reader));
    push_shown(rt, out, &reader.failures());
}

/// What a writer takes that has room for so many bytes and takes so many at a write, whether all
/// was written, and the failures that it counts.
pub(crate) fn written(
    rt: &impl Abort,
    alloc: Global,
    out: &mut String,
    words: &str,
    text: &str,
    takes_none: bool,
) {
    let (room, most) = parts(rt, words, " ");
    let (room, most) = (number(rt, room) as usize, number(rt, most) as usize);
    let mut writer = FakeWriter::new(alloc, most, room, takes_none);
    push_shown(rt, out, &write_all(&mut writer, text.as_bytes()));
    push_shown(rt, out, &writer.taken());
    push_shown(rt, out, &writer.failures());
}

/// What the lines of a reader are: the encoding, the answers to so many calls, the failures that
/// are counted, and the text of the lines.
fn line_answers(
    rt: &impl Abort,
    alloc: Global,
    out: &mut String,
    lines: &mut Chunks<FakeReader<'_>>,
    calls: u32,
) {
    push(rt, out, lines.encoding().text());
    let mut text = String::new(alloc);
    for _ in 0..calls {
        let line = lines.next_line(&mut text).expect(rt, "memory");
        push_shown(rt, out, &line);
    }
    push_shown(rt, out, &lines.reader().failures());
    push_shown(rt, out, &text.as_str());
}

/// The same of some bytes, which are read one at a time, or why they are refused.
pub(crate) fn lines(
    rt: &impl Abort,
    alloc: Global,
    out: &mut String,
    calls: &str,
    text: &str,
    fails: bool,
) {
    let bytes = bytes_of(rt, alloc, text);
    let reader = FakeReader::new(bytes.as_slice(), 1, fails);
    match Chunks::new(alloc, reader) {
        Ok(mut lines) => line_answers(rt, alloc, out, &mut lines, number(rt, calls)),
        Err(fault) => push_told(rt, out, &fault),
    }
}

/// The answers to four calls for a line, each with the row before it, and the text of the lines.
pub(crate) fn line_rows(rt: &impl Abort, alloc: Global, out: &mut String, text: &str) {
    let mut reader = FakeReader::new(text.as_bytes(), 2, false);
    let mut lines = LineReader::new(alloc, &mut reader).expect(rt, "a reader");
    let mut held = String::new(alloc);
    for _ in 0..4u64 {
        assert!(rt; reader.failures() == 0);
        push_shown(rt, out, &lines.row());
        let line = lines.next_line(&mut reader, &mut held).expect(rt, "memory");
        push_shown(rt, out, &line);
    }
    push_shown(rt, out, &held.as_str());
}
