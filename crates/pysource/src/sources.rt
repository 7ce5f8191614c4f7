//! The source that bytes are: its encoding, its text and the first fault of its lines.
//!
//! Python language reference, 2.1.2 "Physical lines" and 2.1.4 "Encoding declarations".
//!
//! A line ends at its line feed, and a carriage return is part of a line end only directly before
//! that. A line is faulty where it has a byte that its encoding doesn't allow, or another carriage
//! return. No multi-byte sequence of UTF-8 goes past a line feed, so the first bad byte of the
//! whole is the first bad byte of the first faulty line: one pass over all the bytes finds it.

ghost use Rattle.std.specs.Prelude.{◌≡◌, ◌≢◌, ℕ, ◌≤◌, ◌<◌, ◌+◌, ◌-◌, false, length, take, drop};
ghost use Rattle.std.specs.Prelude.{slice_index, IsUtf8, MatchOption};
ghost use Rattle.std.specs.Str.Lossy.{utf8_valid_len};
ghost use Rattle.pysource.specs.Characters.{carriage_return};
ghost use Rattle.pysource.specs.Cookies.{encoding_of};
ghost use Rattle.pysource.specs.Limits.{source_limit};
ghost use Rattle.pysource.specs.Lines.{first_bad, good_text, line_fault, lines_of, lone_return_at};
ghost use Rattle.pysource.specs.Lines.{bad_at, invalid};
ghost use Rattle.pysource.specs.Sources.{source_of, UnlessMemory, nth_line};
ghost use Rattle.pysource.specs.Streams.{stream_of, as_stream};

use crate::encodings::{Charset, Encoding, SourceFault, encoding_of, has_mark, without_mark};
use crate::faults::{LineError, LineFault};
use crate::places::{last_line, place_of};
use std::alloc::Global;
use std::marker::Model;

/// A source: its encoding, the text of the lines before the first faulty one, and that line's
/// fault. The text has at most 1,073,741,824 bytes.
#[derive(Drop)]
pub struct Source {
    encoding: Encoding,
    text: String,
    fault: Option<LineFault>,
}

impl Model for Source {
    ghost use Rattle.std.specs.Prelude.{◌≤◌, length};
    ghost use Rattle.std.specs.String.{string_bytes};
    ghost use Rattle.pysource.specs.Limits.{source_limit};
    ghost use Rattle.pysource.specs.Parts.{Parts};

    ghost Value = { Parts };

    ghost view = { λ s. record
        { encoding = s.encoding; text = string_bytes s.text; fault = s.fault } };

    ghost invariant = { λ s. length (string_bytes s.text) ≤ source_limit };
}

impl Source {
    /// The encoding that the first two lines declare.
    pub fn encoding(&self) -> &Encoding
        ensures { result.now ≡ self.now.encoding }
    {
        &self.encoding
    }

    /// The text of the lines before the first faulty one, without the byte order mark: the whole
    /// text where no line is faulty.
    pub fn text(&self) -> &str
        ensures value { result.now ≡ self.now.text }
        ensures within { length result.now ≤ source_limit }
    {
        self.text.as_str()
    }

    /// The fault of the first faulty line, by the line's row and the characters before the bad
    /// byte in it; `None` where no line is faulty.
    pub fn line_fault(&self) -> Option<LineFault>
        ensures { result ≡ self.now.fault }
    {
        self.fault
    }
}

/// The length of the longest front that is UTF-8.
#[tactic(auto, using(crate::proofs::FaultyLines::LinesLemmas::valid_all))]
fn utf8_len(bytes: &[u8]) -> usize
    ensures { result ≡ utf8_valid_len bytes.now }
{
    match simdutf8::compat::from_utf8(bytes) {
        Ok(_) => bytes.len(),
        Err(e) => e.valid_up_to(),
    }
}

/// The length of the longest front that is ASCII.
fn ascii_len(bytes: &[u8]) -> usize
    ensures within { result ≤ length bytes.now }
    ensures before { (k : ℕ) → k < result → slice_index bytes.now k < 128 }
    ensures at { result < length bytes.now → 128 ≤ slice_index bytes.now result }
{
    if bytes.is_ascii() {
        return bytes.len();
    }
    bytes.iter().position(|b| *b >= 128).unwrap_or(bytes.len())
}

/// The place of the first CR from a place on, or the length.
fn find_return(bytes: &[u8], from: usize) -> usize
    requires { from ≤ length bytes.now }
    ensures low { from ≤ result }
    ensures within { result ≤ length bytes.now }
    ensures before { (k : ℕ) → from ≤ k → k < result → slice_index bytes.now k ≢ carriage_return }
    ensures at { result < length bytes.now → slice_index bytes.now result ≡ carriage_return }
{
    match memchr::memchr(b'\r', &bytes[from..]) {
        None => bytes.len(),
        Some(i) => from + i,
    }
}

/// The place of the first CR that no LF follows, or the length.
#[tactic(auto, using(crate::proofs::FaultyLines::ReturnsLemmas::lone_none_byte, crate::proofs::FaultyLines::ReturnsLemmas::lone_none_lf, crate::proofs::FaultyLines::ReturnsLemmas::lone_some))]
fn lone_return(bytes: &[u8]) -> usize
    ensures within { result ≤ length bytes.now }
    ensures before { (k : ℕ) → k < result → lone_return_at bytes.now k ≡ None }
    ensures at { result < length bytes.now →
        lone_return_at bytes.now result ≡ Some LineError.LoneReturn }
    ensures byte { result < length bytes.now → slice_index bytes.now result ≡ carriage_return }
{
    let mut from = 0;
    while from < bytes.len() {
        let at = find_return(bytes, from);
        if at == bytes.len() {
            return at;
        }
        if at + 1 == bytes.len() || bytes[at + 1] != b'\n' {
            return at;
        }
        from = at + 2;
    }
    bytes.len()
}

/// The length of the longest front that the character set allows.
#[tactic(auto, using(crate::proofs::FaultyLines::BadLemmas::utf8_before, crate::proofs::FaultyLines::BadLemmas::utf8_at, crate::proofs::FaultyLines::BadLemmas::ascii_before, crate::proofs::FaultyLines::BadLemmas::ascii_at))]
fn valid_len(charset: Charset, bytes: &[u8]) -> usize
    ensures within { result ≤ length bytes.now }
    ensures before { (k : ℕ) → k < result →
        bad_at charset bytes.now k ≡ lone_return_at bytes.now k }
    ensures at { result < length bytes.now
        → bad_at charset bytes.now result ≡ Some (invalid charset) }
    ensures front { IsUtf8 (take result bytes.now) }
{
    match charset {
        Charset::Utf8 => utf8_len(bytes),
        Charset::Ascii => ascii_len(bytes),
    }
}

/// What a byte is that the character set doesn't allow.
fn invalid(charset: Charset) -> LineError
    ensures { result ≡ invalid charset }
{
    match charset {
        Charset::Utf8 => LineError::NotUtf8,
        Charset::Ascii => LineError::NotAscii,
    }
}

/// The offset of the first bad byte, over all lines at once, and what is wrong with it.
pub(crate) fn first_bad(charset: Charset, bytes: &[u8]) -> Option<(usize, LineError)>
    ensures value { result ≡ first_bad charset bytes.now }
    ensures front { MatchOption result (IsUtf8 bytes.now)
        (λ bad. (bad.0 < length bytes.now) × IsUtf8 (take bad.0 bytes.now)) }
{
    let valid = valid_len(charset, bytes);
    let lone = lone_return(bytes);
    if lone < valid {
        Some((lone, LineError::LoneReturn))
    } else if valid < bytes.len() {
        Some((valid, invalid(charset)))
    } else {
        None
    }
}

/// The text of the lines before the first faulty one, and that line's fault.
fn good_part(charset: Charset, bytes: &[u8]) -> (&str, Option<LineFault>)
    ensures text { result.0.now ≡ good_text charset (lines_of bytes.now) }
    ensures within { length result.0.now ≤ length bytes.now }
    ensures fault { result.1 ≡ line_fault charset 1 (lines_of bytes.now) }
{
    match first_bad(charset, bytes) {
        // What stands before the first bad byte is text, as `first_bad` ensures.
        None => (unsafe { std::str::from_utf8_unchecked(bytes) }, None),
        Some((at, code)) => {
            let before = unsafe { std::str::from_utf8_unchecked(&bytes[..at]) };
            let start = at - last_line(before).len();
            let place = place_of(before, at);
            (&before[..start], Some(LineFault { code, place }))
        }
    }
}

/// The first line, with its line feed, and what follows.
fn cut_line(bytes: &[u8]) -> (&[u8], &[u8])
    ensures first { result.0.now ≡ nth_line bytes.now 0 }
    ensures second { nth_line result.1.now 0 ≡ nth_line bytes.now 1 }
{
    match memchr::memchr(b'\n', bytes) {
        None => (bytes, &bytes[bytes.len()..]),
        Some(at) => bytes.split_at(at + 1),
    }
}

/// The encoding that the first two lines declare, or the fault of what they declare.
fn declared(bytes: &[u8]) -> Result<Encoding, SourceFault>
    ensures { result ≡ encoding_of (nth_line bytes.now 0) (nth_line bytes.now 1) }
{
    let (first, rest) = cut_line(bytes);
    let (second, _) = cut_line(rest);
    encoding_of(first, second)
}

/// The source that the bytes of a file are, in two passes over them and one copy of the text.
///
/// It answers `UnsupportedEncoding` and `BomConflict` as [`encoding_of`] does for the first two
/// lines, whatever the lines hold otherwise, and `Memory` where there is none for the text. A
/// faulty line is no error: the source holds its fault.
///
/// Where no read fails the source of a stream, as [`LineReader`](crate::LineReader) gives it, is
/// that of its bytes.
#[tactic(auto, using(crate::proofs::LineReading::StreamLemmas::stream_is_source))]
pub fn decode(alloc: Global, bytes: &[u8]) -> Result<Source, SourceFault>
    requires { length bytes.now ≤ source_limit }
    ensures value { UnlessMemory result (source_of bytes.now) }
    ensures stream { stream_of false bytes.now ≡ as_stream (source_of bytes.now) }
{
    let encoding = declared(bytes)?;
    let (text, fault) = good_part(encoding.charset(), without_mark(bytes));
    match String::from_str(alloc, text) {
        Ok(text) => Ok(Source {
            encoding,
            text,
            fault,
        }),
        Err(_) => Err(SourceFault::Memory),
    }
}

/// The source that the bytes of a file are, as [`decode`] gives it.
pub fn decode_vec(alloc: Global, bytes: Vec<u8>) -> Result<Source, SourceFault>
    requires { length bytes.items ≤ source_limit }
    ensures { UnlessMemory result (source_of bytes.items) }
{
    let encoding = declared(bytes.as_slice())?;
    // Where all bytes are text they become the source's own, which spares a copy.
    if has_mark(bytes.as_slice()) || first_bad(encoding.charset(), bytes.as_slice()).is_some() {
        return decode(alloc, bytes.as_slice());
    }
    Ok(Source {
        encoding,
        // Bytes of which none is bad are UTF-8, as `first_bad` ensures.
        text: unsafe { String::from_utf8_unchecked(bytes) },
        fault: None,
    })
}
