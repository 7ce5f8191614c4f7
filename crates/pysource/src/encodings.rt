//! The encoding that the first two lines of a source declare.
//!
//! Python language reference, 2.1.4 "Encoding declarations", and `detect_encoding` of the module
//! `tokenize` of the library reference. UTF-8 and ASCII are the encodings here.

ghost use Rattle.std.specs.Prelude.{◌≡◌, ◌≤◌, ◌<◌, length, take, ◌==◌, IfOk, IsTrue};
ghost use Rattle.std.specs.List.{prefix_len};
ghost use Rattle.std.specs.Str.{IsAscii};
ghost use Rattle.pysource.specs.Cookies.{is_blank, is_space_or_tab, is_cookie_byte, folded};
ghost use Rattle.pysource.specs.Cookies.{is_spelled, declared_here, declared_first, cookie_of};
ghost use Rattle.pysource.specs.Cookies.{leads_on, named_by, encoding_of, has_mark, without_mark};
ghost use Rattle.pysource.specs.Cookies.{plain};

use crate::places::Place;
use std::marker::Model;
use thiserror::Error;

/// Which bytes are text.
#[derive(Debug, Clone, Copy, PartialEq, Eq, Drop)]
pub enum Charset {
    /// The bytes that are well-formed UTF-8.
    Utf8,
    /// The bytes up to 7F.
    Ascii,
}

/// An encoding, by its character set and its name.
///
/// The name is `utf-8`, or a spelling of `utf8`, `ascii` or `us-ascii`: ASCII of at most 8 bytes,
/// which are kept here, so that an encoding takes no memory of its own.
#[derive(Drop)]
pub struct Encoding {
    charset: Charset,
    letters: [u8; 8],
    len: usize,
}

impl Model for Encoding {
    ghost use Rattle.std.specs.Prelude.{◌≤◌, take};
    ghost use Rattle.std.specs.Str.{IsAscii};
    ghost use Rattle.pysource.specs.Names.{Named};

    ghost Value = { Named };

    ghost view = { λ e. record { charset = e.charset; name = take e.len e.letters } };

    ghost invariant = { λ e. (e.len ≤ 8) × IsAscii (take e.len e.letters) };
}

/// Why bytes are no source.
#[derive(Debug, Drop, Error)]
pub enum SourceFault {
    /// The cookie of this row (column 0) names another encoding than UTF-8 or ASCII.
    #[error("unsupported encoding")]
    UnsupportedEncoding(Place),
    /// The cookie of this row (column 0) names ASCII, though a byte order mark stands in front.
    #[error("byte order mark with another encoding")]
    BomConflict(Place),
    /// Memory for the text ran out.
    #[error("out of memory")]
    Memory,
}

impl Encoding {
    /// An encoding by this name.
    fn new(charset: Charset, name: &[u8]) -> Encoding
        requires short { length name.now ≤ 8 }
        requires ascii { IsAscii name.now }
        ensures charset { result.charset ≡ charset }
        ensures name { result.name ≡ name.now }
    {
        let mut letters = [0; 8];
        letters[..name.len()].copy_from_slice(name);
        Encoding {
            charset,
            letters,
            len: name.len(),
        }
    }

    /// Which bytes are text in it.
    pub fn charset(&self) -> Charset
        ensures { result ≡ self.now.charset }
    {
        self.charset
    }

    /// Its name, as a listing shows it: `utf-8`, or for another accepted spelling the cookie as
    /// it is written.
    pub fn text(&self) -> &str
        ensures { result.now ≡ self.now.name }
    {
        // The invariant has it that the name is ASCII.
        unsafe { std::str::from_utf8_unchecked(&self.letters[..self.len]) }
    }
}

/// How many blanks stand in front: spaces, tabs and form feeds.
fn blanks_len(bytes: &[u8]) -> usize
    ensures value { result ≡ prefix_len is_blank bytes.now }
    ensures within { result ≤ length bytes.now }
{
    bytes
        .iter()
        .take_while(|b| **b == b' ' || **b == b'\t' || **b == 0x0C)
        .count()
}

/// How many spaces and tabs stand in front.
fn spaces_len(bytes: &[u8]) -> usize
    ensures value { result ≡ prefix_len is_space_or_tab bytes.now }
    ensures within { result ≤ length bytes.now }
{
    bytes
        .iter()
        .take_while(|b| **b == b' ' || **b == b'\t')
        .count()
}

/// Whether a byte can stand in a cookie.
fn is_cookie_byte(b: u8) -> bool
    ensures { result ≡ is_cookie_byte b }
{
    b.is_ascii_alphanumeric() || b == b'_' || b == b'-' || b == b'.'
}

/// How many bytes of a cookie stand in front.
fn cookie_len(bytes: &[u8]) -> usize
    ensures value { result ≡ prefix_len is_cookie_byte bytes.now }
    ensures within { result ≤ length bytes.now }
{
    bytes.iter().take_while(|b| is_cookie_byte(**b)).count()
}

/// The cookie of bytes that begin with `coding`, `:` or `=`, spaces or tabs and that cookie; else
/// nothing.
fn declared_here(bytes: &[u8]) -> &[u8]
    ensures { result.now ≡ declared_here bytes.now }
{
    if !bytes.starts_with(b"coding") || bytes.len() < 7 || (bytes[6] != b':' && bytes[6] != b'=') {
        return &bytes[..0];
    }
    let rest = &bytes[7..];
    let rest = &rest[spaces_len(rest)..];
    &rest[..cookie_len(rest)]
}

/// The cookie at the first place that has one; nothing where no place has.
fn declared_first(bytes: &[u8]) -> &[u8]
    ensures { result.now ≡ declared_first bytes.now }
{
    for at in 0..bytes.len() {
        let here = declared_here(&bytes[at..]);
        if !here.is_empty() {
            return here;
        }
    }
    &bytes[..0]
}

/// The cookie of a line: its first non-blank is a `#`, and the cookie stands after that. Nothing
/// where the line has none.
pub(crate) fn cookie_of(line: &[u8]) -> &[u8]
    ensures { result.now ≡ cookie_of line.now }
{
    let rest = &line[blanks_len(line)..];
    match rest.first() {
        Some(b'#') => declared_first(&rest[1..]),
        _ => &rest[..0],
    }
}

/// Whether the second line is searched too where this first one has no cookie: it holds blanks
/// alone, or a comment alone.
pub(crate) fn leads_on(line: &[u8]) -> bool
    ensures { result ≡ leads_on line.now }
{
    let rest = &line[blanks_len(line)..];
    rest.is_empty() || rest[0] == b'#' || rest == b"\n".as_slice() || rest == b"\r\n".as_slice()
}

/// A byte in lower case, and `-` for `_`.
fn folded(b: u8) -> u8
    ensures { result ≡ folded b }
{
    if b == b'_' {
        b'-'
    } else {
        b.to_ascii_lowercase()
    }
}

/// Whether a cookie is the word, but for case and `_`.
fn is_spelled(cookie: &[u8], word: &[u8]) -> bool
    ensures { result ≡ is_spelled cookie.now word.now }
{
    match (cookie.split_first(), word.split_first()) {
        (Some((b, bs)), Some((w, ws))) => folded(*b) == *w && is_spelled(bs, ws),
        (None, None) => true,
        _ => false,
    }
}

/// Whether the byte order mark of UTF-8 stands in front.
pub(crate) fn has_mark(bytes: &[u8]) -> bool
    ensures value { result ≡ has_mark bytes.now }
    ensures within { IsTrue result → 3 ≤ length bytes.now }
{
    bytes.starts_with(&[0xEF, 0xBB, 0xBF])
}

/// The bytes after the byte order mark, where one stands in front.
pub fn without_mark(bytes: &[u8]) -> &[u8]
    ensures { result.now ≡ without_mark bytes.now }
{
    if has_mark(bytes) { &bytes[3..] } else { bytes }
}

/// The encoding of a source that declares none.
fn plain() -> Encoding
    ensures { result ≡ plain }
{
    Encoding::new(Charset::Utf8, b"utf-8")
}

/// The encoding that the cookie of this row names, where a byte order mark stands in front or not.
fn named_by(marked: bool, row: usize, cookie: &[u8]) -> Result<Encoding, SourceFault>
    ensures { result ≡ named_by marked row cookie.now }
{
    let place = Place { row, column: 0 };
    if is_spelled(cookie, b"utf-8") || cookie.len() >= 6 && is_spelled(&cookie[..6], b"utf-8-") {
        Ok(plain())
    } else if is_spelled(cookie, b"utf8") {
        Ok(if marked {
            plain()
        } else {
            Encoding::new(Charset::Utf8, cookie)
        })
    } else if is_spelled(cookie, b"ascii") || is_spelled(cookie, b"us-ascii") {
        if marked {
            Err(SourceFault::BomConflict(place))
        } else {
            Ok(Encoding::new(Charset::Ascii, cookie))
        }
    } else {
        Err(SourceFault::UnsupportedEncoding(place))
    }
}

/// The encoding that the first two lines of a source declare: UTF-8 where they declare none.
///
/// `first` and `second` are the bytes of these lines, the byte order mark still in front; a line
/// that isn't there is empty. The second is searched only where the first holds blanks or a
/// comment alone, without a cookie.
///
/// `UnsupportedEncoding` is answered for a cookie of another encoding, and `BomConflict` for one
/// of ASCII after a byte order mark, both at the cookie's row and column 0. It takes no memory, so
/// it never answers `Memory`. Python language reference, 2.1.4.
pub fn encoding_of(first: &[u8], second: &[u8]) -> Result<Encoding, SourceFault>
    ensures { result ≡ encoding_of first.now second.now }
{
    let marked = has_mark(first);
    let line = without_mark(first);
    let cookie = cookie_of(line);
    if !cookie.is_empty() {
        return named_by(marked, 1, cookie);
    }
    if leads_on(line) {
        let cookie = cookie_of(second);
        if !cookie.is_empty() {
            return named_by(marked, 2, cookie);
        }
    }
    Ok(plain())
}
