//! Places of a text, as the module `tokenize` of the Python library reference gives them: rows
//! count from 1, columns from 0 and in characters.

ghost use Rattle.std.specs.Prelude.{◌≡◌};
ghost use Rattle.std.specs.List.{after_last};
ghost use Rattle.std.specs.Str.{IsCharBoundary};
ghost use Rattle.pysource.specs.Places.{place_at, is_lf};

/// A row, from 1 on, and a column, from 0 on, in characters.
#[derive(Debug, Clone, Copy, PartialEq, Eq, Drop)]
pub struct Place {
    /// 1 and the line feeds before the place.
    pub row: usize,
    /// The characters since the last line feed.
    pub column: usize,
}

/// What stands after the last line feed: the whole text where there is none.
pub fn last_line(text: &str) -> &str
    ensures { result.now ≡ after_last is_lf text.now }
{
    match memchr::memrchr(b'\n', text.as_bytes()) {
        Some(at) => &text[at + 1..],
        None => text,
    }
}

/// The row and column of an offset of a text, which counts bytes and stands before a character or
/// at the end.
pub fn place_of(text: &str, offset: usize) -> Place
    requires { IsCharBoundary text.now offset }
    ensures { result ≡ place_at text.now offset }
{
    let before = &text[..offset];
    Place {
        row: 1 + before.bytes().filter(|b| *b == b'\n').count(),
        column: last_line(before).chars().count(),
    }
}
