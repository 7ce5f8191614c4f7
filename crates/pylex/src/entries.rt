//! What lexemes give to a listing, and the text of an entry.

ghost use Rattle.std.specs.Prelude.{◌≡◌, ◌≢◌};
ghost use Rattle.pylex_listing.specs.ListingLines.{text_of};
ghost use Rattle.pylex_listing.specs.Laws.{LiesIn};

use pylex_listing::{Entry, Kind, ListingFault};
use pysource::Source;

/// What a lexeme or the text's end gives to a listing.
#[derive(Clone, Copy, Debug, PartialEq, Eq)]
pub enum Emitted {
    Nothing,
    Entry(Entry),
    Fault(ListingFault),
}

/// The text of an entry of a source: the encoding's name for the entry of the encoding, and
/// otherwise what stands between its offsets.
pub fn text<'a>(source: &'a Source, entry: &Entry) -> &'a str
    requires { entry.now.kind ≢ Kind.Encoding → LiesIn source.now.text entry.now }
    ensures { result.now ≡ text_of source.now entry.now }
{
    match entry.kind {
        Kind::Encoding => source.encoding().text(),
        _ => &source.text()[entry.from..entry.to],
    }
}
