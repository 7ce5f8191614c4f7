//! The listing of a source that is held whole.

ghost use Rattle.std.specs.Prelude.{◌≡◌, count_by, IfOk};
ghost use Rattle.pylex_listing.specs.Listing.{in_characters, listing};
ghost use Rattle.pylex_listing.specs.Steps.{entries_of};
ghost use Rattle.examples.specs.Listings.{is_name};

use pylex::{Entry, Kind, Lister, Step};
use pysource::Source;
use std::alloc::{AllocError, Global};

/// Whether an entry is a name, or a keyword.
fn is_name(entry: &Entry) -> bool
    ensures { result ≡ is_name entry.now }
{
    match entry.kind {
        Kind::Name => true,
        _ => false,
    }
}

/// How many names and keywords a source has before its end or its fault.
pub fn count_names(alloc: Global, source: &Source) -> Result<usize, AllocError>
    ensures { IfOk result
        (λ count. count ≡ count_by is_name (entries_of (listing (in_characters source.now)))) }
{
    let mut lister = Lister::new(alloc, source);
    let mut count = 0;
    while let Step::Entry(entry) = lister.next()? {
        if is_name(&entry) {
            count += 1;
        }
    }
    Ok(count)
}
