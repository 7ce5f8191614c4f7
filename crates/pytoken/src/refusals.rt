//! Why a source has no tokens.

use crate::faults::TokenError;
use pylex_listing::ListingFault;
use pysource::Place;

/// Why a source has no tokens. Where there are several reasons, the first of these kinds is
/// reported, and of its kind the first in the source.
#[derive(Clone, Copy, Debug, PartialEq, Eq)]
pub enum Refusal {
    /// The fault that ends its listing.
    Listing(ListingFault),
    /// A token or a comment with a fault of its own, and where it starts.
    Token(TokenError, Place),
    /// An opening bracket with 600 open around it.
    TooDeep(Place),
    /// A line whose indentation depends on how wide a tab is, at its first character that isn't a
    /// blank.
    MixedTabs(Place),
}
