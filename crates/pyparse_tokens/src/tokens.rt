//! The tokens of a source.

ghost use Rattle.std.specs.Prelude.{◌≡◌, map, IfOk, IfErr, OnOk, None};
ghost use Rattle.pylex_listing.specs.Listing.{in_characters};
ghost use Rattle.pytoken.specs.Tokens.{tokens};
ghost use Rattle.pytoken.specs.Refusals.{refusal};
ghost use Rattle.pytoken.specs.Laws.{AreLawful, TokensAreSound, ExtentsDifferInNumbers};
ghost use Rattle.pyparse_tokens.specs.Answers.{token_of, Tells};

use crate::faults::ParseFault;
use crate::gather::Gather;
use pylex::{Kind, Lister, Step};
use pysource::{Place, Source};
use pytoken::Refusal;
use pytree_node::Extent;
use std::alloc::Global;

/// A token as the grammar reads it: its type, where it starts, and its text, lent from the source.
#[derive(Clone, Copy, Debug, PartialEq, Eq)]
pub struct Token<'a> {
    pub kind: Kind,
    pub start: Place,
    pub text: &'a str,
}

/// The tokens of a source, read in an extent of the language: its listing without the encoding,
/// comments, and line ends that close no token, and with a NEWLINE where the last one is missing.
///
/// # Errors
///
/// [`ParseFault::Refused`] by the fault that ends the listing; else by the first token or comment
/// with a fault of its own; else by the first bracket with 600 open around it; else by the first
/// line whose indentation depends on how wide a tab is.
pub fn tokens_of<'a>(
    alloc: Global,
    source: &'a Source,
    extent: Extent,
) -> Result<Vec<Token<'a>>, ParseFault>
    ensures tokens { IfOk result (λ ts. map token_of ts.items ≡ tokens (in_characters source.now)) }
    ensures sound { OnOk result (refusal extent (in_characters source.now) ≡ None) }
    ensures refused { IfErr result (Tells (refusal extent (in_characters source.now))) }
    ensures lawful { AreLawful }
    ensures typed { TokensAreSound (in_characters source.now) }
    ensures extents { ExtentsDifferInNumbers (in_characters source.now) }
{
    let mut lister = Lister::new(alloc, source);
    let mut gather = Gather::new(alloc, source, extent)?;
    loop {
        match lister.next()? {
            Step::Entry(entry) => gather.take(alloc, source, &entry)?,
            Step::End => return gather.finish(),
            Step::Fault(fault) => return Err(ParseFault::Refused(Refusal::Listing(fault))),
        }
    }
}
