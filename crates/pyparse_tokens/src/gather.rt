//! What one pass over a listing gathers: tokens, and the first faults.

ghost use Rattle.std.specs.Prelude.{◌≡◌, ◌^◌, ◌<◌, false, [], ◌∷◌, map, IfOk, IfErr, OnOk, None};
ghost use Rattle.std.specs.Str.{chars, IsCharBoundary};
ghost use Rattle.pylex_listing.specs.Laws.{LiesIn};
ghost use Rattle.pytoken.specs.Tokens.{text_of, supplied, tokens_of_entry};
ghost use Rattle.pytoken.specs.Tokens.{token_of as text_token};
ghost use Rattle.pytoken.specs.Refusals.{entry_refusal};
ghost use Rattle.pyparse_tokens.specs.Answers.{token_of, Tells};
ghost use Rattle.pyparse_tokens.specs.Inner.LineGathering.{stands_in_line};
ghost use Rattle.pyparse_tokens.specs.Inner.Passing.{kept_refusal};
ghost use Rattle.pyparse_tokens.specs.Inner.Gathering.{Grows, Gathers, Gathered};

use crate::faults::ParseFault;
use crate::pass::Pass;
use crate::tokens::Token;
use pylex::{Entry, Kind};
use pysource::{Place, Source, place_of};
use pytoken::{Refusal, token_fault};
use pytree_node::Extent;
use std::alloc::{AllocError, Global};

/// What stands between an entry's offsets in a source.
#[inline(always)]
pub(crate) fn text_of<'a>(source: &'a Source, entry: &Entry) -> &'a str
    requires { LiesIn source.now.text entry.now }
    ensures { chars result.now ≡ text_of (chars source.now.text) entry.now }
{
    &source.text()[entry.from..entry.to]
}

/// The refusal of an entry with a fault of its own in an extent of the language.
pub(crate) fn entry_fault(
    alloc: Global,
    extent: Extent,
    source: &Source,
    entry: &Entry,
) -> Result<Option<Refusal>, AllocError>
    requires { LiesIn source.now.text entry.now }
    ensures { IfOk result
        (λ fault. fault ≡ entry_refusal extent (chars source.now.text) entry.now) }
{
    match token_fault(alloc, extent, entry.kind, text_of(source, entry))? {
        Some(error) => Ok(Some(Refusal::Token(error, entry.start))),
        None => Ok(None),
    }
}

/// The refusal of an entry with a fault of its own that stands in no line: a comment alone may have
/// one.
#[inline(always)]
pub(crate) fn fault_beside(
    alloc: Global,
    extent: Extent,
    source: &Source,
    entry: &Entry,
) -> Result<Option<Refusal>, AllocError>
    requires lies { LiesIn source.now.text entry.now }
    requires beside { stands_in_line entry.now.kind ≡ false }
    ensures { IfOk result
        (λ fault. fault ≡ entry_refusal extent (chars source.now.text) entry.now) }
{
    match entry.kind {
        Kind::Comment => entry_fault(alloc, extent, source, entry),
        _ => Ok(None),
    }
}

/// Appends a token.
fn push<'a>(
    tokens: &mut Vec<Token<'a>>,
    kind: Kind,
    start: Place,
    text: &'a str,
) -> Result<(), AllocError>
    ensures { OnOk result
        (Grows tokens.old.items tokens.new.items
        (record { kind = kind; start = start; text = chars text.now } ∷ [])) }
{
    tokens.push(Token { kind, start, text })?;
    Ok(())
}

/// Appends the token of an entry.
fn push_entry<'a>(
    tokens: &mut Vec<Token<'a>>,
    source: &'a Source,
    entry: &Entry,
) -> Result<(), AllocError>
    requires { LiesIn source.now.text entry.now }
    ensures { OnOk result
        (Grows tokens.old.items tokens.new.items
        (text_token (chars source.now.text) entry.now ∷ [])) }
{
    push(tokens, entry.kind, entry.start, text_of(source, entry))
}

/// Appends the NEWLINE that stands for a missing one.
fn push_newline<'a>(tokens: &mut Vec<Token<'a>>, source: &'a Source) -> Result<(), AllocError>
    ensures { OnOk result
        (Grows tokens.old.items tokens.new.items (supplied (chars source.now.text) ∷ [])) }
{
    let text = source.text();
    push(tokens, Kind::Newline, place_of(text, text.len()), "")
}

/// Appends the tokens that an entry gives, by whether its line has tokens and no NEWLINE yet.
fn push_given<'a>(
    tokens: &mut Vec<Token<'a>>,
    source: &'a Source,
    entry: &Entry,
    begun: bool,
) -> Result<(), AllocError>
    requires { LiesIn source.now.text entry.now }
    ensures { OnOk result
        (Grows tokens.old.items tokens.new.items
        (tokens_of_entry (chars source.now.text) begun entry.now)) }
{
    match entry.kind {
        Kind::Encoding | Kind::Comment | Kind::Nl => Ok(()),
        Kind::Newline => {
            if begun {
                push_entry(tokens, source, entry)
            } else {
                Ok(())
            }
        }
        Kind::Dedent | Kind::EndMarker => {
            if begun {
                push_newline(tokens, source)?;
            }
            push_entry(tokens, source, entry)
        }
        _ => push_entry(tokens, source, entry),
    }
}

/// What one pass over a listing has gathered after some of its entries.
#[derive(Drop)]
pub(crate) struct Gather<'a> {
    tokens: Vec<Token<'a>>,
    pass: Pass,
}

impl<'a> Gather<'a> {
    /// No entry of a source was read.
    pub(crate) fn new(
        alloc: Global,
        source: &'a Source,
        extent: Extent,
    ) -> Result<Gather<'a>, AllocError>
        requires { IsCharBoundary source.now.text 0 }
        ensures gathered { IfOk result (λ made. Gathered (chars source.now.text) [] made) }
        ensures extent { IfOk result (λ made. made.pass.extent ≡ extent) }
    {
        Ok(Gather {
            tokens: Vec::new(alloc),
            pass: Pass::new(alloc, source, extent)?,
        })
    }

    /// Takes the next entry of a source's listing.
    pub(crate) fn take(
        &mut self,
        alloc: Global,
        source: &'a Source,
        entry: &Entry,
    ) -> Result<(), AllocError>
        requires lies { LiesIn source.now.text entry.now }
        requires opened { self.old.pass.opened < 2 ^ 63 }
        requires closed { self.old.pass.closed < 2 ^ 63 }
        ensures { OnOk result (Gathers (chars source.now.text) entry.now self.old self.new) }
    {
        let begun = self.pass.has_begun();
        push_given(&mut self.tokens, source, entry, begun)?;
        let faulty = entry_fault(alloc, self.pass.extent(), source, entry)?;
        self.pass.take(source, entry, faulty)
    }

    /// The tokens, or the first refusal, after all entries.
    pub(crate) fn finish(self) -> Result<Vec<Token<'a>>, ParseFault>
        ensures tokens { IfOk result (λ ts. map token_of ts.items
            ≡ map token_of self.entry.tokens.items) }
        ensures sound { OnOk result (kept_refusal self.entry.pass ≡ None) }
        ensures refused { IfErr result (Tells (kept_refusal self.entry.pass)) }
    {
        match self.pass.refusal() {
            Some(refusal) => Err(ParseFault::Refused(refusal)),
            None => Ok(self.tokens),
        }
    }
}
