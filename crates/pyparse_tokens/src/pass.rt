//! What one pass over a listing keeps of its faults.

ghost use Rattle.std.specs.Prelude.{◌≡◌, ◌^◌, ◌<◌, [], true, false, IfOk, OnOk};
ghost use Rattle.std.specs.Str.{IsCharBoundary, chars};
ghost use Rattle.pylex_listing.specs.Laws.{LiesIn};
ghost use Rattle.pytoken.specs.Brackets.{opens, closes};
ghost use Rattle.pyparse_tokens.specs.Inner.Passing.{still_open, line_ends, exceeding, counted};
ghost use Rattle.pyparse_tokens.specs.Inner.Passing.{kept_refusal, TakesBracket, Gains, Passed};
ghost use Rattle.pyparse_tokens.specs.Inner.Walking.{PassesOperator, PassesLineEnd};
ghost use Rattle.std.specs.Option.{option_or};

use crate::indents::Indents;
use pylex::{Entry, Exact, Kind};
use pysource::Source;
use pytoken::Refusal;
use pytree_node::Extent;
use std::alloc::{AllocError, Global};

/// The most brackets that may be open at once.
const MOST_BRACKETS: usize = 600;

/// Whether an entry is an opening bracket.
fn opens(entry: &Entry) -> bool
    ensures { result ≡ opens entry.now }
{
    match entry.exact {
        Some(exact) => exact.is_opener(),
        None => false,
    }
}

/// Whether an entry is a closing bracket.
fn closes(entry: &Entry) -> bool
    ensures { result ≡ closes entry.now }
{
    match entry.exact {
        Some(exact) => exact.is_closer(),
        None => false,
    }
}

/// A count, with one more where that is said.
fn counted(count: usize, more: bool) -> usize
    requires { count < 2 ^ 63 }
    ensures { result ≡ counted count more }
{
    if more { count + 1 } else { count }
}

/// Whether a line has tokens and no NEWLINE after an entry, by whether it had before.
fn still_open(kind: Kind, begun: bool) -> bool
    ensures { result ≡ still_open kind begun }
{
    match kind {
        Kind::Comment | Kind::Nl => begun,
        Kind::Name | Kind::Number | Kind::String | Kind::Op => true,
        _ => false,
    }
}

/// Whether an entry of this type ends a line, after so many opening and closing brackets.
fn line_ends(kind: Kind, opened: usize, closed: usize) -> bool
    ensures { result ≡ line_ends kind opened closed }
{
    match kind {
        Kind::Newline | Kind::Nl => opened.saturating_sub(closed) == 0,
        _ => false,
    }
}

/// Keeps a refusal, if there is one, where none is kept yet.
#[inline(always)]
fn keep(kept: &mut Option<Refusal>, refusal: Option<Refusal>)
    ensures { kept.new ≡ option_or kept.old refusal }
{
    if refusal.is_some() && kept.is_none() {
        *kept = refusal;
    }
}

/// The first of two refusals.
fn first(one: Option<Refusal>, other: Option<Refusal>) -> Option<Refusal>
    ensures { result ≡ option_or one other }
{
    match one {
        Some(refusal) => Some(refusal),
        None => other,
    }
}

/// What one pass over a listing keeps of its faults after some of its entries.
#[derive(Drop)]
pub(crate) struct Pass {
    /// How much of the language is read.
    extent: Extent,
    /// Whether the line has tokens and no NEWLINE yet.
    begun: bool,
    /// The opening brackets.
    opened: usize,
    /// The closing brackets.
    closed: usize,
    /// The first token or comment with a fault of its own.
    faulty: Option<Refusal>,
    /// The first bracket that is one too many.
    deep: Option<Refusal>,
    indents: Indents,
}

impl Pass {
    /// No entry of a source was read.
    pub(crate) fn new(alloc: Global, source: &Source, extent: Extent) -> Result<Pass, AllocError>
        requires { IsCharBoundary source.now.text 0 }
        ensures passed { IfOk result (λ made. Passed (chars source.now.text) [] made) }
        ensures extent { IfOk result (λ made. made.extent ≡ extent) }
    {
        let mut indents = Indents::new(alloc);
        indents.take(source, 0)?;
        Ok(Pass {
            extent,
            begun: false,
            opened: 0,
            closed: 0,
            faulty: None,
            deep: None,
            indents,
        })
    }

    /// How much of the language is read.
    #[inline(always)]
    pub(crate) fn extent(&self) -> Extent
        ensures { result ≡ self.now.extent }
    {
        self.extent
    }

    /// Whether the line has tokens and no NEWLINE yet.
    pub(crate) fn has_begun(&self) -> bool
        ensures { result ≡ self.now.begun }
    {
        self.begun
    }

    /// The refusal of an entry that opens one bracket too many.
    #[inline(always)]
    fn exceeding(&self, entry: &Entry) -> Option<Refusal>
        requires { self.now.opened < 2 ^ 63 }
        ensures { result ≡ exceeding entry.now self.now.opened self.now.closed }
    {
        if opens(entry) && (self.opened + 1).saturating_sub(self.closed) > MOST_BRACKETS {
            return Some(Refusal::TooDeep(entry.start));
        }
        None
    }

    /// Takes an entry that may be a bracket.
    #[inline(always)]
    fn take_bracket(&mut self, entry: &Entry)
        requires opened { self.old.opened < 2 ^ 63 }
        requires closed { self.old.closed < 2 ^ 63 }
        ensures { TakesBracket entry.now self.old self.new }
    {
        let Some(exact) = entry.exact else {
            return;
        };
        if exact.is_opener() {
            let deep = self.exceeding(entry);
            keep(&mut self.deep, deep);
            self.opened += 1;
        }
        self.closed = counted(self.closed, exact.is_closer());
    }

    /// Takes the next entry of a source's listing, with its refusal if it has a fault of its own.
    #[inline(always)]
    pub(crate) fn take(
        &mut self,
        source: &Source,
        entry: &Entry,
        faulty: Option<Refusal>,
    ) -> Result<(), AllocError>
        requires lies { LiesIn source.now.text entry.now }
        requires opened { self.old.opened < 2 ^ 63 }
        requires closed { self.old.closed < 2 ^ 63 }
        ensures gains { OnOk result
            (Gains (chars source.now.text) entry.now faulty self.old self.new) }
        ensures extent { self.new.extent ≡ self.old.extent }
    {
        if line_ends(entry.kind, self.opened, self.closed) {
            self.indents.take(source, entry.to)?;
        }
        keep(&mut self.faulty, faulty);
        self.take_bracket(entry);
        self.begun = still_open(entry.kind, self.begun);
        Ok(())
    }

    /// Notes that a line has begun.
    #[inline(always)]
    pub(crate) fn begin(&mut self)
        ensures { self.new ≡ record self.old { begun = true } }
    {
        self.begun = true;
    }

    /// Takes an operator within a line: whether it opens no bracket too many. One that does isn't
    /// taken.
    #[inline(always)]
    pub(crate) fn take_operator(&mut self, exact: Exact) -> bool
        requires opened { self.old.opened < 2 ^ 63 }
        requires closed { self.old.closed < 2 ^ 63 }
        ensures taken { result ≡ true → PassesOperator exact self.old self.new }
        ensures kept { result ≡ false → self.new ≡ self.old }
        ensures extent { self.new.extent ≡ self.old.extent }
    {
        if exact.is_opener() {
            if (self.opened + 1).saturating_sub(self.closed) > MOST_BRACKETS {
                return false;
            }
            self.opened += 1;
        }
        self.closed = counted(self.closed, exact.is_closer());
        true
    }

    /// Takes a line end within a line, which ends at an offset, by whether the logical line ends.
    #[inline(always)]
    pub(crate) fn take_line_end(
        &mut self,
        source: &Source,
        ends: bool,
        to: usize,
    ) -> Result<(), AllocError>
        requires { IsCharBoundary source.now.text to }
        ensures passes { OnOk result
            (PassesLineEnd (chars source.now.text) ends to self.old self.new) }
        ensures extent { self.new.extent ≡ self.old.extent }
    {
        if self.opened.saturating_sub(self.closed) == 0 {
            self.indents.take(source, to)?;
        }
        if ends {
            self.begun = false;
        }
        Ok(())
    }

    /// The first refusal that is kept.
    pub(crate) fn refusal(&self) -> Option<Refusal>
        ensures { result ≡ kept_refusal self.now }
    {
        first(self.faulty, first(self.deep, self.indents.refusal()))
    }
}
