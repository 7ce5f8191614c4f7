//! What one pass over a listing gathers of its lines: the tokens of the one that is open, and the
//! first faults.

ghost use Rattle.std.specs.Prelude.{◌≡◌, ◌^◌, ◌<◌, ◌-◌, ◌++◌, ◌&&◌, [], ◌∷◌, map, IfOk, OnOk, None};
ghost use Rattle.std.specs.Prelude.{true, false, Some, length};
ghost use Rattle.std.specs.Str.{chars, IsCharBoundary};
ghost use Rattle.pylex_listing.specs.Laws.{LiesIn, HasExact};
ghost use Rattle.pytoken.specs.Refusals.{entry_refusal};
ghost use Rattle.pyparse_tokens.specs.Inner.Passing.{counted, kept_refusal, Passed};
ghost use Rattle.pyparse_tokens.specs.Inner.LineGathering.{
  stands_in_line,
  ends_open_line,
  is_indent,
  is_dedent,
  ended_by,
  marker_after,
  Adds,
  TakesEntry,
};
ghost use Rattle.pyparse_tokens.specs.Inner.OpenLines.{keeps_match};
ghost use Rattle.pylex.specs.Spots.{is_silent};
ghost use Rattle.pylex_listing.specs.EntryKinds.{kind_of, operator_of};
ghost use Rattle.pyparse_tokens.specs.Inner.LineBeginning.{TakesStart};
ghost use Rattle.pyparse_tokens.specs.Inner.Walking.{
  is_plain_token,
  Takes,
  TakesLineEnd,
  TakesLexeme,
};

use crate::gather::{fault_beside, text_of};
use crate::open_line::OpenLine;
use crate::pass::Pass;
use crate::tokens::Token;
use pylex::{Class, Entry, Exact, Kind, Spot};
use pysource::{Place, Source};
use pytoken::{Refusal, Terminal, token_fault};
use pytree_node::Extent;
use std::alloc::{AllocError, Global};

/// Whether a token of this type stands in a line.
pub(crate) fn stands_in_line(kind: Kind) -> bool
    ensures { result ≡ stands_in_line kind }
{
    matches!(kind, Kind::Name | Kind::Number | Kind::String | Kind::Op)
}

/// Whether an entry of this type ends the line that is open.
fn ends_open_line(kind: Kind) -> bool
    ensures { result ≡ ends_open_line kind }
{
    matches!(kind, Kind::Newline | Kind::Dedent | Kind::EndMarker)
}

/// What one pass over a listing has gathered of its lines after some of its entries.
#[derive(Drop)]
pub(crate) struct LineGather<'a> {
    pass: Pass,
    /// The line that is open.
    line: OpenLine<'a>,
    /// The levels above 0 that were open before the entry that ended the last line.
    level: usize,
    /// The INDENTs.
    indents: usize,
    /// The DEDENTs.
    dedents: usize,
    /// Where ENDMARKER starts, once it was read.
    marker: Place,
}

impl<'a> LineGather<'a> {
    /// No entry of a source was read.
    pub(crate) fn new(
        alloc: Global,
        source: &Source,
        extent: Extent,
    ) -> Result<LineGather<'a>, AllocError>
        requires { IsCharBoundary source.now.text 0 }
        ensures pass { IfOk result (λ made. Passed (chars source.now.text) [] made.pass) }
        ensures extent { IfOk result (λ made. made.pass.extent ≡ extent) }
        ensures empty { IfOk result (λ made. made.line.terminals.items ≡ []) }
        ensures start { IfOk result (λ made. made.line.start ≡ record { row = 1; column = 0 }) }
        ensures level { IfOk result (λ made. made.level ≡ 0) }
        ensures indents { IfOk result (λ made. made.indents ≡ 0) }
        ensures dedents { IfOk result (λ made. made.dedents ≡ 0) }
        ensures is_match { IfOk result (λ made. keeps_match made.line ≡ false) }
        ensures marker { IfOk result (λ made. made.marker ≡ record { row = 1; column = 0 }) }
    {
        Ok(LineGather {
            pass: Pass::new(alloc, source, extent)?,
            line: OpenLine::new(alloc),
            level: 0,
            indents: 0,
            dedents: 0,
            marker: Place { row: 1, column: 0 },
        })
    }

    /// Lets go of the line's tokens. The room that they took is kept.
    pub(crate) fn clear(&mut self)
        ensures rest { self.new ≡ record self.old { line = self.new.line } }
        ensures empty { self.new.line.terminals.items ≡ [] }
    {
        self.line.clear();
    }

    /// Takes what an entry adds to the line, or tells the fault that the entry has by itself.
    #[inline(always)]
    fn push(
        &mut self,
        alloc: Global,
        source: &'a Source,
        entry: &Entry,
    ) -> Result<Option<Refusal>, AllocError>
        requires lies { LiesIn source.now.text entry.now }
        requires exact { HasExact (chars source.now.text) entry.now }
        ensures fault { IfOk result
            (λ fault. fault
            ≡ entry_refusal self.old.pass.extent (chars source.now.text) entry.now) }
        ensures line { OnOk result
            (entry_refusal self.old.pass.extent (chars source.now.text) entry.now ≡ None
            → Adds (chars source.now.text) entry.now self.old.line self.new.line) }
        ensures rest { self.new ≡ record self.old { line = self.new.line } }
    {
        let text = text_of(source, entry);
        // An operator is known by the entry, and has no fault.
        if let Some(exact) = entry.exact {
            self.line.push(entry.start, text, Terminal::Op(exact))?;
            return Ok(None);
        }
        if !stands_in_line(entry.kind) {
            return fault_beside(alloc, self.pass.extent(), source, entry);
        }
        let token = Token {
            kind: entry.kind,
            start: entry.start,
            text,
        };
        match self.line.push_token(alloc, self.pass.extent(), token)? {
            Some(error) => Ok(Some(Refusal::Token(error, entry.start))),
            None => Ok(None),
        }
    }

    /// Counts an INDENT or a DEDENT, and where a line ends keeps the levels that were open before.
    #[inline(always)]
    fn count(&mut self, kind: Kind, ends: bool)
        requires indents { self.old.indents < 2 ^ 63 }
        requires dedents { self.old.dedents < 2 ^ 63 }
        ensures level { ends ≡ true → self.new.level ≡ self.old.indents - self.old.dedents }
        ensures indents { self.new.indents ≡ counted self.old.indents (is_indent kind) }
        ensures dedents { self.new.dedents ≡ counted self.old.dedents (is_dedent kind) }
        ensures rest { self.new
            ≡ record self.old {
              level = self.new.level;
              indents = self.new.indents;
              dedents = self.new.dedents;
            } }
    {
        if ends {
            self.level = self.indents.saturating_sub(self.dedents);
        }
        match kind {
            Kind::Indent => self.indents += 1,
            Kind::Dedent => self.dedents += 1,
            _ => {}
        }
    }

    /// Keeps where ENDMARKER starts.
    #[inline(always)]
    fn keep_marker(&mut self, entry: &Entry)
        ensures marker { self.new.marker ≡ marker_after entry.now self.old.marker }
        ensures rest { self.new ≡ record self.old { marker = self.new.marker } }
    {
        if matches!(entry.kind, Kind::EndMarker) {
            self.marker = entry.start;
        }
    }

    /// Takes the next entry of a source's listing, whatever its type: whether the line that is open
    /// ends by it.
    #[inline(always)]
    fn take_entry(
        &mut self,
        alloc: Global,
        source: &'a Source,
        entry: &Entry,
    ) -> Result<bool, AllocError>
        requires lies { LiesIn source.now.text entry.now }
        requires exact { HasExact (chars source.now.text) entry.now }
        requires opened { self.old.pass.opened < 2 ^ 63 }
        requires closed { self.old.pass.closed < 2 ^ 63 }
        requires indents { self.old.indents < 2 ^ 63 }
        requires dedents { self.old.dedents < 2 ^ 63 }
        ensures ends { IfOk result (λ ends. ends ≡ ended_by entry.now self.old.pass.begun) }
        ensures gathers { OnOk result
            (TakesEntry (chars source.now.text) entry.now self.old self.new) }
        ensures extent { self.new.pass.extent ≡ self.old.pass.extent }
    {
        let ends = ends_open_line(entry.kind) && self.pass.has_begun();
        let faulty = self.push(alloc, source, entry)?;
        self.pass.take(source, entry, faulty)?;
        self.count(entry.kind, ends);
        self.keep_marker(entry);
        Ok(ends)
    }

    /// Takes the next entry of a source's listing: whether the line that is open ends by it.
    #[inline(always)]
    pub(crate) fn take(
        &mut self,
        alloc: Global,
        source: &'a Source,
        entry: &Entry,
    ) -> Result<bool, AllocError>
        requires lies { LiesIn source.now.text entry.now }
        requires exact { HasExact (chars source.now.text) entry.now }
        requires opened { self.old.pass.opened < 2 ^ 63 }
        requires closed { self.old.pass.closed < 2 ^ 63 }
        requires indents { self.old.indents < 2 ^ 63 }
        requires dedents { self.old.dedents < 2 ^ 63 }
        ensures ends { IfOk result (λ ends. ends ≡ ended_by entry.now self.old.pass.begun) }
        ensures gathers { OnOk result
            (TakesEntry (chars source.now.text) entry.now self.old self.new) }
        ensures extent { self.new.pass.extent ≡ self.old.pass.extent }
    {
        // Most entries are names and operators, and at line starts INDENTs and DEDENTs: what their
        // type decides is decided once for all.
        match entry.kind {
            Kind::Name => self.take_entry(alloc, source, entry),
            Kind::Op => self.take_entry(alloc, source, entry),
            Kind::Indent => self.take_entry(alloc, source, entry),
            Kind::Dedent => self.take_entry(alloc, source, entry),
            _ => self.take_entry(alloc, source, entry),
        }
    }

    /// Whether a line is open of which tokens are kept, and nothing is refused so far.
    pub(crate) fn has_tokens(&self) -> bool
        ensures begun { result ≡ true → self.now.pass.begun ≡ true }
        ensures some { result ≡ true → 0 < length self.now.line.terminals.items }
    {
        self.pass.has_begun() && !self.line.is_empty() && self.refusal().is_none()
    }

    /// Takes a name, a number or a string of the line that is open: whether it has no fault by
    /// itself. One that has a fault isn't taken.
    #[inline(always)]
    fn take_token(&mut self, alloc: Global, kind: Kind, text: &'a str) -> Result<bool, AllocError>
        requires begun { self.old.pass.begun ≡ true }
        requires some { 0 < length self.old.line.terminals.items }
        requires kind { is_plain_token kind ≡ true }
        ensures taken { IfOk result (λ taken. taken ≡ true
            → Takes kind None (chars text.now) self.old self.new) }
        ensures kept { IfOk result (λ taken. taken ≡ false → self.new ≡ self.old) }
        ensures some { OnOk result (0 < length self.new.line.terminals.items) }
        ensures extent { self.new.pass.extent ≡ self.old.pass.extent }
    {
        let start = self.line.start();
        let token = Token { kind, start, text };
        let fault = self.line.push_token(alloc, self.pass.extent(), token)?;
        Ok(fault.is_none())
    }

    /// Takes an operator of the line that is open: whether it opens no bracket too many. One that
    /// does isn't taken.
    #[inline(always)]
    fn take_operator(&mut self, exact: Exact, text: &'a str) -> Result<bool, AllocError>
        requires begun { self.old.pass.begun ≡ true }
        requires some { 0 < length self.old.line.terminals.items }
        requires opened { self.old.pass.opened < 2 ^ 63 }
        requires closed { self.old.pass.closed < 2 ^ 63 }
        ensures taken { IfOk result (λ taken. taken ≡ true
            → Takes Kind.Op (Some exact) (chars text.now) self.old self.new) }
        ensures kept { IfOk result (λ taken. taken ≡ false → self.new ≡ self.old) }
        ensures some { OnOk result (0 < length self.new.line.terminals.items) }
        ensures extent { self.new.pass.extent ≡ self.old.pass.extent }
    {
        if !self.pass.take_operator(exact) {
            return Ok(false);
        }
        let start = self.line.start();
        self.line.push(start, text, Terminal::Op(exact))?;
        Ok(true)
    }

    /// Takes a comment in the line that is open: whether it has no fault by itself. One that has a
    /// fault isn't taken.
    fn take_comment(&mut self, alloc: Global, text: &'a str) -> Result<bool, AllocError>
        requires begun { self.old.pass.begun ≡ true }
        ensures taken { IfOk result (λ taken. taken ≡ true
            → Takes Kind.Comment None (chars text.now) self.old self.new) }
        ensures same { self.new ≡ self.old }
    {
        let fault = token_fault(alloc, self.pass.extent(), Kind::Comment, text)?;
        Ok(fault.is_none())
    }

    /// Takes a line end in the line that is open, which ends at an offset, by whether the logical
    /// line ends.
    #[inline(always)]
    fn take_line_end(&mut self, source: &Source, ends: bool, to: usize) -> Result<(), AllocError>
        requires begun { self.old.pass.begun ≡ true }
        requires boundary { IsCharBoundary source.now.text to }
        ensures taken { OnOk result
            (TakesLineEnd (chars source.now.text) ends to self.old self.new) }
        ensures same { self.new.line ≡ self.old.line }
        ensures extent { self.new.pass.extent ≡ self.old.pass.extent }
    {
        if ends {
            self.level = self.indents.saturating_sub(self.dedents);
        }
        self.pass.take_line_end(source, ends, to)
    }

    /// Takes the entry of a lexeme in the line that is open, after which a lister stands at a spot:
    /// whether it has no fault by itself and opens no bracket too many. Another isn't taken.
    #[inline(always)]
    pub(crate) fn take_lexeme(
        &mut self,
        alloc: Global,
        source: &'a Source,
        class: Class,
        text: &'a str,
        to: Spot,
    ) -> Result<bool, AllocError>
        requires begun { self.old.pass.begun ≡ true }
        requires some { 0 < length self.old.line.terminals.items }
        requires opened { self.old.pass.opened < 2 ^ 63 }
        requires closed { self.old.pass.closed < 2 ^ 63 }
        requires boundary { IsCharBoundary source.now.text to.offset }
        requires gives { is_silent class ≡ false }
        ensures taken { IfOk result (λ taken. taken ≡ true
            → TakesLexeme (chars source.now.text) class (chars text.now) to self.old self.new) }
        ensures kept { IfOk result (λ taken. taken ≡ false → self.new ≡ self.old) }
        ensures some { OnOk result (0 < length self.new.line.terminals.items) }
        ensures extent { self.new.pass.extent ≡ self.old.pass.extent }
    {
        match class {
            Class::Name => self.take_token(alloc, Kind::Name, text),
            Class::Number => self.take_token(alloc, Kind::Number, text),
            Class::String => self.take_token(alloc, Kind::String, text),
            Class::Operator(exact) => self.take_operator(exact, text),
            Class::Comment => self.take_comment(alloc, text),
            _ => {
                self.take_line_end(source, !to.begun, to.offset)?;
                Ok(true)
            }
        }
    }

    /// Whether no line is open, and nothing is refused so far.
    #[inline(always)]
    pub(crate) fn is_between(&self) -> bool
        ensures { result ≡ true → self.now.pass.begun ≡ false }
    {
        !self.pass.has_begun() && self.refusal().is_none()
    }

    /// Takes a name, a number or a string that begins a line at a place: whether it has no fault by
    /// itself. One that has a fault isn't taken.
    #[inline(always)]
    fn begin_token(
        &mut self,
        alloc: Global,
        kind: Kind,
        text: &'a str,
        start: Place,
    ) -> Result<bool, AllocError>
        requires { is_plain_token kind ≡ true }
        ensures taken { IfOk result (λ taken. taken ≡ true
            → TakesStart kind None (chars text.now) start self.old self.new) }
        ensures some { IfOk result
            (λ taken. taken ≡ true → 0 < length self.new.line.terminals.items) }
        ensures kept { IfOk result (λ taken. taken ≡ false → self.new ≡ self.old) }
        ensures extent { self.new.pass.extent ≡ self.old.pass.extent }
    {
        let token = Token { kind, start, text };
        let fault = self.line.push_token(alloc, self.pass.extent(), token)?;
        if fault.is_some() {
            return Ok(false);
        }
        self.pass.begin();
        Ok(true)
    }

    /// Takes an operator that begins a line at a place: whether it opens no bracket too many. One
    /// that does isn't taken.
    #[inline(always)]
    fn begin_operator(
        &mut self,
        exact: Exact,
        text: &'a str,
        start: Place,
    ) -> Result<bool, AllocError>
        requires opened { self.old.pass.opened < 2 ^ 63 }
        requires closed { self.old.pass.closed < 2 ^ 63 }
        ensures taken { IfOk result (λ taken. taken ≡ true
            → TakesStart Kind.Op (Some exact) (chars text.now) start self.old self.new) }
        ensures some { IfOk result
            (λ taken. taken ≡ true → 0 < length self.new.line.terminals.items) }
        ensures kept { IfOk result (λ taken. taken ≡ false → self.new ≡ self.old) }
        ensures extent { self.new.pass.extent ≡ self.old.pass.extent }
    {
        if !self.pass.take_operator(exact) {
            return Ok(false);
        }
        self.line.push(start, text, Terminal::Op(exact))?;
        self.pass.begin();
        Ok(true)
    }

    /// Takes the token that begins a line at a place: whether it has no fault by itself and opens no
    /// bracket too many. Another isn't taken.
    #[inline(always)]
    pub(crate) fn begin(
        &mut self,
        alloc: Global,
        class: Class,
        text: &'a str,
        start: Place,
    ) -> Result<bool, AllocError>
        requires opened { self.old.pass.opened < 2 ^ 63 }
        requires closed { self.old.pass.closed < 2 ^ 63 }
        ensures taken { IfOk result (λ taken. taken ≡ true
            → TakesStart (kind_of class true) (operator_of class) (chars text.now) start
            self.old self.new) }
        ensures some { IfOk result
            (λ taken. taken ≡ true → 0 < length self.new.line.terminals.items) }
        ensures kept { IfOk result (λ taken. taken ≡ false → self.new ≡ self.old) }
        ensures extent { self.new.pass.extent ≡ self.old.pass.extent }
    {
        match class {
            Class::Name => self.begin_token(alloc, Kind::Name, text, start),
            Class::Number => self.begin_token(alloc, Kind::Number, text, start),
            Class::String => self.begin_token(alloc, Kind::String, text, start),
            Class::Operator(exact) => self.begin_operator(exact, text, start),
            _ => Ok(false),
        }
    }

    /// The first refusal that is kept.
    pub(crate) fn refusal(&self) -> Option<Refusal>
        ensures { result ≡ kept_refusal self.now.pass }
    {
        self.pass.refusal()
    }

    /// What the tokens of the line are.
    pub(crate) fn terminals(&self) -> &[Terminal<'a>]
        ensures { result.now ≡ self.now.line.terminals.items }
    {
        self.line.terminals()
    }

    /// Where the line starts.
    pub(crate) fn start(&self) -> Place
        ensures { result ≡ self.now.line.start }
    {
        self.line.start()
    }

    /// Whether it begins and ends as the header of a `match` statement does.
    pub(crate) fn is_match(&self) -> bool
        ensures { result ≡ keeps_match self.now.line }
    {
        self.line.is_match()
    }

    /// Where ENDMARKER starts, once it was read.
    pub(crate) fn marker(&self) -> Place
        ensures { result ≡ self.now.marker }
    {
        self.marker
    }

    /// The levels above 0 that were open before the entry that ended the last line.
    pub(crate) fn level(&self) -> usize
        ensures { result ≡ self.now.level }
    {
        self.level
    }
}
