//! The logical lines of a source.
//!
//! Python language reference, 2.1.1 "Logical lines".

ghost use Rattle.std.specs.Prelude.{◌≡◌, ◌+◌, ℕ, true, false, length, map, Bool, Some, None};
ghost use Rattle.std.specs.Prelude.{Result, IfOk, IfErr, if◌then◌else◌, slice_get};
ghost use Rattle.pylex_listing.specs.Listing.{in_characters};
ghost use Rattle.pytoken.specs.TerminalOf.{terminal};
ghost use Rattle.pytoken.specs.Tokens.{Line, lines};
ghost use Rattle.pyparse_marks.specs.LineSpans.{line_spans};
ghost use Rattle.pyparse_marks.specs.Spans.{added, emptied};
ghost use Rattle.pytoken.specs.Refusals.{refusal};
ghost use Rattle.pytoken.specs.Laws.{AreLawful, TokensAreSound, ExtentsDifferInNumbers};
ghost use Rattle.pyparse_tokens.specs.declared.faults.ParseFault.{ParseFault};
ghost use Rattle.pyparse_tokens.specs.Answers.{Tells};
ghost use Rattle.pyparse_tokens.specs.Inner.Passing.{kept_refusal};
ghost use Rattle.pyparse_tokens.specs.LineReadings.{before_first, outcome_of, HoldsLine, EndsAt};
ghost use Rattle.pyparse_tokens.specs.Inner.LineGathering.{lines_given, StandsBetween, ReadsLine};
ghost use Rattle.pyparse_tokens.specs.Inner.Marking.{MarksLine};

use crate::faults::ParseFault;
use crate::line_gather::LineGather;
use crate::marking::mark_entry;
use crate::walks::walk_line;
use pylex::{Lister, Step};
use pyparse_marks::Marks;
use pysource::{Place, Source};
use pytoken::{Refusal, Terminal};
use pytree_node::Extent;
use std::alloc::{AllocError, Global};
use std::marker::Model;

/// The answer at the end of a listing.
fn end(gather: &LineGather) -> Result<bool, ParseFault>
    ensures end { IfOk result (λ more. (more ≡ false) × (kept_refusal gather.now.pass ≡ None)) }
    ensures refused { IfErr result (Tells (kept_refusal gather.now.pass)) }
{
    match gather.refusal() {
        Some(refusal) => Err(ParseFault::Refused(refusal)),
        None => Ok(false),
    }
}

/// Reads up to the end of the next line, or of the source: whether there is a line.
fn read_line<'a>(
    alloc: Global,
    source: &'a Source,
    lister: &mut Lister<'a>,
    gather: &mut LineGather<'a>,
    marks: &mut Marks,
) -> Result<bool, ParseFault>
    requires { StandsBetween source.now lister.old gather.old }
    ensures line { IfOk result
        (λ more. more ≡ true → ReadsLine source.now lister.old lister.new gather.new) }
    ensures same { IfOk result
        (λ more. more ≡ false
        → lines_given source.now lister.new ≡ lines_given source.now lister.old) }
    ensures all { IfOk result
        (λ more. more ≡ false
        → lines_given source.now lister.new ≡ length (lines (in_characters source.now))) }
    ensures sound { IfOk result
        (λ more. more ≡ false
        → refusal gather.old.pass.extent (in_characters source.now) ≡ None) }
    ensures marker { IfOk result
        (λ more. more ≡ false → EndsAt (in_characters source.now) gather.new.marker) }
    ensures refused { IfErr result
        (Tells (refusal gather.old.pass.extent (in_characters source.now))) }
    ensures extent { gather.new.pass.extent ≡ gather.old.pass.extent }
    ensures marks { IfOk result
        (λ more. more ≡ true
        → MarksLine source.now lister.old (emptied marks.old) marks.new) }
{
    gather.clear();
    marks.clear();
    'entries: loop {
        if walk_line(alloc, source, lister, gather, marks)? {
            return Ok(true);
        }
        match lister.next()? {
            Step::Entry(entry) => {
                mark_entry(alloc, source, &entry, marks)?;
                if gather.take(alloc, source, &entry)? {
                    if gather.refusal().is_none() {
                        return Ok(true);
                    }
                    gather.clear();
                }
            }
            Step::End => return end(gather),
            Step::Fault(fault) => return Err(ParseFault::Refused(Refusal::Listing(fault))),
        }
    }
}

/// The logical lines of a source that have tokens, one after another: of each its level, where it
/// starts, and what its tokens are to the grammar. They stand in one buffer, in turn.
#[derive(Drop)]
pub struct LogicalLines<'a> {
    alloc: Global,
    source: &'a Source,
    lister: Lister<'a>,
    gather: LineGather<'a>,
    /// What each later call of `next` answers, once that is known.
    outcome: Option<Result<bool, ParseFault>>,
}

impl<'a> Model for LogicalLines<'a> {
    ghost use Rattle.pyparse_tokens.specs.LineReadings.{LineReading};

    ghost Value = { LineReading };

    ghost use Rattle.pyparse_tokens.specs.Inner.LineReading.{reading, IsReading};

    ghost view = { reading };

    ghost invariant = { IsReading };
}

impl<'a> LogicalLines<'a> {
    /// Begins before the first line of a source, which is to be read in an extent of the language.
    /// No line is held.
    pub fn new(
        alloc: Global,
        source: &'a Source,
        extent: Extent,
    ) -> Result<LogicalLines<'a>, AllocError>
        ensures before { IfOk result (λ made. made ≡ before_first source.now extent) }
        ensures lawful { AreLawful }
        ensures typed { TokensAreSound (in_characters source.now) }
        ensures extents { ExtentsDifferInNumbers (in_characters source.now) }
    {
        Ok(LogicalLines {
            alloc,
            source,
            lister: Lister::new(alloc, source),
            gather: LineGather::new(alloc, source, extent)?,
            outcome: None,
        })
    }

    /// What the tokens of the line that is held are, up to its NEWLINE.
    pub fn terminals(&self) -> &[Terminal<'a>]
        ensures { map terminal result.now ≡ self.now.terminals }
    {
        self.gather.terminals()
    }

    /// The levels above 0 that are open at the line that is held.
    pub fn level(&self) -> usize
        ensures { result ≡ self.now.level }
    {
        self.gather.level()
    }

    /// Where the line that is held starts: the place of its first token.
    pub fn start(&self) -> Place
        ensures { result ≡ self.now.start }
    {
        self.gather.start()
    }

    /// Whether the line that is held begins with the text `match`, as it is written, and ends in a
    /// colon: as no line of Python 3.9 does that has a form.
    pub fn is_match(&self) -> bool
        ensures { result ≡ self.now.is_match }
    {
        self.gather.is_match()
    }

    /// Where the source ends, after its last line: the place of ENDMARKER, its last token.
    pub fn end(&self) -> Place
        ensures { result ≡ self.now.marker }
    {
        self.gather.marker()
    }

    /// Goes to the next line: whether there is one. Once there is none, or an error was reported,
    /// each later call answers the same, and changes nothing.
    ///
    /// # Errors
    ///
    /// [`ParseFault::Refused`] by the reason why the source has no tokens, as
    /// [`tokens_of`](crate::tokens_of) reports it. It may come after lines that were given.
    pub fn next(&mut self) -> Result<bool, ParseFault>
        ensures source { self.new.source ≡ self.old.source }
        ensures extent { self.new.extent ≡ self.old.extent }
        ensures line { IfOk result
            (λ more. more ≡ true
            → HoldsLine (in_characters self.old.source) self.old.given self.new) }
        ensures given { IfOk result
            (λ more. self.new.given ≡ (if more then self.old.given + 1 else self.old.given)) }
        ensures all { IfOk result
            (λ more. more ≡ false
            → self.old.given ≡ length (lines (in_characters self.old.source))) }
        ensures sound { IfOk result
            (λ more. more ≡ false
            → refusal self.old.extent (in_characters self.old.source) ≡ None) }
        ensures end { IfOk result
            (λ more. more ≡ false → EndsAt (in_characters self.old.source) self.new.marker) }
        ensures refused { IfErr result
            (Tells (refusal self.old.extent (in_characters self.old.source))) }
        ensures outcome { self.new.outcome ≡ outcome_of result }
        ensures again { (answer : Result Bool ParseFault) → self.old.outcome ≡ Some answer
            → (result ≡ answer) × (self.new ≡ self.old) }
    {
        let mut marks = Marks::none();
        self.next_marked(&mut marks)
    }

    /// Goes to the next line as [`next`](LogicalLines::next) does, and keeps where its terminals
    /// stand. Where there is no line, what is kept isn't said.
    ///
    /// # Errors
    ///
    /// As those of `next`. A source whose offsets have no room in 32 bits is told as memory that is
    /// wanting, where spans are kept.
    pub fn next_marked(&mut self, marks: &mut Marks) -> Result<bool, ParseFault>
        ensures source { self.new.source ≡ self.old.source }
        ensures extent { self.new.extent ≡ self.old.extent }
        ensures line { IfOk result
            (λ more. more ≡ true
            → HoldsLine (in_characters self.old.source) self.old.given self.new) }
        ensures given { IfOk result
            (λ more. self.new.given ≡ (if more then self.old.given + 1 else self.old.given)) }
        ensures all { IfOk result
            (λ more. more ≡ false
            → self.old.given ≡ length (lines (in_characters self.old.source))) }
        ensures sound { IfOk result
            (λ more. more ≡ false
            → refusal self.old.extent (in_characters self.old.source) ≡ None) }
        ensures end { IfOk result
            (λ more. more ≡ false → EndsAt (in_characters self.old.source) self.new.marker) }
        ensures refused { IfErr result
            (Tells (refusal self.old.extent (in_characters self.old.source))) }
        ensures outcome { self.new.outcome ≡ outcome_of result }
        ensures again { (answer : Result Bool ParseFault) → self.old.outcome ≡ Some answer
            → (result ≡ answer) × (self.new ≡ self.old) }
        ensures marks { IfOk result
            (λ more. more ≡ true → (line : Line)
            → slice_get (lines (in_characters self.old.source)) self.old.given ≡ Some line
            → marks.new ≡ added (emptied marks.old)
            (line_spans (in_characters self.old.source).text line)) }
    {
        if let Some(outcome) = self.outcome {
            return outcome;
        }
        let answer = read_line(
            self.alloc,
            self.source,
            &mut self.lister,
            &mut self.gather,
            marks,
        );
        if !matches!(answer, Ok(true)) {
            self.outcome = Some(answer);
        }
        answer
    }
}
