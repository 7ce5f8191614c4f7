//! The faults that the program reports: their texts, their statuses and their lines.
ghost use Rattle.std.specs.Prelude.{◌≡◌, Some};
ghost use Rattle.pyparse.specs.Modules.{code_of};
ghost use Rattle.pyast_fault.specs.declared.fault.Fault.{Fault};
ghost use Rattle.pyast_fault.specs.declared.fault.FaultCode.{FaultCode};
ghost use Rattle.pyast_fault.specs.declared.fault.RunFaultCode.{RunFaultCode};
ghost use Rattle.pyast_fault.specs.Faults.{text_of, token_text, code_status, status_of, fault_code};
ghost use Rattle.pyast_fault.specs.Faults.{listing_code, of_grammar, of_input, of_listing, of_parse};
ghost use Rattle.pyast_fault.specs.Faults.{of_refusal, of_resume, of_source, of_stream};

use pylex::{ListingError, ListingFault, ResumeFault};
use pyparse::{GrammarError, ParseFault};
use pysource::{InputFault, LineError, Place, SourceFault, StreamFault, WriteFailed};
use pytoken::{Refusal, TokenError};
use std::alloc::AllocError;

/// What is wrong with a source.
#[derive(Clone, Copy, Debug, PartialEq, Eq)]
pub enum SourceFaultCode {
    /// The cookie names an encoding that is neither UTF-8 nor ASCII.
    UnsupportedEncoding,
    /// The cookie names ASCII, though a byte order mark stands in front.
    BomConflict,
    /// A byte that isn't UTF-8.
    NotUtf8,
    /// A byte above 7F in a source that is said to be ASCII.
    NotAscii,
    /// A CR that no LF follows.
    LoneReturn,
    /// A character that begins no token.
    BadCharacter,
    /// A string that is not ended.
    UnterminatedString,
    /// The text's end within a string that may go on over lines.
    EofInString,
    /// The text's end within brackets, or directly after a backslash and a line end.
    EofInStatement,
    /// A line that closes blocks, but not to the indentation of one that is open.
    UnindentMismatch,
    /// A closing bracket where none is open.
    UnmatchedCloser,
    /// A token that is wrong by itself.
    Token(TokenError),
    /// A line whose tokens have no form.
    Syntax,
    /// A line without a form that begins a `match` statement.
    MatchStatement,
    /// A line that is to be the first of a block, and isn't deeper.
    ExpectedIndent,
    /// A line that is deeper though the line before it opens no block.
    UnexpectedIndent,
    /// A clause or a decorator without the statement that takes it.
    MisplacedClause,
    /// More nested brackets than may be open at once, a form that is too high, or a
    /// statement within too many.
    TooDeep,
    /// A line whose indentation depends on how wide a tab is.
    InconsistentTabs,
}

/// What else can end a run before its work is done.
#[derive(Clone, Copy, Debug, PartialEq, Eq)]
pub enum RunFaultCode {
    /// A read failed, or the source has more bytes than a source may have.
    Read,
    /// A cursor that the source doesn't have.
    CursorOfAnotherSource,
    /// A text that is no cursor's.
    CursorText,
    /// Words that give no command.
    BadArguments,
    /// The file could not be opened.
    Open,
    /// A write failed.
    Write,
    /// There was no memory for what was to be done.
    Memory,
}

/// What can be reported at the end of a run.
#[derive(Clone, Copy, Debug, PartialEq, Eq)]
pub enum FaultCode {
    /// What is wrong with the source.
    Source(SourceFaultCode),
    /// What else ended the run.
    Run(RunFaultCode),
}

/// What ends a run before its work is done.
#[derive(Clone, Copy, Debug, PartialEq, Eq)]
pub enum Fault {
    /// A fault of the source, at this place of it.
    InSource(SourceFaultCode, Place),
    /// A fault without a place: of the words, of reading or writing, or out of memory.
    Plain(RunFaultCode),
}

/// The text of a fault that a token has by itself, without its place.
fn token_text(error: TokenError) -> &'static str
    ensures { result.now ≡ token_text error }
{
    match error {
        TokenError::Float => "float literal",
        TokenError::Complex => "complex literal",
        TokenError::FString => "f-string",
        TokenError::IntegerTooLarge => "integer too large",
        TokenError::NamedEscape => "named escape",
        TokenError::BadEscape => "bad escape",
        TokenError::NonAsciiBytes => "non-ASCII bytes literal",
        TokenError::Nul => "null character",
        TokenError::NameForm => "name form",
    }
}

/// The text of a fault, without its place.
pub fn fault_text(code: FaultCode) -> &'static str
    ensures { result.now ≡ text_of code }
{
    match code {
        FaultCode::Source(SourceFaultCode::UnsupportedEncoding) => "unsupported encoding",
        FaultCode::Source(SourceFaultCode::BomConflict) => "byte order mark with another encoding",
        FaultCode::Source(SourceFaultCode::NotUtf8) => "invalid UTF-8",
        FaultCode::Source(SourceFaultCode::NotAscii) => "not ASCII",
        FaultCode::Source(SourceFaultCode::LoneReturn) => "carriage return without line feed",
        FaultCode::Source(SourceFaultCode::BadCharacter) => "unexpected character",
        FaultCode::Source(SourceFaultCode::UnterminatedString) => "unterminated string literal",
        FaultCode::Source(SourceFaultCode::EofInString) => "EOF in multi-line string",
        FaultCode::Source(SourceFaultCode::EofInStatement) => "EOF in multi-line statement",
        FaultCode::Source(SourceFaultCode::UnindentMismatch) =>
            "unindent does not match any outer indentation level",
        FaultCode::Source(SourceFaultCode::UnmatchedCloser) => "unmatched closing bracket",
        FaultCode::Source(SourceFaultCode::Token(error)) => token_text(error),
        FaultCode::Source(SourceFaultCode::Syntax) => "invalid syntax",
        FaultCode::Source(SourceFaultCode::MatchStatement) => "match statement",
        FaultCode::Source(SourceFaultCode::ExpectedIndent) => "expected an indented block",
        FaultCode::Source(SourceFaultCode::UnexpectedIndent) => "unexpected indent",
        FaultCode::Source(SourceFaultCode::MisplacedClause) => "misplaced clause",
        FaultCode::Source(SourceFaultCode::TooDeep) => "too deep",
        FaultCode::Source(SourceFaultCode::InconsistentTabs) => "inconsistent tabs and spaces",
        FaultCode::Run(RunFaultCode::Read) => "read failed",
        FaultCode::Run(RunFaultCode::CursorOfAnotherSource) => "cursor of another source",
        FaultCode::Run(RunFaultCode::CursorText) => "malformed cursor",
        FaultCode::Run(RunFaultCode::BadArguments) => "bad arguments",
        FaultCode::Run(RunFaultCode::Open) => "cannot open file",
        FaultCode::Run(RunFaultCode::Write) => "write failed",
        FaultCode::Run(RunFaultCode::Memory) => "out of memory",
    }
}

impl From<AllocError> for Fault {
    ghost from_gives = { λ error r. r ≡ Fault.Plain RunFaultCode.Memory };

    fn from(_error: AllocError) -> Fault {
        Fault::Plain(RunFaultCode::Memory)
    }
}

impl From<WriteFailed> for Fault {
    ghost from_gives = { λ error r. r ≡ Fault.Plain RunFaultCode.Write };

    fn from(_error: WriteFailed) -> Fault {
        Fault::Plain(RunFaultCode::Write)
    }
}

impl From<InputFault> for Fault {
    ghost from_gives = { λ fault r. r ≡ of_input fault };

    fn from(fault: InputFault) -> Fault {
        match fault {
            InputFault::Read => Fault::Plain(RunFaultCode::Read),
            InputFault::Memory => Fault::Plain(RunFaultCode::Memory),
        }
    }
}

impl From<SourceFault> for Fault {
    ghost from_gives = { λ fault r. r ≡ of_source fault };

    fn from(fault: SourceFault) -> Fault {
        match fault {
            SourceFault::UnsupportedEncoding(place) => {
                Fault::InSource(SourceFaultCode::UnsupportedEncoding, place)
            }
            SourceFault::BomConflict(place) => Fault::InSource(SourceFaultCode::BomConflict, place),
            SourceFault::Memory => Fault::Plain(RunFaultCode::Memory),
        }
    }
}

impl From<StreamFault> for Fault {
    ghost from_gives = { λ fault r. r ≡ of_stream fault };

    fn from(fault: StreamFault) -> Fault {
        match fault {
            StreamFault::UnsupportedEncoding(place) => {
                Fault::InSource(SourceFaultCode::UnsupportedEncoding, place)
            }
            StreamFault::BomConflict(place) => Fault::InSource(SourceFaultCode::BomConflict, place),
            StreamFault::Read => Fault::Plain(RunFaultCode::Read),
            StreamFault::Memory => Fault::Plain(RunFaultCode::Memory),
        }
    }
}

impl From<ResumeFault> for Fault {
    ghost from_gives = { λ fault r. r ≡ of_resume fault };

    fn from(fault: ResumeFault) -> Fault {
        match fault {
            ResumeFault::Stream(fault) => Fault::from(fault),
            ResumeFault::AnotherSource => Fault::Plain(RunFaultCode::CursorOfAnotherSource),
        }
    }
}

impl From<ListingFault> for Fault {
    ghost from_gives = { λ fault r. r ≡ of_listing fault };

    fn from(fault: ListingFault) -> Fault {
        match source_code(fault.code) {
            Some(code) => Fault::InSource(code, fault.place),
            None => Fault::Plain(RunFaultCode::Read),
        }
    }
}

impl From<Refusal> for Fault {
    ghost from_gives = { λ refusal r. r ≡ of_refusal refusal };

    fn from(refusal: Refusal) -> Fault {
        match refusal {
            Refusal::Listing(fault) => Fault::from(fault),
            Refusal::Token(error, place) => Fault::InSource(SourceFaultCode::Token(error), place),
            Refusal::TooDeep(place) => Fault::InSource(SourceFaultCode::TooDeep, place),
            Refusal::MixedTabs(place) => Fault::InSource(SourceFaultCode::InconsistentTabs, place),
        }
    }
}

impl From<ParseFault> for Fault {
    ghost from_gives = { λ fault r. r ≡ of_parse fault };

    fn from(fault: ParseFault) -> Fault {
        match fault {
            ParseFault::Refused(refusal) => Fault::from(refusal),
            ParseFault::Grammar(error, place) => Fault::InSource(grammar_code(error), place),
            ParseFault::Memory => Fault::Plain(RunFaultCode::Memory),
        }
    }
}

/// What is wrong with the source where the grammar says this against a line of it.
fn grammar_code(error: GrammarError) -> SourceFaultCode
    ensures { result ≡ of_grammar (code_of error) }
{
    match error {
        GrammarError::Syntax => SourceFaultCode::Syntax,
        GrammarError::MatchStatement => SourceFaultCode::MatchStatement,
        GrammarError::ExpectedIndent => SourceFaultCode::ExpectedIndent,
        GrammarError::UnexpectedIndent => SourceFaultCode::UnexpectedIndent,
        GrammarError::MisplacedClause => SourceFaultCode::MisplacedClause,
        GrammarError::TooDeep => SourceFaultCode::TooDeep,
    }
}

/// What is wrong with the source where a listing ends so: nothing where a line could not be read
/// whole.
fn source_code(error: ListingError) -> Option<SourceFaultCode>
    ensures { result ≡ listing_code error }
{
    match error {
        ListingError::Line(LineError::NotUtf8) => Some(SourceFaultCode::NotUtf8),
        ListingError::Line(LineError::NotAscii) => Some(SourceFaultCode::NotAscii),
        ListingError::Line(LineError::LoneReturn) => Some(SourceFaultCode::LoneReturn),
        ListingError::Line(LineError::FailedRead) => None,
        ListingError::BadCharacter => Some(SourceFaultCode::BadCharacter),
        ListingError::UnterminatedString => Some(SourceFaultCode::UnterminatedString),
        ListingError::EofInString => Some(SourceFaultCode::EofInString),
        ListingError::EofInStatement => Some(SourceFaultCode::EofInStatement),
        ListingError::UnindentMismatch => Some(SourceFaultCode::UnindentMismatch),
        ListingError::UnmatchedCloser => Some(SourceFaultCode::UnmatchedCloser),
    }
}

impl FaultCode {
    /// The status that the program ends with: 1 where the source is at fault, 2 where the words or
    /// the cursor are, 3 where reading, opening or writing failed, 4 where there was no memory.
    pub fn status(self) -> u8
        ensures { result ≡ code_status self }
    {
        match self {
            FaultCode::Source(_) => 1,
            FaultCode::Run(
                RunFaultCode::CursorOfAnotherSource
                | RunFaultCode::CursorText
                | RunFaultCode::BadArguments,
            ) => 2,
            FaultCode::Run(RunFaultCode::Read | RunFaultCode::Open | RunFaultCode::Write) => 3,
            FaultCode::Run(RunFaultCode::Memory) => 4,
        }
    }
}

impl Fault {
    /// What is reported of it.
    pub fn code(self) -> FaultCode
        ensures { result ≡ fault_code self }
    {
        match self {
            Fault::InSource(code, _) => FaultCode::Source(code),
            Fault::Plain(code) => FaultCode::Run(code),
        }
    }

    /// The status that the program ends with.
    pub fn status(self) -> u8
        ensures { result ≡ status_of (Some self) }
    {
        self.code().status()
    }
}
