//! The command line.
ghost use Rattle.std.specs.Prelude.{◌≡◌, map, option_map, string_bytes, IfOk, IfErr};
ghost use Rattle.pyast_words.specs.declared.command.UsageFault.{UsageFault};
ghost use Rattle.pyast_words.specs.Words.{file_of, name_of, of_cursor, stdin_name_of};
ghost use Rattle.pyast_words.specs.Words.{Gives, IsWithinLimits, Refuses};

use crate::bad_words::named;
use crate::forms::grammar;
use crate::found::{command_of, usage_fault};
use pylex::{Cursor, CursorFault};
use pytree_dump::Style;
use pytree_node::Profile;
use std::alloc::{AllocError, AllocFailed, Global};
use std::convert::AsStr;
use thiserror::Error;

/// Why the words give no command.
#[derive(Debug, Drop, Error)]
pub enum UsageFault {
    /// They aren't of a form that the program knows.
    #[error("bad arguments")]
    BadArguments,
    /// They aren't of the form of a command that names the word: no further words make those up to
    /// this one good.
    #[error("bad arguments: {0}")]
    BadWord(String),
    /// They aren't of the form of such a command, as a word is missing.
    #[error("bad arguments: a word is missing")]
    WordMissing,
    /// They ask for help, which is this text.
    #[error("{0}")]
    HelpAsked(String),
    /// They ask for the program's version, which is this text.
    #[error("{0}")]
    VersionAsked(String),
    /// They are of such a form, but what they give as a cursor isn't the text of one.
    #[error("malformed cursor")]
    MalformedCursor,
    /// There was no memory to read them.
    #[error("out of memory")]
    Memory,
}

impl From<AllocError> for UsageFault {
    ghost use Rattle.pyast_words.specs.declared.command.UsageFault.{UsageFault};

    ghost from_gives = { λ error r. r ≡ UsageFault.Memory };

    fn from(_error: AllocError) -> UsageFault {
        UsageFault::Memory
    }
}

impl<T: Drop> From<AllocFailed<T>> for UsageFault {
    fn from(_error: AllocFailed<T>) -> UsageFault {
        UsageFault::Memory
    }
}

impl From<CursorFault> for UsageFault {
    ghost from_gives = { λ fault r. r ≡ of_cursor fault };

    fn from(fault: CursorFault) -> UsageFault {
        match fault {
            CursorFault::Text | CursorFault::AnotherSource => UsageFault::MalformedCursor,
            CursorFault::Memory => UsageFault::Memory,
        }
    }
}

/// What is to be listed of a source's tokens.
#[derive(Debug, Drop)]
pub struct Tokens {
    /// Whether an operator is shown by its exact name.
    pub exact: bool,
    /// How many entries are listed at most, from 0 to 1,000,000,000; all if there is none.
    pub count: Option<u64>,
    /// The cursor after which the listing begins; the start of the source if there is none.
    pub resume: Option<Cursor>,
    /// The file of the source; the standard input if there is none.
    pub file: Option<String>,
    /// What the standard input is called in messages, where it is read, if not `<stdin>`.
    pub stdin_name: Option<String>,
}

/// How a source's tree is to be dumped.
#[derive(Debug, Drop)]
pub struct Dump {
    /// The version of Python by which the source is read, its extent, and how its tree is laid out,
    /// with at most 16 blanks a level.
    pub style: Style,
    /// Whether the places of nodes are shown.
    pub attributes: bool,
    /// Whether the row of a fault is shown.
    pub show: bool,
    /// The file of the source; the standard input if there is none.
    pub file: Option<String>,
    /// What the standard input is called in messages, where it is read, if not `<stdin>`.
    pub stdin_name: Option<String>,
}

/// By which Python a source's tree is to be written as source text.
#[derive(Debug, Drop)]
pub struct Unparse {
    /// The version of Python by which the source is read, and its extent.
    pub profile: Profile,
    /// Whether the row of a fault is shown.
    pub show: bool,
    /// The file of the source; the standard input if there is none.
    pub file: Option<String>,
    /// What the standard input is called in messages, where it is read, if not `<stdin>`.
    pub stdin_name: Option<String>,
}

/// By which Python some sources are to be judged.
#[derive(Debug, Drop)]
pub struct Check {
    /// The version of Python by which the sources are read, and their extent.
    pub profile: Profile,
    /// Whether the row of a fault is shown.
    pub show: bool,
    /// What the standard input is called in messages, where it is read, if not `<stdin>`.
    pub stdin_name: Option<String>,
    /// The files of the sources, one at least; `-`, once at most, is the standard input.
    pub files: Vec<String>,
}

/// What the program is to do.
#[derive(Debug, Drop)]
pub enum Command {
    /// To list the tokens of a source.
    Tokens(Tokens),
    /// To dump the tree of a source.
    Dump(Dump),
    /// To write the tree of a source as source text.
    Unparse(Unparse),
    /// To report what is wrong with each of some sources.
    Check(Check),
}

impl Command {
    /// The command that the words give, without the program's name.
    ///
    /// They are `tokens [-e] [--count N] [--resume CURSOR] [SOURCE]`, `dump [--indent N] [--bare]
    /// [--attributes] [--py312] [--whole] [--show] [SOURCE]`, `unparse [--py312] [--whole] [--show]
    /// [SOURCE]` or `check [--py312] [--whole] [--show] [--stdin-name NAME] FILE ..`, where `SOURCE`
    /// is `FILE` or `--stdin-name NAME`, with the options in any order. All others are bad
    /// arguments, but for those that ask for help, `help`, `-h` and `--help`, or for the program's
    /// version, `-V` and `--version`.
    ///
    /// # Errors
    ///
    /// A text that is no cursor's is reported as such only where the words are good otherwise.
    pub fn read(alloc: Global, words: &[String]) -> Result<Command, UsageFault>
        ensures gives { IfOk result (Gives (map string_bytes words.now)) }
        ensures within { IfOk result IsWithinLimits }
        ensures refuses { IfErr result (Refuses (map string_bytes words.now)) }
    {
        match read_words(alloc, words) {
            Err(UsageFault::BadArguments) if names_bad_word(words) => Err(named(alloc, words)),
            read => read,
        }
    }

    /// The file to read, if it isn't the standard input. The files of `check` aren't among them.
    pub fn file(&self) -> Option<&str>
        ensures { option_map (λ file. file.now) result ≡ file_of self.now }
    {
        match self {
            Command::Tokens(asked) => asked.file.as_deref(),
            Command::Dump(asked) => asked.file.as_deref(),
            Command::Unparse(asked) => asked.file.as_deref(),
            Command::Check(_) => None,
        }
    }

    /// The name of the standard input in a fault's line: as given, or `<stdin>`.
    fn stdin_name(&self) -> &str
        ensures { result.now ≡ stdin_name_of self.now }
    {
        let name = match self {
            Command::Tokens(asked) => asked.stdin_name.as_deref(),
            Command::Dump(asked) => asked.stdin_name.as_deref(),
            Command::Unparse(asked) => asked.stdin_name.as_deref(),
            Command::Check(asked) => asked.stdin_name.as_deref(),
        };
        name.unwrap_or("<stdin>")
    }

    /// The name of the source in a fault's line: the file as given, or that of the standard input.
    pub fn name(&self) -> &str
        ensures { result.now ≡ name_of self.now }
    {
        self.file().unwrap_or(self.stdin_name())
    }
}

/// Whether the word is named by which words are bad: those of `check`.
fn names_bad_word(words: &[String]) -> bool {
    words.first().is_some_and(|word| word.as_str() == "check")
}

/// The command that words give; bad ones are told as bad arguments.
pub(crate) fn read_words<S: AsStr>(alloc: Global, words: &[S]) -> Result<Command, UsageFault>
    ensures gives { IfOk result (Gives (map S.text words.now)) }
    ensures within { IfOk result IsWithinLimits }
    ensures refuses { IfErr result (Refuses (map S.text words.now)) }
{
    let grammar = grammar(alloc)?;
    match grammar.try_get_matches_from(words) {
        Ok(matches) => command_of(alloc, &matches),
        Err(error) => Err(usage_fault(alloc, &error)),
    }
}
