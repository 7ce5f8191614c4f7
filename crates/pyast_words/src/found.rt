//! What was found among the words, as a command.

ghost use Rattle.std.specs.Prelude.{◌≡◌, ◌≤◌, [], codes, map, option_map};
ghost use Rattle.std.specs.Prelude.{string_bytes, unwrap_or, IfErr, IfOk, IfSome};
ghost use Rattle.clap.specs.Matches.{found_of};
ghost use Rattle.clap.specs.Simple.{subcommand_rows_of};
ghost use Rattle.clap.specs.Values.{kind_of};
ghost use Rattle.clap.specs.Walk.{all_of, first_of, one_of, rows_of};
ghost use Rattle.pylex.specs.CursorTexts.{IsWellFormed};
ghost use Rattle.pylex.specs.Cursors.{cursor_text};
ghost use Rattle.pytree_node.specs.Profiles.{version_has_types};
ghost use Rattle.pyast_words.specs.Inner.Matching.{Explains, MissesCheck, MissesCommand, MissesCursor};
ghost use Rattle.pyast_words.specs.Inner.Matching.{MissesDump, MissesNumber, MissesSource};
ghost use Rattle.pyast_words.specs.Inner.Matching.{MissesTokens, MissesUnparse};
ghost use Rattle.pyast_words.specs.Words.{dashes, is_whole, largest_indent, IsCheck, IsCommand};
ghost use Rattle.pyast_words.specs.Words.{IsDump, IsFlag, IsNumber, IsProfile, IsSource, IsTokens};
ghost use Rattle.pyast_words.specs.Words.{IsUnparse};

use crate::command::{Check, Command, Dump, Tokens, Unparse, UsageFault};
use crate::forms::{LARGEST_COUNT, LARGEST_INDENT};
use clap::ArgMatches;
use clap::error::ErrorKind;
use pylex::Cursor;
use pytree_dump::Style;
use pytree_node::{Extent, Profile, Version};
use std::alloc::{AllocError, Global};

/// What a refusal of the words is reported as.
pub(crate) fn usage_fault(alloc: Global, error: &clap::Error) -> UsageFault
    ensures { Explains (kind_of error.now) result }
{
    match error.kind() {
        ErrorKind::DisplayHelp => match error.to_string(alloc) {
            Ok(text) => UsageFault::HelpAsked(text),
            Err(_) => UsageFault::Memory,
        },
        ErrorKind::DisplayVersion => match error.to_string(alloc) {
            Ok(text) => UsageFault::VersionAsked(text),
            Err(_) => UsageFault::Memory,
        },
        ErrorKind::OutOfMemory => UsageFault::Memory,
        _ => UsageFault::BadArguments,
    }
}

/// The number that is given for an option, if one is; it is at most the largest.
fn number_of(
    matches: &ArgMatches<'_>,
    option: &str,
    largest: u32,
) -> Result<Option<u64>, UsageFault>
    ensures given { IfOk result
        (IsNumber largest (one_of option.now (rows_of (found_of matches.now)))) }
    ensures within { IfOk result (λ number. IfSome number (λ n. n ≤ largest)) }
    ensures refused { IfErr result
        (MissesNumber largest (one_of option.now (rows_of (found_of matches.now)))) }
{
    let Ok(number) = matches.try_get_one::<u64>(option) else {
        return Err(UsageFault::BadArguments);
    };
    if number.unwrap_or(0) > u64::from(largest) {
        return Err(UsageFault::BadArguments);
    }
    Ok(number)
}

/// Whether a flag is given.
fn flag_of(matches: &ArgMatches<'_>, name: &str) -> bool
    ensures { IsFlag (one_of name.now (rows_of (found_of matches.now))) result }
{
    matches.get_flag(name)
}

/// The text that is given for an option or a word, if one is.
fn text_of(
    alloc: Global,
    matches: &ArgMatches<'_>,
    name: &str,
) -> Result<Option<String>, AllocError>
    ensures { IfOk result
        (λ text. option_map string_bytes text
        ≡ first_of name.now (rows_of (found_of matches.now))) }
{
    match matches.get_str(name) {
        Some(text) => Ok(Some(String::from_str(alloc, text)?)),
        None => Ok(None),
    }
}

/// The file that is given, if one is, and else the name for the standard input, if one is.
fn source_of(
    alloc: Global,
    matches: &ArgMatches<'_>,
) -> Result<(Option<String>, Option<String>), UsageFault>
    ensures given { IfOk result (λ source. IsSource (rows_of (found_of matches.now))
        (option_map string_bytes source.0) (option_map string_bytes source.1)) }
    ensures refused { IfErr result (MissesSource (rows_of (found_of matches.now))) }
{
    let file = text_of(alloc, matches, "FILE")?;
    let stdin_name = text_of(alloc, matches, "stdin-name")?;
    if file.is_some() && stdin_name.is_some() {
        return Err(UsageFault::BadArguments);
    }
    Ok((file, stdin_name))
}

/// The files that are given.
fn files_of(alloc: Global, matches: &ArgMatches<'_>) -> Result<Vec<String>, AllocError>
    ensures { IfOk result
        (λ files. map string_bytes files.items
        ≡ unwrap_or (all_of (codes "FILE") (rows_of (found_of matches.now))) []) }
{
    let words = matches.get_strs("FILE").unwrap_or(&[]);
    let mut files = Vec::new(alloc);
    for word in words {
        files.push(String::from_str(alloc, word)?)?;
    }
    Ok(files)
}

/// The cursor that is given, if one is.
fn cursor_of(alloc: Global, matches: &ArgMatches<'_>) -> Result<Option<Cursor>, UsageFault>
    ensures given { IfOk result
        (λ cursor. option_map cursor_text cursor
        ≡ first_of (codes "resume") (rows_of (found_of matches.now))) }
    ensures well_formed { IfOk result (λ cursor. IfSome cursor IsWellFormed) }
    ensures refused { IfErr result (MissesCursor (rows_of (found_of matches.now))) }
{
    match matches.get_str("resume") {
        Some(text) => Ok(Some(Cursor::from_text(alloc, text)?)),
        None => Ok(None),
    }
}

/// What the words after `tokens` ask for. The cursor is read last, so that it is refused only where
/// they are good otherwise.
fn tokens_of(alloc: Global, matches: &ArgMatches<'_>) -> Result<Tokens, UsageFault>
    ensures given { IfOk result (IsTokens (rows_of (found_of matches.now))) }
    ensures refused { IfErr result (MissesTokens (rows_of (found_of matches.now))) }
{
    let exact = flag_of(matches, "exact");
    let count = number_of(matches, "count", LARGEST_COUNT)?;
    let (file, stdin_name) = source_of(alloc, matches)?;
    let resume = cursor_of(alloc, matches)?;
    Ok(Tokens {
        exact,
        count,
        resume,
        file,
        stdin_name,
    })
}

/// The blanks of a level that are given, if any are.
fn indent_of(matches: &ArgMatches<'_>) -> Result<Option<u8>, UsageFault>
    ensures given { IfOk result
        (IsNumber largest_indent (one_of (codes "indent") (rows_of (found_of matches.now)))) }
    ensures within { IfOk result (λ indent. IfSome indent (λ n. n ≤ largest_indent)) }
    ensures refused { IfErr result
        (MissesNumber largest_indent (one_of (codes "indent") (rows_of (found_of matches.now)))) }
{
    match number_of(matches, "indent", LARGEST_INDENT)? {
        Some(blanks) => Ok(Some(blanks as u8)),
        None => Ok(None),
    }
}

/// The version of Python that is asked for.
fn version_of(matches: &ArgMatches<'_>) -> Version
    ensures { IsFlag (one_of (codes "py312") (rows_of (found_of matches.now)))
        (version_has_types result) }
{
    if flag_of(matches, "py312") {
        Version::Py312
    } else {
        Version::Py311
    }
}

/// The extent of the language that is asked for.
fn extent_of(matches: &ArgMatches<'_>) -> Extent
    ensures { IsFlag (one_of (codes "whole") (rows_of (found_of matches.now))) (is_whole result) }
{
    if flag_of(matches, "whole") {
        Extent::Whole
    } else {
        Extent::Plain
    }
}

/// The version and the extent that are asked for, each by an option of its own.
fn profile_of(matches: &ArgMatches<'_>) -> Profile
    ensures { IsProfile (rows_of (found_of matches.now)) result }
{
    Profile {
        version: version_of(matches),
        extent: extent_of(matches),
    }
}

/// What the words after `dump` ask for.
fn dump_of(alloc: Global, matches: &ArgMatches<'_>) -> Result<Dump, UsageFault>
    ensures given { IfOk result (IsDump (rows_of (found_of matches.now))) }
    ensures refused { IfErr result (MissesDump (rows_of (found_of matches.now))) }
{
    let style = Style {
        indent: indent_of(matches)?,
        names: !flag_of(matches, "bare"),
        profile: profile_of(matches),
    };
    let attributes = flag_of(matches, "attributes");
    let show = flag_of(matches, "show");
    let (file, stdin_name) = source_of(alloc, matches)?;
    Ok(Dump {
        style,
        attributes,
        show,
        file,
        stdin_name,
    })
}

/// What the words after `unparse` ask for.
fn unparse_of(alloc: Global, matches: &ArgMatches<'_>) -> Result<Unparse, UsageFault>
    ensures given { IfOk result (IsUnparse (rows_of (found_of matches.now))) }
    ensures refused { IfErr result (MissesUnparse (rows_of (found_of matches.now))) }
{
    let show = flag_of(matches, "show");
    let (file, stdin_name) = source_of(alloc, matches)?;
    Ok(Unparse {
        profile: profile_of(matches),
        show,
        file,
        stdin_name,
    })
}

/// How many of some files are `-`.
fn dash_count(files: &[String]) -> usize
    ensures { result ≡ dashes (map string_bytes files.now) }
{
    files.iter().filter(|file| file.as_str() == "-").count()
}

/// What the words after `check` ask for.
fn check_of(alloc: Global, matches: &ArgMatches<'_>) -> Result<Check, UsageFault>
    ensures given { IfOk result (IsCheck (rows_of (found_of matches.now))) }
    ensures refused { IfErr result (MissesCheck (rows_of (found_of matches.now))) }
{
    let show = flag_of(matches, "show");
    let stdin_name = text_of(alloc, matches, "stdin-name")?;
    let files = files_of(alloc, matches)?;
    let dashes = dash_count(files.as_slice());
    if files.is_empty() || dashes > 1 || dashes == 0 && stdin_name.is_some() {
        return Err(UsageFault::BadArguments);
    }
    Ok(Check {
        profile: profile_of(matches),
        show,
        stdin_name,
        files,
    })
}

/// The command that was found among the words.
pub(crate) fn command_of(alloc: Global, matches: &ArgMatches<'_>) -> Result<Command, UsageFault>
    ensures given { IfOk result (IsCommand (subcommand_rows_of matches.now)) }
    ensures refused { IfErr result (MissesCommand (subcommand_rows_of matches.now)) }
{
    if let Some(matches) = matches.subcommand_matches("tokens") {
        return Ok(Command::Tokens(tokens_of(alloc, matches)?));
    }
    if let Some(matches) = matches.subcommand_matches("dump") {
        return Ok(Command::Dump(dump_of(alloc, matches)?));
    }
    if let Some(matches) = matches.subcommand_matches("unparse") {
        return Ok(Command::Unparse(unparse_of(alloc, matches)?));
    }
    if let Some(matches) = matches.subcommand_matches("check") {
        return Ok(Command::Check(check_of(alloc, matches)?));
    }
    Err(UsageFault::BadArguments)
}
