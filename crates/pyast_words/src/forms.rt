//! The forms that the words may have, as `clap` takes them.

ghost use Rattle.std.specs.Prelude.{◌≡◌, codes, IfOk};
ghost use Rattle.clap.specs.Simple.{app_of, new_shape};
ghost use Rattle.pyast_words.specs.Inner.Matching.{IsForm, IsRule};
ghost use Rattle.pyast_words.specs.Words.{check_shape, dump_shape, exact_rule, file_rule, files_rule};
ghost use Rattle.pyast_words.specs.Words.{flag_rule, grammar, number_rule, text_rule, tokens_shape};
ghost use Rattle.pyast_words.specs.Words.{unparse_shape};

use clap::{Arg, ArgAction, value_parser};
use std::alloc::{AllocError, Global};

/// The version of the program.
const VERSION: &str = "2.0.0";

/// What `dump`, `unparse` and `check` refuse, after their help.
const REFUSED: &str = "\
Refused, though Python 3.11 accepts them: \\N{..} in strings; in the fields of f-strings, quotes
and line ends in strings, and = in an f-string; and, without --whole, match statements, f-strings,
floats, imaginary numbers, and integers of 2**128 or more.
Limits: integers of 4,300 digits, 600 open brackets, 500 nested expressions or statements.";

/// The largest count of entries that can be asked for.
pub(crate) const LARGEST_COUNT: u32 = 1_000_000_000;

/// The most blanks of a level that can be asked for.
pub(crate) const LARGEST_INDENT: u32 = 16;

/// The option `--NAME N`, N being a whole number up to the largest.
fn number_form<'a>(alloc: Global, name: &'a str, largest: u32, help: &'a str) -> Arg<'a>
    ensures { IsRule (number_rule name.now largest) result }
{
    Arg::new(alloc, name)
        .long(name)
        .value_name("N")
        .value_parser(value_parser!(u64).range(..=i64::from(largest)))
        .help(help)
}

/// The option `--NAME`.
fn flag_form<'a>(alloc: Global, name: &'a str, help: &'a str) -> Arg<'a>
    ensures { IsRule (flag_rule name.now) result }
{
    Arg::new(alloc, name)
        .long(name)
        .action(ArgAction::SetTrue)
        .help(help)
}

/// The option `--NAME TEXT`.
fn text_form<'a>(alloc: Global, name: &'a str, text: &'a str, help: &'a str) -> Arg<'a>
    ensures { IsRule (text_rule name.now) result }
{
    Arg::new(alloc, name).long(name).value_name(text).help(help)
}

/// The option `-e`.
fn exact_form<'a>(alloc: Global) -> Arg<'a>
    ensures { IsRule exact_rule result }
{
    Arg::new(alloc, "exact")
        .short('e')
        .action(ArgAction::SetTrue)
        .help("Show operators by their exact names")
}

/// The option `--resume CURSOR`.
fn resume_form<'a>(alloc: Global) -> Arg<'a>
    ensures { IsRule (text_rule (codes "resume")) result }
{
    text_form(
        alloc,
        "resume",
        "CURSOR",
        "Resume after a cursor of the same source",
    )
}

/// The option `--stdin-name NAME`.
fn stdin_name_form<'a>(alloc: Global) -> Arg<'a>
    ensures { IsRule (text_rule (codes "stdin-name")) result }
{
    text_form(
        alloc,
        "stdin-name",
        "NAME",
        "The name of standard input in messages, in place of <stdin>",
    )
}

/// The word `FILE`.
fn file_form<'a>(alloc: Global) -> Arg<'a>
    ensures { IsRule file_rule result }
{
    Arg::new(alloc, "FILE").help("The source file; standard input if omitted")
}

/// The words `FILE ..`.
fn files_form<'a>(alloc: Global) -> Arg<'a>
    ensures { IsRule files_rule result }
{
    Arg::new(alloc, "FILE")
        .num_args(1..)
        .required(true)
        .help("The source files; - is standard input")
}

/// The option `--py312`.
fn newer_form<'a>(alloc: Global) -> Arg<'a>
    ensures { IsRule (flag_rule (codes "py312")) result }
{
    let newer = "Read `type` statements and type parameters too, as Python 3.12 does";
    flag_form(alloc, "py312", newer)
}

/// The option `--whole`.
fn whole_form<'a>(alloc: Global) -> Arg<'a>
    ensures { IsRule (flag_rule (codes "whole")) result }
{
    let whole =
        "Read match statements, f-strings, floats, imaginary numbers and longer integers too";
    flag_form(alloc, "whole", whole)
}

/// The option `--show`.
fn show_form<'a>(alloc: Global) -> Arg<'a>
    ensures { IsRule (flag_rule (codes "show")) result }
{
    let show = "Show the line of a fault too, with a caret below its place";
    flag_form(alloc, "show", show)
}

/// A subcommand, as yet without words of its own.
fn new_form<'a>(alloc: Global, name: &'a str, about: &'a str) -> clap::Command<'a>
    ensures { IsForm (new_shape name.now) result }
{
    clap::Command::new(alloc, name).about(about)
}

/// The words of `tokens`.
fn tokens_form<'a>(alloc: Global) -> Result<clap::Command<'a>, AllocError>
    ensures { IfOk result (IsForm tokens_shape) }
{
    let stop = "Stop after N entries, and write a cursor to resume from";
    new_form(alloc, "tokens", "List the tokens of a source")
        .arg(exact_form(alloc))?
        .arg(number_form(alloc, "count", LARGEST_COUNT, stop))?
        .arg(resume_form(alloc))?
        .arg(stdin_name_form(alloc))?
        .arg(file_form(alloc))
}

/// The same of a subcommand that reads trees.
fn tree_form<'a>(alloc: Global, name: &'a str, about: &'a str) -> clap::Command<'a>
    ensures { IsForm (new_shape name.now) result }
{
    new_form(alloc, name, about).after_help(REFUSED)
}

/// The words of `dump`.
fn dump_form<'a>(alloc: Global) -> Result<clap::Command<'a>, AllocError>
    ensures { IfOk result (IsForm dump_shape) }
{
    let lines =
        "Put each field and each list element on its own line, indented by N spaces a level";
    let bare = "Omit the names of fields";
    let attributes = "Show where each node stands, by lines and by bytes within them";
    tree_form(alloc, "dump", "Dump the tree of a source")
        .arg(number_form(alloc, "indent", LARGEST_INDENT, lines))?
        .arg(flag_form(alloc, "bare", bare))?
        .arg(flag_form(alloc, "attributes", attributes))?
        .arg(newer_form(alloc))?
        .arg(whole_form(alloc))?
        .arg(show_form(alloc))?
        .arg(stdin_name_form(alloc))?
        .arg(file_form(alloc))
}

/// The words of `unparse`.
fn unparse_form<'a>(alloc: Global) -> Result<clap::Command<'a>, AllocError>
    ensures { IfOk result (IsForm unparse_shape) }
{
    tree_form(
        alloc,
        "unparse",
        "Write the tree of a source as source text",
    )
    .arg(newer_form(alloc))?
    .arg(whole_form(alloc))?
    .arg(show_form(alloc))?
    .arg(stdin_name_form(alloc))?
    .arg(file_form(alloc))
}

/// The words of `check`.
fn check_form<'a>(alloc: Global) -> Result<clap::Command<'a>, AllocError>
    ensures { IfOk result (IsForm check_shape) }
{
    tree_form(
        alloc,
        "check",
        "Report what is wrong with each of some sources, and write no tree",
    )
    .arg(newer_form(alloc))?
    .arg(whole_form(alloc))?
    .arg(show_form(alloc))?
    .arg(stdin_name_form(alloc))?
    .arg(files_form(alloc))
}

/// The forms that the words may have.
pub(crate) fn grammar<'a>(alloc: Global) -> Result<clap::Command<'a>, AllocError>
    ensures { IfOk result (λ command. app_of command ≡ grammar) }
{
    clap::Command::new(alloc, "pyast")
        .bin_name("pyast")?
        .about("List, dump, unparse and check Python source")
        .version(VERSION)
        .no_binary_name(true)
        .subcommand_required(true)
        .subcommand(tokens_form(alloc)?)?
        .subcommand(dump_form(alloc)?)?
        .subcommand(unparse_form(alloc)?)?
        .subcommand(check_form(alloc)?)
}
