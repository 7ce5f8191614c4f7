//! A run of the program, over a reader and two writers.
ghost use Rattle.std.specs.Prelude.{◌≡◌, ◌≢◌, ◌+◌, ◌-◌, ◌^◌, ◌<◌, ◌++◌, Option, Some, None};
ghost use Rattle.std.specs.Prelude.{if◌then◌else◌};
ghost use Rattle.pysource.specs.Limits.{source_limit};
ghost use Rattle.pyast_fault.specs.Faults.{rows_of, IsToldAs, Tells};
ghost use Rattle.pyast_fault.specs.declared.fault.Fault.{Fault};
ghost use Rattle.pyast_fault.specs.declared.fault.RunFaultCode.{RunFaultCode};
ghost use Rattle.pyast_command.specs.Inner.Reading.{KeepsIn};
ghost use Rattle.pyast_command.specs.Runs.{ended_by, line_in, shows, Does, IsRun};
ghost use Rattle.pyast_words.specs.Words.{name_of};

use crate::checks::judge;
use crate::dumps::write_dump;
use crate::listings::write_listing;
use crate::modules::Kept;
use crate::unparses::write_unparse;
use pyast_fault::{Fault, tell_file, tell_shown};
use pyast_words::Command;
use pysource::{ByteIn, ByteOut};
use std::alloc::Global;

/// Whether a command shows the row of a fault.
fn shows(command: &Command) -> bool
    ensures { result ≡ shows command.now }
{
    match command {
        Command::Tokens(_) => false,
        Command::Dump(asked) => asked.show,
        Command::Unparse(asked) => asked.show,
        Command::Check(asked) => asked.show,
    }
}

/// Does what the command says with what a reader gives.
fn perform<R: ByteIn, W: ByteOut>(
    alloc: Global,
    command: &Command,
    reader: &mut R,
    writer: &mut W,
    kept: &mut Kept,
) -> Result<(), Fault>
    requires reader { (R.seen reader.old).failures < 2 ^ 64 - 1 }
    requires writer { (W.sent writer.old).failures < 2 ^ 64 - 1 }
    requires shows { kept.old.show ≡ shows command.now }
    ensures does { Does command.now (R.seen reader.old) (R.seen reader.new)
        (W.sent writer.old).taken (W.sent writer.new).taken source_limit (ended_by result) }
    ensures keeps { KeepsIn command.now (R.seen reader.old) (R.seen reader.new)
        kept.new.bytes.items (ended_by result) }
    ensures same { kept.new.show ≡ kept.old.show }
    ensures write_failed { ended_by result ≡ Some (Fault.Plain RunFaultCode.Write)
        → (W.sent writer.new).failures ≡ (W.sent writer.old).failures + 1 }
    ensures write_told { ended_by result ≢ Some (Fault.Plain RunFaultCode.Write)
        → (W.sent writer.new).failures ≡ (W.sent writer.old).failures }
{
    match command {
        Command::Tokens(asked) => write_listing(alloc, asked, reader, writer),
        Command::Dump(asked) => write_dump(alloc, asked, reader, writer, kept),
        Command::Unparse(asked) => write_unparse(alloc, asked, reader, writer, kept),
        Command::Check(asked) => judge(alloc, asked.profile, reader, kept),
    }
}

/// Tells what ended a run of a command.
fn tell_end<F: ByteOut>(
    alloc: Global,
    command: &Command,
    fault: Fault,
    kept: &Kept,
    faults: &mut F,
) -> Fault
    requires { (F.sent faults.old).failures < 2 ^ 64 - 1 }
    ensures told { Tells (F.sent faults.old) (F.sent faults.new)
        (line_in command.now (name_of command.now) result
        ++ rows_of (if kept.now.show then Some kept.now.bytes.items else None) result) }
    ensures same { IsToldAs fault result }
{
    let name = command.name();
    match command {
        Command::Check(_) => tell_file(alloc, name, fault, kept.shown(), faults),
        _ => tell_shown(alloc, name, fault, kept.shown(), faults),
    }
}

/// A run of the program: reads the source of `reader`, writes to `writer` what the command gives,
/// and reports what ended the run early, if anything did, in a line to `faults`. The answer is the
/// status that the program ends with: 0 where all was done, or that of the fault reported.
///
/// `tokens` reads line by line. Where a read fails, or the source is too long, what is written and
/// reported is that of the lines that were read whole: the entries of those, and then the failed
/// read, unless a count or a fault of the source ends the run before.
///
/// `dump` and `unparse` read the source whole. Where a read fails, or the source is too long, that
/// alone is reported; and nothing is written of a source that is refused. `dump` writes its text in
/// pieces: where memory ends in the midst of it, a front of it was written. What `unparse` writes
/// is itself a source, and is accepted as the same module.
///
/// After `dump` and `unparse` the tree of the source is not freed: it is left to the end of the
/// process, whose last act a run is.
///
/// The file that the command names is the caller's to open; its name is used in the fault's line
/// alone. Of `check` the reader is the standard input, under the name that it has there;
/// [`check_one`](crate::check_one) is for its files.
///
/// Where a command shows rows, the row of the place of a fault of the source follows its line, and
/// below it stands a caret.
pub fn run<R: ByteIn, W: ByteOut, F: ByteOut>(
    alloc: Global,
    command: &Command,
    reader: &mut R,
    writer: &mut W,
    faults: &mut F,
) -> u8
    requires reader { (R.seen reader.old).failures < 2 ^ 64 - 1 }
    requires writer { (W.sent writer.old).failures < 2 ^ 64 - 1 }
    requires faults { (F.sent faults.old).failures < 2 ^ 64 - 1 }
    ensures { (ended : Option Fault)
        × IsRun command.now (R.seen reader.old) (R.seen reader.new)
        (W.sent writer.old) (W.sent writer.new)
        (F.sent faults.old) (F.sent faults.new) source_limit result ended }
{
    let mut kept = Kept::new(alloc, shows(command));
    match perform(alloc, command, reader, writer, &mut kept) {
        Ok(()) => 0,
        Err(fault) => tell_end(alloc, command, fault, &kept, faults).status(),
    }
}
