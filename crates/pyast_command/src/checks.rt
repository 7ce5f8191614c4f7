//! One of the sources of `check`, which is read whole and judged.
ghost use Rattle.std.specs.Prelude.{◌≡◌, ◌+◌, ◌-◌, ◌^◌, ◌<◌, Option};
ghost use Rattle.pysource.specs.Limits.{source_limit};
ghost use Rattle.pyast_fault.specs.declared.fault.Fault.{Fault};
ghost use Rattle.pyast_command.specs.Checks.{IsChecked};
ghost use Rattle.pyast_command.specs.Inner.Reading.{KeepsFor};
ghost use Rattle.pyast_command.specs.Runs.{ended_by, Judges};

use crate::modules::{Kept, read_module};
use pyast_fault::{Fault, tell_file};
use pyast_words::Check;
use pysource::{ByteIn, ByteOut};
use pytree_node::Profile;
use std::alloc::Global;

/// Judges what a reader gives: its module is let go again.
pub(crate) fn judge<R: ByteIn>(
    alloc: Global,
    profile: Profile,
    reader: &mut R,
    kept: &mut Kept,
) -> Result<(), Fault>
    requires { (R.seen reader.old).failures < 2 ^ 64 - 1 }
    ensures judges { Judges profile (R.seen reader.old) (R.seen reader.new) source_limit
        (ended_by result) }
    ensures keeps { KeepsFor profile kept.old.show (R.seen reader.old) (R.seen reader.new)
        kept.new.bytes.items (ended_by result) }
    ensures same { kept.new.show ≡ kept.old.show }
{
    let _ = read_module(alloc, profile, reader, kept)?;
    Ok(())
}

/// Checks one of the files of `check`: reads it whole from `reader`, and reports to `faults` what is
/// wrong with it, if anything is, in a line, and with the row of its place where that is asked for.
/// The answer is the status that the program ends with if this is the only file: 0 where the source
/// is accepted, or that of the fault.
pub fn check_one<R: ByteIn, F: ByteOut>(
    alloc: Global,
    asked: &Check,
    name: &str,
    reader: &mut R,
    faults: &mut F,
) -> u8
    requires reader { (R.seen reader.old).failures < 2 ^ 64 - 1 }
    requires faults { (F.sent faults.old).failures < 2 ^ 64 - 1 }
    ensures { (ended : Option Fault)
        × IsChecked asked.now name.now (R.seen reader.old) (R.seen reader.new)
        (F.sent faults.old) (F.sent faults.new) source_limit result ended }
{
    let mut kept = Kept::new(alloc, asked.show);
    match judge(alloc, asked.profile, reader, &mut kept) {
        Ok(()) => 0,
        Err(fault) => tell_file(alloc, name, fault, kept.shown(), faults).status(),
    }
}
