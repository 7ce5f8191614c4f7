//! The text of a source's module, which is read whole.
ghost use Rattle.std.specs.Prelude.{◌≡◌, ◌≢◌, ◌+◌, ◌-◌, ◌^◌, ◌<◌, Some};
ghost use Rattle.pysource.specs.Limits.{source_limit};
ghost use Rattle.pyast_fault.specs.declared.fault.Fault.{Fault};
ghost use Rattle.pyast_fault.specs.declared.fault.RunFaultCode.{RunFaultCode};
ghost use Rattle.pyast_command.specs.Unparses.{Unparses};
ghost use Rattle.pyast_command.specs.Inner.Reading.{KeepsFor};
ghost use Rattle.pyast_command.specs.Runs.{ended_by, whole, PerformsWhole};

use crate::modules::{Kept, leave_to_exit, read_module};
use pyast_fault::Fault;
use pyast_words::Unparse;
use pysource::{ByteIn, ByteOut, write_all};
use pyunparse::unparse;
use std::alloc::Global;

/// Writes source text for what a reader gives, which is read whole and accepted before anything is
/// written.
pub(crate) fn write_unparse<R: ByteIn, W: ByteOut>(
    alloc: Global,
    asked: &Unparse,
    reader: &mut R,
    writer: &mut W,
    kept: &mut Kept,
) -> Result<(), Fault>
    requires reader { (R.seen reader.old).failures < 2 ^ 64 - 1 }
    requires writer { (W.sent writer.old).failures < 2 ^ 64 - 1 }
    ensures performs { PerformsWhole whole (Unparses asked.now.profile)
        (R.seen reader.old) (R.seen reader.new)
        (W.sent writer.old).taken (W.sent writer.new).taken source_limit (ended_by result) }
    ensures keeps { KeepsFor asked.now.profile kept.old.show (R.seen reader.old) (R.seen reader.new)
        kept.new.bytes.items (ended_by result) }
    ensures same { kept.new.show ≡ kept.old.show }
    ensures failed { ended_by result ≡ Some (Fault.Plain RunFaultCode.Write)
        → (W.sent writer.new).failures ≡ (W.sent writer.old).failures + 1 }
    ensures unfailed { ended_by result ≢ Some (Fault.Plain RunFaultCode.Write)
        → (W.sent writer.new).failures ≡ (W.sent writer.old).failures }
{
    let module = read_module(alloc, asked.profile, reader, kept)?;
    let text = unparse(alloc, &module)?;
    write_all(writer, text.as_bytes())?;
    leave_to_exit(module);
    Ok(())
}
