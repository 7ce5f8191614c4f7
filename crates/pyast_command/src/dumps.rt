//! The dump of a source, which is read whole.
ghost use Rattle.std.specs.Prelude.{◌≡◌, ◌≢◌, ◌+◌, ◌-◌, ◌^◌, ◌<◌, ◌++◌, true, false, Some, None};
ghost use Rattle.std.specs.Prelude.{codes};
ghost use Rattle.std.specs.List.{concat};
ghost use Rattle.pysource.specs.Limits.{source_limit};
ghost use Rattle.pyast_fault.specs.declared.fault.Fault.{Fault};
ghost use Rattle.pyast_fault.specs.declared.fault.RunFaultCode.{RunFaultCode};
ghost use Rattle.pyast_command.specs.Dumps.{Dumps};
ghost use Rattle.pyast_command.specs.Inner.Reading.{KeepsFor};
ghost use Rattle.pyast_command.specs.Runs.{ended_by, in_pieces, PerformsWhole, WritesFor};

use crate::modules::{Kept, leave_to_exit, read_module, read_placed};
use pyast_fault::Fault;
use pyast_words::Dump;
use pyplaces::PlacesLeft;
use pysource::{ByteIn, ByteOut, write_all};
use pytree_dump::{PlacedPieces, Style};
use pytree_marked::{NoPlaces, PlaceSource};
use std::alloc::Global;

/// How many bytes of text are held at least before they are written.
const ENOUGH: usize = 65_536;

/// Room for what is held, so that statements of usual length take no further memory.
const ROOM: usize = 131_072;

/// Writes the pieces of a dump, and a line feed: the text is never held whole.
fn write_pieces<P: PlaceSource + Drop, W: ByteOut>(
    alloc: Global,
    mut pieces: PlacedPieces<'_, P>,
    writer: &mut W,
) -> Result<(), Fault>
    requires writer { (W.sent writer.old).failures < 2 ^ 64 - 1 }
    ensures writes { WritesFor (concat pieces.entry ++ codes "\n") None
        (W.sent writer.old).taken (W.sent writer.new).taken (ended_by result) }
    ensures failed { ended_by result ≡ Some (Fault.Plain RunFaultCode.Write)
        → (W.sent writer.new).failures ≡ (W.sent writer.old).failures + 1 }
    ensures unfailed { ended_by result ≢ Some (Fault.Plain RunFaultCode.Write)
        → (W.sent writer.new).failures ≡ (W.sent writer.old).failures }
{
    let mut held = String::with_capacity(alloc, ROOM)?;
    'pieces: while pieces.push_next(&mut held)? {
        if held.len() >= ENOUGH {
            write_all(writer, held.as_bytes())?;
            held.clear();
        }
    }
    held.push('\n')?;
    Ok(write_all(writer, held.as_bytes())?)
}

/// Writes the dump of what a reader gives, without places.
fn write_bare<R: ByteIn, W: ByteOut>(
    alloc: Global,
    style: Style,
    reader: &mut R,
    writer: &mut W,
    kept: &mut Kept,
) -> Result<(), Fault>
    requires reader { (R.seen reader.old).failures < 2 ^ 64 - 1 }
    requires writer { (W.sent writer.old).failures < 2 ^ 64 - 1 }
    ensures performs { PerformsWhole in_pieces (Dumps style false)
        (R.seen reader.old) (R.seen reader.new)
        (W.sent writer.old).taken (W.sent writer.new).taken source_limit (ended_by result) }
    ensures keeps { KeepsFor style.profile kept.old.show (R.seen reader.old) (R.seen reader.new)
        kept.new.bytes.items (ended_by result) }
    ensures same { kept.new.show ≡ kept.old.show }
    ensures failed { ended_by result ≡ Some (Fault.Plain RunFaultCode.Write)
        → (W.sent writer.new).failures ≡ (W.sent writer.old).failures + 1 }
    ensures unfailed { ended_by result ≢ Some (Fault.Plain RunFaultCode.Write)
        → (W.sent writer.new).failures ≡ (W.sent writer.old).failures }
{
    let module = read_module(alloc, style.profile, reader, kept)?;
    let pieces = PlacedPieces::new(alloc, &module, style, NoPlaces)?;
    write_pieces(alloc, pieces, writer)?;
    leave_to_exit(module);
    Ok(())
}

/// Writes the dump of what a reader gives, with the places of its nodes.
fn write_placed<R: ByteIn, W: ByteOut>(
    alloc: Global,
    style: Style,
    reader: &mut R,
    writer: &mut W,
    kept: &mut Kept,
) -> Result<(), Fault>
    requires reader { (R.seen reader.old).failures < 2 ^ 64 - 1 }
    requires writer { (W.sent writer.old).failures < 2 ^ 64 - 1 }
    ensures performs { PerformsWhole in_pieces (Dumps style true)
        (R.seen reader.old) (R.seen reader.new)
        (W.sent writer.old).taken (W.sent writer.new).taken source_limit (ended_by result) }
    ensures keeps { KeepsFor style.profile kept.old.show (R.seen reader.old) (R.seen reader.new)
        kept.new.bytes.items (ended_by result) }
    ensures same { kept.new.show ≡ kept.old.show }
    ensures failed { ended_by result ≡ Some (Fault.Plain RunFaultCode.Write)
        → (W.sent writer.new).failures ≡ (W.sent writer.old).failures + 1 }
    ensures unfailed { ended_by result ≢ Some (Fault.Plain RunFaultCode.Write)
        → (W.sent writer.new).failures ≡ (W.sent writer.old).failures }
{
    let (module, places) = read_placed(alloc, style.profile, reader, kept)?.into_parts();
    let pieces = PlacedPieces::new(alloc, &module, style, PlacesLeft::new(&places))?;
    write_pieces(alloc, pieces, writer)?;
    leave_to_exit(module);
    Ok(())
}

/// Writes the dump of what a reader gives, which is read whole and accepted before anything is
/// written.
pub(crate) fn write_dump<R: ByteIn, W: ByteOut>(
    alloc: Global,
    asked: &Dump,
    reader: &mut R,
    writer: &mut W,
    kept: &mut Kept,
) -> Result<(), Fault>
    requires reader { (R.seen reader.old).failures < 2 ^ 64 - 1 }
    requires writer { (W.sent writer.old).failures < 2 ^ 64 - 1 }
    ensures performs { PerformsWhole in_pieces (Dumps asked.now.style asked.now.attributes)
        (R.seen reader.old) (R.seen reader.new)
        (W.sent writer.old).taken (W.sent writer.new).taken source_limit (ended_by result) }
    ensures keeps { KeepsFor asked.now.style.profile kept.old.show (R.seen reader.old) (R.seen reader.new)
        kept.new.bytes.items (ended_by result) }
    ensures same { kept.new.show ≡ kept.old.show }
    ensures failed { ended_by result ≡ Some (Fault.Plain RunFaultCode.Write)
        → (W.sent writer.new).failures ≡ (W.sent writer.old).failures + 1 }
    ensures unfailed { ended_by result ≢ Some (Fault.Plain RunFaultCode.Write)
        → (W.sent writer.new).failures ≡ (W.sent writer.old).failures }
{
    if asked.attributes {
        write_placed(alloc, asked.style, reader, writer, kept)
    } else {
        write_bare(alloc, asked.style, reader, writer, kept)
    }
}
