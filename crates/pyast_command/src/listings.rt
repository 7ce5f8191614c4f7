//! The listing of a source, written as it is read.
ghost use Rattle.std.specs.Prelude.{◌≡◌, ◌≢◌, ℕ, ◌+◌, ◌-◌, ◌^◌, ◌<◌, ◌≤◌, Bool, true, false, List};
ghost use Rattle.std.specs.Prelude.{[], ◌++◌, Option, Some, None, option_map, OnOk, OnErr, IfOk};
ghost use Rattle.std.specs.Prelude.{IfErr, string_bytes};
ghost use Rattle.pysource.specs.Limits.{source_limit};
ghost use Rattle.pysource.specs.Parts.{Parts};
ghost use Rattle.pysource.specs.Streams.{stream_of};
ghost use Rattle.pysource.specs.Taking.{fails};
ghost use Rattle.pylex.specs.Streamed.{Continues, StreamsIn};
ghost use Rattle.pyast_fault.specs.declared.fault.Fault.{Fault};
ghost use Rattle.pyast_fault.specs.declared.fault.RunFaultCode.{RunFaultCode};
ghost use Rattle.pyast_command.specs.Listings.{cursor_line, left_after, tokens_output, tokens_fault};
ghost use Rattle.pyast_command.specs.Listings.{output_of, fault_in};
ghost use Rattle.pyast_command.specs.Runs.{HoldsFor, ended_by, Performs};
ghost use Rattle.pyast_command.specs.Inner.Taken.{Starts, Lists};

use pyast_fault::{Fault, RunFaultCode};
use pyast_words::Tokens;
use pylex::{Cursor, Kind, LineLister, Step, push_line};
use pysource::{ByteIn, ByteOut, write_all};
use std::alloc::{AllocError, Global};

/// How many bytes of lines are held at least before they are written.
const ENOUGH: usize = 32_768;

/// Room for what is held, so that lines of usual length take no further memory.
const ROOM: usize = 65_536;

/// Appends the line of the cursor at which a lister stands.
fn push_cursor(output: &mut String, lister: &LineLister) -> Result<(), AllocError>
    ensures ok { OnOk result
        (string_bytes output.new ≡ string_bytes output.old ++ cursor_line lister.entry.now.shown) }
    ensures err { OnErr result (string_bytes output.new ≡ string_bytes output.old) }
{
    let text = lister.cursor()?.to_text()?;
    let line = format!(in *output.allocator(); "cursor {text}\n")?;
    output.push_str(line.as_str())
}

/// How many entries may still be listed after one of this kind, of those that a count allows.
/// Where the last of them is the end marker the count stops nothing: the listing comes to its end.
fn left_after(left: Option<u64>, kind: Kind) -> Option<u64>
    requires { left ≢ Some 0 }
    ensures { result ≡ left_after left kind }
{
    match left {
        Some(1) if kind == Kind::EndMarker => None,
        Some(left) => Some(left - 1),
        None => None,
    }
}

/// Whether a count allows no further entry.
fn is_reached(left: Option<u64>) -> bool
    ensures reached { result ≡ true → left ≡ Some 0 }
    ensures open { result ≡ false → left ≢ Some 0 }
{
    matches!(left, Some(0))
}

/// Writes the line of each entry that a lister still gives, up to a count and then that of the
/// cursor. The last of them are left in `output`, also where a fault ends the listing, unless it is
/// a failed write.
fn list<R: ByteIn, W: ByteOut>(
    mut lister: LineLister,
    exact: bool,
    count: Option<u64>,
    output: &mut String,
    reader: &mut R,
    writer: &mut W,
) -> Result<(), Fault>
    requires reads { (R.seen reader.old).failures < 2 ^ 64 - 1 + fails lister.lines.reach }
    requires writes { (W.sent writer.old).failures < 2 ^ 64 - 1 }
    requires empty { string_bytes output.old ≡ [] }
    requires within { lister.lines.count ≤ source_limit }
    requires stands { (more : List ℕ) (broken : Bool) → Continues lister.lines more broken
        → (p : Parts) × StreamsIn lister p lister.shown.given more broken }
    ensures holds { Lists (R.seen reader.old) (R.seen reader.new) lister exact count
        (λ listed told. HoldsFor listed told (W.sent writer.old).taken (W.sent writer.new).taken
        (string_bytes output.new) (ended_by result)) }
    ensures failed { ended_by result ≡ Some (Fault.Plain RunFaultCode.Write)
        → (W.sent writer.new).failures ≡ (W.sent writer.old).failures + 1 }
    ensures unfailed { ended_by result ≢ Some (Fault.Plain RunFaultCode.Write)
        → (W.sent writer.new).failures ≡ (W.sent writer.old).failures }
{
    let mut left = count;
    while !is_reached(left) {
        match lister.next(reader)? {
            Step::Entry(entry) => {
                push_line(output, &entry, lister.text(&entry), exact)?;
                left = left_after(left, entry.kind);
                if output.len() >= ENOUGH {
                    write_all(writer, output.as_bytes())?;
                    output.clear();
                }
            }
            Step::End => return Ok(()),
            Step::Fault(fault) => return Err(Fault::from(fault)),
        }
    }
    push_cursor(output, &lister)?;
    Ok(())
}

/// Begins at the start of what a reader gives, or after a cursor, which must be one of that
/// source.
fn begin<R: ByteIn>(
    alloc: Global,
    resume: Option<&Cursor>,
    reader: &mut R,
) -> Result<LineLister, Fault>
    requires { (R.seen reader.old).failures < 2 ^ 64 - 1 }
    ensures starts { IfOk result
        (λ lister. Starts (R.seen reader.old) (R.seen reader.new)
        (option_map (λ c. c.now) resume.entry) lister) }
    ensures refused { IfErr result
        (λ fault. (exact : Bool) (count : Option ℕ) (taken : Option (List ℕ)) →
        Performs (λ broken input. tokens_output exact count (option_map (λ c. c.now) resume.entry)
        (stream_of broken input))
        (λ broken input. tokens_fault count (option_map (λ c. c.now) resume.entry)
        (stream_of broken input))
        (R.seen reader.old) (R.seen reader.new) taken taken source_limit (Some fault)) }
    ensures untouched { IfErr result (λ fault. fault ≢ Fault.Plain RunFaultCode.Write) }
{
    match resume {
        None => Ok(LineLister::new(alloc, reader)?),
        Some(cursor) => Ok(LineLister::resume_checked(alloc, reader, cursor)?),
    }
}

/// Whether a listing ended by a failed write.
fn is_write_failed(listed: &Result<(), Fault>) -> bool
    ensures failed { result ≡ true → ended_by listed.now ≡ Some (Fault.Plain RunFaultCode.Write) }
    ensures unfailed { result ≡ false
        → ended_by listed.now ≢ Some (Fault.Plain RunFaultCode.Write) }
{
    matches!(listed, Err(Fault::Plain(RunFaultCode::Write)))
}

/// Writes the listing of what a reader gives, read line by line. What is held at its end is written
/// before a fault is reported, and a failure of that write is what ends the run then: it is met
/// first.
pub(crate) fn write_listing<R: ByteIn, W: ByteOut>(
    alloc: Global,
    asked: &Tokens,
    reader: &mut R,
    writer: &mut W,
) -> Result<(), Fault>
    requires reader { (R.seen reader.old).failures < 2 ^ 64 - 1 }
    requires writer { (W.sent writer.old).failures < 2 ^ 64 - 1 }
    ensures performs { Performs (output_of asked.now) (fault_in asked.now)
        (R.seen reader.old) (R.seen reader.new)
        (W.sent writer.old).taken (W.sent writer.new).taken source_limit (ended_by result) }
    ensures failed { ended_by result ≡ Some (Fault.Plain RunFaultCode.Write)
        → (W.sent writer.new).failures ≡ (W.sent writer.old).failures + 1 }
    ensures unfailed { ended_by result ≢ Some (Fault.Plain RunFaultCode.Write)
        → (W.sent writer.new).failures ≡ (W.sent writer.old).failures }
{
    let lister = begin(alloc, asked.resume.as_ref(), reader)?;
    let mut output = String::with_capacity(alloc, ROOM)?;
    let listed = list(
        lister,
        asked.exact,
        asked.count,
        &mut output,
        reader,
        writer,
    );
    if is_write_failed(&listed) {
        return listed;
    }
    write_all(writer, output.as_bytes())?;
    listed
}
