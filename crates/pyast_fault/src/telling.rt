//! What is told of a fault, on the standard error.

ghost use Rattle.std.specs.Prelude.{◌≡◌, ◌+◌, ◌-◌, ◌^◌, ◌<◌, ◌≤◌, ◌++◌, option_map, IfOk};
ghost use Rattle.std.specs.String.{string_bytes};
ghost use Rattle.pyast_fault.specs.Faults.{bad_word_line, fault_line, file_line, pair_line, plain_line};
ghost use Rattle.pyast_fault.specs.Faults.{rows_of, text_of, IsToldAs, Tells};
ghost use Rattle.pyast_fault.specs.Inner.Telling.{told_lines};
ghost use Rattle.pyast_fault.specs.declared.fault.Fault.{Fault};
ghost use Rattle.pyast_fault.specs.declared.fault.FaultCode.{FaultCode};
ghost use Rattle.pyast_fault.specs.declared.fault.RunFaultCode.{RunFaultCode};

use crate::fault::{Fault, FaultCode, RunFaultCode, SourceFaultCode, fault_text};
use crate::rows::push_row_and_caret;
use pysource::{ByteOut, Place, WriteFailed, write_all};
use std::alloc::{AllocError, Global};

/// Writes the line of a fault without a place. It takes no memory.
fn tell_plain<F: ByteOut>(code: RunFaultCode, faults: &mut F) -> Result<(), WriteFailed>
    requires { (F.sent faults.old).failures < 2 ^ 64 - 1 }
    ensures told { Tells (F.sent faults.old) (F.sent faults.new)
        (plain_line (text_of (FaultCode.Run code))) }
    ensures once { (F.sent faults.new).failures ≤ (F.sent faults.old).failures + 1 }
{
    write_all(faults, b"pyast: ")?;
    write_all(faults, fault_text(FaultCode::Run(code)).as_bytes())?;
    write_all(faults, b"\n")
}

/// Writes a line of two parts. It takes no memory.
fn tell_pair<F: ByteOut>(first: &str, second: &str, faults: &mut F) -> Result<(), WriteFailed>
    requires { (F.sent faults.old).failures < 2 ^ 64 - 1 }
    ensures told { Tells (F.sent faults.old) (F.sent faults.new) (pair_line first.now second.now) }
    ensures once { (F.sent faults.new).failures ≤ (F.sent faults.old).failures + 1 }
{
    write_all(faults, b"pyast: ")?;
    write_all(faults, first.as_bytes())?;
    write_all(faults, b": ")?;
    write_all(faults, second.as_bytes())?;
    write_all(faults, b"\n")
}

/// Writes the line of a fault without a place of one of several files.
fn tell_of_file<F: ByteOut>(
    name: &str,
    code: RunFaultCode,
    faults: &mut F,
) -> Result<(), WriteFailed>
    requires { (F.sent faults.old).failures < 2 ^ 64 - 1 }
    ensures told { Tells (F.sent faults.old) (F.sent faults.new)
        (file_line name.now (Fault.Plain code)) }
    ensures once { (F.sent faults.new).failures ≤ (F.sent faults.old).failures + 1 }
{
    match code {
        RunFaultCode::Read | RunFaultCode::Open => {
            tell_pair(name, fault_text(FaultCode::Run(code)), faults)
        }
        _ => tell_plain(code, faults),
    }
}

/// The line of a fault of the source, and the row of its place with a caret, where the bytes of the
/// source are given.
fn source_lines(
    alloc: Global,
    name: &str,
    code: SourceFaultCode,
    place: Place,
    shown: Option<&[u8]>,
) -> Result<String, AllocError>
    ensures { IfOk result (λ lines. string_bytes lines ≡ fault_line name.now (Fault.InSource code place)
        ++ rows_of (option_map (λ bytes. bytes.now) shown.entry) (Fault.InSource code place)) }
{
    let text = fault_text(FaultCode::Source(code));
    let (row, column) = (place.row, place.column);
    let mut lines = format!(in alloc; "{name}:{row}:{column}: error: {text}\n")?;
    if let Some(bytes) = shown {
        push_row_and_caret(&mut lines, bytes, place)?;
    }
    Ok(lines)
}

/// Tells a fault of a source, which may be one of several files.
fn tell_by<F: ByteOut>(
    alloc: Global,
    name: &str,
    fault: Fault,
    shown: Option<&[u8]>,
    of_file: bool,
    faults: &mut F,
) -> Fault
    requires { (F.sent faults.old).failures < 2 ^ 64 - 1 }
    ensures told { Tells (F.sent faults.old) (F.sent faults.new)
        (told_lines of_file name.now (option_map (λ bytes. bytes.now) shown.entry) result) }
    ensures once { (F.sent faults.new).failures ≤ (F.sent faults.old).failures + 1 }
    ensures same { IsToldAs fault result }
{
    match fault {
        Fault::InSource(code, place) => match source_lines(alloc, name, code, place, shown) {
            Ok(lines) => {
                let _ = write_all(faults, lines.as_bytes());
                fault
            }
            Err(_) => {
                let _ = tell_plain(RunFaultCode::Memory, faults);
                Fault::Plain(RunFaultCode::Memory)
            }
        },
        Fault::Plain(code) => {
            let _ = if of_file {
                tell_of_file(name, code, faults)
            } else {
                tell_plain(code, faults)
            };
            fault
        }
    }
}

/// Tells a fault, in the line that it has: that of a fault of the source begins with the name of
/// the source and the place. A failed write of this line is reported nowhere.
///
/// The line of a place takes memory. Where there is none for it, that is reported instead, and is
/// the answer.
pub fn tell<F: ByteOut>(alloc: Global, name: &str, fault: Fault, faults: &mut F) -> Fault
    requires { (F.sent faults.old).failures < 2 ^ 64 - 1 }
    ensures told { Tells (F.sent faults.old) (F.sent faults.new) (fault_line name.now result) }
    ensures once { (F.sent faults.new).failures ≤ (F.sent faults.old).failures + 1 }
    ensures same { IsToldAs fault result }
{
    tell_by(alloc, name, fault, None, false, faults)
}

/// Tells a fault as [`tell`] does, and after the line of a place the row of the place and a caret
/// below it, where the bytes of the source are given.
pub fn tell_shown<F: ByteOut>(
    alloc: Global,
    name: &str,
    fault: Fault,
    shown: Option<&[u8]>,
    faults: &mut F,
) -> Fault
    requires { (F.sent faults.old).failures < 2 ^ 64 - 1 }
    ensures told { Tells (F.sent faults.old) (F.sent faults.new) (fault_line name.now result
        ++ rows_of (option_map (λ bytes. bytes.now) shown.entry) result) }
    ensures once { (F.sent faults.new).failures ≤ (F.sent faults.old).failures + 1 }
    ensures same { IsToldAs fault result }
{
    tell_by(alloc, name, fault, shown, false, faults)
}

/// Tells a fault of one of several files as [`tell_shown`] does, but that the line of a file that
/// can't be opened or read names the file.
pub fn tell_file<F: ByteOut>(
    alloc: Global,
    name: &str,
    fault: Fault,
    shown: Option<&[u8]>,
    faults: &mut F,
) -> Fault
    requires { (F.sent faults.old).failures < 2 ^ 64 - 1 }
    ensures told { Tells (F.sent faults.old) (F.sent faults.new) (file_line name.now result
        ++ rows_of (option_map (λ bytes. bytes.now) shown.entry) result) }
    ensures once { (F.sent faults.new).failures ≤ (F.sent faults.old).failures + 1 }
    ensures same { IsToldAs fault result }
{
    tell_by(alloc, name, fault, shown, true, faults)
}

/// Tells bad words by one of them, or by what they lack. A failed write is reported nowhere.
pub fn tell_bad_word<F: ByteOut>(word: &str, faults: &mut F)
    requires { (F.sent faults.old).failures < 2 ^ 64 - 1 }
    ensures told { Tells (F.sent faults.old) (F.sent faults.new) (bad_word_line word.now) }
    ensures once { (F.sent faults.new).failures ≤ (F.sent faults.old).failures + 1 }
{
    let text = fault_text(FaultCode::Run(RunFaultCode::BadArguments));
    let _ = tell_pair(text, word, faults);
}
