//! The file of a source.

ghost use Rattle.std.specs.Prelude.{◌≡◌, IfErr};
ghost use Rattle.pyast_fault.specs.declared.fault.Fault.{Fault};
ghost use Rattle.pyast_fault.specs.declared.fault.RunFaultCode.{RunFaultCode};

use crate::fault::{Fault, RunFaultCode};
use std::fs::File;
use std::rt::Files;

/// Opens the file of a source. A directory opens too, and then its first read fails.
pub fn open_source<R: Files>(rt: &R, name: &str) -> Result<R::File, Fault>
    ensures { IfErr result (λ fault. fault ≡ Fault.Plain RunFaultCode.Open) }
{
    match File::open(rt, name) {
        Ok(file) => Ok(file),
        Err(_) => Err(Fault::Plain(RunFaultCode::Open)),
    }
}
