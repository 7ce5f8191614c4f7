//! What the program does: a command on what a reader gives.
//!
//! [`Command::read`] reads the words of the command line. [`run`] does what a command says with
//! what a reader gives, over two writers, and answers the status that the program ends with;
//! [`check_one`] judges one of several sources.
//! [`Fault`] is what can end a run early. The words are those of `pyast_words`, the faults those of
//! `pyast_fault`.
//!
//! The words of contracts are in `specs/`: `Listings` says what `tokens` writes of a source and
//! reports, `Dumps` and `Unparses` what `dump` and `unparse` do, both with the `Modules` that sources
//! are; `Runs` what a run is, whatever its reader and its writers do. `Taken` is about what a run
//! took of its reader.
#![tactic(auto)]

mod checks;
mod dumps;
mod listings;
mod modules;
mod runs;
mod unparses;

pub use checks::check_one;
pub use pyast_fault::{
    Fault, FaultCode, RunFaultCode, SourceFaultCode, fault_text, open_source, tell, tell_bad_word,
    tell_file, tell_shown,
};
pub use pyast_words::{Check, Command, Dump, Tokens, Unparse, UsageFault};
pub use pysource::{ByteIn, ByteOut};
pub use runs::run;
