//! The faults that the program reports: the table of their texts, their statuses and their lines.
//!
//! [`Fault`] is what can end a run early, [`fault_text`] the text of each, and [`tell`] writes its
//! line; [`tell_shown`] and [`tell_file`] also show the row of its place, and [`tell_bad_word`]
//! writes the line of bad words. [`open_source`] opens the file of a source, or answers the fault that it can't.
//!
//! [`push_row_and_caret`] shows the row of a place. The words of contracts are in `specs/`, `Faults` and `Rows`.
#![tactic(auto)]

mod fault;
mod rows;
mod source_file;
mod telling;

pub use fault::{Fault, FaultCode, RunFaultCode, SourceFaultCode, fault_text};
pub use rows::push_row_and_caret;
pub use source_file::open_source;
pub use telling::{tell, tell_bad_word, tell_file, tell_shown};
