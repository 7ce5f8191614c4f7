//! A reader and a writer in memory that fail on purpose, for tests.
//!
//! A [`FakeReader`] gives some bytes, a few at a read, and after the last it ends or fails. A
//! [`FakeWriter`] takes a number of bytes, a few at a write, and then fails or takes none.
#![tactic(auto)]

mod reader;
mod writer;

pub use reader::FakeReader;
pub use writer::FakeWriter;
