//! Source text of Python 3.11: its encoding, its physical lines, places in it, and the `repr` of
//! texts and bytes.
//!
//! [`decode`] makes a [`Source`] of the bytes of a file: it finds the encoding that the first two
//! lines declare, and gives the text of the lines before the first faulty one, and that line's
//! fault; [`decode_vec`] does so of bytes that it owns. [`LineReader`] gives the same line by line,
//! from a reader that is lent to each call, and [`Chunks`] from a reader of its own; there a failed
//! read is the fault of the line that it cut off. [`place_of`] gives the row and column of an
//! offset of a text. [`repr_text`], [`push_repr`], [`push_repr_points`], [`repr_bytes`] and
//! [`push_repr_bytes`] write what Python's `repr` writes. [`ByteIn`] and [`ByteOut`] are readers and
//! writers of bytes that count their failures, with [`read_all`] and [`write_all`] over them.
//!
//! A contract that says `≡` of a word of `specs/` says that the call computes exactly that.
#![tactic(auto)]

mod buffers;
mod bytes;
mod chunks;
mod encodings;
mod faults;
mod line_reader;
mod places;
mod reprs;
mod sources;

pub use bytes::{
    ByteIn, ByteOut, Counted, InputFault, ReadFailed, SOURCE_LIMIT, WriteFailed, read_all,
    write_all,
};
pub use chunks::Chunks;
pub use encodings::{Charset, Encoding, SourceFault, encoding_of};
pub use faults::{LineError, LineFault};
pub use line_reader::{LineRead, LineReader, Reach, StreamFault};
pub use places::{Place, place_of};
pub use reprs::{
    is_plain_text, push_repr, push_repr_bytes, push_repr_point, push_repr_points, repr_bytes,
    repr_text,
};
pub use sources::{Source, decode, decode_vec};
