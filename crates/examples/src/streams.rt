//! The listing of a source that is read line by line.

ghost use Rattle.std.specs.Prelude.{◌-◌, ◌^◌, ◌<◌, IfOk, IfErr};
ghost use Rattle.examples.specs.Streams.{Finds, FindsNone};

use pylex::{Kind, Step, StreamLister};
use pysource::{ByteIn, StreamFault};
use std::alloc::Global;

/// The first comment of what a reader gives, if there is one before its end or its fault. One line
/// is held at a time, and at most 8 KiB are read past the line of the comment.
pub fn first_comment<R: ByteIn + Drop>(
    alloc: Global,
    reader: R,
) -> Result<Option<String>, StreamFault>
    requires { (R.seen reader).failures < 2 ^ 64 - 1 }
    ensures found { IfOk result (Finds (R.seen reader)) }
    ensures refused { IfErr result (FindsNone (R.seen reader)) }
{
    let mut lister = StreamLister::new(alloc, reader)?;
    loop {
        let step = lister.next()?;
        let Step::Entry(entry) = step else {
            return Ok(None);
        };
        if entry.kind == Kind::Comment {
            let comment = String::from_str(alloc, lister.text(&entry))?;
            return Ok(Some(comment));
        }
    }
}
