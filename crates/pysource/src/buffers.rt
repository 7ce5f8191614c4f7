//! Bytes that were read and are not yet used, and the reads that take more.
//!
//! Bytes are read only into room that is already there, so that running out of memory loses none.

ghost use Rattle.std.specs.Prelude.{◌≡◌, ◌≢◌, ℕ, ◌+◌, ◌-◌, ◌^◌, ◌<◌, ◌≤◌, ◌++◌, [], length, take};
ghost use Rattle.std.specs.Prelude.{drop, max, vec_len, OnOk, OnErr, IfOk, Ok, Err, Some, None};
ghost use Rattle.std.specs.Prelude.{slice_index};
ghost use Rattle.pysource.specs.Limits.{source_limit};
ghost use Rattle.pysource.specs.Taking.{Grows, GaveInto, FoundLine};

use crate::bytes::{ByteIn, PIECE, SOURCE_LIMIT};
use crate::line_reader::Reach;
use std::alloc::{AllocError, Global};
use std::marker::Model;

/// Bytes that were read and are not yet used: those of `room` from `from` up to `to`.
#[derive(Drop)]
pub(crate) struct Buffer {
    room: Vec<u8>,
    from: usize,
    to: usize,
}

impl Model for Buffer {
    ghost use Rattle.std.specs.Prelude.{ℕ, List, ◌-◌, ◌≤◌, take, drop, length};

    ghost Value = { List ℕ };

    ghost view = { λ b. take (b.to - b.from) (drop b.from b.room.items) };

    ghost invariant = { λ b. (b.from ≤ b.to) × (b.to ≤ length b.room.items) };
}

/// Makes room after the bytes from `from` up to `to`: by a move of them to the front where room
/// is there, or else by at least twice the room. It answers where they stand then.
fn make_room(room: &mut Vec<u8>, from: usize, to: usize) -> Result<(usize, usize), AllocError>
    requires order { from ≤ to }
    requires within { to ≤ length room.old.items }
    ensures order { IfOk result (λ p. p.0 ≤ p.1) }
    ensures following { IfOk result (λ p. p.1 < length room.new.items) }
    ensures same { IfOk result
        (λ p. take (p.1 - p.0) (drop p.0 room.new.items)
        ≡ take (to - from) (drop from room.old.items)) }
    ensures err { OnErr result (room.new.items ≡ room.old.items) }
{
    if to < room.len() {
        return Ok((from, to));
    }
    if from > 0 {
        room.copy_within(from..to, 0);
        return Ok((0, to - from));
    }
    let len = room.len();
    room.resize(len + len.max(PIECE), 0)?;
    Ok((from, to))
}

impl Buffer {
    /// No bytes. It takes no memory.
    pub fn new(alloc: Global) -> Buffer
        ensures { result ≡ [] }
    {
        Buffer {
            room: Vec::new(alloc),
            from: 0,
            to: 0,
        }
    }

    /// The bytes.
    pub fn bytes(&self) -> &[u8]
        ensures { result.now ≡ self.now }
    {
        &self.room[self.from..self.to]
    }

    /// Drops the first bytes.
    pub fn skip(&mut self, count: usize)
        requires { count ≤ length self.old }
        ensures { self.new ≡ drop count self.old }
    {
        self.from += count;
    }

    /// One read of at most `most` bytes, which come after the others: how many they are, or
    /// `None` where it failed. No read is made if memory runs out.
    pub fn read_from<R: ByteIn>(
        &mut self,
        reader: &mut R,
        most: usize,
    ) -> Result<Option<usize>, AllocError>
        requires possible { (R.seen reader.old).failures < 2 ^ 64 - 1 }
        requires some { 0 < most }
        ensures { GaveInto (R.seen reader.old) (R.seen reader.new)
            most self.old self.new result }
    {
        let (from, to) = make_room(&mut self.room, self.from, self.to)?;
        self.from = from;
        self.to = to;
        let end = to + most.min(self.room.len() - to);
        match reader.read(&mut self.room[to..end]) {
            Ok(count) => {
                self.to += count;
                Ok(Some(count))
            }
            Err(_) => Ok(None),
        }
    }
}

/// A buffer, how far its reads have come, and how many bytes they took in all.
#[derive(Drop)]
pub(crate) struct Intake {
    pub buffer: Buffer,
    pub reach: Reach,
    pub count: usize,
}

impl Intake {
    /// Nothing was read.
    pub fn new(alloc: Global) -> Intake
        ensures buffer { result.buffer ≡ [] }
        ensures reach { result.reach ≡ Reach.Reading }
        ensures count { result.count ≡ 0 }
    {
        Intake {
            buffer: Buffer::new(alloc),
            reach: Reach::Reading,
            count: 0,
        }
    }

    /// One read of at most `PIECE` bytes, and of no more than `SOURCE_LIMIT` in all: a byte after
    /// those is lost.
    fn fill<R: ByteIn>(&mut self, reader: &mut R) -> Result<(), AllocError>
        requires reading { self.old.reach ≡ Reach.Reading }
        requires possible { (R.seen reader.old).failures < 2 ^ 64 - 1 }
        requires within { self.old.count ≤ source_limit }
        ensures grows { Grows (R.seen reader.old) (R.seen reader.new) self.old self.new }
        ensures within { self.new.count ≤ source_limit }
        ensures short { length self.new.buffer ≤ length self.old.buffer + 8_192 }
        ensures more { OnOk result
            (self.new.reach ≡ Reach.Reading → self.old.count < self.new.count) }
        ensures same { self.new.reach ≢ Reach.Reading → self.new.buffer ≡ self.old.buffer }
        ensures err { OnErr result
            ((self.new.reach ≡ Reach.Reading) × (self.new.buffer ≡ self.old.buffer)) }
    {
        let left = SOURCE_LIMIT - self.count;
        if left == 0 {
            self.reach = match reader.read(&mut [0]) {
                Ok(0) => Reach::End,
                Ok(_) => Reach::Passed,
                Err(_) => Reach::Broken,
            };
            return Ok(());
        }
        match self.buffer.read_from(reader, left.min(PIECE))? {
            None => self.reach = Reach::Broken,
            Some(0) => self.reach = Reach::End,
            Some(count) => self.count += count,
        }
        Ok(())
    }

    /// The end of the line that begins at `start`, after its line feed. It reads until that is
    /// there, and answers `None` where reads give no more and the line has no line feed.
    ///
    /// Each byte is searched once.
    pub fn line_end<R: ByteIn>(
        &mut self,
        reader: &mut R,
        start: usize,
    ) -> Result<Option<usize>, AllocError>
        requires possible { self.old.reach ≡ Reach.Reading
            → (R.seen reader.old).failures < 2 ^ 64 - 1 }
        requires within { self.old.count ≤ source_limit }
        requires start { start ≤ length self.old.buffer }
        ensures grows { Grows (R.seen reader.old) (R.seen reader.new) self.old self.new }
        ensures within { self.new.count ≤ source_limit }
        ensures found { FoundLine start self.old self.new result }
    {
        let mut searched = start;
        loop {
            let bytes = self.buffer.bytes();
            if let Some(at) = memchr::memchr(b'\n', &bytes[searched..]) {
                return Ok(Some(searched + at + 1));
            }
            searched = bytes.len();
            match self.reach {
                Reach::Reading => self.fill(reader)?,
                _ => return Ok(None),
            }
        }
    }
}
