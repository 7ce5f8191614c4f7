//! The listing of a source that is read line by line from a reader of its own.
//!
//! Python library reference, `tokenize`.

ghost use Rattle.std.specs.Prelude.{◌≡◌, ◌<◌, ◌≤◌, ◌-◌, ◌+◌, ◌^◌, ℕ, List, Bool};
ghost use Rattle.std.specs.Prelude.{Some, IfOk, IfErr};
ghost use Rattle.pysource.specs.Bytes.{Seen};
ghost use Rattle.pysource.specs.Parts.{Parts};
ghost use Rattle.pysource.specs.Streams.{Refuses};
ghost use Rattle.pysource.specs.Taking.{fails};
ghost use Rattle.pylex_listing.specs.ListingLines.{text_of};
ghost use Rattle.pylex_listing.specs.Steps.{most_entries};
ghost use Rattle.pylex.specs.Streamed.{Begins, BeginsAnew, ResumeRefusal, Next, StreamsIn};

use crate::cursor::Cursor;
use crate::line_lister::{LineLister, ResumeFault};
use pylex_listing::{Entry, Step};
use pysource::{ByteIn, StreamFault};
use std::alloc::{AllocError, Global};

/// Lists the entries of a source that is read line by line from a reader of its own, as
/// [`LineLister`] does from one that is lent.
#[derive(Drop)]
pub struct StreamLister<R: ByteIn> {
    reader: R,
    told: u64,
    lister: LineLister,
    // The reader can be read further where reading isn't over.
    ghost possible: { told < 2 ^ 64 - 1 },
    // Besides the failures that it reported when it was taken, at most one was counted.
    ghost counted: { (R.seen reader).failures ≡ told + fails lister.lines.reach },
}

impl<R: ByteIn> StreamLister<R> {
    /// Begins at the start of the source that the reader gives, as [`LineLister::new`] does. A
    /// refusal drops the reader.
    ///
    /// # Errors
    ///
    /// As [`LineLister::new`]. Where no read can fail, `Read` means that the source has too many
    /// bytes.
    pub fn new(alloc: Global, mut reader: R) -> Result<StreamLister<R>, StreamFault>
    where
        R: Drop,
        requires { (R.seen reader).failures < 2 ^ 64 - 1 }
        ensures begins { IfOk result (λ s. BeginsAnew (R.seen reader) (R.seen s.reader) s.lister) }
        ensures told { IfOk result (λ s. s.told ≡ (R.seen reader).failures) }
        ensures refuses { IfErr result (λ e. (seen : Seen) × Refuses (R.seen reader) seen e) }
    {
        let told = reader.failures();
        let lister = LineLister::new(alloc, &mut reader)?;
        Ok(StreamLister {
            reader,
            told,
            lister,
        })
    }

    /// Resumes after a cursor of the source that the reader gives, as
    /// [`LineLister::resume_checked`] does. A refusal drops the reader.
    ///
    /// # Errors
    ///
    /// As [`LineLister::resume_checked`].
    pub fn resume_checked(
        alloc: Global,
        mut reader: R,
        cursor: &Cursor,
    ) -> Result<StreamLister<R>, ResumeFault>
    where
        R: Drop,
        requires { (R.seen reader).failures < 2 ^ 64 - 1 }
        ensures begins { IfOk result
            (λ s. Begins (R.seen reader) (R.seen s.reader) s.lister cursor.now.given) }
        ensures shown { IfOk result (λ s. s.lister.shown ≡ cursor.now) }
        ensures told { IfOk result (λ s. s.told ≡ (R.seen reader).failures) }
        ensures misses { IfErr result
            (λ e. (seen : Seen) × ResumeRefusal (R.seen reader) seen cursor.now e) }
    {
        let told = reader.failures();
        let lister = LineLister::resume_checked(alloc, &mut reader, cursor)?;
        Ok(StreamLister {
            reader,
            told,
            lister,
        })
    }

    /// The reader, as far as it was read.
    pub fn reader(&self) -> &R
        ensures { result.now ≡ self.now.reader }
    {
        &self.reader
    }

    /// The next entry, the end, or the fault that ends the listing, as [`LineLister::next`].
    pub fn next(&mut self) -> Result<Step, AllocError>
        ensures steps { Next (R.seen self.old.reader) (R.seen self.new.reader)
            self.old.lister self.new.lister result }
        ensures given { self.new.lister.shown.given ≤ most_entries }
        ensures told { self.new.told ≡ self.old.told }
    {
        self.lister.next(&mut self.reader)
    }

    /// The lister's cursor, as [`LineLister::cursor`].
    pub fn cursor(&self) -> Result<Cursor, AllocError>
        ensures { IfOk result (λ cursor. cursor ≡ self.now.lister.shown) }
    {
        self.lister.cursor()
    }

    /// The text of the entry that was given last, as [`LineLister::text`].
    pub fn text(&self, entry: &Entry) -> &str
        requires { self.now.lister.last ≡ Some entry.now }
        ensures { (p : Parts) (k : ℕ) (more : List ℕ) (broken : Bool)
            → StreamsIn self.entry.now.lister p k more broken → result.now ≡ text_of p entry.now }
    {
        self.lister.text(entry)
    }

    /// The lines that are held, as [`LineLister::held`].
    pub fn held(&self) -> &str
        ensures { result.now ≡ self.entry.now.lister.held }
    {
        self.lister.held()
    }
}
