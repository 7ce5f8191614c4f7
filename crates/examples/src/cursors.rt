//! A listing that stops, and is resumed later.

ghost use Rattle.std.specs.Prelude.{◌≡◌, IfOk, IfErr, string_bytes};
ghost use Rattle.pylex.specs.Cursors.{cursor_text};
ghost use Rattle.pylex_listing.specs.Listing.{in_characters};
ghost use Rattle.pylex.specs.Listers.{StandsIn};
ghost use Rattle.examples.specs.Cursors.{IsNoCursor};

use pylex::{Cursor, CursorFault, Lister};
use pysource::Source;
use std::alloc::{AllocError, Global};

/// The cursor at which a lister stands, as a text that can be kept.
pub fn kept(lister: &Lister) -> Result<String, AllocError>
    ensures { IfOk result (λ text. string_bytes text ≡ cursor_text lister.now.shown) }
{
    lister.cursor()?.to_text()
}

/// Goes on after a cursor that was kept as a text. A text that is no cursor's is refused, and a
/// cursor that this source doesn't have.
pub fn resumed<'a>(alloc: Global, source: &'a Source, text: &str) -> Result<Lister<'a>, CursorFault>
    ensures source { IfOk result (λ lister. lister.source ≡ source.now) }
    ensures shown { IfOk result (λ lister. cursor_text lister.shown ≡ text.now) }
    ensures stands { IfOk result
        (λ lister. StandsIn lister (in_characters source.now) lister.shown.given) }
    ensures refused { IfErr result (IsNoCursor (in_characters source.now) text.now) }
{
    let cursor = Cursor::from_text(alloc, text)?;
    Lister::resume_checked(alloc, source, &cursor)
}
