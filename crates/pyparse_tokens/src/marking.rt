//! Where the tokens of a line stand, as they are taken.

ghost use Rattle.std.specs.Prelude.{◌≡◌, ◌-◌, length, OnOk};
ghost use Rattle.std.specs.Str.{chars};
ghost use Rattle.pylex_listing.specs.Laws.{LiesIn};
ghost use Rattle.pyparse_marks.specs.Spans.{added};
ghost use Rattle.pyparse_tokens.specs.Inner.Marking.{entry_spans, lexeme_spans};

use crate::gather::text_of;
use crate::line_gather::stands_in_line;
use pylex::{Class, Entry, Kind};
use pyparse_marks::Marks;
use pysource::Source;
use std::alloc::{AllocError, Global};

/// The token of an entry, if it stands in a line.
#[inline(always)]
#[tactic(auto, using(pyparse_marks::proofs::Callers::Kept::added_none, pyparse_marks::proofs::Callers::Kept::nothing_added))]
pub(crate) fn mark_entry(
    alloc: Global,
    source: &Source,
    entry: &Entry,
    marks: &mut Marks,
) -> Result<(), AllocError>
    requires { LiesIn source.now.text entry.now }
    ensures { OnOk result
        (marks.new ≡ added marks.old (entry_spans (chars source.now.text) entry.now)) }
{
    if !marks.are_kept() {
        return Ok(());
    }
    if !stands_in_line(entry.kind) {
        return Ok(());
    }
    marks.push(alloc, entry.kind, text_of(source, entry), entry.from)
}

/// The token of a lexeme that ends at an offset, if it is one.
#[inline(always)]
#[tactic(auto, using(pyparse_marks::proofs::Callers::Kept::added_none, pyparse_marks::proofs::Callers::Kept::nothing_added))]
pub(crate) fn mark_lexeme(
    alloc: Global,
    class: Class,
    text: &str,
    to: usize,
    marks: &mut Marks,
) -> Result<(), AllocError>
    ensures { OnOk result (marks.new
        ≡ added marks.old (lexeme_spans class (chars text.now) (to - length text.now))) }
{
    if !marks.are_kept() {
        return Ok(());
    }
    let from = to.saturating_sub(text.len());
    match class {
        Class::Name => marks.push(alloc, Kind::Name, text, from),
        Class::Number => marks.push(alloc, Kind::Number, text, from),
        Class::String => marks.push(alloc, Kind::String, text, from),
        Class::Operator(_) => marks.push(alloc, Kind::Op, text, from),
        Class::Comment | Class::Blanks | Class::LineEnd | Class::Join => Ok(()),
    }
}
