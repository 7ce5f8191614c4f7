//! A logical line, or what is left of it, taken without its entries.
//!
//! Most entries of a listing stand within a line. A lexeme there is taken as it is, and no place but
//! that of the first token is measured. What can't be taken so ends the walk before it: the lister
//! goes there, and what comes is taken as an entry. That is a fault, a refusal or the end, so a
//! source has few such places: after a refusal nothing is walked. A line's first token is taken as
//! an entry too, where it closes levels.

ghost use Rattle.std.specs.Prelude.{◌≡◌, ◌<◌, ◌≤◌, true, false, length, IfOk, IfSome, None};
ghost use Rattle.pylex.specs.Listers.{Listed};
ghost use Rattle.pylex.specs.Spots.{at_spot};
ghost use Rattle.pyparse_tokens.specs.Inner.LineGathering.{StandsAt, ReadsLine};
ghost use Rattle.pyparse_tokens.specs.Inner.Marking.{GoesOn, ComesToEnd};
ghost use Rattle.pyparse_tokens.specs.Inner.Passing.{kept_refusal};
ghost use Rattle.pyparse_tokens.specs.Inner.LineBeginning.{BeginsAt};
ghost use Rattle.pyparse_tokens.specs.Inner.Walking.{Reads, Went};

use crate::line_gather::LineGather;
use crate::marking::mark_lexeme;
use pylex::{Lister, Spot};
use pyparse_marks::Marks;
use pysource::Source;
use std::alloc::{AllocError, Global};

/// Takes lexeme after lexeme of the line that is open, from the spot on where a lister stands: up to
/// the line's end, or to one that can't be taken so. The spot there.
fn walk<'a>(
    alloc: Global,
    source: &'a Source,
    lister: &Lister<'a>,
    from: Spot,
    gather: &mut LineGather<'a>,
    marks: &mut Marks,
) -> Result<Spot, AllocError>
    requires at { StandsAt source.now (at_spot source.now from lister.now.shown.levels) gather.old }
    requires within { from.begun ≡ true }
    requires given { 0 < from.given }
    requires begun { gather.old.pass.begun ≡ true }
    requires some { 0 < length gather.old.line.terminals.items }
    ensures at { IfOk result
        (λ to. StandsAt source.now (at_spot source.now to lister.entry.now.shown.levels) gather.new) }
    ensures went { IfOk result
        (λ to. Went source.now lister.entry.now.shown.levels from to gather.old gather.new) }
    ensures given { IfOk result (λ to. from.given ≤ to.given) }
    ensures extent { gather.new.pass.extent ≡ gather.old.pass.extent }
    ensures marks { IfOk result
        (λ to. to.begun ≡ true → GoesOn source.now
        (at_spot source.now from lister.entry.now.shown.levels) gather.old marks.old
        (at_spot source.now to lister.entry.now.shown.levels) gather.new marks.new) }
    ensures line_marks { IfOk result
        (λ to. to.begun ≡ false → kept_refusal gather.new.pass ≡ None → ComesToEnd source.now
        (at_spot source.now from lister.entry.now.shown.levels) gather.old marks.old marks.new) }
{
    let text = source.text();
    let mut spot = from;
    let mut left = &text[from.offset..];
    'lexemes: while let Some((class, front, back, to)) = spot.step(left) {
        if !gather.take_lexeme(alloc, source, class, front, to)? {
            return Ok(spot);
        }
        mark_lexeme(alloc, class, front, to.offset, marks)?;
        if !to.begun {
            return Ok(to);
        }
        spot = to;
        left = back;
    }
    Ok(spot)
}

/// The spot from which a line can be taken without entries: where a lister stands in a line of which
/// tokens are kept, or else after the token that begins one, if that comes next. It is taken.
#[inline(always)]
fn spot_of<'a>(
    alloc: Global,
    source: &'a Source,
    lister: &mut Lister<'a>,
    gather: &mut LineGather<'a>,
    marks: &mut Marks,
) -> Result<Option<Spot>, AllocError>
    requires { StandsAt source.now lister.old gather.old }
    ensures lister { lister.new ≡ lister.old }
    ensures begun { IfOk result
        (λ r. IfSome r
        (λ spot. BeginsAt source.now lister.old gather.old marks.old spot gather.new marks.new)) }
    ensures gather { IfOk result (λ r. r ≡ None → gather.new ≡ gather.old) }
    ensures marks { IfOk result (λ r. r ≡ None → marks.new ≡ marks.old) }
    ensures extent { gather.new.pass.extent ≡ gather.old.pass.extent }
{
    if gather.has_tokens() {
        return Ok(lister.spot());
    }
    if !gather.is_between() {
        return Ok(None);
    }
    let Some((class, text, start, spot)) = lister.begin_line() else {
        return Ok(None);
    };
    if !gather.begin(alloc, class, text, start)? {
        return Ok(None);
    }
    mark_lexeme(alloc, class, text, spot.offset, marks)?;
    Ok(Some(spot))
}

/// Takes what is left of the line that is open where a lister stands, or the one that begins there,
/// as far as it can be taken without entries: whether the line ended and nothing is refused. The
/// lister goes along.
pub(crate) fn walk_line<'a>(
    alloc: Global,
    source: &'a Source,
    lister: &mut Lister<'a>,
    gather: &mut LineGather<'a>,
    marks: &mut Marks,
) -> Result<bool, AllocError>
    requires { StandsAt source.now lister.old gather.old }
    ensures within { IfOk result
        (λ ended. ended ≡ false
        → (first : Listed) → Reads source.now first lister.old gather.old
        → Reads source.now first lister.new gather.new) }
    ensures ended { IfOk result
        (λ ended. ended ≡ true
        → (first : Listed) → Reads source.now first lister.old gather.old
        → ReadsLine source.now first lister.new gather.new) }
    ensures given { IfOk result (λ ended. lister.old.shown.given ≤ lister.new.shown.given) }
    ensures extent { gather.new.pass.extent ≡ gather.old.pass.extent }
    ensures marks { IfOk result
        (λ ended. ended ≡ false → GoesOn source.now lister.old gather.old marks.old
        lister.new gather.new marks.new) }
    ensures line_marks { IfOk result
        (λ ended. ended ≡ true
        → ComesToEnd source.now lister.old gather.old marks.old marks.new) }
{
    let Some(from) = spot_of(alloc, source, lister, gather, marks)? else {
        return Ok(false);
    };
    let to = walk(alloc, source, lister, from, gather, marks)?;
    lister.go_to(to);
    if to.begun {
        return Ok(false);
    }
    if gather.refusal().is_none() {
        return Ok(true);
    }
    gather.clear();
    Ok(false)
}
