//! Expressions that were read, as targets.
//!
//! Python language reference, 7.2 "Assignment statements" and 7.5 "The `del` statement".

ghost use Rattle.std.specs.Prelude.{◌≡◌, MatchResult};
ghost use Rattle.pygrammar.specs.Targets as targets;
ghost use Rattle.pyparse_nodes.specs.Answers.{Turns};

use crate::Stop;
use crate::deletions::delete;
use crate::found::Read;
use crate::single_targets::store_single;
use crate::targets::store;

/// An expression with the contexts of a target, if it has target shape.
#[tactic(auto, using(crate::proofs::Stores::TurnedHeights::stored_high))]
pub fn stored(read: Read) -> Result<Read, Stop>
    ensures { Turns targets.stored read result }
{
    let Read { expr, height, next } = read;
    let mut expr = expr;
    if !store(&mut expr) {
        return Err(Stop::NoForm);
    }
    Ok(Read { expr, height, next })
}

/// A name, an attribute or a subscript with the context of a target, if it is one.
#[tactic(auto, using(crate::proofs::Stores::TurnedHeights::single_high))]
pub fn single_stored(read: Read) -> Result<Read, Stop>
    ensures { Turns targets.single_stored read result }
{
    let Read { expr, height, next } = read;
    let mut expr = expr;
    if !store_single(&mut expr) {
        return Err(Stop::NoForm);
    }
    Ok(Read { expr, height, next })
}

/// An expression with the contexts of what is deleted, if it can be.
#[tactic(auto, using(crate::proofs::Stores::TurnedHeights::deleted_high))]
pub fn deleted(read: Read) -> Result<Read, Stop>
    ensures { Turns targets.deleted read result }
{
    let Read { expr, height, next } = read;
    let mut expr = expr;
    if !delete(&mut expr) {
        return Err(Stop::NoForm);
    }
    Ok(Read { expr, height, next })
}
