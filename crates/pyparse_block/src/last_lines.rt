//! Whether a logical line stands in a `match`.
//!
//! Python language reference, 8.6 "The `match` statement".

ghost use Rattle.std.specs.Prelude.{◌≡◌, ◌∷◌, ◌≤◌, [], List, ℕ, OnOk, reverse};
ghost use Rattle.pygrammar.specs.Lines.{Form, Line, line};
ghost use Rattle.pygrammar.specs.Blocks.{is_match, kind_of, stands_in_match};
ghost use Rattle.pyparse_block.specs.LastLines.{HoldsLastLines, stands_following};

use std::alloc::{AllocError, Global};

/// The last line of a level, in whose block later lines may stand: its level, and whether it is
/// the header of a `match`.
#[derive(Clone, Copy)]
pub(crate) struct Last {
    level: usize,
    is_match: bool,
}

/// Drops this level and the deeper ones.
#[tactic(auto, using(crate::proofs::LastLineLemmas::last_lines))]
fn drop_from(lasts: &mut Vec<Last>, level: usize)
    ensures { (l : ℕ) → l ≤ level
        → stands_following l (reverse lasts.new.items) ≡ stands_following l (reverse lasts.old.items) }
{
    while let Some(last) = lasts.last() {
        if last.level < level {
            return;
        }
        lasts.pop();
    }
}

/// The lines in whose blocks the next one may stand: the last one of each level, the deepest last.
#[derive(Drop)]
pub struct LastLines {
    lasts: Vec<Last>,
}

impl LastLines {
    /// Before the first line. It takes no memory.
    pub fn new(alloc: Global) -> LastLines
        ensures { HoldsLastLines [] result }
    {
        LastLines {
            lasts: Vec::new(alloc),
        }
    }

    /// Whether the next line stands in a `match`, by its level.
    #[tactic(auto, using(crate::proofs::LastLineLemmas::last_lines))]
    pub fn inside(&self, level: usize) -> bool
        ensures { (earlier : List Line) → HoldsLastLines earlier self.now
            → result ≡ stands_in_match level earlier }
    {
        let mut lasts = self.lasts.as_slice();
        while let Some((last, lower)) = lasts.split_last() {
            if last.level < level {
                return last.is_match;
            }
            lasts = lower;
        }
        false
    }

    /// Takes the next line: its level, and whether it is the header of a `match`.
    pub fn step(&mut self, level: usize, opens_match: bool) -> Result<(), AllocError>
        ensures { (earlier : List Line) (form : Form) → opens_match ≡ is_match (kind_of form)
            → HoldsLastLines earlier self.old
            → OnOk result (HoldsLastLines (line level form ∷ earlier) self.new) }
    {
        drop_from(&mut self.lasts, level);
        self.lasts.push(Last {
            level,
            is_match: opens_match,
        })?;
        Ok(())
    }
}
