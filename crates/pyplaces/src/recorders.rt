//! What records where nodes stand.

ghost use Rattle.std.specs.Prelude.{◌≡◌, ◌+◌, ℕ, List, IfOk, OnOk, drop, map};
ghost use Rattle.pyplaces.specs.Recording.{Alike, afters};
ghost use Rattle.pyplaces.specs.RowEnds.{row_length};
ghost use Rattle.pyplaces.specs.Stretches.{Stretch, stretch};
ghost use Rattle.pytoken.specs.TerminalOf.{terminal};

use pytoken::Terminal;
use std::alloc::AllocError;

/// What records where nodes stand, or doesn't.
///
/// Nodes are recorded in the order in which they are read. Where the dump has another order, those
/// that come too early are set aside, and taken back where they belong.
pub trait Recorder {
    // The recorder after the place of one node more, and after one more that is set aside.
    ghost after: { Self → Stretch → Self };

    ghost beside: { Self → Stretch → Self };
    // How many places are recorded, and how many are set aside.
    ghost recorded_count: { Self → ℕ };

    ghost aside_count: { Self → ℕ };
    // The recorder of the same line that has recorded nothing.
    ghost emptied: { Self → Self };

    /// A node stands at the terminals of the line from `first` up to `next`.
    fn node(&mut self, first: usize, next: usize) -> Result<(), AllocError>
        ensures { OnOk result (self.new ≡ after self.old (stretch first next)) };

    /// How many nodes are recorded.
    fn recorded(&self) -> usize
        ensures { result ≡ recorded_count self.now };

    /// How many nodes are set aside.
    fn aside(&self) -> usize
        ensures { result ≡ aside_count self.now };

    /// The nodes recorded after the first `from` are set aside.
    fn set_aside(&mut self, from: usize) -> Result<(), AllocError>
        ensures { OnOk result ((w : Self) (ps : List Stretch) → self.old ≡ afters after w ps
            → from ≡ recorded_count w → self.new ≡ afters beside w ps) };

    /// The nodes set aside after the first `from` are recorded.
    fn take_back(&mut self, from: usize) -> Result<(), AllocError>
        ensures { OnOk result ((w : Self) (ps : List Stretch) → self.old ≡ afters beside w ps
            → from ≡ aside_count w → self.new ≡ afters after w ps) };

    /// The place after a row of literals and f-strings, from a place within its first f-string on; or
    /// any number, where it makes no difference to what is recorded.
    fn row_end(&self, tokens: &[Terminal], at: usize) -> usize
        ensures { (first : ℕ) → Alike after (stretch first result)
            (stretch first (at + row_length 1 (drop at (map terminal tokens.now)))) };

    /// A recorder of the same line that has recorded nothing.
    fn fresh(&self) -> Result<Self, AllocError>
        ensures { IfOk result (λ made. made ≡ emptied self.now) };

    /// The nodes that another recorder of the line has recorded.
    fn add(&mut self, other: Self) -> Result<(), AllocError>
        ensures { OnOk result ((ps : List Stretch) → other ≡ afters after (emptied self.old) ps
            → self.new ≡ afters after self.old ps) };

    // What is set aside doesn't touch what is recorded.
    ghost apart: { (w : Self) (s t : Stretch) → beside (after w s) t ≡ after (beside w t) s };

    ghost recorded_still: { (w : Self) (s : Stretch)
        → recorded_count (beside w s) ≡ recorded_count w };

    ghost aside_still: { (w : Self) (s : Stretch) → aside_count (after w s) ≡ aside_count w };
}

/// Records nothing.
#[derive(Drop)]
pub struct Ignored;

impl Recorder for Ignored {
    ghost use Rattle.std.specs.Prelude.{refl};

    ghost after = { λ w s. w };

    ghost beside = { λ w s. w };

    ghost recorded_count = { λ w. 0 };

    ghost aside_count = { λ w. 0 };

    ghost emptied = { λ w. w };

    #[inline(always)]
    fn node(&mut self, _: usize, _: usize) -> Result<(), AllocError> {
        Ok(())
    }

    #[inline(always)]
    fn recorded(&self) -> usize {
        0
    }

    #[inline(always)]
    fn aside(&self) -> usize {
        0
    }

    #[inline(always)]
    fn set_aside(&mut self, _: usize) -> Result<(), AllocError> {
        Ok(())
    }

    #[inline(always)]
    fn take_back(&mut self, _: usize) -> Result<(), AllocError> {
        Ok(())
    }

    #[inline(always)]
    fn row_end(&self, _: &[Terminal], _: usize) -> usize {
        0
    }

    #[inline(always)]
    fn fresh(&self) -> Result<Self, AllocError> {
        Ok(Ignored)
    }

    #[inline(always)]
    fn add(&mut self, _: Self) -> Result<(), AllocError> {
        Ok(())
    }

    ghost apart = { λ w s t. refl };

    ghost recorded_still = { λ w s. refl };

    ghost aside_still = { λ w s. refl };
}
