//! What records the way to a difference.

ghost use Rattle.std.specs.Prelude.{◌≡◌, IfOk, List, ℕ, Option, Some, None, []};
ghost use Rattle.pytree_difference.specs.Trails.{Pushed, steps_of};

use std::alloc::{AllocError, Global};

/// What a walk tells the steps to a difference, the innermost first.
pub(crate) trait Trail {
    // The steps, the outermost first, where they are known.
    ghost steps: { Self → Option (List ℕ) };

    /// Puts a step before the others.
    fn push(&mut self, step: usize)
        ensures { Pushed (steps self.old) step (steps self.new) };
}

/// A trail that records nothing.
#[derive(Drop)]
pub(crate) struct NoTrail;

impl Trail for NoTrail {
    ghost steps = { λ _. None };

    #[inline(always)]
    fn push(&mut self, _step: usize) {}
}

/// A trail that records the steps.
#[derive(Drop)]
pub(crate) struct Steps {
    /// The steps, the innermost first.
    steps: Vec<usize>,
    /// Whether memory ran out, so that they aren't all there.
    is_refused: bool,
}

impl Steps {
    /// A trail without steps.
    pub fn new(alloc: Global) -> Steps
        ensures { steps_of result ≡ Some [] }
    {
        Steps {
            steps: Vec::new(alloc),
            is_refused: false,
        }
    }

    /// The steps, the outermost first.
    pub fn into_path(self) -> Result<Vec<usize>, AllocError>
        ensures { IfOk result (λ path. steps_of self ≡ Some path.items) }
    {
        let Steps {
            mut steps,
            is_refused,
        } = self;
        if is_refused {
            drop(steps);
            return Err(AllocError);
        }
        steps.reverse();
        Ok(steps)
    }
}

impl Trail for Steps {
    ghost steps = { steps_of };

    fn push(&mut self, step: usize) {
        if self.is_refused {
            return;
        }
        if self.steps.push(step).is_err() {
            self.is_refused = true;
        }
    }
}
