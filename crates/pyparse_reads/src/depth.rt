//! How far down reading may go.

ghost use Rattle.std.specs.Prelude.{◌≡◌, ◌+◌, ◌-◌, ◌<◌, MatchResult, length};
ghost use Rattle.pyparse_reads.specs.Readings.{IsOpen, IsOuter, IsShut};

use pyparse_nodes::Stop;
use pytoken::Terminal;

/// How high an expression may be.
pub const MOST_HEIGHT: usize = 500;

/// How far down reading may go.
#[derive(Clone, Copy)]
pub struct Depth {
    /// How many readers may be nested. There are always more than terminals are left.
    pub steps: usize,
    /// How high an expression or a pattern may be.
    pub room: usize,
}

impl Depth {
    /// That at which the expressions and the patterns of a line begin: one level more than
    /// [`MOST_HEIGHT`], so that what is too high is told apart from what is none.
    pub fn of(tokens: &[Terminal]) -> Depth
        ensures steps { result.steps ≡ length tokens.now + 1 }
        ensures room { result.room ≡ 501 }
    {
        Depth {
            steps: tokens.len() + 1,
            room: MOST_HEIGHT + 1,
        }
    }

    /// Refuses to read where there are no steps or no room left.
    pub fn enter(self) -> Result<(), Stop>
        ensures { MatchResult result (λ _. IsOpen self) (λ s. IsShut self s) }
    {
        if self.steps == 0 || self.room == 0 {
            return Err(Stop::TooDeep);
        }
        Ok(())
    }

    /// That of the parts of an expression or a pattern.
    pub fn inner(self) -> Depth
        ensures steps { result.steps ≡ self.steps - 1 }
        ensures room { result.room ≡ self.room - 1 }
    {
        Depth {
            steps: self.steps.saturating_sub(1),
            room: self.room.saturating_sub(1),
        }
    }

    /// That whose parts are read at this one.
    pub fn outer(self) -> Result<Depth, Stop>
        ensures { MatchResult result (λ outer. IsOuter outer self) (λ s. s ≡ Stop.Memory) }
    {
        // No memory holds so many terminals, or a tree of such a height.
        let steps = self.steps.checked_add(1).ok_or(Stop::Memory)?;
        let room = self.room.checked_add(1).ok_or(Stop::Memory)?;
        Ok(Depth { steps, room })
    }

    /// That of the same expression or pattern, within brackets.
    pub fn same(self) -> Depth
        ensures steps { result.steps ≡ self.steps - 1 }
        ensures room { result.room ≡ self.room }
    {
        Depth {
            steps: self.steps.saturating_sub(1),
            room: self.room,
        }
    }
}
