//! How high a node may be.

ghost use Rattle.std.specs.Prelude.{◌≡◌, ◌+◌, ◌≤◌, MatchResult};

use crate::stop::Stop;

/// The height of a node over parts of this height, where there is room for it.
pub fn above(under: usize, room: usize) -> Result<usize, Stop>
    ensures one { MatchResult result (λ h. h ≡ under + 1) (λ s. s ≡ Stop.TooDeep) }
    ensures low { MatchResult result (λ h. h ≤ room) (λ s. room ≤ under) }
{
    if under < room {
        Ok(under + 1)
    } else {
        Err(Stop::TooDeep)
    }
}
