//! Counting.

ghost use Rattle.std.specs.Prelude.{◌≡◌, ◌+◌};
ghost use Rattle.pytree_marked.specs.Counts.{capped};

/// One more, or the largest number.
#[tactic(auto, unfolding(crate::specs::Counts::capped))]
pub(crate) fn one_more(n: u64) -> u64
    ensures { result ≡ capped (n + 1) }
{
    n.saturating_add(1)
}
