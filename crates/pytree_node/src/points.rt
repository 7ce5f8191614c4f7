//! The texts of constants.

ghost use Rattle.std.specs.Prelude.{◌≡◌, ◌≤◌, ◌++◌, [], ◌∷◌, All, nat_eq, IfOk, MatchOption, is_ok};
ghost use Rattle.std.specs.Prelude.{if◌then◌else◌};
ghost use Rattle.std.specs.Str.{chars};
ghost use Rattle.std.specs.Cmp.{partial_equiv_from_equiv};
ghost use Rattle.std.specs.Cmp.Lexicographic.{pointwise, nat_list_eq_equiv};
ghost use Rattle.pytree_node.specs.Points.{IsPoint};

use std::alloc::{AllocError, Global};
use std::fmt;
use std::marker::Model;

/// The greatest code point of Unicode.
const GREATEST: u32 = 0x10_FFFF;

/// A text by its code points, surrogates among them. A contract sees it as the list of these.
#[derive(Drop)]
pub struct Points {
    points: Vec<u32>,
}

impl Model for Points {
    ghost use Rattle.std.specs.Prelude.{ℕ, List, All};

    ghost Value = { List ℕ };

    ghost use Rattle.pytree_node.specs.Points.{IsPoint};

    ghost view = { λ text. text.points.items };

    ghost invariant = { λ text. All IsPoint text.points.items };
}

impl Points {
    /// The empty text.
    pub fn new(alloc: Global) -> Points
        ensures { result ≡ [] }
    {
        Points {
            points: Vec::new(alloc),
        }
    }

    /// The text of these numbers, if each of them is a code point.
    pub fn from_vec(points: Vec<u32>) -> Option<Points>
        ensures { MatchOption result (All IsPoint points.items → ⊥) (λ made. made ≡ points.items) }
    {
        for point in points.iter() {
            if *point > GREATEST {
                return None;
            }
        }
        Some(Points { points })
    }

    /// Appends a code point. If memory runs out, the text is as it was.
    pub fn push(&mut self, point: u32) -> Result<(), AllocError>
        requires { IsPoint point }
        ensures { self.new ≡ (if is_ok result then self.old ++ point ∷ [] else self.old) }
    {
        self.points.push(point)?;
        Ok(())
    }

    /// Appends the code points that bytes are, one for each. If memory runs out, the text is as
    /// it was.
    #[inline(always)]
    pub fn push_bytes(&mut self, bytes: &[u8]) -> Result<(), AllocError>
        ensures { self.new ≡ (if is_ok result then self.old ++ bytes.now else self.old) }
    {
        self.points.reserve(bytes.len())?;
        for byte in bytes {
            self.points.push_reserved(u32::from(*byte));
        }
        Ok(())
    }

    /// Its code points, each of at most 10FFFF.
    pub fn as_slice(&self) -> &[u32]
        ensures value { result.now ≡ self.now }
        ensures points { All IsPoint result.now }
    {
        self.points.as_slice()
    }
}

impl Clone for Points {
    ghost is_clone = { λ text copy. copy ≡ text };

    fn clone(&self) -> Result<Points, AllocError> {
        Ok(Points {
            points: self.points.clone()?,
        })
    }
}

impl PartialEq for Points {
    ghost eq = { pointwise nat_eq };

    ghost laws = { partial_equiv_from_equiv nat_list_eq_equiv };

    fn eq(&self, other: &Points) -> bool {
        self.as_slice() == other.as_slice()
    }
}

impl Eq for Points {
    ghost laws = { nat_list_eq_equiv };
}

impl fmt::Debug for Points {
    fn fmt<W: fmt::Write>(&self, f: &mut fmt::Formatter<W>) -> fmt::Result {
        fmt::Debug::fmt(&self.as_slice(), f)
    }
}
