//! The whole numbers of constants.

ghost use Rattle.std.specs.Prelude.{◌≡◌, ◌++◌, ◌<◌, ◌≤◌, ◌^◌, nat_eq, IfOk, IsOk, OnOk, MatchOption, nat_lt};
ghost use Rattle.std.specs.Cmp.{nat_eq_equiv, partial_equiv_from_equiv};
ghost use Rattle.std.specs.String.{string_bytes};
ghost use Rattle.pynumber.specs.Decimals.{decimal_text};
ghost use Rattle.pynumber.specs.Readings.{most_digits};

use itoa::Buffer;
use pynumber::Natural;
use std::alloc::{AllocError, Global};
use std::fmt;
use std::marker::Model;

/// A whole number. A contract sees it as that number.
///
/// One below 2 to the 64 takes no memory of its own.
#[derive(Drop)]
pub struct Integer {
    digits: Digits,
}

/// A number, inline where it is below 2 to the 64, else in memory of its own: so each number has
/// one form.
#[derive(Drop)]
enum Digits {
    Small(u64),
    Large(Box<Natural>),
}

impl Model for Integer {
    ghost use Rattle.std.specs.Prelude.{ℕ};

    ghost Value = { ℕ };

    ghost use Rattle.pytree_node.specs.Inner.Digits.{number_of, IsInForm};

    ghost view = { λ integer. number_of integer.digits };

    ghost invariant = { λ integer. IsInForm integer.digits };
}

impl Integer {
    /// This number.
    pub fn new(alloc: Global, value: u128) -> Result<Integer, AllocError>
        ensures value { IfOk result (λ made. made ≡ value) }
        ensures inline { value < 2 ^ 64 → IsOk result }
    {
        let digits = if value <= u64::MAX as u128 {
            Digits::Small(value as u64)
        } else {
            Digits::Large(Box::new(alloc, Natural::from_u128(alloc, value)?)?)
        };
        Ok(Integer { digits })
    }

    /// This number, which may be of any size.
    pub fn of_natural(alloc: Global, value: Natural) -> Result<Integer, AllocError>
        ensures value { IfOk result (λ made. made ≡ value) }
        ensures inline { value < 2 ^ 64 → IsOk result }
    {
        let digits = match value.to_u128() {
            Some(small) if small <= u64::MAX as u128 => Digits::Small(small as u64),
            _ => Digits::Large(Box::new(alloc, value)?),
        };
        Ok(Integer { digits })
    }

    /// The number that it is, if that is below 2 to the 128.
    pub fn to_u128(&self) -> Option<u128>
        ensures { MatchOption result (2 ^ 128 ≤ self.now) (λ value. value ≡ self.now) }
    {
        match &self.digits {
            Digits::Small(value) => Some(*value as u128),
            Digits::Large(value) => value.to_u128(),
        }
    }

    /// Whether it has no more decimal digits than Python writes.
    pub fn is_below_limit(&self) -> bool
        ensures { result ≡ nat_lt self.now (10 ^ most_digits) }
    {
        match &self.digits {
            Digits::Small(_) => true,
            Digits::Large(value) => value.is_below_limit(),
        }
    }

    /// Appends the number in decimal.
    #[tactic(auto, using(pynumber::proofs::Callers::Decimals::decimal_text_is))]
    pub fn push_decimal(&self, out: &mut String) -> Result<(), AllocError>
        ensures { OnOk result
            (string_bytes out.new ≡ string_bytes out.old ++ decimal_text self.now) }
    {
        match &self.digits {
            Digits::Small(value) => {
                let mut buffer = Buffer::new();
                out.push_str(buffer.format(*value))
            }
            Digits::Large(value) => value.push_decimal(out),
        }
    }
}

impl Clone for Integer {
    ghost is_clone = { λ integer copy. copy ≡ integer };

    fn clone(&self) -> Result<Integer, AllocError> {
        let digits = match &self.digits {
            Digits::Small(value) => Digits::Small(*value),
            Digits::Large(value) => Digits::Large(value.clone()?),
        };
        Ok(Integer { digits })
    }
}

impl PartialEq for Integer {
    ghost eq = { nat_eq };

    ghost laws = { partial_equiv_from_equiv nat_eq_equiv };

    fn eq(&self, other: &Integer) -> bool {
        match (&self.digits, &other.digits) {
            (Digits::Small(a), Digits::Small(b)) => a == b,
            (Digits::Large(a), Digits::Large(b)) => **a == **b,
            _ => false,
        }
    }
}

impl Eq for Integer {
    ghost laws = { nat_eq_equiv };
}

impl fmt::Debug for Integer {
    fn fmt<W: fmt::Write>(&self, f: &mut fmt::Formatter<W>) -> fmt::Result {
        match &self.digits {
            Digits::Small(value) => fmt::Debug::fmt(value, f),
            Digits::Large(value) => fmt::Debug::fmt(&**value, f),
        }
    }
}
