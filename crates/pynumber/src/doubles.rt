//! The doubles that literals have.
//!
//! Python language reference, 2.4.6 and 2.4.7; library reference, `repr` and `ast.unparse`.

ghost use Rattle.std.specs.Prelude.{◌≡◌, ◌&&◌, ◌++◌, IfOk, OnOk};
ghost use Rattle.std.specs.Cmp.{partial_equiv_from_equiv};
ghost use Rattle.std.specs.String.{string_bytes};
ghost use Rattle.std.specs.Float.Ieee.{binary64, fits};
ghost use Rattle.pynumber.specs.FloatValues.{float_value};
ghost use Rattle.pynumber.specs.FloatTexts.{float_repr, float_source};
ghost use Rattle.pynumber.specs.FloatTexts.{imaginary_repr, imaginary_source};
ghost use Rattle.pynumber.specs.Laws.{is_unsigned, IsDouble, FloatsAreLawful};
ghost use Rattle.pynumber.specs.SameFloats.{float_same, float_same_equiv};

use crate::texts::push_number;
use crate::values::float_value;
use std::alloc::{AllocError, Global};
use std::fmt;
use std::marker::Model;

/// A double that a literal may have: zero or above, infinity included. A contract sees it as that
/// double.
#[derive(Clone, Copy)]
pub struct Double {
    /// Its IEEE 754 bits, of which the sign is clear.
    bits: u64,
}

impl Model for Double {
    ghost use Rattle.std.specs.Prelude.{◌≤◌, from_bits};
    ghost use Rattle.std.specs.Float.{Float, binary64};

    ghost Value = { Float };

    ghost view = { λ double. from_bits binary64 double.bits };

    ghost invariant = { λ double. double.bits ≤ 0x7ff0_0000_0000_0000 };

    ghost use Rattle.std.specs.Prelude.{to_bits};
    ghost use Rattle.pynumber.specs.Inner.Bits.{bits_back};

    ghost inverse = { λ float. record { bits = to_bits binary64 float } };

    ghost inverse_ok = { λ double h i. record { bits = bits_back double.bits h i } };
}

impl Double {
    /// The double that the text of a float or of an imaginary literal stands for. Only memory may
    /// be missing: a number that is too large is infinity.
    pub fn read(alloc: Global, text: &[u8]) -> Result<Double, AllocError>
        ensures { IfOk result (λ double. double ≡ float_value text.now) }
    {
        let value = float_value(alloc, text)?;
        Ok(Double {
            bits: value.to_bits(),
        })
    }

    /// Whether a literal may have it, as each may.
    pub fn is_of_literal(&self) -> bool
        ensures { result ≡ (fits binary64 self.now && is_unsigned self.now) }
    {
        self.bits <= 0x7ff0_0000_0000_0000
    }

    /// Appends the `repr` of the float.
    #[tactic(auto, using(crate::proofs::Callers::Law::floats_are_lawful))]
    pub fn push_repr(&self, out: &mut String, alloc: Global) -> Result<(), AllocError>
        ensures text { OnOk result (string_bytes out.new ≡ string_bytes out.old ++ float_repr self.now) }
        ensures double { IsDouble self.now }
        ensures lawful { FloatsAreLawful }
    {
        push_number(out, alloc, self.bits, ".0", "inf")?;
        Ok(())
    }

    /// Appends a literal of the float, as `ast.unparse` writes it.
    #[tactic(auto, using(crate::proofs::Callers::Law::floats_are_lawful))]
    pub fn push_source(&self, out: &mut String, alloc: Global) -> Result<(), AllocError>
        ensures text { OnOk result (string_bytes out.new ≡ string_bytes out.old ++ float_source self.now) }
        ensures double { IsDouble self.now }
        ensures lawful { FloatsAreLawful }
    {
        push_number(out, alloc, self.bits, ".0", "1e309")?;
        Ok(())
    }

    /// Appends the `repr` of the imaginary number with this float.
    #[tactic(auto, using(crate::proofs::Callers::Law::floats_are_lawful))]
    pub fn push_imaginary_repr(&self, out: &mut String, alloc: Global) -> Result<(), AllocError>
        ensures text { OnOk result (string_bytes out.new ≡ string_bytes out.old ++ imaginary_repr self.now) }
        ensures double { IsDouble self.now }
        ensures lawful { FloatsAreLawful }
    {
        push_number(out, alloc, self.bits, "", "inf")?;
        out.push('j')?;
        Ok(())
    }

    /// Appends a literal of the imaginary number with this float, as `ast.unparse` writes it.
    #[tactic(auto, using(crate::proofs::Callers::Law::floats_are_lawful))]
    pub fn push_imaginary_source(&self, out: &mut String, alloc: Global) -> Result<(), AllocError>
        ensures text { OnOk result (string_bytes out.new ≡ string_bytes out.old ++ imaginary_source self.now) }
        ensures double { IsDouble self.now }
        ensures lawful { FloatsAreLawful }
    {
        push_number(out, alloc, self.bits, "", "1e309")?;
        out.push('j')?;
        Ok(())
    }
}

impl PartialEq for Double {
    ghost eq = { float_same };

    ghost laws = { partial_equiv_from_equiv float_same_equiv };

    fn eq(&self, other: &Double) -> bool {
        self.bits == other.bits
    }
}

impl Eq for Double {
    ghost laws = { float_same_equiv };
}

impl fmt::Debug for Double {
    fn fmt<W: fmt::Write>(&self, f: &mut fmt::Formatter<W>) -> fmt::Result {
        fmt::Debug::fmt(&f64::from_bits(self.bits), f)
    }
}
