//! A number as it stands in a source.

ghost use Rattle.std.specs.Prelude.{◌≡◌, None};
ghost use Rattle.pytree_node.specs.declared.profiles.Extent.TheVariants.{Whole};
ghost use Rattle.pytoken.specs.NumberValues.{number_fault};

use crate::values::numbers::{constant_value, number_fault};
use crate::values::terminals::TerminalFault;
use pytree_node::{Constant, Extent};
use std::alloc::{AllocError, Global};

/// The text of a number without a fault in the whole language, lent from its source. Its value may
/// take memory, and is made when it is asked for.
#[derive(Clone, Copy, Debug, PartialEq, Eq)]
pub struct NumberText<'a> {
    text: &'a str,
    ghost faultless: { number_fault Whole text.now ≡ None },
}

impl<'a> NumberText<'a> {
    ghost use Rattle.std.specs.Prelude.{IfOk, IfErr, OnOk};
    ghost use Rattle.pytree_node.specs.TreeOf.{constant_of};
    ghost use Rattle.pytoken.specs.NumberValues.{number_value};
    ghost use Rattle.pytoken.specs.TerminalOf.{number_bytes, Tells};

    /// The number that a text is.
    ///
    /// # Errors
    ///
    /// [`TerminalFault::Token`] by the fault that the text has by itself in this extent.
    pub fn new(
        alloc: Global,
        extent: Extent,
        text: &'a str,
    ) -> Result<NumberText<'a>, TerminalFault>
        ensures number { IfOk result (λ made. number_bytes made ≡ text.now) }
        ensures sound { OnOk result (number_fault extent text.now ≡ None) }
        ensures refused { IfErr result (Tells (number_fault extent text.now)) }
    {
        match number_fault(alloc, extent, text)? {
            Some(error) => Err(TerminalFault::Token(error)),
            None => Ok(NumberText { text }),
        }
    }

    /// Its characters.
    pub fn as_str(self) -> &'a str
        ensures { result.now ≡ number_bytes self.entry }
    {
        self.text
    }

    /// What it stands for.
    pub fn value(self, alloc: Global) -> Result<Constant, AllocError>
        ensures { IfOk result (λ made.
            constant_of made ≡ number_value (number_bytes self.entry)) }
    {
        constant_value(alloc, self.text)
    }
}
