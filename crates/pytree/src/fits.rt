//! Whether a module is well formed, and an expression or a pattern at a level.

ghost use Rattle.std.specs.Prelude.{◌≡◌, IfOk, IsTrue};
ghost use Rattle.pytree_node.specs.declared.profiles.Extent.TheVariants as extents;
ghost use Rattle.pytree_node.specs.TreeOf.{module_of, pattern_of, tree_of};
ghost use Rattle.pytree_fits.specs.Given.{Expressed, Patterned, Stated};
ghost use Rattle.pytree_fits.specs.Laws.{SlotsAreLawful};
ghost use Rattle.pytree_fits.specs.Low.{IsLow, IsLowModule, IsLowPattern};
ghost use Rattle.pytree_fits.specs.PatternSlots.{pattern_fits_at};
ghost use Rattle.pytree_fits.specs.Slots.{fits_at};
ghost use Rattle.pytree_fits.specs.Statements.{module_fits};
ghost use Rattle.pytree_fits.specs.Tests.{tests_in};

use pygrammar::{Level, PatternLevel};
use pytree_fits::{Asked, expr_fits, pattern_fits, statements_fit};
use pytree_node::{Expr, Extent, Module, Pattern, Profile};
use std::alloc::{AllocError, Global};

/// Whether a module is well formed in a version and an extent of Python: whether each of its fields
/// has what may stand there. What the grammar gives to some lines of tokens that have no fault there
/// is well formed, and what is well formed has such tokens, and so source text, but for one thing: a
/// module with an f-string that is higher than 500 is well formed as far as its parts show, and may
/// have none, since a field of an f-string opens 599 brackets at most.
///
/// So its names are names, its numbers are of the extent, its targets and contexts stand where they
/// may, and no list is empty that needs a member. `Err` means out of memory alone, which the test of
/// names may meet.
#[tactic(auto, using(pytree_fits::proofs::Callers::Law::slots_are_lawful))]
pub fn well_formed(alloc: Global, tree: &Module, profile: Profile) -> Result<bool, AllocError>
    ensures given { IfOk result (λ told. Stated profile (module_of tree.now) → IsTrue told) }
    ensures tokens { IfOk result (λ told.
        IsLowModule (module_of tree.now) → IsTrue told → Stated profile (module_of tree.now)) }
    ensures slots { IfOk result
        (λ told. told ≡ module_fits profile (tests_in profile.extent) (module_of tree.now)) }
    ensures lawful { SlotsAreLawful }
{
    statements_fit(alloc, profile, &tree.body)
}

/// Whether an expression is well formed at a level in an extent of Python: whether each of its fields
/// has what may stand there. What the grammar gives there to some tokens that have no fault in that
/// extent is well formed, and what is well formed has such tokens, unless it has an f-string and is
/// higher than 500.
#[tactic(auto, using(pytree_fits::proofs::Callers::Law::slots_are_lawful))]
pub fn well_formed_at(
    alloc: Global,
    expr: &Expr,
    level: Level,
    extent: Extent,
) -> Result<bool, AllocError>
    ensures given { IfOk result (λ told. Expressed extent level (tree_of expr.now) → IsTrue told) }
    ensures tokens { IfOk result (λ told. IsLow level (tree_of expr.now) → IsTrue told
        → Expressed extent level (tree_of expr.now)) }
    ensures slots { IfOk result
        (λ told. told ≡ fits_at (tests_in extent) level (tree_of expr.now)) }
    ensures lawful { SlotsAreLawful }
{
    let asked = Asked {
        alloc,
        extent,
        fields: 0,
    };
    expr_fits(asked, expr, level)
}

/// Whether a pattern is well formed at a level: whether each of its fields has what may stand there.
/// What the grammar gives there to some tokens that have no fault in the whole language is well
/// formed, and what is well formed has such tokens, unless it has an f-string and is higher than 500.
///
/// Patterns are of the whole language alone, so no extent is asked for.
#[tactic(auto, using(pytree_fits::proofs::Callers::Law::slots_are_lawful))]
pub fn well_formed_pattern_at(
    alloc: Global,
    pattern: &Pattern,
    level: PatternLevel,
) -> Result<bool, AllocError>
    ensures given { IfOk result
        (λ told. Patterned extents.Whole level (pattern_of pattern.now) → IsTrue told) }
    ensures tokens { IfOk result (λ told. IsLowPattern level (pattern_of pattern.now) → IsTrue told
        → Patterned extents.Whole level (pattern_of pattern.now)) }
    ensures slots { IfOk result
        (λ told. told ≡ pattern_fits_at (tests_in extents.Whole) level (pattern_of pattern.now)) }
    ensures lawful { SlotsAreLawful }
{
    let extent = Extent::Whole;
    let asked = Asked {
        alloc,
        extent,
        fields: 0,
    };
    pattern_fits(asked, pattern, level)
}
