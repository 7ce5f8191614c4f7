//! The tree of a source.
//!
//! Python language reference, 9.2 "File input" and 10 "Full Grammar specification".

ghost use Rattle.std.specs.Prelude.{IfOk, IfErr};
ghost use Rattle.pylex_listing.specs.Listing.{in_characters};
ghost use Rattle.pytree_node.specs.TreeOf.{module_of};
ghost use Rattle.pygrammar.specs.Refusals.{Accepted};
ghost use Rattle.pygrammar.specs.SourceLaws.{FormsAreLawful, BlocksAreLawful, AnswersAreLawful};
ghost use Rattle.pyparse_block.specs.Modules.{Refuses};
ghost use Rattle.pyparse_block.specs.Places.{PlacesAreLawful};

use crate::progress::Progress;
use pyparse_tokens::{LogicalLines, ParseFault};
use pysource::Source;
use pytree_node::{Module, Profile};
use std::alloc::Global;

/// The tree of a source, in a version of Python and an extent of the language. At most 500
/// expressions are nested, and at most 500 statements.
///
/// It is one pass: what is held of the source are the tokens of one line, the statements so far,
/// and the levels that are open.
///
/// # Errors
///
/// [`ParseFault::Refused`] by the reason why the source has no tokens, as
/// [`tokens_of`](crate::tokens_of) reports it. Else [`ParseFault::Grammar`]: by the first line
/// without a form where it stands, in a `match` or elsewhere, `Syntax`, `TooDeep` or in the plain
/// language `MatchStatement`, of which a line of more than 500 tokens that has none at any height
/// may be reported as `TooDeep` or as it would be with fewer, an f-string being counted as two and
/// the tokens of its fields; else by the first line that is faulty among the others, or the end;
/// else by the first line in which a statement begins with 500 around it, `TooDeep`. Its place is
/// where the line starts, that of the end where ENDMARKER does.
#[tactic(auto, using(pygrammar::proofs::Callers::SourceLaw::forms_are_lawful, pygrammar::proofs::Callers::SourceLaw::blocks_are_lawful, pygrammar::proofs::Callers::SourceLaw::answers_are_lawful, pyparse_block::proofs::Callers::places_are_lawful))]
pub fn parse(alloc: Global, source: &Source, profile: Profile) -> Result<Module, ParseFault>
    ensures accepted { IfOk result
        (λ m. Accepted profile (in_characters source.now) (module_of m)) }
    ensures refused { IfErr result (Refuses profile (in_characters source.now)) }
    ensures forms { FormsAreLawful }
    ensures trees { BlocksAreLawful }
    ensures answers { AnswersAreLawful }
    ensures places { PlacesAreLawful }
{
    let mut lines = LogicalLines::new(alloc, source, profile.extent)?;
    let mut progress = Progress::new(alloc);
    while lines.next()? {
        progress.take(alloc, &lines, profile)?;
    }
    progress.finish(alloc, lines.end())
}
