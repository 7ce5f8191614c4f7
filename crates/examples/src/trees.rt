//! The tree of a source, and what is written of it.

ghost use Rattle.std.specs.Prelude.{IfOk, IfErr, string_bytes};
ghost use Rattle.pylex_listing.specs.Listing.{in_characters};
ghost use Rattle.pyparse.specs.Modules.{Refuses};
ghost use Rattle.examples.specs.Trees.{IsDumped, IsWritten};

use pyparse::{ParseFault, parse};
use pysource::Source;
use pytree::{Profile, Style, dump};
use pyunparse::unparse;
use std::alloc::Global;

/// As `ast.dump` does by `indent=2`, with the names of all fields, in Python 3.12.
pub const INDENTED: Style = Style {
    indent: Some(2),
    names: true,
    profile: Profile::PLAIN_312,
};

/// What `ast.dump` gives for the tree of a source, in a style.
pub fn dumped(alloc: Global, source: &Source, style: Style) -> Result<String, ParseFault>
    ensures dumped { IfOk result
        (λ text. IsDumped style (in_characters source.now) (string_bytes text)) }
    ensures refused { IfErr result (Refuses style.profile (in_characters source.now)) }
{
    let tree = parse(alloc, source, style.profile)?;
    Ok(dump(alloc, &tree, style)?)
}

/// Source text for the tree of a source: no comments, and the fewest brackets, but for those round
/// a whole field of an f-string.
pub fn rewritten(alloc: Global, source: &Source, profile: Profile) -> Result<String, ParseFault>
    ensures written { IfOk result
        (λ text. IsWritten profile (in_characters source.now) (string_bytes text)) }
    ensures refused { IfErr result (Refuses profile (in_characters source.now)) }
{
    let tree = parse(alloc, source, profile)?;
    Ok(unparse(alloc, &tree)?)
}
