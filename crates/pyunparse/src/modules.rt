//! The text of a module.

ghost use Rattle.std.specs.Prelude.{◌≡◌, IfOk};
ghost use Rattle.std.specs.Str.{encode_utf8_all};
ghost use Rattle.std.specs.String.{string_bytes};
ghost use Rattle.pytree_node.specs.TreeOf.{module_of};
ghost use Rattle.pyunparse_text.specs.Laws.{WritingIsShortest};
ghost use Rattle.pyunparse_text.specs.Modules.{module_text};
ghost use Rattle.pyunparse.specs.RoundTrips.{RoundTrips};

use crate::blocks::write_stmts;
use pytree_node::Module;
use pyunparse_text::text_writer::TextWriter;
use std::alloc::{AllocError, Global};

/// Source text for a module: a statement a line, four blanks a level, and as few brackets as each
/// place allows.
///
/// An f-string is one token there: a tuple, a `yield`, a conditional or a generator that is the
/// whole of a field has brackets of its own, which it could do without.
///
/// Each line ends in a line feed; an empty module has the empty text. The only error is of memory.
#[tactic(auto, using(pyunparse_text::proofs::Callers::Law::writing_is_shortest))]
pub fn unparse(alloc: Global, module: &Module) -> Result<String, AllocError>
    ensures text { IfOk result
        (λ text. string_bytes text ≡ encode_utf8_all (module_text (module_of «module».now))) }
    ensures round_trip { IfOk result
        (λ text. RoundTrips (string_bytes text) (module_of «module».now)) }
    ensures fewest { WritingIsShortest }
{
    let mut out = TextWriter::new(alloc);
    write_stmts(&mut out, &module.body)?;
    Ok(out.into_text())
}
