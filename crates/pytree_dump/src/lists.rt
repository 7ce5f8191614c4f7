//! The lists of a tree whose elements are told as they stand.

ghost use Rattle.std.specs.Prelude.{◌≡◌, ◌++◌, OnOk, map};
ghost use Rattle.std.specs.String.{string_bytes};
ghost use Rattle.pytree_dump_text.specs.Layout.{text};
ghost use Rattle.pytree_dump_text.specs.Shows.{Row, comparison_name, shown_name, showns, word};

use pysource::push_repr;
use pytree_dump_text::{Style, close, comparison_word, is_flat, open, push_before};
use pytree_node::{Comparison, Identifier};
use std::alloc::AllocError;

/// Appends a list of comparisons.
#[tactic(auto, using(crate::proofs::TextLemmas::left, crate::proofs::TextLemmas::may_close))]
pub(crate) fn show_comparisons(
    out: &mut String,
    indentation: &mut String,
    style: Style,
    cs: &[Comparison],
) -> Result<(), AllocError>
    ensures text { OnOk result
        (string_bytes out.new ≡ string_bytes out.old
        ++ text style (string_bytes indentation.old)
        (Row (showns (map (λ c. word (comparison_name c)) cs.now)))) }
    ensures indentation { OnOk result (string_bytes indentation.new ≡ string_bytes indentation.old) }
{
    let outer = open(out, indentation, style, "[")?;
    let mut first = true;
    for c in cs {
        push_before(out, indentation.as_str(), is_flat(style), first)?;
        out.push_str(comparison_word(*c))?;
        first = false;
    }
    close(out, indentation, style, outer, "]")?;
    Ok(())
}

/// Appends a list of names.
#[tactic(auto, using(crate::proofs::TextLemmas::left, crate::proofs::TextLemmas::may_close))]
pub(crate) fn show_names(
    out: &mut String,
    indentation: &mut String,
    style: Style,
    names: &[Identifier],
) -> Result<(), AllocError>
    ensures text { OnOk result
        (string_bytes out.new ≡ string_bytes out.old
        ++ text style (string_bytes indentation.old)
        (Row (showns (map (λ name. shown_name name) names.now)))) }
    ensures indentation { OnOk result (string_bytes indentation.new ≡ string_bytes indentation.old) }
{
    let outer = open(out, indentation, style, "[")?;
    let mut first = true;
    for name in names {
        push_before(out, indentation.as_str(), is_flat(style), first)?;
        push_repr(out, name.as_str())?;
        first = false;
    }
    close(out, indentation, style, outer, "]")?;
    Ok(())
}
