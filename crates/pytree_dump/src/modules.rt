//! The dump of a module.

ghost use Rattle.std.specs.Prelude.{◌≡◌, IfOk, OnOk, drop};
ghost use Rattle.std.specs.String.{string_bytes};
ghost use Rattle.pytree_dump_text.specs.Layout.{dump_text};
ghost use Rattle.pytree_dump_text.specs.Shows.{shown_module};
ghost use Rattle.pytree_node.specs.TreeOf.{module_of};
ghost use Rattle.pytree_marked.specs.MarkedNodes.{marked, with_places};

use crate::blocks::show_branch_field;
use crate::branches::{BranchPart, Branches};
use crate::nodes::AnyPart;
use crate::showing::show_any_field;
use pytree_dump_text::{Field, Part, Style, Told, close, is_short_module, open};
use pytree_marked::{NoPlaces, PlaceSource};
use pytree_node::{Module, Stmt};
use std::alloc::{AllocError, Global};

/// The dump text of a module: what Python's `ast.dump` gives for it, in the style.
///
/// Python library reference, `ast`: `ast.dump`. The text is one line, or a line for each field and
/// each member of a list; a node of at most three simple fields stays on one line. A field that is
/// None is left out, and the fields after it have their names. The only error is of memory.
pub fn dump(alloc: Global, tree: &Module, style: Style) -> Result<String, AllocError>
    ensures { IfOk result
        (λ t. string_bytes t ≡ dump_text style (shown_module style.profile (module_of tree.now))) }
{
    dump_placed(alloc, tree, style, &mut NoPlaces)
}

/// The dump text of a module with the places of its nodes: what Python's `ast.dump` gives with
/// attributes.
///
/// The places are taken in the order in which the dump writes them, that of a node after those in
/// its fields, one for each node that has a place. Where none is left, no more are shown.
#[inline(always)]
pub fn dump_placed<P: PlaceSource>(
    alloc: Global,
    tree: &Module,
    style: Style,
    places: &mut P,
) -> Result<String, AllocError>
    ensures text { IfOk result (λ t. string_bytes t ≡ dump_text style
        (with_places (P.left places.old) (shown_module style.profile (module_of tree.now))).shown) }
    ensures left { OnOk result (P.left places.new
        ≡ drop (marked (shown_module style.profile (module_of tree.now))) (P.left places.old)) }
{
    let body: &[Stmt] = &tree.body;
    let mut out = String::new(alloc);
    let mut indentation = String::from_str(alloc, "\n")?;
    let told = Told {
        one_line: is_short_module(style, body),
        named: style.names,
        first: true,
    };
    let outer = open(&mut out, &mut indentation, style, "Module(")?;
    let told = show_branch_field(
        &mut out,
        &mut indentation,
        style,
        told,
        BranchPart::Branches(Field::Body, Branches::Stmts(body)),
        places,
    )?;
    show_any_field(
        &mut out,
        &mut indentation,
        style,
        told,
        AnyPart::Part(Part::Names(Field::TypeIgnores, &[])),
        places,
    )?;
    close(&mut out, &mut indentation, style, outer, ")")?;
    Ok(out)
}
