//! The walk over statements that writes their dump.

ghost use Rattle.std.specs.Prelude.{◌≡◌, IfOk, OnOk};
ghost use Rattle.std.specs.String.{string_bytes};
ghost use Rattle.pytree_dump_text.specs.Shows.{Row, shown_stmt, showns};
ghost use Rattle.pytree_dump_text.specs.Slots.{with_slot};
ghost use Rattle.pytree_node.specs.TreeOf.{stmt_of};
ghost use Rattle.pytree_marked.specs.Appends.{Appends, AppendsField, AppendsNode};
ghost use Rattle.pytree_dump.specs.Inner.Branches.{LaidBranch, branch_fields, branch_shown, branch_slot, branches_shown};

use crate::branches::{Branch, BranchNode, BranchPart, Branches};
use crate::joined::{is_joined, show_joined_assignment, show_joined_value};
use crate::showing::show_any_field;
use crate::statements::stmt_node;
use pytree_dump_text::{Style, Told, close, is_flat, open, push_before, push_lead};
use pytree_marked::{PlaceSource, end_node, is_told_on_line};
use pytree_node::Stmt;
use std::alloc::AllocError;

/// Appends what a statement shows, or a part of one that has statements.
#[cycle(blocks)]
#[inline(always)]
fn show_branch<P: PlaceSource>(
    out: &mut String,
    indentation: &mut String,
    style: Style,
    branch: Branch<'_>,
    places: &mut P,
) -> Result<(), AllocError>
    ensures text { OnOk result (Appends style (string_bytes indentation.old)
        (string_bytes out.old) (string_bytes out.new) (P.left places.old) (P.left places.new)
        (branch_shown style.profile branch.entry)) }
    ensures indentation { OnOk result (string_bytes indentation.new ≡ string_bytes indentation.old) }
{
    match branch {
        Branch::Stmt(s) => show_stmt(out, indentation, style, s, places),
        _ => show_branch_node(out, indentation, style, &branch.node(style), places),
    }
}

/// Appends what a statement shows.
#[cycle(blocks)]
pub(crate) fn show_stmt<P: PlaceSource>(
    out: &mut String,
    indentation: &mut String,
    style: Style,
    s: &Stmt,
    places: &mut P,
) -> Result<(), AllocError>
    ensures text { OnOk result (Appends style (string_bytes indentation.old)
        (string_bytes out.old) (string_bytes out.new) (P.left places.old) (P.left places.new)
        (shown_stmt style.profile (stmt_of s.now))) }
    ensures indentation { OnOk result (string_bytes indentation.new ≡ string_bytes indentation.old) }
{
    match s {
        Stmt::Expr { value } if is_joined(style, places) => {
            show_joined_value(out, indentation, style, "Expr(value=", value, places)
        }
        Stmt::Assign { targets, value } if is_joined(style, places) => {
            show_joined_assignment(out, indentation, style, targets, value, places)
        }
        _ => show_branch_node(out, indentation, style, &stmt_node(style, s), places),
    }
}

/// Appends a node that has statements.
#[cycle(blocks)]
#[tactic(auto, using(crate::proofs::TextLemmas::left, crate::proofs::TextLemmas::may_close))]
fn show_branch_node<P: PlaceSource>(
    out: &mut String,
    indentation: &mut String,
    style: Style,
    node: &BranchNode<'_>,
    places: &mut P,
) -> Result<(), AllocError>
    requires { LaidBranch style node.now }
    ensures text { OnOk result (AppendsNode node.now.is_marked style (string_bytes indentation.old)
        (string_bytes out.old) (string_bytes out.new) (P.left places.old) (P.left places.new)
        node.now.class.now (branch_fields style.profile node.now)) }
    ensures indentation { OnOk result (string_bytes indentation.new ≡ string_bytes indentation.old) }
{
    let mut told = Told {
        one_line: is_told_on_line(style, node.is_short, places),
        named: style.names,
        first: true,
    };
    let outer = open(out, indentation, style, node.class)?;
    for part in &node.parts[..node.len] {
        told = show_branch_field(out, indentation, style, told, *part, places)?;
    }
    if node.is_marked {
        end_node(out, indentation, style, told, outer, places)
    } else {
        close(out, indentation, style, outer, ")")
    }
}

/// Appends a field, and tells how the fields after it are told.
#[cycle(blocks)]
#[inline(always)]
pub(crate) fn show_branch_field<P: PlaceSource>(
    out: &mut String,
    indentation: &mut String,
    style: Style,
    told: Told,
    part: BranchPart<'_>,
    places: &mut P,
) -> Result<Told, AllocError>
    ensures text { IfOk result (λ next. AppendsField style (string_bytes indentation.old)
        (string_bytes out.old) (string_bytes out.new) (P.left places.old) (P.left places.new)
        told next (λ rest. with_slot (branch_slot style.profile part.entry) rest)) }
    ensures indentation { OnOk result (string_bytes indentation.new ≡ string_bytes indentation.old) }
{
    match part {
        BranchPart::Any(part) => show_any_field(out, indentation, style, told, part, places),
        BranchPart::Branches(field, branches) => {
            push_lead(out, indentation.as_str(), told, field)?;
            show_branches(out, indentation, style, branches, places)?;
            Ok(Told {
                one_line: told.one_line,
                named: told.named,
                first: false,
            })
        }
    }
}

/// Appends a list of statements, or of parts that have some.
#[cycle(blocks)]
#[tactic(auto, using(crate::proofs::TextLemmas::left, crate::proofs::TextLemmas::may_close))]
fn show_branches<P: PlaceSource>(
    out: &mut String,
    indentation: &mut String,
    style: Style,
    branches: Branches<'_>,
    places: &mut P,
) -> Result<(), AllocError>
    ensures text { OnOk result (Appends style (string_bytes indentation.old)
        (string_bytes out.old) (string_bytes out.new) (P.left places.old) (P.left places.new)
        (Row (showns (branches_shown style.profile branches.entry)))) }
    ensures indentation { OnOk result (string_bytes indentation.new ≡ string_bytes indentation.old) }
{
    let outer = open(out, indentation, style, "[")?;
    let mut first = true;
    for i in 0..branches.len() {
        push_before(out, indentation.as_str(), is_flat(style), first)?;
        show_branch(out, indentation, style, branches.at(i), places)?;
        first = false;
    }
    close(out, indentation, style, outer, "]")
}
