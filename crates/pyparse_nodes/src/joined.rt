//! The values of a JoinedStr, and its node.

ghost use Rattle.std.specs.Prelude.{◌≡◌, ◌++◌, [], MatchResult, map};
ghost use Rattle.pytree_node.specs.TreeOf.{boxed_of, tree_of};
ghost use Rattle.pytree_node.specs.Trees as plain;
ghost use Rattle.pytree_node.specs.Trees.{exprs, optional};
ghost use Rattle.pygrammar.specs.FormattedStrings.{Field, Text};
ghost use Rattle.pyparse_nodes.specs.JoinedStates.{Gathers, IsNode, ended, state, state_of, step};

use crate::Stop;
use crate::found::{Items, JoinedValues, Optional, Read};
use crate::literals::{add_points, text};
use crate::makers::boxed;
use crate::room::{append, put};
use pytree_node::{Conversion, Expr, Points};
use std::alloc::Global;

/// A text alone.
pub fn joined_text(alloc: Global, text: Points, next: usize) -> JoinedValues
    ensures values { state_of result ≡ state [] text }
    ensures next { result.next ≡ next }
{
    JoinedValues {
        values: Vec::new(alloc),
        text,
        height: 0,
        next,
    }
}

/// The same values, with another place after them.
pub fn moved(values: JoinedValues, next: usize) -> JoinedValues
    ensures { Gathers (state_of values) next result }
{
    JoinedValues {
        values: values.values,
        text: values.text,
        height: values.height,
        next,
    }
}

/// A text with another one after it.
fn beside(front: Points, text: Points) -> Result<Points, Stop>
    ensures { MatchResult result (λ whole. whole ≡ front ++ text) (λ s. s ≡ Stop.Memory) }
{
    if front.as_slice().is_empty() {
        return Ok(text);
    }
    let mut whole = front;
    add_points(&mut whole, &text)?;
    Ok(whole)
}

/// One more text.
pub fn with_text(
    before: JoinedValues,
    unicode: bool,
    text: Points,
    next: usize,
) -> Result<JoinedValues, Stop>
    ensures { MatchResult result
        (λ r. Gathers (step unicode (state_of before) (Text text)) next r)
        (λ s. s ≡ Stop.Memory) }
{
    let text = beside(before.text, text)?;
    Ok(JoinedValues {
        values: before.values,
        text,
        height: before.height,
        next,
    })
}

/// All values, the text after the last field with this kind.
fn end_values(before: JoinedValues, unicode: bool) -> Result<Items, Stop>
    ensures values { MatchResult result
        (λ r. map tree_of r.exprs.items ≡ ended unicode (state_of before))
        (λ s. s ≡ Stop.Memory) }
    ensures next { MatchResult result (λ r. r.next ≡ before.next) (λ s. s ≡ Stop.Memory) }
{
    let mut exprs = before.values;
    let next = before.next;
    if before.text.as_slice().is_empty() {
        return Ok(Items {
            exprs,
            height: before.height,
            next,
        });
    }
    let value = text(before.text, unicode);
    append(&mut exprs, Expr::Constant { value })?;
    Ok(Items {
        exprs,
        height: before.height.max(1),
        next,
    })
}

/// One more field.
#[tactic(auto, using(crate::proofs::Callers::Pushes::pushed, crate::proofs::Callers::Pushes::pushed_height))]
pub fn with_field(
    alloc: Global,
    before: JoinedValues,
    unicode: bool,
    field: Read,
) -> Result<JoinedValues, Stop>
    ensures { MatchResult result
        (λ r. Gathers (step unicode (state_of before) (Field (tree_of field.expr.value))) field.next r)
        (λ s. s ≡ Stop.Memory) }
{
    let items = end_values(before, unicode)?;
    let mut values = items.exprs;
    let next = field.next;
    let height = items.height.max(field.height);
    put(&mut values, field.expr)?;
    Ok(JoinedValues {
        values,
        text: Points::new(alloc),
        height,
        next,
    })
}

/// The JoinedStr of these values, of any height, its last text with this kind.
#[tactic(auto, using(pytree_node::proofs::Callers::ExprShapes::expr_shapes))]
pub fn make_joined(alloc: Global, values: JoinedValues, unicode: bool) -> Result<Read, Stop>
    ensures { MatchResult result
        (λ r. IsNode (plain.JoinedStr (exprs (ended unicode (state_of values)))) values.next r)
        (λ s. s ≡ Stop.Memory) }
{
    let items = end_values(values, unicode)?;
    // No memory holds a tree of a height beyond all numbers.
    let height = items.height.checked_add(1).ok_or(Stop::Memory)?;
    boxed(
        alloc,
        Expr::JoinedStr {
            values: items.exprs,
        },
        height,
        items.next,
    )
}

/// A field of an f-string, of any height.
#[tactic(auto, using(pytree_node::proofs::Callers::ExprShapes::expr_shapes))]
pub fn make_field(
    alloc: Global,
    value: Read,
    conversion: Conversion,
    spec: Optional,
    next: usize,
) -> Result<Read, Stop>
    ensures { MatchResult result
        (λ r. IsNode (plain.FormattedValue (tree_of value.expr.value) conversion
        (optional (boxed_of spec.expr))) next r)
        (λ s. s ≡ Stop.Memory) }
{
    // No memory holds a tree of a height beyond all numbers.
    let under = value.height.max(spec.height);
    let height = under.checked_add(1).ok_or(Stop::Memory)?;
    boxed(
        alloc,
        Expr::FormattedValue {
            value: value.expr,
            conversion,
            format_spec: spec.expr,
        },
        height,
        next,
    )
}
