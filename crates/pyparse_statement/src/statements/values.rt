//! Statements that begin with a value: assignments, annotations, and expressions alone.
//!
//! Python language reference, 7.1 "Expression statements" and 7.2 "Assignment statements".

ghost use Rattle.std.specs.Prelude.{◌≡◌, ◌+◌, ◌≤◌, ◌∷◌, [], IfSome, None, Some, length, map, suc};
ghost use Rattle.std.specs.Str.{chars};
ghost use Rattle.unicode_normalization.specs.Forms.{nfkc};
ghost use Rattle.pylex_lexeme.specs.declared.kinds.Exact.TheVariants as Sign;
ghost use Rattle.pytree_node.specs.TreeOf.{stmt_of, tree_of};
ghost use Rattle.pytoken.specs.Terminals as terminals;
ghost use Rattle.pytoken.specs.TerminalOf.{terminal};
ghost use Rattle.pygrammar.specs.Forms as forms;
ghost use Rattle.pygrammar.specs.LineReader as line;
ghost use Rattle.pygrammar.specs.Reader as reader;
ghost use Rattle.pyparse_nodes.specs.Answers.{PartAnswered};
ghost use Rattle.pyparse_reads.specs.Readings.{reads};
ghost use Rattle.pyparse_nodes.specs.Views.{Stands, first_is, seen};
ghost use Rattle.std.specs.Prelude.{IfOk};
ghost use Rattle.pyparse_nodes.specs.Views.{IsNotNamed};
ghost use Rattle.pyparse_statement.specs.PlacedStatements.{AnnotationPlaced, FieldsPlaced};
ghost use Rattle.pyparse_statement.specs.PlacedStatements.{TargetsPlaced, ValuePlaced};

use crate::statements::assignments::{annotation_of, assignment_of, augmented_of, expression_of};
use crate::statements::found::ReadStatement;
use crate::statements::optional::after_sign;
use pygrammar::Level;
use pylex_listing::Exact;
use pyparse_nodes::{
    Items, Read, Stop, is_op, make_name, name_with, single_stored, stored, terminal_at,
};
use pyparse_reads::{Depth, ReadsExpressions, no_items, push};
use pyplaces::Recorder;
use pytoken::Terminal;
use pytree_node::{Context, Operator, Profile};
use std::alloc::Global;

/// After the colon of an annotation.
fn annotated<E: ReadsExpressions, R: Recorder>(
    alloc: Global,
    tokens: &[Terminal],
    target: Read,
    simple: bool,
    at: usize,
    depth: Depth,
    recorder: &mut R,
) -> Result<ReadStatement, Stop>
    requires { at ≤ length tokens.now }
    ensures answered { PartAnswered tokens.now at
        (line.annotation (reads depth) (tree_of target.expr.value) simple (seen tokens.now at))
        (λ r. stmt_of r.statement) (λ r. r.next) result }
    ensures placed { IfOk result (AnnotationPlaced R.after (tree_of target.expr.value) simple
        tokens.now at recorder.old recorder.new) }
{
    let annotation = E::read_at(alloc, tokens, Level::Expression, at, depth, recorder)?;
    let value = after_sign::<E, R>(
        alloc,
        tokens,
        Exact::Equal,
        Level::Value,
        annotation.next,
        depth,
        recorder,
    )?;
    Ok(annotation_of(target, annotation, value, simple))
}

/// The operator of an augmented assignment that a sign is.
fn augmented_sign(sign: Exact) -> Option<Operator>
    ensures { result ≡ forms.augmented sign }
{
    match sign {
        Exact::PlusEqual => Some(Operator::Add),
        Exact::MinEqual => Some(Operator::Sub),
        Exact::StarEqual => Some(Operator::Mult),
        Exact::AtEqual => Some(Operator::MatMult),
        Exact::SlashEqual => Some(Operator::Div),
        Exact::PercentEqual => Some(Operator::Mod),
        Exact::AmperEqual => Some(Operator::BitAnd),
        Exact::VBarEqual => Some(Operator::BitOr),
        Exact::CircumflexEqual => Some(Operator::BitXor),
        Exact::LeftShiftEqual => Some(Operator::LShift),
        Exact::RightShiftEqual => Some(Operator::RShift),
        Exact::DoubleStarEqual => Some(Operator::Pow),
        Exact::DoubleSlashEqual => Some(Operator::FloorDiv),
        _ => None,
    }
}

/// The operator of an augmented assignment that a terminal is.
fn augmented_in(t: Terminal) -> Option<Operator>
    ensures { result ≡ line.augmented_sign (terminal t.entry) }
{
    match t {
        Terminal::Op(sign) => augmented_sign(sign),
        _ => None,
    }
}

/// The operator of an augmented assignment at the place.
fn augmented_at(tokens: &[Terminal], at: usize) -> Option<Operator>
    ensures is { result ≡ first_is line.augmented_sign (seen tokens.now at) }
    ensures within { IfSome result (λ _. at + 1 ≤ length tokens.now) }
{
    match terminal_at(tokens, at) {
        Some(t) => augmented_in(t),
        None => None,
    }
}

/// From the operator of an augmented assignment on.
#[tactic(auto, using(crate::proofs::statements::ValueSteps::augmented_target, crate::proofs::statements::ValueSteps::augmented_failed, crate::proofs::statements::ValueSteps::augmented_found))]
fn augmented<E: ReadsExpressions, R: Recorder>(
    alloc: Global,
    tokens: &[Terminal],
    value: Read,
    op: Operator,
    depth: Depth,
    recorder: &mut R,
) -> Result<ReadStatement, Stop>
    requires within { value.next + 1 ≤ length tokens.now }
    requires op { Some op ≡ first_is line.augmented_sign (seen tokens.now value.next) }
    ensures answered { PartAnswered tokens.now value.next
        (line.end_value (reads depth) [] (tree_of value.expr.value) (seen tokens.now value.next))
        (λ r. stmt_of r.statement) (λ r. r.next) result }
    ensures placed { ValuePlaced R.after tokens.now value recorder.old recorder.new result }
{
    let next = value.next + 1;
    let target = single_stored(value)?;
    let right = E::read_at(alloc, tokens, Level::Value, next, depth, recorder)?;
    Ok(augmented_of(target, op, right))
}

/// From the colon of an annotation on.
#[tactic(auto, using(crate::proofs::statements::ValueSteps::annotated_target, crate::proofs::statements::ValueSteps::annotated_is))]
fn annotated_value<E: ReadsExpressions, R: Recorder>(
    alloc: Global,
    tokens: &[Terminal],
    value: Read,
    depth: Depth,
    recorder: &mut R,
) -> Result<ReadStatement, Stop>
    requires { Stands (terminals.Op Exact.Colon) tokens.now value.next }
    ensures answered { PartAnswered tokens.now value.next
        (line.end_value (reads depth) [] (tree_of value.expr.value) (seen tokens.now value.next))
        (λ r. stmt_of r.statement) (λ r. r.next) result }
    ensures placed { ValuePlaced R.after tokens.now value recorder.old recorder.new result }
{
    let next = value.next + 1;
    let target = single_stored(value)?;
    annotated::<E, R>(alloc, tokens, target, false, next, depth, recorder)
}

/// After a value that no `=` follows.
#[tactic(auto, using(crate::proofs::statements::ValueSteps::assigned, crate::proofs::statements::ValueSteps::alone))]
fn end_value<E: ReadsExpressions, R: Recorder>(
    alloc: Global,
    tokens: &[Terminal],
    targets: Items,
    value: Read,
    depth: Depth,
    recorder: &mut R,
) -> Result<ReadStatement, Stop>
    requires { value.next ≤ length tokens.now }
    ensures answered { PartAnswered tokens.now value.next
        (line.end_value (reads depth) (map tree_of targets.exprs.items) (tree_of value.expr.value)
        (seen tokens.now value.next)) (λ r. stmt_of r.statement) (λ r. r.next) result }
    ensures placed { TargetsPlaced R.after tokens.now targets value recorder.old recorder.new result }
{
    if !targets.exprs.is_empty() {
        return Ok(assignment_of(targets, value));
    }
    if let Some(op) = augmented_at(tokens, value.next) {
        return augmented::<E, R>(alloc, tokens, value, op, depth, recorder);
    }
    if is_op(tokens, value.next, Exact::Colon) {
        return annotated_value::<E, R>(alloc, tokens, value, depth, recorder);
    }
    Ok(expression_of(value))
}

/// The same targets, with another place after them.
fn placed(targets: Items, next: usize) -> Items
    ensures items { map tree_of result.exprs.items ≡ map tree_of targets.exprs.items }
    ensures next { result.next ≡ next }
{
    Items {
        exprs: targets.exprs,
        height: targets.height,
        next,
    }
}

/// Values with `=` between them, or what one value begins.
fn assignment<E: ReadsExpressions, R: Recorder>(
    alloc: Global,
    tokens: &[Terminal],
    at: usize,
    depth: Depth,
    recorder: &mut R,
) -> Result<ReadStatement, Stop>
    requires { at ≤ length tokens.now }
    ensures answered { PartAnswered tokens.now (at + 1)
        (line.value_loop (reads depth) (suc (length (seen tokens.now at))) [] (seen tokens.now at))
        (λ r. stmt_of r.statement) (λ r. r.next) result }
    ensures placed { (profile : Profile) → IsNotNamed Exact.Colon tokens.now at
        → IfOk result (FieldsPlaced R.after profile tokens.now at recorder.old recorder.new) }
{
    let mut targets = no_items(alloc, at);
    'more: loop {
        let value = E::read_at(alloc, tokens, Level::Value, targets.next, depth, recorder)?;
        if !is_op(tokens, value.next, Exact::Equal) {
            return end_value::<E, R>(alloc, tokens, targets, value, depth, recorder);
        }
        let next = value.next + 1;
        let target = stored(value)?;
        let grown = push(targets, target)?;
        targets = placed(grown, next);
    }
}

/// A statement that begins with a value.
pub(crate) fn value_statement<E: ReadsExpressions, R: Recorder>(
    alloc: Global,
    tokens: &[Terminal],
    at: usize,
    depth: Depth,
    recorder: &mut R,
) -> Result<ReadStatement, Stop>
    requires { at ≤ length tokens.now }
    ensures answered { PartAnswered tokens.now (at + 1)
        (line.value_statement (reads depth) (seen tokens.now at)) (λ r. stmt_of r.statement)
        (λ r. r.next) result }
    ensures placed { (profile : Profile)
        → IfOk result (FieldsPlaced R.after profile tokens.now at recorder.old recorder.new) }
{
    match name_with(tokens, at, Exact::Colon) {
        Some(name) => {
            recorder.node(at, at + 1)?;
            let target = make_name(alloc, name, Context::Store, at + 1)?;
            annotated::<E, R>(alloc, tokens, target, true, at + 2, depth, recorder)
        }
        None => assignment::<E, R>(alloc, tokens, at, depth, recorder),
    }
}
