//! Neighbouring literals.

ghost use Rattle.std.specs.Prelude.{◌≡◌, ◌++◌, ◌≤◌, MatchResult, Some, length};
ghost use Rattle.pytree_node.specs.TreeOf.{constant_of};
ghost use Rattle.pytree_node.specs.Trees as plain;
ghost use Rattle.pytree_node.specs.Values as values;
ghost use Rattle.pytoken.specs.StringValues.{string_value};
ghost use Rattle.pytoken.specs.TerminalOf.{literal_characters};
ghost use Rattle.pytoken.specs.Values.{literal_value};
ghost use Rattle.pyparse_nodes.specs.Answers.{Made, PartAnswered};
ghost use Rattle.pygrammar.specs.FormattedStrings.{text_of};
ghost use Rattle.pyparse_nodes.specs.Runs.{IsNoText, Joins, Parts, run};
ghost use Rattle.pyparse_nodes.specs.Views.{seen};

use crate::found::Read;
use crate::makers::make_constant;
use crate::{Stop, literal_at};
use pytoken::{Literal, LiteralText, Terminal};
use pytree_node::{Constant, Points};
use std::alloc::{AllocError, Global};

/// What neighbouring literals stand for, and the place after them.
#[derive(Drop)]
pub struct LiteralRun {
    pub value: Literal,
    pub next: usize,
}

/// Appends the code points of a text.
pub(crate) fn add_points(to: &mut Points, points: &Points) -> Result<(), AllocError>
    ensures { MatchResult result (λ _. to.new ≡ to.old ++ points.now) (λ _. Unit {0}) }
{
    for point in points.as_slice() {
        to.push(*point)?;
    }
    Ok(())
}

/// A text with one more after it.
#[tactic(auto, using(crate::proofs::LiteralRuns::text_turn, crate::proofs::LiteralRuns::text_mixed))]
fn add_text(alloc: Global, points: Points, unicode: bool, more: LiteralText) -> Result<Points, Stop>
    ensures { MatchResult result
        (λ p. Joins (values.Str points unicode) (string_value (literal_characters more.entry))
        (values.Str p unicode))
        (λ s. Parts s (values.Str points unicode) (string_value (literal_characters more.entry))) }
{
    match more.value(alloc)? {
        Literal::Text {
            points: more,
            unicode: _,
        } => {
            let mut points = points;
            add_points(&mut points, &more)?;
            Ok(points)
        }
        Literal::Bytes(_) => Err(Stop::NoForm),
    }
}

/// Bytes with more after them.
#[tactic(auto, using(crate::proofs::LiteralRuns::bytes_turn, crate::proofs::LiteralRuns::bytes_mixed))]
fn add_bytes(alloc: Global, bytes: Vec<u8>, more: LiteralText) -> Result<Vec<u8>, Stop>
    ensures { MatchResult result
        (λ b. Joins (values.Bytes bytes.items) (string_value (literal_characters more.entry))
        (values.Bytes b.items))
        (λ s. Parts s (values.Bytes bytes.items) (string_value (literal_characters more.entry))) }
{
    match more.value(alloc)? {
        Literal::Text {
            points: _,
            unicode: _,
        } => Err(Stop::NoForm),
        Literal::Bytes(more) => {
            let mut bytes = bytes;
            bytes.extend_from_slice(&more)?;
            Ok(bytes)
        }
    }
}

/// Neighbouring literals, after a first one.
#[inline(never)]
pub fn string_run(
    alloc: Global,
    tokens: &[Terminal],
    first: LiteralText,
    at: usize,
) -> Result<LiteralRun, Stop>
    requires { at ≤ length tokens.now }
    ensures { PartAnswered tokens.now at
        (run (string_value (literal_characters first.entry)) (seen tokens.now at))
        (λ r. literal_value r.value) (λ r. r.next) result }
{
    match first.value(alloc)? {
        Literal::Text { points, unicode } => text_run(alloc, tokens, unicode, points, at),
        Literal::Bytes(bytes) => bytes_run(alloc, tokens, bytes, at),
    }
}

/// Texts after a first one.
fn text_run(
    alloc: Global,
    tokens: &[Terminal],
    unicode: bool,
    first: Points,
    at: usize,
) -> Result<LiteralRun, Stop>
    requires { at ≤ length tokens.now }
    ensures { PartAnswered tokens.now at (run (values.Str first unicode) (seen tokens.now at))
        (λ r. literal_value r.value) (λ r. r.next) result }
{
    let mut points = first;
    let mut next = at;
    while let Some(more) = literal_at(tokens, next) {
        points = add_text(alloc, points, unicode, more)?;
        next += 1;
    }
    Ok(LiteralRun {
        value: Literal::Text { points, unicode },
        next,
    })
}

/// Bytes after a first one.
#[inline(never)]
fn bytes_run(
    alloc: Global,
    tokens: &[Terminal],
    first: Vec<u8>,
    at: usize,
) -> Result<LiteralRun, Stop>
    requires { at ≤ length tokens.now }
    ensures { PartAnswered tokens.now at (run (values.Bytes first.items) (seen tokens.now at))
        (λ r. literal_value r.value) (λ r. r.next) result }
{
    let mut bytes = first;
    let mut next = at;
    while let Some(more) = literal_at(tokens, next) {
        bytes = add_bytes(alloc, bytes, more)?;
        next += 1;
    }
    Ok(LiteralRun {
        value: Literal::Bytes(bytes),
        next,
    })
}

/// A text, whose `kind` is `u` where it says so.
#[inline(always)]
pub(crate) fn text(points: Points, unicode: bool) -> Constant
    ensures { constant_of result ≡ values.Str points unicode }
{
    if unicode {
        Constant::UnicodeStr(points)
    } else {
        Constant::Str(points)
    }
}

/// The constant of neighbouring literals.
#[inline(always)]
pub fn make_literal(alloc: Global, value: Literal, next: usize) -> Result<Read, Stop>
    ensures { MatchResult result (λ r. Made 1 (plain.Constant (literal_value value)) next r)
        (λ s. s ≡ Stop.Memory) }
{
    match value {
        Literal::Text { points, unicode } => make_constant(alloc, text(points, unicode), next),
        Literal::Bytes(bytes) => make_constant(alloc, Constant::Bytes(bytes), next),
    }
}

/// The text of a literal, if it stands for one.
pub fn literal_text(alloc: Global, literal: LiteralText) -> Result<Points, Stop>
    ensures { MatchResult result
        (λ points. text_of (string_value (literal_characters literal.entry)) ≡ Some points)
        (λ s. IsNoText (string_value (literal_characters literal.entry)) s) }
{
    match literal.value(alloc)? {
        Literal::Text { points, unicode: _ } => Ok(points),
        Literal::Bytes(_) => Err(Stop::NoForm),
    }
}
