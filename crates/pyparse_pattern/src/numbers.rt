//! Numbers in patterns.
//!
//! Python language reference, 8.6.4.3 "Literal Patterns".

ghost use Rattle.std.specs.Prelude.{◌≡◌, ◌+◌, ◌++◌, ◌≤◌, ◌∷◌, [], IfOk, IfSome, List, MatchResult, length};
ghost use Rattle.pytree_node.specs.TreeOf.{constant_of, tree_of};
ghost use Rattle.pytree_node.specs.Values.{Value};
ghost use Rattle.pytoken.specs.Terminals as terminals;
ghost use Rattle.pygrammar.specs.Operators as operators;
ghost use Rattle.pygrammar.specs.PatternOperators as patterns;
ghost use Rattle.pygrammar.specs.PatternReader as reader;
ghost use Rattle.pyparse_nodes.specs.Answers.{Answered, Failed};
ghost use Rattle.pyparse_nodes.specs.Views.{Stands, first_is, seen};
ghost use Rattle.pyparse_pattern.specs.Inner.PlacedParts.{SignedPlaced};
ghost use Rattle.pyparse_pattern.specs.Inner.Values.{NoNumberAt, NumberAt, SignedAt, numbers, summed};
ghost use Rattle.pyplaces.specs.PlacedPatterns.{PlacedLiteral, PlacedNumber};
ghost use Rattle.pyplaces.specs.Recording.{Records};
ghost use Rattle.pyplaces.specs.Stretches.{Stretch, stretch};

use pygrammar::Level;
use pylex_listing::Exact;
use pyparse_nodes::{Read, Stop, is_op, make_binary, make_constant, make_unary, terminal_at};
use pyplaces::Recorder;
use pytoken::Terminal;
use pytree_node::{Constant, Integer, Operator, UnaryOperator};
use std::alloc::Global;

/// How high a number is at most: `-1 + 2j` is a sum of a negative number.
const NUMBER_HEIGHT: usize = 3;

/// A number that was read, and whether it is imaginary.
#[derive(Drop)]
pub(crate) struct Number {
    pub read: Read,
    pub imaginary: bool,
}

/// Whether a constant is an imaginary number.
fn is_imaginary(value: &Constant) -> bool
    ensures { result ≡ patterns.is_imaginary (constant_of value.now) }
{
    matches!(value, Constant::Imaginary(_))
}

/// The value of the NUMBER at a place.
fn value_at(alloc: Global, tokens: &[Terminal], at: usize) -> Result<Constant, Stop>
    ensures { MatchResult result (λ v. Stands (terminals.Number (constant_of v)) tokens.now at)
        (λ s. NoNumberAt tokens.now at s) }
{
    match terminal_at(tokens, at) {
        Some(Terminal::Whole(value)) => {
            Ok(Constant::Int(Integer::new(alloc, u128::from(value))?))
        }
        Some(Terminal::Number(text)) => Ok(text.value(alloc)?),
        _ => Err(Stop::NoForm),
    }
}

/// The NUMBER at a place.
fn number_at<R: Recorder>(
    alloc: Global,
    tokens: &[Terminal],
    at: usize,
    recorder: &mut R,
) -> Result<Number, Stop>
    ensures answered { MatchResult result (λ n. NumberAt tokens.now at n)
        (λ s. NoNumberAt tokens.now at s) }
    ensures placed { IfOk result
        (λ _. Records R.after recorder.old (stretch at (at + 1) ∷ []) recorder.new) }
{
    let value = value_at(alloc, tokens, at)?;
    let imaginary = is_imaginary(&value);
    recorder.node(at, at + 1)?;
    let read = make_constant(alloc, value, at + 1)?;
    Ok(Number { read, imaginary })
}

/// The NUMBER at a place, with its sign if it has one.
fn signed_at<R: Recorder>(
    alloc: Global,
    tokens: &[Terminal],
    at: usize,
    recorder: &mut R,
) -> Result<Number, Stop>
    ensures answered { MatchResult result (λ n. SignedAt tokens.now at n)
        (λ s. Failed s (numbers (seen tokens.now at))) }
    ensures placed { IfOk result
        (λ n. SignedPlaced R.after tokens.now at n recorder.old recorder.new) }
{
    if !is_op(tokens, at, Exact::Minus) {
        return number_at(alloc, tokens, at, recorder);
    }
    let number = number_at(alloc, tokens, at + 1, recorder)?;
    recorder.node(at, number.read.next)?;
    let read = make_unary(alloc, UnaryOperator::USub, number.read, NUMBER_HEIGHT)?;
    Ok(Number {
        read,
        imaginary: number.imaginary,
    })
}

/// The `+` or `-` at a place.
fn sum_sign_at(tokens: &[Terminal], at: usize) -> Option<Operator>
    ensures is { result ≡ first_is (operators.left_operator Level.Sum) (seen tokens.now at) }
    ensures within { IfSome result (λ _. at + 1 ≤ length tokens.now) }
{
    match terminal_at(tokens, at) {
        Some(Terminal::Op(Exact::Plus)) => Some(Operator::Add),
        Some(Terminal::Op(Exact::Minus)) => Some(Operator::Sub),
        _ => None,
    }
}

/// A number that begins at a place, or its sum with the imaginary number after it.
fn with_imaginary<R: Recorder>(
    alloc: Global,
    tokens: &[Terminal],
    number: Number,
    at: usize,
    recorder: &mut R,
) -> Result<Read, Stop>
    requires within { number.read.next ≤ length tokens.now }
    requires low { number.read.height ≤ 2 }
    ensures answered { Answered tokens.now 3 number.read.next
        (summed number.imaginary (tree_of number.read.expr.value)
        (seen tokens.now number.read.next)) result }
    ensures placed { (v : Value) (ps : List Stretch)
        → number.imaginary ≡ patterns.is_imaginary v
        → PlacedNumber v (seen tokens.now at) at (tree_of number.read.expr.value)
        (seen tokens.now number.read.next) number.read.next ps
        → IfOk result (λ r. (qs : List Stretch) ×
        PlacedLiteral (seen tokens.now at) at (tree_of r.expr.value)
        (seen tokens.now r.next) r.next (ps ++ qs) ×
        Records R.after recorder.old qs recorder.new) }
{
    let Number { read, imaginary } = number;
    if imaginary {
        return Ok(read);
    }
    let Some(sign) = sum_sign_at(tokens, read.next) else {
        return Ok(read);
    };
    let right = number_at(alloc, tokens, read.next + 1, recorder)?;
    if right.imaginary {
        recorder.node(at, right.read.next)?;
        make_binary(alloc, read, sign, right.read, NUMBER_HEIGHT)
    } else {
        Err(Stop::NoForm)
    }
}

/// The number at a place with its sign, or the sum that it begins, of any height.
fn sum_at<R: Recorder>(
    alloc: Global,
    tokens: &[Terminal],
    at: usize,
    recorder: &mut R,
) -> Result<Read, Stop>
    ensures answered { Answered tokens.now 3 (at + 1) (numbers (seen tokens.now at)) result }
    ensures placed { IfOk result (λ r. (ps : List Stretch) ×
        PlacedLiteral (seen tokens.now at) at (tree_of r.expr.value)
        (seen tokens.now r.next) r.next ps × Records R.after recorder.old ps recorder.new) }
{
    let number = signed_at(alloc, tokens, at, recorder)?;
    with_imaginary(alloc, tokens, number, at, recorder)
}

/// The same, up to a height.
#[tactic(auto, using(crate::proofs::Caps::low_failed, crate::proofs::Caps::low_high, crate::proofs::Caps::low_found))]
pub(crate) fn read_number<R: Recorder>(
    alloc: Global,
    tokens: &[Terminal],
    at: usize,
    room: usize,
    recorder: &mut R,
) -> Result<Read, Stop>
    ensures answered { Answered tokens.now room (at + 1)
        (reader.cap_value room (numbers (seen tokens.now at))) result }
    ensures placed { IfOk result (λ r. (ps : List Stretch) ×
        PlacedLiteral (seen tokens.now at) at (tree_of r.expr.value)
        (seen tokens.now r.next) r.next ps × Records R.after recorder.old ps recorder.new) }
{
    let read = sum_at(alloc, tokens, at, recorder)?;
    if read.height > room {
        return Err(Stop::TooDeep);
    }
    Ok(read)
}
