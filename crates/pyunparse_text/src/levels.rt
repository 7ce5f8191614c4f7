//! The levels of the grammar: where an expression or a pattern needs brackets, and the levels of
//! its parts.

ghost use Rattle.std.specs.Prelude.{◌≡◌};
ghost use Rattle.pygrammar.specs.Operators.{below, chain_level};
ghost use Rattle.pyunparse_text.specs.Levels as levels;
ghost use Rattle.pyunparse_text.specs.Written as written;
ghost use Rattle.pyunparse_text.specs.WrittenPatterns as patterns;

use pygrammar::{Level, PatternLevel};
use pytree_node::{BoolOperator, Operator, UnaryOperator};

/// Whether an expression of one level stands at the place of another without brackets: from
/// `Expression` on inwards all levels are in one chain.
pub fn reaches(place: Level, own: Level) -> bool
    ensures { result ≡ levels.reaches place own }
{
    if own.rank() >= 9 {
        return place.rank() <= own.rank();
    }
    let mut level = place;
    for _ in 0..19u8 {
        if level.rank() == own.rank() {
            return true;
        }
        level = level.below();
    }
    false
}

/// The level of a chain of `or` or of `and`.
pub fn chain_level(op: BoolOperator) -> Level
    ensures { result ≡ chain_level op }
{
    match op {
        BoolOperator::Or => Level::Or,
        BoolOperator::And => Level::And,
    }
}

/// The level of the members of such a chain.
pub fn chain_member_level(op: BoolOperator) -> Level
    ensures { result ≡ below (chain_level op) }
{
    match op {
        BoolOperator::Or => Level::And,
        BoolOperator::And => Level::Not,
    }
}

/// The level of what an operator before its operand makes, and of that operand.
pub fn unary_level(op: UnaryOperator) -> Level
    ensures { result ≡ levels.unary_level op }
{
    match op {
        UnaryOperator::Not => Level::Not,
        UnaryOperator::Invert => Level::Factor,
        UnaryOperator::UAdd => Level::Factor,
        UnaryOperator::USub => Level::Factor,
    }
}

/// The level of what an operator between two operands makes.
pub fn operator_level(op: Operator) -> Level
    ensures { result ≡ levels.operator_level op }
{
    match op {
        Operator::BitOr => Level::BitOr,
        Operator::BitXor => Level::BitXor,
        Operator::BitAnd => Level::BitAnd,
        Operator::LShift => Level::Shift,
        Operator::RShift => Level::Shift,
        Operator::Add => Level::Sum,
        Operator::Sub => Level::Sum,
        Operator::Mult => Level::Term,
        Operator::MatMult => Level::Term,
        Operator::Div => Level::Term,
        Operator::Mod => Level::Term,
        Operator::FloorDiv => Level::Term,
        Operator::Pow => Level::Power,
    }
}

/// The level of its left operand.
pub fn left_level(op: Operator) -> Level
    ensures { result ≡ levels.left_level op }
{
    match op {
        Operator::BitOr => Level::BitOr,
        Operator::BitXor => Level::BitXor,
        Operator::BitAnd => Level::BitAnd,
        Operator::LShift => Level::Shift,
        Operator::RShift => Level::Shift,
        Operator::Add => Level::Sum,
        Operator::Sub => Level::Sum,
        Operator::Mult => Level::Term,
        Operator::MatMult => Level::Term,
        Operator::Div => Level::Term,
        Operator::Mod => Level::Term,
        Operator::FloorDiv => Level::Term,
        Operator::Pow => Level::Await,
    }
}

/// The level of its right operand.
pub fn right_level(op: Operator) -> Level
    ensures { result ≡ levels.right_level op }
{
    match op {
        Operator::BitOr => Level::BitXor,
        Operator::BitXor => Level::BitAnd,
        Operator::BitAnd => Level::Shift,
        Operator::LShift => Level::Sum,
        Operator::RShift => Level::Sum,
        Operator::Add => Level::Term,
        Operator::Sub => Level::Term,
        Operator::Mult => Level::Factor,
        Operator::MatMult => Level::Factor,
        Operator::Div => Level::Factor,
        Operator::Mod => Level::Factor,
        Operator::FloorDiv => Level::Factor,
        Operator::Pow => Level::Factor,
    }
}

/// The level of what stands after a star, by the level of its place.
pub fn star_level(place: Level) -> Level
    ensures { result ≡ written.star_level place }
{
    match place {
        Level::Part => Level::Expression,
        Level::Named => Level::Expression,
        _ => Level::BitOr,
    }
}

/// The level of a tuple's elements, by the level of its place and whether there is a `:=` among
/// them.
pub fn element_level(place: Level, some_named: bool) -> Level
    ensures { result ≡ written.element_level place some_named }
{
    match place {
        Level::Slices => Level::Part,
        Level::Value if !some_named => Level::StarItem,
        Level::Stars if !some_named => Level::StarItem,
        _ => Level::Elem,
    }
}

/// The level by which a tuple's elements are joined. At that of an element the tuple has brackets;
/// at `Subject` it has none, though its elements are those of a display.
pub fn tuple_level(place: Level, some_named: bool) -> Level
    ensures { result ≡ written.tuple_level place some_named }
{
    match place {
        Level::Subject => Level::Subject,
        _ => element_level(place, some_named),
    }
}

/// Whether a pattern of one level stands at the place of another without brackets: from
/// `AsPattern` on inwards all levels are in one chain, and the two outer ones lead into it.
pub fn pattern_reaches(place: PatternLevel, own: PatternLevel) -> bool
    ensures { result ≡ patterns.pattern_reaches place own }
{
    let rank = own.rank();
    if rank >= 3 {
        return place.rank() <= rank;
    }
    place.rank() == rank
}
