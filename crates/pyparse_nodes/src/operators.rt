//! Operators, by their ranks.

ghost use Rattle.std.specs.Prelude.{◌≡◌, ◌<◌, IfSome, Some, length, option_map};
ghost use Rattle.pygrammar.specs.Precedence as precedence;
ghost use Rattle.pygrammar.specs.Operators as operators;
ghost use Rattle.pyparse_nodes.specs.Operators.{IsInfix, IsPrefix, infix_value, prefix_value};
ghost use Rattle.pyparse_nodes.specs.Views.{first_is, seen};
ghost use Rattle.pytoken.specs.TerminalOf.{terminal};

use crate::looks::terminal_at;
use pygrammar::Level;
use pylex_listing::Exact;
use pytoken::{Keyword, Terminal};
use pytree_node::{BoolOperator, Comparison, Operator, UnaryOperator};

/// What an operator after an expression makes.
#[derive(Clone, Copy)]
pub enum Infix {
    /// Of this level, with its right side of the next one.
    Left(Level, Operator),
    /// `**`.
    Raise,
    /// `and`, `or`.
    Joins(BoolOperator),
    /// A comparison.
    Compares,
}

/// What an operator in front of an expression makes.
#[derive(Clone, Copy)]
pub enum Prefix {
    /// A sign or `not`, in front of an expression of this level.
    Signed(Level, UnaryOperator),
    /// `await`.
    Awaits,
}

/// What an operator after an expression makes.
pub(crate) fn following(t: Terminal) -> Option<Infix>
    ensures is { option_map infix_value result ≡ precedence.following (terminal t.entry) }
    ensures level { IfSome result (λ o. IsInfix (infix_value o)) }
{
    match t {
        Terminal::Op(sign) => match sign {
            Exact::EqEqual => Some(Infix::Compares),
            Exact::NotEqual => Some(Infix::Compares),
            Exact::Less => Some(Infix::Compares),
            Exact::LessEqual => Some(Infix::Compares),
            Exact::Greater => Some(Infix::Compares),
            Exact::GreaterEqual => Some(Infix::Compares),
            Exact::VBar => Some(Infix::Left(Level::BitOr, Operator::BitOr)),
            Exact::Circumflex => Some(Infix::Left(Level::BitXor, Operator::BitXor)),
            Exact::Amper => Some(Infix::Left(Level::BitAnd, Operator::BitAnd)),
            Exact::LeftShift => Some(Infix::Left(Level::Shift, Operator::LShift)),
            Exact::RightShift => Some(Infix::Left(Level::Shift, Operator::RShift)),
            Exact::Plus => Some(Infix::Left(Level::Sum, Operator::Add)),
            Exact::Minus => Some(Infix::Left(Level::Sum, Operator::Sub)),
            Exact::Star => Some(Infix::Left(Level::Term, Operator::Mult)),
            Exact::Slash => Some(Infix::Left(Level::Term, Operator::Div)),
            Exact::DoubleSlash => Some(Infix::Left(Level::Term, Operator::FloorDiv)),
            Exact::Percent => Some(Infix::Left(Level::Term, Operator::Mod)),
            Exact::At => Some(Infix::Left(Level::Term, Operator::MatMult)),
            Exact::DoubleStar => Some(Infix::Raise),
            _ => None,
        },
        Terminal::Word(word) => match word {
            Keyword::Or => Some(Infix::Joins(BoolOperator::Or)),
            Keyword::And => Some(Infix::Joins(BoolOperator::And)),
            Keyword::In => Some(Infix::Compares),
            Keyword::Not => Some(Infix::Compares),
            Keyword::Is => Some(Infix::Compares),
            _ => None,
        },
        _ => None,
    }
}

/// The number of the level that an operator between two operands is of.
pub(crate) fn infix_rank(o: Infix) -> u8
    ensures { result ≡ precedence.infix_rank (infix_value o) }
{
    match o {
        Infix::Left(level, _) => level.rank(),
        Infix::Raise => Level::Power.rank(),
        Infix::Joins(BoolOperator::Or) => Level::Or.rank(),
        Infix::Joins(BoolOperator::And) => Level::And.rank(),
        Infix::Compares => Level::Compare.rank(),
    }
}

/// The operator that a terminal is, if it is of this rank or a higher one.
fn infix_of(t: Terminal, least: u8) -> Option<Infix>
    ensures is { option_map infix_value result ≡ precedence.infix_from least (terminal t.entry) }
    ensures stands { IfSome result
        (λ o. Some (infix_value o) ≡ precedence.following (terminal t.entry)) }
    ensures level { IfSome result (λ o. IsInfix (infix_value o)) }
{
    match following(t) {
        Some(o) => if infix_rank(o) >= least {
            Some(o)
        } else {
            None
        },
        None => None,
    }
}

/// The operator at a place, if it is of this rank or a higher one.
#[inline(always)]
pub fn infix_at(tokens: &[Terminal], at: usize, least: u8) -> Option<Infix>
    ensures is { option_map infix_value result
        ≡ first_is (precedence.infix_from least) (seen tokens.now at) }
    ensures stands { IfSome result (λ o. Some (infix_value o)
        ≡ first_is precedence.following (seen tokens.now at)) }
    ensures level { IfSome result (λ o. IsInfix (infix_value o)) }
    ensures within { IfSome result (λ _. at < length tokens.now) }
{
    match terminal_at(tokens, at) {
        Some(t) => infix_of(t, least),
        None => None,
    }
}

/// What an operator in front of an expression makes.
pub(crate) fn before(t: Terminal) -> Option<Prefix>
    ensures is { option_map prefix_value result ≡ precedence.before (terminal t.entry) }
    ensures level { IfSome result (λ o. IsPrefix (prefix_value o)) }
{
    match t {
        Terminal::Op(sign) => match sign {
            Exact::Plus => Some(Prefix::Signed(Level::Factor, UnaryOperator::UAdd)),
            Exact::Minus => Some(Prefix::Signed(Level::Factor, UnaryOperator::USub)),
            Exact::Tilde => Some(Prefix::Signed(Level::Factor, UnaryOperator::Invert)),
            _ => None,
        },
        Terminal::Word(word) => match word {
            Keyword::Not => Some(Prefix::Signed(Level::Not, UnaryOperator::Not)),
            Keyword::Await => Some(Prefix::Awaits),
            _ => None,
        },
        _ => None,
    }
}

/// The number of the level that an operator before its operand is of.
pub(crate) fn prefix_rank(o: Prefix) -> u8
    ensures { result ≡ precedence.prefix_rank (prefix_value o) }
{
    match o {
        Prefix::Signed(level, _) => level.rank(),
        Prefix::Awaits => Level::Await.rank(),
    }
}

/// The operator in front of an expression that a terminal is, if it is of this rank or a higher
/// one.
fn prefix_of(t: Terminal, least: u8) -> Option<Prefix>
    ensures is { option_map prefix_value result ≡ precedence.prefix_from least (terminal t.entry) }
    ensures level { IfSome result (λ o. IsPrefix (prefix_value o)) }
{
    match before(t) {
        Some(o) => if prefix_rank(o) >= least {
            Some(o)
        } else {
            None
        },
        None => None,
    }
}

/// The operator in front of an expression at a place, if it is of this rank or a higher one.
pub fn prefix_at(tokens: &[Terminal], at: usize, least: u8) -> Option<Prefix>
    ensures is { option_map prefix_value result
        ≡ first_is (precedence.prefix_from least) (seen tokens.now at) }
    ensures level { IfSome result (λ o. IsPrefix (prefix_value o)) }
    ensures within { IfSome result (λ _. at < length tokens.now) }
{
    match terminal_at(tokens, at) {
        Some(t) => prefix_of(t, least),
        None => None,
    }
}

/// A comparison of one terminal.
pub(crate) fn comparison(t: Terminal) -> Option<Comparison>
    ensures { result ≡ operators.comparison (terminal t.entry) }
{
    match t {
        Terminal::Op(sign) => match sign {
            Exact::EqEqual => Some(Comparison::Eq),
            Exact::NotEqual => Some(Comparison::NotEq),
            Exact::Less => Some(Comparison::Lt),
            Exact::LessEqual => Some(Comparison::LtE),
            Exact::Greater => Some(Comparison::Gt),
            Exact::GreaterEqual => Some(Comparison::GtE),
            _ => None,
        },
        Terminal::Word(Keyword::In) => Some(Comparison::Within),
        _ => None,
    }
}

/// The comparison of one terminal at a place.
pub fn comparison_at(tokens: &[Terminal], at: usize) -> Option<Comparison>
    ensures is { result ≡ first_is operators.comparison (seen tokens.now at) }
    ensures within { IfSome result (λ _. at < length tokens.now) }
{
    match terminal_at(tokens, at) {
        Some(t) => comparison(t),
        None => None,
    }
}
