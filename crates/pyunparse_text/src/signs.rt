//! Which operators and delimiters stand for the operators of a tree.

ghost use Rattle.std.specs.Prelude.{◌≡◌};
ghost use Rattle.pyunparse_text.specs.Levels as levels;
ghost use Rattle.pyunparse_text.specs.Statements as statements;
ghost use Rattle.pytoken.specs.Terminals.{Op};

use pylex_listing::Exact;
use pytree_node::Operator;

/// The sign of an operator between two operands.
pub fn operator_sign(op: Operator) -> Exact
    ensures { Op result ≡ levels.operator_sign op }
{
    match op {
        Operator::BitOr => Exact::VBar,
        Operator::BitXor => Exact::Circumflex,
        Operator::BitAnd => Exact::Amper,
        Operator::LShift => Exact::LeftShift,
        Operator::RShift => Exact::RightShift,
        Operator::Add => Exact::Plus,
        Operator::Sub => Exact::Minus,
        Operator::Mult => Exact::Star,
        Operator::MatMult => Exact::At,
        Operator::Div => Exact::Slash,
        Operator::Mod => Exact::Percent,
        Operator::FloorDiv => Exact::DoubleSlash,
        Operator::Pow => Exact::DoubleStar,
    }
}

/// The sign of an assignment with an operator.
pub fn augmented_sign(op: Operator) -> Exact
    ensures { result ≡ statements.augmented_sign op }
{
    match op {
        Operator::Add => Exact::PlusEqual,
        Operator::Sub => Exact::MinEqual,
        Operator::Mult => Exact::StarEqual,
        Operator::MatMult => Exact::AtEqual,
        Operator::Div => Exact::SlashEqual,
        Operator::Mod => Exact::PercentEqual,
        Operator::BitAnd => Exact::AmperEqual,
        Operator::BitOr => Exact::VBarEqual,
        Operator::BitXor => Exact::CircumflexEqual,
        Operator::LShift => Exact::LeftShiftEqual,
        Operator::RShift => Exact::RightShiftEqual,
        Operator::Pow => Exact::DoubleStarEqual,
        Operator::FloorDiv => Exact::DoubleSlashEqual,
    }
}
