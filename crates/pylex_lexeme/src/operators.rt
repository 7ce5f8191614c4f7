//! The operators and delimiters (reference 2.5 and 2.6): their names, and the longest one at a
//! place.

ghost use Rattle.std.specs.Prelude.{◌≡◌, ◌==◌, ◌||◌, ℕ, List, [], ◌∷◌};
ghost use Rattle.std.specs.Str.{chars};
ghost use Rattle.pylex_lexeme.specs.Operators.{exact_of};
ghost use Rattle.pylex_lexeme.specs.Lengths.{operator_at, pair_at};

use crate::kinds::Exact;
use crate::scanner::Scanner;

/// The name of an operator of one character.
#[tactic(auto, unfolding(crate::specs::Operators::exact_of, crate::specs::Operators::operators))]
#[inline(always)]
fn exact_of_one(first: char) -> Option<Exact>
    ensures { result ≡ exact_of (first ∷ []) }
{
    match first {
        '(' => Some(Exact::LPar),
        ')' => Some(Exact::RPar),
        '[' => Some(Exact::LSqb),
        ']' => Some(Exact::RSqb),
        '{' => Some(Exact::LBrace),
        '}' => Some(Exact::RBrace),
        ':' => Some(Exact::Colon),
        ',' => Some(Exact::Comma),
        ';' => Some(Exact::Semi),
        '+' => Some(Exact::Plus),
        '-' => Some(Exact::Minus),
        '*' => Some(Exact::Star),
        '/' => Some(Exact::Slash),
        '|' => Some(Exact::VBar),
        '&' => Some(Exact::Amper),
        '<' => Some(Exact::Less),
        '>' => Some(Exact::Greater),
        '=' => Some(Exact::Equal),
        '.' => Some(Exact::Dot),
        '%' => Some(Exact::Percent),
        '~' => Some(Exact::Tilde),
        '^' => Some(Exact::Circumflex),
        '@' => Some(Exact::At),
        _ => None,
    }
}

/// The name of an operator of two characters.
#[tactic(auto, unfolding(crate::specs::Operators::exact_of, crate::specs::Operators::operators))]
fn exact_of_two(first: char, second: char) -> Option<Exact>
    ensures { result ≡ exact_of (first ∷ second ∷ []) }
{
    match (first, second) {
        ('=', '=') => Some(Exact::EqEqual),
        ('!', '=') => Some(Exact::NotEqual),
        ('<', '=') => Some(Exact::LessEqual),
        ('>', '=') => Some(Exact::GreaterEqual),
        ('<', '<') => Some(Exact::LeftShift),
        ('>', '>') => Some(Exact::RightShift),
        ('*', '*') => Some(Exact::DoubleStar),
        ('+', '=') => Some(Exact::PlusEqual),
        ('-', '=') => Some(Exact::MinEqual),
        ('*', '=') => Some(Exact::StarEqual),
        ('/', '=') => Some(Exact::SlashEqual),
        ('%', '=') => Some(Exact::PercentEqual),
        ('&', '=') => Some(Exact::AmperEqual),
        ('|', '=') => Some(Exact::VBarEqual),
        ('^', '=') => Some(Exact::CircumflexEqual),
        ('/', '/') => Some(Exact::DoubleSlash),
        ('@', '=') => Some(Exact::AtEqual),
        ('-', '>') => Some(Exact::RArrow),
        (':', '=') => Some(Exact::ColonEqual),
        _ => None,
    }
}

/// The name of an operator of three characters.
#[tactic(auto, unfolding(crate::specs::Operators::exact_of, crate::specs::Operators::operators))]
fn exact_of_three(first: char, second: char, third: char) -> Option<Exact>
    ensures { result ≡ exact_of (first ∷ second ∷ third ∷ []) }
{
    match (first, second, third) {
        ('<', '<', '=') => Some(Exact::LeftShiftEqual),
        ('>', '>', '=') => Some(Exact::RightShiftEqual),
        ('*', '*', '=') => Some(Exact::DoubleStarEqual),
        ('/', '/', '=') => Some(Exact::DoubleSlashEqual),
        ('.', '.', '.') => Some(Exact::Ellipsis),
        _ => None,
    }
}

/// The name of the operator that a text is, if it is one.
#[inline(always)]
pub fn exact_of(text: &str) -> Option<Exact>
    ensures { result ≡ exact_of (chars text.now) }
{
    let mut left = Scanner::new(text);
    let first = left.bump()?;
    let Some(second) = left.bump() else {
        return exact_of_one(first);
    };
    let Some(third) = left.bump() else {
        return exact_of_two(first, second);
    };
    if left.first().is_some() {
        return None;
    }
    exact_of_three(first, second, third)
}

/// The longest operator of at most two characters that begins with these, and how many it has.
fn longest_of_two(first: char, second: char) -> Option<(Exact, usize)>
    ensures { result ≡ pair_at first second }
{
    if let Some(exact) = exact_of_two(first, second) {
        return Some((exact, 2));
    }
    Some((exact_of_one(first)?, 1))
}

/// Whether an operator may have a character as its second.
#[inline(always)]
fn may_be_second(c: char) -> bool
    ensures { result
        ≡ ((c == 61) || ((c == 60) || ((c == 62) || ((c == 42) || ((c == 47) || (c == 46)))))) }
{
    c == '=' || (c == '<' || (c == '>' || (c == '*' || (c == '/' || c == '.'))))
}

/// The longest operator that stands here, and how many characters it has.
#[inline(always)]
pub(crate) fn longest_operator(text: &Scanner) -> Option<(Exact, usize)>
    ensures { result ≡ operator_at text.now }
{
    let mut ahead = text.again();
    let first = ahead.bump()?;
    let Some(second) = ahead.bump() else {
        return Some((exact_of_one(first)?, 1));
    };
    if !may_be_second(second) {
        return Some((exact_of_one(first)?, 1));
    }
    let Some(third) = ahead.bump() else {
        return longest_of_two(first, second);
    };
    if let Some(exact) = exact_of_three(first, second, third) {
        return Some((exact, 3));
    }
    longest_of_two(first, second)
}
