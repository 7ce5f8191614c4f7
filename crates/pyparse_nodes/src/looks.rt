//! Tests on the terminal at a place.

ghost use Rattle.std.specs.Prelude.{◌≡◌, ◌+◌, ◌<◌, ◌≤◌, IfSome, MatchBool, MatchOption, None};
ghost use Rattle.std.specs.Prelude.{is_some, length, option_map, true};
ghost use Rattle.std.specs.Str.{chars};
ghost use Rattle.unicode_normalization.specs.Forms.{nfkc};
ghost use Rattle.pytoken.specs.StringValues.{string_value};
ghost use Rattle.pygrammar.specs.Precedence as precedence;
ghost use Rattle.pygrammar.specs.Looks as signs;
ghost use Rattle.pytoken.specs.Terminals as plain;
ghost use Rattle.pyparse_nodes.specs.Views.{IsNamed, IsNotNamed, Stands, first_is, first_of, lead_of};
ghost use Rattle.pyparse_nodes.specs.Views.{seen};
ghost use Rattle.pyparse_nodes.specs.Alone.{alone, atom_with, end_with, ends};
ghost use Rattle.pygrammar.specs.Looks.{literal_in};
ghost use Rattle.pytoken.specs.TerminalOf.{literal_characters, terminal};

use pygrammar::Level;
use pylex_listing::Exact;
use pytoken::{Keyword, LiteralText, Terminal};

/// The terminal at a place.
#[tactic(auto, using(crate::proofs::Places::Here::here, crate::proofs::Places::Here::past))]
pub fn terminal_at<'a>(tokens: &[Terminal<'a>], at: usize) -> Option<Terminal<'a>>
    ensures within { IfSome result (λ _. at < length tokens.now) }
    ensures is { first_of (seen tokens.now at) ≡ option_map terminal result }
{
    if at < tokens.len() {
        Some(tokens[at])
    } else {
        None
    }
}

/// Whether a terminal is this sign.
fn op_is(t: Terminal, sign: Exact) -> bool
    ensures { result ≡ is_some (signs.is_op sign (terminal t.entry)) }
{
    match t {
        Terminal::Op(here) => here == sign,
        _ => false,
    }
}

/// Whether this sign stands at the place.
pub fn is_op(tokens: &[Terminal], at: usize, sign: Exact) -> bool
    ensures { MatchBool result (Stands (plain.Op sign) tokens.now at)
        (None ≡ first_is (signs.is_op sign) (seen tokens.now at)) }
{
    match terminal_at(tokens, at) {
        Some(t) => op_is(t, sign),
        None => false,
    }
}

/// Whether a terminal is this word.
fn word_is(t: Terminal, word: Keyword) -> bool
    ensures { result ≡ is_some (signs.is_word word (terminal t.entry)) }
{
    match t {
        Terminal::Word(here) => here == word,
        _ => false,
    }
}

/// Whether this word stands at the place.
pub fn is_word(tokens: &[Terminal], at: usize, word: Keyword) -> bool
    ensures { MatchBool result (Stands (plain.Word word) tokens.now at)
        (None ≡ first_is (signs.is_word word) (seen tokens.now at)) }
{
    match terminal_at(tokens, at) {
        Some(t) => word_is(t, word),
        None => false,
    }
}

/// The name that a terminal is.
fn name_of<'a>(t: Terminal<'a>) -> Option<&'a str>
    ensures { option_map (λ s. nfkc (chars s.now)) result ≡ signs.name_in (terminal t.entry) }
{
    match t {
        Terminal::Ident(name) => Some(name),
        _ => None,
    }
}

/// The name at the place, as it stands in the source.
pub fn name_at<'a>(tokens: &[Terminal<'a>], at: usize) -> Option<&'a str>
    ensures is { option_map (λ s. nfkc (chars s.now)) result
        ≡ first_is signs.name_in (seen tokens.now at) }
    ensures within { IfSome result (λ _. at < length tokens.now) }
{
    match terminal_at(tokens, at) {
        Some(t) => name_of(t),
        None => None,
    }
}

/// A name, if this sign stands after it.
#[tactic(auto, using(crate::proofs::Places::Stands::named_stands, crate::proofs::Places::Stands::unnamed_sign, crate::proofs::Places::Stands::unnamed_first))]
pub fn name_with<'a>(tokens: &[Terminal<'a>], at: usize, sign: Exact) -> Option<&'a str>
    ensures { MatchOption result (IsNotNamed sign tokens.now at)
        (λ name. IsNamed sign (nfkc (chars name.now)) tokens.now at) }
{
    match name_at(tokens, at) {
        Some(name) => if is_op(tokens, at + 1, sign) {
            Some(name)
        } else {
            None
        },
        None => None,
    }
}

/// The literal that a terminal is.
fn literal_of<'a>(t: Terminal<'a>) -> Option<LiteralText<'a>>
    ensures { option_map (λ l. string_value (literal_characters l)) result
        ≡ literal_in (terminal t.entry) }
{
    match t {
        Terminal::Literal(text) => Some(text),
        _ => None,
    }
}

/// The literal at the place.
pub fn literal_at<'a>(tokens: &[Terminal<'a>], at: usize) -> Option<LiteralText<'a>>
    ensures is { option_map (λ l. string_value (literal_characters l)) result
        ≡ first_is literal_in (seen tokens.now at) }
    ensures within { IfSome result (λ _. at < length tokens.now) }
{
    match terminal_at(tokens, at) {
        Some(t) => literal_of(t),
        None => None,
    }
}

/// The highest rank of a level that begins with a terminal.
fn lead(t: Terminal) -> u8
    ensures { result ≡ precedence.lead (terminal t.entry) }
{
    match t {
        Terminal::Op(sign) => match sign {
            Exact::Colon => Level::Slice.rank(),
            Exact::Star => Level::Elem.rank(),
            Exact::Plus => Level::Factor.rank(),
            Exact::Minus => Level::Factor.rank(),
            Exact::Tilde => Level::Factor.rank(),
            Exact::LPar => Level::Atom.rank(),
            Exact::LSqb => Level::Atom.rank(),
            Exact::LBrace => Level::Atom.rank(),
            Exact::Ellipsis => Level::Atom.rank(),
            _ => 0,
        },
        Terminal::Word(word) => match word {
            Keyword::Yield => Level::Value.rank(),
            Keyword::Lambda => Level::Expression.rank(),
            Keyword::Not => Level::Not.rank(),
            Keyword::Await => Level::Await.rank(),
            Keyword::None => Level::Atom.rank(),
            Keyword::True => Level::Atom.rank(),
            Keyword::False => Level::Atom.rank(),
            _ => 0,
        },
        Terminal::Ident(_) => Level::Atom.rank(),
        Terminal::Whole(_) => Level::Atom.rank(),
        Terminal::Number(_) => Level::Atom.rank(),
        Terminal::Literal(_) => Level::Atom.rank(),
        Terminal::FormattedBegin => Level::Atom.rank(),
        _ => 0,
    }
}

/// The lead of the terminal at a place, or 0 after the last one.
pub fn lead_at(tokens: &[Terminal], at: usize) -> u8
    ensures is { result ≡ lead_of (seen tokens.now at) }
    ensures within { 0 < result → at < length tokens.now }
{
    match terminal_at(tokens, at) {
        Some(t) => lead(t),
        None => 0,
    }
}

/// Whether a comprehension begins with a terminal.
fn begins_comp(t: Terminal) -> bool
    ensures { result ≡ precedence.begins_comp (terminal t.entry) }
{
    matches!(t, Terminal::Word(Keyword::For | Keyword::Async))
}

/// Whether a comprehension begins at the place.
pub fn starts_comp(tokens: &[Terminal], at: usize) -> bool
    ensures is { result ≡ precedence.starts_comp (seen tokens.now at) }
    ensures within { result ≡ true → at < length tokens.now }
{
    match terminal_at(tokens, at) {
        Some(t) => begins_comp(t),
        None => false,
    }
}

/// Whether a terminal is an atom by itself, other than a sign or a word.
fn is_atom(t: Terminal) -> bool
    ensures { result ≡ atom_with (terminal t.entry) }
{
    match t {
        Terminal::Ident(_) => true,
        Terminal::Whole(_) => true,
        Terminal::Number(_) => true,
        Terminal::Literal(_) => true,
        _ => false,
    }
}

/// Whether a terminal is a sign that ends what stands in front of it at every level.
fn is_end(t: Terminal) -> bool
    ensures { result ≡ end_with (terminal t.entry) }
{
    match t {
        Terminal::Op(sign) => match sign {
            Exact::Comma => true,
            Exact::RPar => true,
            Exact::RSqb => true,
            Exact::RBrace => true,
            Exact::Colon => true,
            Exact::Equal => true,
            _ => false,
        },
        _ => false,
    }
}

/// Whether such a sign stands at the place, or nothing.
#[inline(always)]
fn ends_at(tokens: &[Terminal], at: usize) -> bool
    ensures { result ≡ ends (seen tokens.now at) }
{
    match terminal_at(tokens, at) {
        Some(t) => is_end(t),
        None => true,
    }
}

/// Whether an atom of one terminal stands at the place, and such a sign or nothing after it.
#[inline(always)]
#[tactic(auto, using(crate::proofs::Places::Alone::alone_here, crate::proofs::Places::Alone::alone_past))]
pub fn stands_alone(tokens: &[Terminal], at: usize) -> bool
    ensures { result ≡ alone (seen tokens.now at) }
{
    match terminal_at(tokens, at) {
        Some(t) => is_atom(t) && ends_at(tokens, at + 1),
        None => false,
    }
}
