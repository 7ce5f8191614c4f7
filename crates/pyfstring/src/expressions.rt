//! Where the expression of a field ends (reference 2.4.3).

ghost use Rattle.std.specs.Prelude.{◌≡◌, ◌&&◌, ◌<◌, ◌≤◌, length, true, Some, None, OnOk, OnErr, IfErr};
ghost use Rattle.pyfstring.specs.Texts.{begins};
ghost use Rattle.pyfstring.specs.Expressions.{is_quote, is_refused, is_end, opened_by, closed_by};
ghost use Rattle.pyfstring.specs.Expressions.{same_bracket, begins_comparison, begins_three};
ghost use Rattle.pyfstring.specs.Expressions.{bracket_step, is_empty, step, following_expression};
ghost use Rattle.pyfstring.specs.Expressions.{expression, shortstring, longstring};
ghost use Rattle.pyfstring.specs.Inner.Passing.{GoesOn, Stops, IfMalformed};

use crate::parts::CutError;
use crate::scanner::Scanner;
use std::alloc::Global;

/// How many brackets may be open in an expression.
const MOST_OPEN: usize = 599;

/// The brackets.
#[derive(Clone, Copy)]
pub(crate) enum Bracket {
    /// `(` and `)`
    Round,
    /// `[` and `]`
    Square,
    /// `{` and `}`
    Curly,
}

impl Bracket {
    /// Whether both are one kind.
    fn is_same(self, other: Bracket) -> bool
        ensures { result ≡ same_bracket self other }
    {
        match self {
            Bracket::Round => matches!(other, Bracket::Round),
            Bracket::Square => matches!(other, Bracket::Square),
            Bracket::Curly => matches!(other, Bracket::Curly),
        }
    }
}

/// What stands at a place of an expression outside literals.
#[derive(Clone, Copy)]
pub(crate) enum Step {
    /// What follows the expression.
    Ends,
    /// What no expression has.
    Fails,
    /// The quote of a literal.
    Literal,
    /// A comparison of two characters.
    Compares,
    /// A bracket that opens.
    Opens(Bracket),
    /// The bracket that closes the last open one.
    Closes,
    /// Another character.
    Passes,
}

/// Whether a character is a quote.
fn is_quote(c: char) -> bool
    ensures { result ≡ is_quote c }
{
    c == '\'' || c == '"'
}

/// Whether no expression has a character outside literals.
fn is_refused(c: char) -> bool
    ensures { result ≡ is_refused c }
{
    c == '\\' || c == '#'
}

/// Whether a character ends an expression, where these brackets are open.
fn is_end(opened: &[Bracket], c: char) -> bool
    ensures { result ≡ (is_empty opened.now && is_end c) }
{
    opened.is_empty() && (c == '}' || c == '!' || c == ':' || c == '=')
}

/// The bracket that a character opens.
fn opened_by(c: char) -> Option<Bracket>
    ensures { result ≡ opened_by c }
{
    match c {
        '(' => Some(Bracket::Round),
        '[' => Some(Bracket::Square),
        '{' => Some(Bracket::Curly),
        _ => None,
    }
}

/// The bracket that a character closes.
fn closed_by(c: char) -> Option<Bracket>
    ensures { result ≡ closed_by c }
{
    match c {
        ')' => Some(Bracket::Round),
        ']' => Some(Bracket::Square),
        '}' => Some(Bracket::Curly),
        _ => None,
    }
}

/// What a character is where no literal begins or ends, by the brackets that are open.
fn bracket_step(opened: &[Bracket], c: char) -> Step
    ensures { result ≡ bracket_step opened.now (opened_by c) (closed_by c) }
{
    if let Some(bracket) = opened_by(c) {
        return if opened.len() < MOST_OPEN {
            Step::Opens(bracket)
        } else {
            Step::Fails
        };
    }
    let Some(bracket) = closed_by(c) else {
        return Step::Passes;
    };
    match opened.last() {
        Some(last) if last.is_same(bracket) => Step::Closes,
        _ => Step::Fails,
    }
}

impl<'a> Scanner<'a> {
    /// Whether `!=`, `==`, `<=` or `>=` stands here, outside brackets.
    fn has_comparison(&self, opened: &[Bracket]) -> bool
        ensures { result ≡ (is_empty opened.now && begins_comparison self.now) }
    {
        if !opened.is_empty() {
            return false;
        }
        match self.peek() {
            Some(c) => {
                (c == '!' || c == '=' || c == '<' || c == '>') && self.is_following(1, '=')
            }
            None => false,
        }
    }

    /// Whether a character stands here three times.
    fn has_three(&self, c: char) -> bool
        ensures { result ≡ begins_three c self.now }
    {
        self.is_next(c) && self.is_following(1, c) && self.is_following(2, c)
    }

    /// What stands here, by the brackets that are open.
    fn step(&self, opened: &[Bracket]) -> Step
        ensures { result ≡ step opened.now self.now }
    {
        let Some(c) = self.peek() else {
            return Step::Fails;
        };
        if is_quote(c) {
            return Step::Literal;
        }
        if is_refused(c) {
            return Step::Fails;
        }
        if self.has_comparison(opened) {
            return Step::Compares;
        }
        if is_end(opened, c) {
            return Step::Ends;
        }
        bracket_step(opened, c)
    }

    /// Passes what is left of a literal, up to and with its quote.
    fn pass_short(&mut self, quote: char) -> Result<(), CutError>
        ensures ok { OnOk result (GoesOn (shortstring quote) self.old self.new) }
        ensures shorter { OnOk result (length self.new ≤ length self.old) }
        ensures malformed { OnErr result (Stops (shortstring quote) self.old) }
    {
        loop {
            let Some(c) = self.peek() else {
                return Err(CutError::Malformed);
            };
            if c == '\\' {
                return Err(CutError::Malformed);
            }
            self.advance();
            if c == quote {
                return Ok(());
            }
        }
    }

    /// Passes what is left of a literal, up to and with three of its quotes.
    fn pass_long(&mut self, quote: char) -> Result<(), CutError>
        ensures ok { OnOk result (GoesOn (longstring quote) self.old self.new) }
        ensures shorter { OnOk result (length self.new ≤ length self.old) }
        ensures malformed { OnErr result (Stops (longstring quote) self.old) }
    {
        loop {
            let Some(c) = self.peek() else {
                return Err(CutError::Malformed);
            };
            if c == '\\' {
                return Err(CutError::Malformed);
            }
            if self.has_three(quote) {
                self.advance_by(3);
                return Ok(());
            }
            self.advance();
        }
    }

    /// Passes the literal that begins here.
    fn pass_literal(&mut self) -> Result<(), CutError>
        requires { begins is_quote self.old ≡ true }
        ensures ok { OnOk result (GoesOn expression self.old self.new) }
        ensures shorter { OnOk result (length self.new < length self.old) }
        ensures malformed { OnErr result (Stops expression self.old) }
    {
        let Some(quote) = self.peek() else {
            return Err(CutError::Malformed);
        };
        if self.has_three(quote) {
            self.advance_by(3);
            return self.pass_long(quote);
        }
        self.advance();
        self.pass_short(quote)
    }

    /// Passes the expression that stands here.
    pub(crate) fn pass_expression(&mut self, alloc: Global) -> Result<(), CutError>
        ensures ok { OnOk result (following_expression self.old ≡ Some self.new) }
        ensures malformed { IfErr result
            (λ e. IfMalformed e (following_expression self.old ≡ None)) }
    {
        let mut opened = Vec::new(alloc);
        loop {
            match self.step(opened.as_slice()) {
                Step::Ends => return Ok(()),
                Step::Fails => return Err(CutError::Malformed),
                Step::Literal => self.pass_literal()?,
                Step::Compares => self.advance_by(2),
                Step::Opens(bracket) => {
                    opened.push(bracket)?;
                    self.advance();
                }
                Step::Closes => {
                    let _ = opened.pop();
                    self.advance();
                }
                Step::Passes => self.advance(),
            }
        }
    }
}
