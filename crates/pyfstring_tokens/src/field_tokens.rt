//! The tokens of a replacement field's text, one after another.

ghost use Rattle.std.specs.Prelude.{◌≡◌, ◌<◌, ◌+◌, ◌-◌, ◌^◌, ◌&&◌, ◌==◌, ℕ, List, length};
ghost use Rattle.std.specs.Prelude.{IfOk, IfErr, IfSome, IfNone, []};
ghost use Rattle.std.specs.Str.{chars};
ghost use Rattle.pylex_lexeme.specs.Lexemes.{is_opener_class, is_closer_class};
ghost use Rattle.pylex_listing.specs.Lines.{count_if};
ghost use Rattle.pyfstring_tokens.specs.FieldTokens.{is_gap, is_comment_class};
ghost use Rattle.pyfstring_tokens.specs.Answers.{Gives, Ends, Refuses};
ghost use Rattle.pyfstring_tokens.specs.Inner.Passing.{Passes, TokenAhead, Stops};

use crate::faults::FieldFault;
use pylex_lexeme::lexeme::{Class, cut};

/// Whether a lexeme may stand between tokens: blanks, a line end, a join.
#[inline(always)]
fn is_gap(class: Class) -> bool
    ensures { result ≡ is_gap class }
{
    matches!(class, Class::Blanks | Class::LineEnd | Class::Join)
}

/// Whether a lexeme is a comment.
#[inline(always)]
fn is_comment(class: Class) -> bool
    ensures { result ≡ is_comment_class class }
{
    matches!(class, Class::Comment)
}

/// Whether a lexeme closes a bracket where none is open.
#[inline(always)]
fn is_unmatched(depth: usize, class: Class) -> bool
    ensures { result ≡ (is_closer_class class && (depth == 0)) }
{
    class.is_closer() && depth == 0
}

/// The brackets that are open after a lexeme, by those before it.
#[inline(always)]
fn depth_after(depth: usize, class: Class) -> usize
    requires { depth < 2 ^ 63 }
    ensures { result ≡ depth + count_if (is_opener_class class) - count_if (is_closer_class class) }
{
    if class.is_opener() {
        return depth + 1;
    }
    if class.is_closer() {
        return depth.saturating_sub(1);
    }
    depth
}

/// Goes past what stands before the next token: its class, its text, and what is left after it;
/// none at the text's end.
fn next_lexeme<'a>(text: &'a str) -> Result<Option<(Class, &'a str, &'a str)>, FieldFault>
    ensures ahead { IfOk result
        (λ o. IfSome o (λ x. TokenAhead text.now x.0 x.1.now x.2.now)) }
    ensures shorter { IfOk result (λ o. IfSome o (λ x. length x.2.now < length text.now)) }
    ensures ends { IfOk result (λ o. IfNone o (Passes text.now [])) }
    ensures stops { IfErr result (λ e. Stops text.now e) }
{
    let mut rest = text;
    'lexemes: while !rest.is_empty() {
        let Some((class, front, back)) = cut(rest) else {
            return Err(FieldFault::NoToken);
        };
        if is_comment(class) {
            return Err(FieldFault::Comment);
        }
        if !is_gap(class) {
            return Ok(Some((class, front, back)));
        }
        rest = back;
    }
    Ok(None)
}

/// Reads the tokens of a replacement field's text: those that stand between the parentheses when
/// the text is put in them.
#[derive(Clone, Copy, Debug)]
pub struct FieldTokens<'a> {
    rest: &'a str,
    depth: usize,
    // The counts stay small.
    ghost room: { depth + length rest.now < 2 ^ 63 },
}

impl<'a> FieldTokens<'a> {
    ghost use Rattle.pyfstring_tokens.specs.Standing.{StandsIn, Begins, bytes_left};
    ghost use Rattle.pyfstring_tokens.specs.Laws.{HasOwnTokens};

    /// Begins at the text's front.
    pub fn new(text: &'a str) -> FieldTokens<'a>
        ensures begins { Begins result (chars text.now) }
        ensures law { HasOwnTokens (chars text.now) }
        ensures left { bytes_left result ≡ length text.now }
    {
        FieldTokens {
            rest: text,
            depth: 0,
        }
    }

    /// The next token, as its lexeme's class and text; none where all were given. After the last
    /// one and after a fault the same again.
    ///
    /// # Errors
    ///
    /// `NoToken` and `Unclosed` where the listing of the text in parentheses has a fault; `Closer`
    /// at a bracket that would close the parenthesis around the text; `Comment` at a comment.
    pub fn next(&mut self) -> Result<Option<(Class, &'a str)>, FieldFault>
        ensures gives { IfOk result (λ o. IfSome o (λ t. (text : List ℕ) (n : ℕ)
            → StandsIn self.old text n
            → Gives text n t.0 (chars t.1.now) × StandsIn self.new text (n + 1))) }
        ensures shorter { IfOk result
            (λ o. IfSome o (λ t. bytes_left self.new < bytes_left self.old)) }
        ensures ends { IfOk result (λ o. IfNone o ((text : List ℕ) (n : ℕ)
            → StandsIn self.old text n → Ends text n)) }
        ensures stays { IfOk result (λ o. IfNone o (self.new ≡ self.old)) }
        ensures refuses { IfErr result (λ e. (text : List ℕ) (n : ℕ)
            → StandsIn self.old text n → Refuses text e) }
        ensures same { IfErr result (λ e. self.new ≡ self.old) }
    {
        let Some((class, front, back)) = next_lexeme(self.rest)? else {
            if self.depth > 0 {
                return Err(FieldFault::Unclosed);
            }
            return Ok(None);
        };
        if is_unmatched(self.depth, class) {
            return Err(FieldFault::Closer);
        }
        self.depth = depth_after(self.depth, class);
        self.rest = back;
        Ok(Some((class, front)))
    }
}
